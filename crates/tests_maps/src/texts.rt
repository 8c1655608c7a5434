//! Sphere maps and raw stars as texts. Each function adds to one text, since a text for each part would cost more to
//! prove.

ghost use Rattle.nef_smap.specs.Maps.{IsLeastMap};

use crate::words::letter;
use nef_geo::{Dir, Label};
use nef_smap::{RawStars, SArc, SLoop, SVertex, SphereMap};
use nef_spair::{Kind, kind};
use nef_star::Star;
use std::alloc::AllocError;

fn add_way(text: &mut String, d: &Dir) -> Result<(), AllocError> {
    write!(text, " {} {} {}", d.x(), d.y(), d.z())
}

/// Adds a blank and the label's letter.
pub(crate) fn add_label(text: &mut String, label: Label) -> Result<(), AllocError> {
    text.push_str(" ")?;
    text.push_str(letter(label))
}

pub(crate) fn add_labels(text: &mut String, labels: &[Label]) -> Result<(), AllocError> {
    for label in labels {
        add_label(text, *label)?;
    }
    Ok(())
}

// Adds a blank and the label's letter, or a dash where the label is absent.
fn add_maybe_label(text: &mut String, label: Option<Label>) -> Result<(), AllocError> {
    match label {
        Some(label) => add_label(text, label),
        None => text.push_str(" -"),
    }
}

fn add_svertex(text: &mut String, v: &SVertex) -> Result<(), AllocError> {
    text.push_str(" / s")?;
    add_way(text, &v.dir)?;
    add_label(text, v.mark)?;
    add_maybe_label(text, v.around)
}

fn add_arc(text: &mut String, a: &SArc) -> Result<(), AllocError> {
    write!(text, " / a {} {}", a.source, a.target)?;
    add_way(text, &a.normal)?;
    add_labels(text, &[a.mark, a.pos, a.neg])
}

fn add_loop(text: &mut String, l: &SLoop) -> Result<(), AllocError> {
    text.push_str(" / l")?;
    add_way(text, &l.normal)?;
    add_labels(text, &[l.mark, l.pos, l.neg])
}

fn add_maybe_loop(text: &mut String, sloop: &Option<SLoop>) -> Result<(), AllocError> {
    match sloop {
        Some(l) => add_loop(text, l),
        None => Ok(()),
    }
}

fn add_ground(text: &mut String, ground: Option<Label>) -> Result<(), AllocError> {
    match ground {
        Some(label) => {
            text.push_str(" / g")?;
            add_label(text, label)
        }
        None => Ok(()),
    }
}

fn add_kind(text: &mut String, kind: &Kind) -> Result<(), AllocError> {
    match kind {
        Kind::Vertex => text.push_str(" / vertex"),
        Kind::InVolume => text.push_str(" / volume"),
        Kind::OnEdge(d) => {
            text.push_str(" / edge")?;
            add_way(text, d)
        }
        Kind::InFacet(d) => {
            text.push_str(" / facet")?;
            add_way(text, d)
        }
    }
}

fn add_svertices(text: &mut String, svertices: &[SVertex]) -> Result<(), AllocError> {
    for v in svertices {
        add_svertex(text, v)?;
    }
    Ok(())
}

fn add_arcs(text: &mut String, arcs: &[SArc]) -> Result<(), AllocError> {
    for a in arcs {
        add_arc(text, a)?;
    }
    Ok(())
}

/// Adds the svertices, the arcs and the sloop.
pub(crate) fn add_items(text: &mut String, map: &SphereMap) -> Result<(), AllocError> {
    add_svertices(text, map.svertices.as_slice())?;
    add_arcs(text, map.arcs.as_slice())?;
    add_maybe_loop(text, &map.sloop)
}

/// Adds all parts of a map, and the kind of the map's point.
pub(crate) fn add_map(text: &mut String, map: &SphereMap) -> Result<(), AllocError>
    requires map { IsLeastMap map.now }
{
    text.push_str(letter(map.mark))?;
    add_items(text, map)?;
    add_ground(text, map.ground)?;
    add_kind(text, &kind(map))
}

pub(crate) fn add_numbers(text: &mut String, numbers: &[usize]) -> Result<(), AllocError> {
    for number in numbers {
        write!(text, " {number}")?;
    }
    Ok(())
}

pub(crate) fn add_star(text: &mut String, star: &Star) -> Result<(), AllocError> {
    write!(text, "{} {} rays", letter(star.mark), star.rays.len())?;
    add_labels(text, star.sectors.as_slice())
}

fn add_axes(text: &mut String, stars: &[Star]) -> Result<(), AllocError> {
    for star in stars {
        text.push_str(" / t")?;
        add_way(text, &star.axis)?;
    }
    Ok(())
}

/// Adds the parts of raw stars, with the axis alone of each star.
pub(crate) fn add_raw(text: &mut String, raw: &RawStars) -> Result<(), AllocError> {
    text.push_str(letter(raw.mark))?;
    add_axes(text, raw.stars.as_slice())?;
    add_maybe_loop(text, &raw.sloop)?;
    add_ground(text, raw.ground)
}
