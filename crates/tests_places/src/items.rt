//! Questions about vertices, edges and items of a complex.
//!
//! - `counts`: the numbers of vertices and edges.
//! - `corner NUMBER`: the vertex with this number: its point and its mark, each svertex with its direction and its
//! mark, and each arc with its source, its target, its normal, its mark and the labels on both sides.
//! - `edges`: for each edge the lower vertex and its svertex, the higher vertex and its svertex, and the mark.
//! - `planes`: the planes in which vertices have items.
//! - `items PLANE`: the edges in the plane and the vertices on the plane, if the index has the plane.
//! - `candidates`: how many points are candidates of the set and itself.
//! - `cut PLANE`: how many points are candidates of the set and a half with this border.
//!
//! In the answers to `corner`, `edges` and `planes` a label is one letter, and a number of a point, a direction or a
//! plane is one letter: `0`, `1`, `-` for -1 and -2048, and `+` for 2048.

ghost use Rattle.nef_complex.specs.Prelude.{Set, ShowsSet};

use crate::words::add_numbers;
use nef_cand::{candidates, cut_candidates};
use nef_complex::{Complex, Edge, OutOfMemory, Vertex, plane_items};
use nef_geo::{Dir, Label, Plane, Point};
use nef_smap::{SArc, SVertex};
use std::alloc::Global;

pub(crate) fn letter(label: Label) -> &'static str {
    match label {
        Label::Out => "o",
        Label::Not => "n",
        Label::In => "i",
    }
}

fn digit(number: i64) -> &'static str {
    match number {
        0 => "0",
        1 => "1",
        -1 | -2048 => "-",
        2048 => "+",
        _ => "?",
    }
}

fn add_digits(text: &mut String, d: &Dir) -> Result<(), OutOfMemory> {
    let (x, y, z) = (digit(d.x()), digit(d.y()), digit(d.z()));
    write!(text, "{x}{y}{z}")
}

fn add_point(text: &mut String, p: &Point) -> Result<(), OutOfMemory> {
    let (x, y, z) = (digit(p.x()), digit(p.y()), digit(p.z()));
    write!(text, "{x}{y}{z}{}", digit(p.w()))
}

// Adds a svertex, with the label round the svertex if no arc ends there.
fn add_svertex(text: &mut String, v: &SVertex) -> Result<(), OutOfMemory> {
    text.push_str(" ")?;
    add_digits(text, &v.dir)?;
    let around = if v.around.is_none() { "-" } else { "?" };
    write!(text, "{}{around}", letter(v.mark))
}

fn add_arc(text: &mut String, a: &SArc) -> Result<(), OutOfMemory> {
    write!(text, " {}{}", a.source, a.target)?;
    add_digits(text, &a.normal)?;
    write!(text, "{}{}{}", letter(a.mark), letter(a.pos), letter(a.neg))
}

fn add_svertices(text: &mut String, svertices: &[SVertex]) -> Result<(), OutOfMemory> {
    for svertex in svertices {
        add_svertex(text, svertex)?;
    }
    Ok(())
}

fn add_arcs(text: &mut String, arcs: &[SArc]) -> Result<(), OutOfMemory> {
    for arc in arcs {
        add_arc(text, arc)?;
    }
    Ok(())
}

fn add_corner(text: &mut String, v: &Vertex) -> Result<(), OutOfMemory> {
    add_point(text, &v.point)?;
    text.push_str(letter(v.map.mark))?;
    add_svertices(text, v.map.svertices.as_slice())?;
    add_arcs(text, v.map.arcs.as_slice())
}

pub(crate) fn add_corner_at(text: &mut String, c: &Complex, number: &str) -> Option<()> {
    let number: usize = number.parse().ok()?;
    add_corner(text, c.vertices.as_slice().get(number)?).ok()
}

fn add_edge(text: &mut String, edge: &Edge) -> Result<(), OutOfMemory> {
    write!(text, " {}{}", edge.low, edge.low_svertex)?;
    write!(
        text,
        "{}{}{}",
        edge.high,
        edge.high_svertex,
        letter(edge.mark)
    )
}

fn add_edges(text: &mut String, edges: &[Edge]) -> Result<(), OutOfMemory> {
    for edge in edges {
        add_edge(text, edge)?;
    }
    Ok(())
}

fn add_plane(text: &mut String, h: &Plane) -> Result<(), OutOfMemory> {
    let (a, b, c) = (digit(h.a()), digit(h.b()), digit(h.c()));
    write!(text, " {a}{b}{c}{}", digit(h.d()))
}

pub(crate) fn add_planes(text: &mut String, planes: &[Plane]) -> Result<(), OutOfMemory> {
    for h in planes {
        add_plane(text, h)?;
    }
    Ok(())
}

// Adds the planes in which some vertex has an item.
fn add_item_planes(text: &mut String, c: &Complex) -> Result<(), OutOfMemory>
    requires shows { (s : Set) × ShowsSet s c.now }
{
    for h in c.carriers.as_slice() {
        if plane_items(c, h).is_some() {
            add_plane(text, h)?;
        }
    }
    Ok(())
}

/// Adds the edges in the plane and the vertices on the plane, as the index of the complex lists them.
pub(crate) fn add_items(text: &mut String, c: &Complex, h: &Plane) -> Result<(), OutOfMemory>
    requires shows { (s : Set) × ShowsSet s c.now }
{
    let Some(items) = plane_items(c, h) else {
        return text.push_str("none");
    };
    text.push_str("edges")?;
    add_numbers(text, items.edges)?;
    text.push_str(" vertices")?;
    add_numbers(text, items.vertices)
}

fn add_candidates(alloc: Global, text: &mut String, c: &Complex) -> Result<(), OutOfMemory>
    requires shows { (s : Set) × ShowsSet s c.now }
{
    let points = candidates(alloc, c, c)?;
    write!(text, "{}", points.len())
}

/// Adds how many points are candidates of the set and a half with this border.
pub(crate) fn add_cut(
    alloc: Global,
    text: &mut String,
    c: &Complex,
    h: &Plane,
) -> Result<(), OutOfMemory>
    requires shows { (s : Set) × ShowsSet s c.now }
{
    let points = cut_candidates(alloc, c, h)?;
    write!(text, "{}", points.len())
}

/// Adds the answer to a question about a whole complex, and nothing for other questions.
pub(crate) fn add_all(
    alloc: Global,
    text: &mut String,
    c: &Complex,
    verb: &str,
) -> Result<(), OutOfMemory>
    requires shows { (s : Set) × ShowsSet s c.now }
{
    match verb {
        "counts" => write!(text, "{} {}", c.vertices.len(), c.edges.len()),
        "edges" => add_edges(text, c.edges.as_slice()),
        "planes" => add_item_planes(text, c),
        "candidates" => add_candidates(alloc, text, c),
        _ => Ok(()),
    }
}
