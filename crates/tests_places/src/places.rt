//! Questions about the place of a point, by the numbers x, y, z and w of (x/w, y/w, z/w).
//!
//! - `vertex POINT`: the number of the vertex at the point.
//! - `place POINT`: the vertex, the edge with the vertices at its ends, the facet with its normal and the vertex of its
//! corner, or the volume, and the label of the point.
//! - `kind POINT`: the kind of the least map at the point, with the greater direction of an edge and the normal of a
//! facet.
//! - `up POINT`, `down POINT`: the place that the ray from the point meets first.
//! - `rising POINT`, `falling POINT`: the place that a ray meets first which comes to the point exactly.

ghost use Rattle.std.specs.Prelude.{◌≡◌, ◌⊎◌};
ghost use Rattle.nef_complex.specs.Prelude.{IfSome, InClosedFrame, Set, opposite, up, vector_of, point_of, complex_of, ShowsSet};
ghost use Rattle.nef_locate.specs.Places.{IsPlaceIn};

use crate::words::{add_dir, framed_point, label_word, point};
use nef_complex::{Complex, Corner, OutOfMemory, vertex_at};
use nef_geo::{Dir, Point, up};
use nef_locate::{Place, first_hit, local_map, locate, place_label};
use nef_spair::{Kind, kind};
use std::alloc::Global;

// A rising ray to a point begins u/PART below the point, and a falling ray u/PART above, for the upward direction u.
const PART: i64 = 1 << 26;

// The coordinate x/w + number/PART, as a number over PART.
fn moved(x: i64, w: i64, number: i64) -> Option<i64> {
    x.checked_mul(PART.checked_div(w)?)?.checked_add(number)
}

// The point p - d/PART, from which the ray along d comes to p exactly, if the weight of p divides PART.
fn start(d: &Dir, p: &Point) -> Option<Point>
    ensures framed { IfSome result (λ q. InClosedFrame (point_of q)) }
{
    let w = p.w();
    if w < 1 || PART % w != 0 {
        return None;
    }
    let back = d.back();
    let (x, y) = (moved(p.x(), w, back.x())?, moved(p.y(), w, back.y())?);
    framed_point(x, y, moved(p.z(), w, back.z())?, PART)
}

/// Adds the edge by the vertices at its ends.
pub(crate) fn add_edge(text: &mut String, c: &Complex, number: usize) -> Option<()> {
    let edge = c.edges.as_slice().get(number)?;
    write!(text, "edge {} {}", edge.low, edge.high).ok()
}

fn normal(c: &Complex, corner: &Corner) -> Option<Dir> {
    let vertex = c.vertices.as_slice().get(corner.vertex)?;
    match vertex.map.arcs.as_slice().get(corner.item) {
        Some(arc) => Some(arc.normal),
        None => Some(vertex.map.sloop?.normal),
    }
}

/// Adds the facet by its normal and the vertex of its corner.
pub(crate) fn add_facet(text: &mut String, c: &Complex, corner: &Corner) -> Option<()> {
    let (normal, vertex) = (normal(c, corner)?, corner.vertex);
    write!(
        text,
        "facet {} {} {} at {vertex}",
        normal.x(),
        normal.y(),
        normal.z()
    )
    .ok()
}

fn add_place(text: &mut String, c: &Complex, at: &Place) -> Option<()> {
    match *at {
        Place::Vertex(number) => write!(text, "vertex {number}").ok(),
        Place::OnEdge(number) => add_edge(text, c, number),
        Place::InFacet(corner) => add_facet(text, c, &corner),
        Place::InVolume { .. } => text.push_str("volume").ok(),
    }
}

// Adds the place and its label.
fn add_labelled(text: &mut String, c: &Complex, at: &Place) -> Option<()>
    requires place { IsPlaceIn (complex_of c.now) at.now }
{
    add_place(text, c, at)?;
    write!(text, " {}", label_word(place_label(c, at))).ok()
}

fn add_vertex(text: &mut String, c: &Complex, p: &Point) -> Result<(), OutOfMemory>
    requires shows { (s : Set) × ShowsSet s c.now }
{
    match vertex_at(c, p) {
        Some(number) => write!(text, "{number}"),
        None => text.push_str("none"),
    }
}

// Adds the place that the ray up or down from the point meets first.
fn add_hit(text: &mut String, c: &Complex, p: &Point, d: &Dir) -> Option<()>
    requires shows { (s : Set) × ShowsSet s c.now }
    requires framed { InClosedFrame (point_of p.now) }
    requires upright { (vector_of d.now ≡ up) ⊎ (vector_of d.now ≡ opposite up) }
{
    match first_hit(c, p, d) {
        Some(place) => add_labelled(text, c, &place),
        None => text.push_str("none").ok(),
    }
}

// Adds the place that the ray to the point along d meets first, where the ray comes to the point exactly.
fn add_exact(text: &mut String, c: &Complex, p: &Point, d: &Dir) -> Option<()>
    requires shows { (s : Set) × ShowsSet s c.now }
    requires upright { (vector_of d.now ≡ up) ⊎ (vector_of d.now ≡ opposite up) }
{
    let q = start(d, p)?;
    add_hit(text, c, &q, d)
}

// The kind of the least map at the point.
fn kind_at(alloc: Global, c: &Complex, p: &Point) -> Result<Kind, OutOfMemory>
    requires shows { (s : Set) × ShowsSet s c.now }
    requires framed { InClosedFrame (point_of p.now) }
{
    let map = local_map(alloc, c, p)?;
    Ok(kind(&map))
}

fn add_kind(text: &mut String, found: &Kind) -> Result<(), OutOfMemory> {
    match found {
        Kind::Vertex => text.push_str("vertex"),
        Kind::InVolume => text.push_str("volume"),
        Kind::OnEdge(d) => {
            text.push_str("edge")?;
            add_dir(text, d)
        }
        Kind::InFacet(n) => {
            text.push_str("facet")?;
            add_dir(text, n)
        }
    }
}

pub(crate) fn add_at(
    alloc: Global,
    text: &mut String,
    c: &Complex,
    verb: &str,
    words: &str,
) -> Option<()>
    requires shows { (s : Set) × ShowsSet s c.now }
{
    let p = point(words, 0)?;
    match verb {
        "vertex" => add_vertex(text, c, &p).ok(),
        "place" => add_labelled(text, c, &locate(c, &p)),
        "kind" => add_kind(text, &kind_at(alloc, c, &p).ok()?).ok(),
        "up" => add_hit(text, c, &p, &up()),
        "down" => add_hit(text, c, &p, &up().back()),
        "rising" => add_exact(text, c, &p, &up()),
        "falling" => add_exact(text, c, &p, &up().back()),
        _ => None,
    }
}
