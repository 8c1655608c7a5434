//! The vertices of a set among its candidates, and where their maps are.

ghost use Rattle.nef_result.specs.Prelude.{vec_len, vec_capacity, [], length, IfOk, ArePointsInOrder, IsAdded, AreBegun};
ghost use Rattle.std.specs.Prelude.{◌≡◌, ◌∷◌, ◌++◌, ◌<◌, ◌≤◌, ◌+◌};

use crate::OutOfMemory;
use crate::outcome::Outcome;
use nef_cand::Operand;
use nef_complex::Vertex;
use nef_geo::{Label, Point};
use nef_smap::{SphereMap, face_map};
use std::alloc::Global;

/// Where the map of a vertex is.
#[derive(Clone, Copy)]
pub(crate) enum MapSource {
    /// With the vertex.
    Here,
    /// With this vertex of an operand.
    Kept(Operand, usize),
    /// With this vertex of an operand, but for In and `Not`, which are to be exchanged in the map.
    Turned(Operand, usize),
}

// Adds a vertex and the source of its map. Both lists have room for them.
fn push_vertex(
    vertices: &mut Vec<Vertex>,
    sources: &mut Vec<MapSource>,
    point: &Point,
    map: SphereMap,
    source: MapSource,
)
    requires room { vec_len vertices.old < vec_capacity vertices.old }
    requires source_room { vec_len sources.old < vec_capacity sources.old }
    ensures vertices { vertices.new.items ≡ vertices.old.items ++ record { point = point.now; map = map } ∷ [] }
    ensures sources { sources.new.items ≡ sources.old.items ++ source ∷ [] }
    ensures one { (vec_len vertices.new ≤ vec_len vertices.old + 1) × (vec_capacity vertices.new ≡ vec_capacity vertices.old) }
    ensures one_source { (vec_len sources.new ≤ vec_len sources.old + 1) × (vec_capacity sources.new ≡ vec_capacity sources.old) }
{
    vertices.push_reserved(Vertex { point: *point, map });
    sources.push_reserved(source);
}

// Adds the vertex at the point, if the set has one there; both lists have room for it. Where the vertex's map is with another
// vertex, a map that takes no memory is put in its place.
fn add_vertex(
    vertices: &mut Vec<Vertex>,
    sources: &mut Vec<MapSource>,
    alloc: Global,
    point: &Point,
    outcome: Outcome,
)
    requires room { vec_len vertices.old < vec_capacity vertices.old }
    requires source_room { vec_len sources.old < vec_capacity sources.old }
    ensures added { IsAdded point.now outcome vertices.old.items sources.old.items vertices.new.items sources.new.items }
    ensures one { (vec_len vertices.new ≤ vec_len vertices.old + 1) × (vec_capacity vertices.new ≡ vec_capacity vertices.old) }
    ensures one_source { (vec_len sources.new ≤ vec_len sources.old + 1) × (vec_capacity sources.new ≡ vec_capacity sources.old) }
{
    match outcome {
        Outcome::Made(map) => {
            let map = Box::into_inner(map);
            push_vertex(vertices, sources, point, map, MapSource::Here);
        }
        Outcome::Stays(operand, number) => {
            let empty = face_map(alloc, Label::Out, Label::Out);
            let source = MapSource::Kept(operand, number);
            push_vertex(vertices, sources, point, empty, source);
        }
        Outcome::Turned(operand, number) => {
            let empty = face_map(alloc, Label::Out, Label::Out);
            let source = MapSource::Turned(operand, number);
            push_vertex(vertices, sources, point, empty, source);
        }
        Outcome::Gone => {}
    }
}

/// The vertices among the points, and for each of them where its map is.
pub(crate) fn parted(
    alloc: Global,
    points: &[Point],
    outcomes: Vec<Outcome>,
) -> Result<(Vec<Vertex>, Vec<MapSource>), OutOfMemory>
    requires ordered { ArePointsInOrder points.now }
    requires alike { length outcomes.items ≡ length points.now }
    ensures begun { IfOk result (λ p. AreBegun points.now outcomes.items p.0.items p.1.items) }
{
    // Most points are vertices of the set: of the operands' edges only points near what the other set has are among them.
    let mut vertices = Vec::with_capacity(alloc, points.len())?;
    let mut sources = Vec::with_capacity(alloc, points.len())?;
    for (point, outcome) in points.iter().zip(outcomes) {
        add_vertex(&mut vertices, &mut sources, alloc, point, outcome);
    }
    Ok((vertices, sources))
}
