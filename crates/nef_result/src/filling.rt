//! Maps that are moved out of operands.

ghost use Rattle.std.specs.Prelude.{◌≡◌, ◌<◌};
ghost use Rattle.nef_result.specs.Prelude.{ℕ, length, IsAt, Vertex as VertexValue, First, Second, IsLeastMap, SphereMap as MapValue, of_operand, IsOtherOf, vertex_at, HasNamed, NamesVertex, IsFilledAt, AreThere, AreFilledTo};

use crate::parting::MapSource;
use nef_cand::Operand;
use nef_complex::Vertex;
use nef_geo::Label;
use nef_smap::face_map;
use nef_stopo::exchanged;
use std::alloc::Global;
use std::mem;

// Exchanges the maps of two vertices.
fn swap_maps(vertices: &mut Vec<Vertex>, number: usize, others: &mut Vec<Vertex>, from: usize)
    requires within { number < length vertices.old.items }
    requires from_within { from < length others.old.items }
    ensures len { length vertices.new.items ≡ length vertices.old.items }
    ensures swapped { (v w : VertexValue) → IsAt vertices.old.items number v → IsAt others.old.items from w → IsAt vertices.new.items number (vertex_at v.point w.map) }
    ensures rest { (k : ℕ) (v : VertexValue) → (k ≡ number → ⊥) → IsAt vertices.old.items k v → IsAt vertices.new.items k v }
    ensures others { (k : ℕ) (v : VertexValue) → (k ≡ from → ⊥) → IsAt others.old.items k v → IsAt others.new.items k v }
{
    mem::swap(&mut vertices[number].map, &mut others[from].map);
}

// Exchanges the maps of a vertex and of a vertex of the operand that is told.
fn swap_with(
    vertices: &mut Vec<Vertex>,
    number: usize,
    operand: Operand,
    from: usize,
    first: &mut Vec<Vertex>,
    second: &mut Vec<Vertex>,
)
    requires within { number < length vertices.old.items }
    requires from_within { from < length (of_operand operand first.old.items second.old.items) }
    ensures len { length vertices.new.items ≡ length vertices.old.items }
    ensures swapped { (v w : VertexValue) → IsAt vertices.old.items number v → IsAt (of_operand operand first.old.items second.old.items) from w → IsAt vertices.new.items number (vertex_at v.point w.map) }
    ensures rest { (k : ℕ) (v : VertexValue) → (k ≡ number → ⊥) → IsAt vertices.old.items k v → IsAt vertices.new.items k v }
    ensures first { (k : ℕ) (v : VertexValue) → (operand ≡ First → k ≡ from → ⊥) → IsAt first.old.items k v → IsAt first.new.items k v }
    ensures second { (k : ℕ) (v : VertexValue) → (operand ≡ Second → k ≡ from → ⊥) → IsAt second.old.items k v → IsAt second.new.items k v }
{
    match operand {
        Operand::First => swap_maps(vertices, number, first, from),
        Operand::Second => swap_maps(vertices, number, second, from),
    }
}

// Exchanges In and `Not` in the map of a vertex.
fn turn_map(alloc: Global, vertices: &mut Vec<Vertex>, number: usize)
    requires within { number < length vertices.old.items }
    requires least { (v : VertexValue) → IsAt vertices.old.items number v → IsLeastMap v.map }
    ensures len { length vertices.new.items ≡ length vertices.old.items }
    ensures turned { (v : VertexValue) → IsAt vertices.old.items number v → (m : MapValue) × IsAt vertices.new.items number (vertex_at v.point m) × IsOtherOf v.map m }
    ensures rest { (k : ℕ) (v : VertexValue) → (k ≡ number → ⊥) → IsAt vertices.old.items k v → IsAt vertices.new.items k v }
{
    let empty = face_map(alloc, Label::Out, Label::Out);
    let vertex = &mut vertices[number];
    let map = mem::replace(&mut vertex.map, empty);
    vertex.map = exchanged(map);
}

// Moves the map that the source names into the vertex. The operand's vertex is left with the map that the vertex had.
fn fill(
    alloc: Global,
    vertices: &mut Vec<Vertex>,
    number: usize,
    source: MapSource,
    first: &mut Vec<Vertex>,
    second: &mut Vec<Vertex>,
)
    requires within { number < length vertices.old.items }
    requires named { HasNamed first.old.items second.old.items source }
    ensures len { length vertices.new.items ≡ length vertices.old.items }
    ensures filled { (v : VertexValue) → IsAt vertices.old.items number v → IsFilledAt first.old.items second.old.items source number v vertices.new.items }
    ensures others { (k : ℕ) (v : VertexValue) → (k ≡ number → ⊥) → IsAt vertices.old.items k v → IsAt vertices.new.items k v }
    ensures first { (k : ℕ) (v : VertexValue) → (NamesVertex source First k → ⊥) → IsAt first.old.items k v → IsAt first.new.items k v }
    ensures second { (k : ℕ) (v : VertexValue) → (NamesVertex source Second k → ⊥) → IsAt second.old.items k v → IsAt second.new.items k v }
{
    match source {
        MapSource::Here => {}
        MapSource::Kept(operand, from) => {
            swap_with(vertices, number, operand, from, first, second);
        }
        MapSource::Turned(operand, from) => {
            swap_with(vertices, number, operand, from, first, second);
            turn_map(alloc, vertices, number);
        }
    }
}

/// Moves into each vertex the map that the vertex's source names.
pub(crate) fn fill_all(
    alloc: Global,
    vertices: &mut Vec<Vertex>,
    sources: &[MapSource],
    first: &mut Vec<Vertex>,
    second: &mut Vec<Vertex>,
)
    requires there { AreThere first.old.items second.old.items vertices.old.items sources.now }
    ensures filled { AreFilledTo first.old.items second.old.items vertices.old.items sources.now (length sources.now) vertices.new.items }
{
    for number in 0..sources.len() {
        fill(alloc, vertices, number, sources[number], first, second);
    }
}
