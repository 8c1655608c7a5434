//! The text of a complex with its parts: the lines of vertices with their sphere maps, of edges, of facets with their
//! cycles, and of volumes with their shells.

ghost use Rattle.std.specs.Prelude.{◌≡◌, ◌++◌};
ghost use Rattle.nef_complex.specs.Prelude.{OnOk, IfOk, length, complex_of, IsParts, first_line, edge_line, text, Text, cycle_line, facet_text, svertex_line, arc_line, sloop_line, vertex_text, sface_line, vertices_text, shell_line, volumes_text};

use crate::OutOfMemory;
use crate::words::{Entry, add_counts, add_each, add_line};
use nef_complex::{Complex, Cycle, Edge, Facet, Parts, Shell, Vertex};
use nef_core::TextVersion;
use nef_smap::{SArc, SLoop, SVertex};
use std::alloc::Global;

fn add_svertex(text: &mut Vec<u8>, v: &SVertex) -> Result<(), OutOfMemory>
    ensures added { OnOk result (text.new.items ≡ text.old.items ++ svertex_line v.now) }
{
    let entries = [
        Entry::Dir(v.dir),
        Entry::Label(v.mark),
        Entry::Option(v.around),
    ];
    add_line(text, b"s", &entries)
}

fn add_arc(text: &mut Vec<u8>, a: &SArc) -> Result<(), OutOfMemory>
    ensures added { OnOk result (text.new.items ≡ text.old.items ++ arc_line a.now) }
{
    let ends = [a.source, a.target];
    let entries = [
        Entry::Counts(&ends),
        Entry::Dir(a.normal),
        Entry::Label(a.mark),
        Entry::Label(a.pos),
        Entry::Label(a.neg),
    ];
    add_line(text, b"a", &entries)
}

fn add_sloop(text: &mut Vec<u8>, l: &SLoop) -> Result<(), OutOfMemory>
    ensures added { OnOk result (text.new.items ≡ text.old.items ++ sloop_line l.now) }
{
    let entries = [
        Entry::Dir(l.normal),
        Entry::Label(l.mark),
        Entry::Label(l.pos),
        Entry::Label(l.neg),
    ];
    add_line(text, b"l", &entries)
}

fn add_vertex(text: &mut Vec<u8>, v: &Vertex) -> Result<(), OutOfMemory>
    ensures added { OnOk result (text.new.items ≡ text.old.items ++ vertex_text v.now) }
{
    let entries = [
        Entry::Point(v.point),
        Entry::Label(v.map.mark),
        Entry::Option(v.map.ground),
    ];
    add_line(text, b"v", &entries)?;
    add_each(text, v.map.svertices.as_slice(), add_svertex)?;
    add_each(text, v.map.arcs.as_slice(), add_arc)?;
    add_each(text, v.map.sloop.as_slice(), add_sloop)
}

fn add_faces(text: &mut Vec<u8>, faces: &[usize]) -> Result<(), OutOfMemory>
    ensures added { OnOk result (text.new.items ≡ text.old.items ++ sface_line faces.now) }
{
    add_line(text, b"g", &[Entry::Counts(faces)])
}

// Adds the vertices, each followed by its svertices, arcs and sloop, and in version two by its sides' sface numbers.
fn add_vertices(
    text: &mut Vec<u8>,
    c: &Complex,
    parts: &Parts,
    version: TextVersion,
) -> Result<(), OutOfMemory>
    requires as_many { length parts.now.sface_of ≡ length c.now.vertices }
    ensures added { OnOk result (text.new.items ≡ text.old.items ++ vertices_text version c.now parts.now) }
{
    for number in 0..c.vertices.len() {
        let v = c.vertices.at(number);
        let faces = parts.sface_of.at(number).as_slice();
        add_vertex(text, v)?;
        match version {
            TextVersion::One => (),
            TextVersion::Two => add_faces(text, faces)?,
        }
    }
    Ok(())
}

fn add_cycle(text: &mut Vec<u8>, cycle: &Cycle) -> Result<(), OutOfMemory>
    ensures added { OnOk result (text.new.items ≡ text.old.items ++ cycle_line cycle.now) }
{
    text.push(b'c')?;
    for k in cycle.corners.as_slice() {
        add_counts(text, &[k.vertex, k.item])?;
    }
    text.extend_from_slice(b"\n")
}

// Adds the facet, followed by its cycles.
fn add_facet(text: &mut Vec<u8>, f: &Facet) -> Result<(), OutOfMemory>
    ensures added { OnOk result (text.new.items ≡ text.old.items ++ facet_text f.now) }
{
    let sides = [f.pos, f.neg];
    let entries = [
        Entry::Plane(f.plane),
        Entry::Label(f.mark),
        Entry::Counts(&sides),
    ];
    add_line(text, b"f", &entries)?;
    add_each(text, f.cycles.as_slice(), add_cycle)
}

fn add_shell(text: &mut Vec<u8>, shell: &Shell) -> Result<(), OutOfMemory>
    ensures added { OnOk result (text.new.items ≡ text.old.items ++ shell_line shell.now) }
{
    text.push(b'h')?;
    for s in shell.sides.as_slice() {
        add_counts(text, &[s.vertex, s.side])?;
    }
    text.extend_from_slice(b"\n")
}

// Adds the volumes, each followed by its shells in version two.
fn add_volumes(text: &mut Vec<u8>, parts: &Parts, version: TextVersion) -> Result<(), OutOfMemory>
    requires as_many { length parts.now.shells ≡ length parts.now.volumes }
    ensures added { OnOk result (text.new.items ≡ text.old.items ++ volumes_text version parts.now) }
{
    for number in 0..parts.volumes.len() {
        let label = *parts.volumes.at(number);
        let own = parts.shells.at(number).as_slice();
        add_line(text, b"w", &[Entry::Label(label)])?;
        match version {
            TextVersion::One => (),
            TextVersion::Two => add_each(text, own, add_shell)?,
        }
    }
    Ok(())
}

// Adds the line with the numbers of vertices, edges, facets and volumes.
fn add_first(
    text: &mut Vec<u8>,
    c: &Complex,
    parts: &Parts,
    version: TextVersion,
) -> Result<(), OutOfMemory>
    ensures added { OnOk result (text.new.items ≡ text.old.items ++ first_line version c.now parts.now) }
{
    let counts = [
        c.vertices.len(),
        c.edges.len(),
        parts.facets.len(),
        parts.volumes.len(),
    ];
    let entries = [Entry::Counts(&counts)];
    match version {
        TextVersion::One => add_line(text, b"nef3 1", &entries),
        TextVersion::Two => add_line(text, b"nef3 2", &entries),
    }
}

fn add_edge(text: &mut Vec<u8>, e: &Edge) -> Result<(), OutOfMemory>
    ensures added { OnOk result (text.new.items ≡ text.old.items ++ edge_line e.now) }
{
    let ends = [e.low, e.low_svertex, e.high, e.high_svertex];
    add_line(text, b"e", &[Entry::Counts(&ends), Entry::Label(e.mark)])
}

/// The text of the complex with its parts, in this version: the first line with the numbers of vertices, edges, facets
/// and volumes; the vertices with their sphere maps; the edges; the facets with their cycles; the volumes. In version
/// two each vertex is followed by the numbers of its sides' sfaces, and each volume by its shells. The parts are those
/// of the complex. `OutOfMemory` says that memory was wanted and not found.
pub fn write_text(
    alloc: Global,
    c: &Complex,
    parts: &Parts,
    version: TextVersion,
) -> Result<Vec<u8>, OutOfMemory>
    requires parts { IsParts (complex_of c.now) parts.now }
    ensures text { IfOk result (λ v. v.items ≡ text version c.now parts.now) }
    ensures of_complex { IfOk result (λ v. Text version c.now v.items) }
{
    let mut out = Vec::new(alloc);
    add_first(&mut out, c, parts, version)?;
    add_vertices(&mut out, c, parts, version)?;
    add_each(&mut out, c.edges.as_slice(), add_edge)?;
    add_each(&mut out, parts.facets.as_slice(), add_facet)?;
    add_volumes(&mut out, parts, version)?;
    Ok(out)
}
