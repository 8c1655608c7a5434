//! All parts of a complex, and whether two points are joined.

ghost use Rattle.std.specs.Prelude.{◌≡◌, ◌↔◌};
ghost use Rattle.nef_volumes.specs.Prelude.{ℕ, List as Sequence, length, IfOk, OnOk, IsTrue, IsAt, Set, Joined, InFrame, point_of, complex_of, corner_of, ShowsSet, IsVolumeOf, VolumeNumbers, IsParts, SfaceNumbers, Cycle as PlainCycle, map_of, sides_of, HasItem, FacetsAreComponents, VolumesAreComponents, AreCounted, IsPartAt, AreItemTies, AreTiesDown, HasAppeared, AreLabelsTo, AreVolumeLabels, side_beside, HasFirst, AreFacetsOf, AreVolumesOf, ArePieces};

use crate::OutOfMemory;
use crate::numbers::{gathered, shell_rows, volume_numbers, volume_shells};
use crate::ties::{FacetPieces, down_ties, facet_pieces, sface_numbers};
use nef_classes::{Tie, number_at};
use nef_complex::{Complex, Corner, Cycle, Facet, Parts, Shell};
use nef_facets::FacetParts;
use nef_geo::{Label, List, Plane, Point};
use nef_locate::{Place, locate};
use nef_smap::{SphereMap, side_label};
use std::alloc::Global;

// The number of the volume at a side of the item: at that to which its normal points, or at the other.
fn volume_at(c: &Complex, volume_of: &List<List<usize>>, corner: &Corner, above: bool) -> usize
    requires shows { (s : Set) × ShowsSet s c.now }
    requires numbers { VolumeNumbers (complex_of c.now) volume_of.now }
    requires corner { HasItem (complex_of c.now) (corner_of corner.now) }
    ensures volume { IsVolumeOf (complex_of c.now) volume_of.now (side_beside above (corner_of corner.now)) result }
{
    let map = &c.vertices.at(corner.vertex).map;
    let side = map.item_side(corner.item, above);
    let row = volume_of.at(corner.vertex);
    *row.at(side)
}

// The facets with their planes, marks and cycles. The volumes of each are those beside its first corner.
fn list_facets(
    alloc: Global,
    c: &Complex,
    volume_of: &List<List<usize>>,
    planes: &List<Plane>,
    marks: &List<Label>,
    cycles: List<List<Cycle>>,
) -> Result<List<Facet>, OutOfMemory>
    requires shows { (s : Set) × ShowsSet s c.now }
    requires numbers { VolumeNumbers (complex_of c.now) volume_of.now }
    requires planes { length planes.now ≡ length cycles }
    requires marks { length marks.now ≡ length cycles }
    requires first { (n : ℕ) (xs : Sequence PlainCycle) → IsAt cycles n xs → HasFirst (complex_of c.now) xs }
    ensures facets { IfOk result (λ fs. AreFacetsOf (complex_of c.now) volume_of.now planes.now marks.now cycles fs) }
{
    let mut facets = List::new(alloc);
    for own in cycles.into_vec() {
        let number = facets.len();
        let plane = *planes.at(number);
        let mark = *marks.at(number);
        let cycle = own.at(0);
        let corner = *cycle.corners.at(0);
        let pos = volume_at(c, volume_of, &corner, true);
        let neg = volume_at(c, volume_of, &corner, false);
        facets.push(Facet {
            plane,
            mark,
            pos,
            neg,
            cycles: own,
        })?;
    }
    Ok(facets)
}

// Adds the labels of the volumes that first appear in this row, which has the numbers of the volumes of the map's sides.
fn add_labels(labels: &mut Vec<Label>, map: &SphereMap, row: &[usize]) -> Result<(), OutOfMemory>
    requires sides { length row.now ≡ length (sides_of (map_of map.now)) }
    requires appeared { HasAppeared (length labels.old.items) row.now }
    ensures added { OnOk result (AreLabelsTo (map_of map.now) row.now labels.old.items (length row.now) labels.new.items) }
{
    for side in 0..row.len() {
        let number = row[side];
        // The volume is the first that has no label yet.
        if number == labels.len() {
            labels.push(side_label(map, side))?;
        }
    }
    Ok(())
}

// The labels of the volumes in the order of their numbers, of which there is one for each side in `volume_of`.
fn volume_labels(
    alloc: Global,
    c: &Complex,
    volume_of: &List<List<usize>>,
) -> Result<List<Label>, OutOfMemory>
    requires shows { (s : Set) × ShowsSet s c.now }
    requires numbers { VolumeNumbers (complex_of c.now) volume_of.now }
    ensures labels { IfOk result (λ ls. AreVolumeLabels (complex_of c.now) volume_of.now ls) }
{
    let mut labels = Vec::new(alloc);
    labels.push(Label::Out)?;
    for vertex in 0..c.vertices.len() {
        let row = volume_of.at(vertex).as_slice();
        add_labels(&mut labels, &c.vertices.at(vertex).map, row)?;
    }
    Ok(List::from_vec(labels))
}

// For each vertex the numbers of the volumes of its sides, the labels of the volumes, and their shells. The numbers of the
// sfaces of sides are given, and the ties of the sides of linked items and those down rays.
fn volumes_of(
    alloc: Global,
    c: &Complex,
    sface_of: &List<List<usize>>,
    items: &[Tie],
    down: &[Tie],
) -> Result<(List<List<usize>>, List<Label>, List<List<Shell>>), OutOfMemory>
    requires shows { (s : Set) × ShowsSet s c.now }
    requires sfaces { SfaceNumbers (complex_of c.now) sface_of.now }
    requires items { AreItemTies (complex_of c.now) items.now }
    requires down { AreTiesDown (complex_of c.now) down.now }
    ensures volumes { IfOk result (λ v. AreVolumesOf (complex_of c.now) sface_of.now v.0 v.1 v.2) }
{
    let rows = shell_rows(alloc, c, sface_of, items)?;
    let sides = gathered(alloc, &rows)?;
    let volume_of = volume_numbers(alloc, c, &rows, sides.len() + 1, down)?;
    let labels = volume_labels(alloc, c, &volume_of)?;
    let shells = volume_shells(alloc, &volume_of, sides, labels.len())?;
    Ok((volume_of, labels, shells))
}

/// The parts of the complex: of its facets with the ties of the sides of linked items, the numbers of the sfaces of its
/// sides, and the ties down rays.
pub(crate) fn parts_of_pieces(
    alloc: Global,
    c: &Complex,
    facets: FacetPieces,
    sface_of: List<List<usize>>,
    down: Vec<Tie>,
) -> Result<Parts, OutOfMemory>
    requires shows { (s : Set) × ShowsSet s c.now }
    requires pieces { ArePieces (complex_of c.now) facets.parts facets.items.items sface_of down.items }
    ensures parts { IfOk result (λ p. IsParts (complex_of c.now) p) }
{
    let FacetPieces { parts, items } = facets;
    let (volume_of, labels, shells) = volumes_of(
        alloc,
        c,
        &sface_of,
        items.as_slice(),
        down.as_slice(),
    )?;
    let FacetParts {
        planes,
        marks,
        cycles,
        facet_of,
    } = parts;
    let listed = list_facets(alloc, c, &volume_of, &planes, &marks, cycles)?;
    Ok(Parts {
        facets: listed,
        volumes: labels,
        facet_of,
        volume_of,
        sface_of,
        shells,
    })
}

/// The facets and volumes of the complex, with their numbers, the numbers of sfaces, and the shells of volumes. Points at
/// items are joined exactly where the items have one facet number, and points at sides where the sides have one volume
/// number. So there are as many vertices, edges, facets and volumes as the points with no, one, two and three flat
/// directions have connected components; the outside is one. `OutOfMemory` says that memory was wanted and not found.
pub fn parts(alloc: Global, c: &Complex) -> Result<Parts, OutOfMemory>
    requires shows { (s : Set) × ShowsSet s c.now }
    ensures parts { IfOk result (λ p. IsParts (complex_of c.now) p) }
    ensures items_joined { IfOk result (λ p. FacetsAreComponents c.now p) }
    ensures sides_joined { IfOk result (λ p. VolumesAreComponents c.now p) }
    ensures counted { IfOk result (λ p. AreCounted c.now p) }
{
    let facets = facet_pieces(alloc, c)?;
    let sface_of = sface_numbers(alloc, c)?;
    let down = down_ties(alloc, c, 0, c.vertices.len())?;
    parts_of_pieces(alloc, c, facets, sface_of, down)
}

// A part of a complex: a vertex, an edge, a facet or a volume, with its number.
#[derive(Clone, Copy, PartialEq, Eq)]
enum Part {
    Vertex(usize),
    Edge(usize),
    Facet(usize),
    Volume(usize),
}

// The part in which the point lies.
fn part_at(c: &Complex, parts: &Parts, p: &Point) -> Part
    requires shows { (s : Set) × ShowsSet s c.now }
    requires parts { IsParts (complex_of c.now) parts.now }
    requires framed { InFrame (point_of p.now) }
    ensures part { IsPartAt (complex_of c.now) parts.now (point_of p.now) result }
{
    match locate(c, p) {
        Place::Vertex(number) => Part::Vertex(number),
        Place::OnEdge(number) => Part::Edge(number),
        Place::InFacet(corner) => {
            Part::Facet(number_at(&parts.facet_of, corner.vertex, corner.item))
        }
        Place::InVolume { vertex, side } => Part::Volume(number_at(&parts.volume_of, vertex, side)),
    }
}

/// Whether the points, both of the frame, are joined: whether some path of segments leads from the one to the other
/// through points at which as many independent directions are flat. So it is just of points of one volume, one facet or
/// one edge, and of a vertex with itself. The parts are those of the complex. It takes no memory.
pub fn joined(c: &Complex, parts: &Parts, p: &Point, q: &Point) -> bool
    requires shows { (s : Set) × ShowsSet s c.now }
    requires parts { IsParts (complex_of c.now) parts.now }
    requires first { InFrame (point_of p.now) }
    requires second { InFrame (point_of q.now) }
    ensures joined { (s : Set) → ShowsSet s c.now → IsTrue result ↔ Joined s (point_of p.now) (point_of q.now) }
{
    part_at(c, parts, p) == part_at(c, parts, q)
}
