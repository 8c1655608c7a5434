//! Numbers and points that a complex and its parts hold.

ghost use Rattle.std.specs.Prelude.{◌≡◌, ◌<◌};
ghost use Rattle.nef_complex.specs.Prelude.{Set, ShowsSet, length};
ghost use Rattle.nef_volumes.specs.Joins.{AreCounted};
ghost use Rattle.std.specs.List.{count_by};
ghost use Rattle.example_bracket.specs.Answers.{HasComponentCounts, HasEdgeEnds, has_hole, is_within};

use nef_complex::{Complex, Parts};
use nef_geo::{Label, Point};

/// How many vertices, edges, facets and volumes a set has.
#[derive(Debug, Clone, Copy, PartialEq, Eq)]
pub struct Counts {
    pub vertices: usize,
    pub edges: usize,
    pub facets: usize,
    pub volumes: usize,
}

/// The numbers of vertices, edges, facets and volumes, with the outside of the frame among the volumes.
pub fn count_parts(c: &Complex, parts: &Parts) -> Counts
    requires counted { AreCounted c.now parts.now }
    ensures components { (s : Set) → ShowsSet s c.now → HasComponentCounts s result }
{
    Counts {
        vertices: c.vertices.len(),
        edges: c.edges.len(),
        facets: parts.facets.len(),
        volumes: parts.volumes.len(),
    }
}

/// The points at the lower and at the higher end of the edge with this number.
pub fn edge_ends(c: &Complex, number: usize) -> (Point, Point)
    requires shows { (s : Set) × ShowsSet s c.now }
    requires within { number < length c.now.edges }
    ensures ends { HasEdgeEnds c.now number result.0 result.1 }
{
    let edge = c.edges.at(number);
    (
        c.vertices.at(edge.low).point,
        c.vertices.at(edge.high).point,
    )
}

/// How many facets have a hole, which is a cycle beside the first.
pub fn facets_with_holes(parts: &Parts) -> usize
    ensures holes { result ≡ count_by has_hole parts.now.facets }
{
    let facets = parts.facets.as_slice();
    facets.iter().filter(|f| f.cycles.len() > 1).count()
}

/// How many volumes belong to the set.
pub fn volumes_inside(parts: &Parts) -> usize
    ensures inside { result ≡ count_by is_within parts.now.volumes }
{
    let volumes = parts.volumes.as_slice();
    volumes.iter().filter(|l| **l == Label::In).count()
}
