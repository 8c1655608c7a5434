//! The parts of a complex: facets with cycles, volumes with shells.

use crate::complex::Corner;
use nef_geo::{Label, List, Plane};

/// A cycle of a facet: its corners in order, from the least on. Seen from the side to which the normal points, the
/// facet lies on the left of the cycle. A sloop is a cycle of one corner.
#[derive(Drop)]
pub struct Cycle {
    pub corners: List<Corner>,
}

/// A facet: its plane and mark, the numbers of the volumes to which the plane's normal points and doesn't point, and
/// the facet's cycles in the order of their first corners.
#[derive(Drop)]
pub struct Facet {
    pub plane: Plane,
    pub mark: Label,
    pub pos: usize,
    pub neg: usize,
    pub cycles: List<Cycle>,
}

/// A side of a vertex: the vertex's number, and the side's number among the sides of the vertex.
#[derive(Clone, Copy, Drop)]
pub struct Side {
    pub vertex: usize,
    pub side: usize,
}

/// A shell: the sides of a connected piece of a volume's boundary, by vertices and then by the sides' numbers.
#[derive(Drop)]
pub struct Shell {
    pub sides: List<Side>,
}

/// The facets and the labels of the volumes, in the order of their numbers; for each vertex the numbers of the facets
/// of its items, and the numbers of the volumes and of the sfaces of its sides; for each volume its shells in the order
/// of their first sides. Volume 0 is the outside of the frame. Numbers count from 0.
#[derive(Drop)]
pub struct Parts {
    pub facets: List<Facet>,
    pub volumes: List<Label>,
    pub facet_of: List<List<usize>>,
    pub volume_of: List<List<usize>>,
    pub sface_of: List<List<usize>>,
    pub shells: List<List<Shell>>,
}
