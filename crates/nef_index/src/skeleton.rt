//! Edges, and the skeleton that an index tells of.

ghost use Rattle.std.specs.Prelude.{◌≡◌};
ghost use Rattle.std.specs.Borrow.{ftrue};
ghost use Rattle.nef_index.specs.Skeleton.{IndexedLists};

use nef_geo::Label;
use std::marker::Model;

/// An edge joins a svertex of a vertex with the svertex of the opposite direction of the next vertex on the ray along
/// that svertex. `low` is less than `high`; the edge's mark is that of both svertices.
#[derive(Clone, Copy, PartialEq, Eq)]
pub struct Edge {
    pub low: usize,
    pub low_svertex: usize,
    pub high: usize,
    pub high_svertex: usize,
    pub mark: Label,
}

/// The skeleton that an index tells of, for clauses alone: no memory is taken.
#[derive(Drop)]
pub(crate) struct Told {
    ghost skeleton: { IndexedLists },
}

impl Model for Told {
    ghost also_owns = { λ _. ftrue };

    ghost also_shares = { λ _ _ _. ftrue };
}

// It holds nothing, and so does a `&` to it.
unsafe impl Send for Told {}

unsafe impl Sync for Told {}

impl Told {
    /// Tells of the skeleton. What is made beside it may be anything.
    pub(crate) fn new<T>(_beside: &T) -> Told
        ghost skeleton: { IndexedLists }
        ensures { result.skeleton ≡ skeleton }
    {
        Told {}
    }
}
