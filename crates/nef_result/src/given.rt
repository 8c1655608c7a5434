//! A complex that is read, and may be taken apart where nobody else has it.

ghost use Rattle.std.specs.Prelude.{◌≡◌};
ghost use Rattle.nef_result.specs.Prelude.{given_of, moved_if, moved_of};

use nef_complex::{Complex, Vertex};
use nef_geo::List;
use std::alloc::Global;
use std::mem;

/// A complex that is given to an operation.
#[derive(Drop)]
pub enum Given<'a> {
    /// A complex that others read too.
    Lent(&'a Complex),
    /// A complex that nobody reads afterwards, so that what a result has of it may be moved.
    Own(Complex),
}

impl<'a> Given<'a> {
    /// The complex.
    pub fn complex(&self) -> &Complex
        ensures complex { result.now ≡ given_of self.now }
    {
        match self {
            Given::Lent(complex) => complex,
            Given::Own(complex) => complex,
        }
    }

    /// Whether maps may be moved out of the complex.
    pub fn is_own(&self) -> bool
        ensures own { moved_if result (given_of self.now) ≡ moved_of self.now }
    {
        match self {
            Given::Lent(_) => false,
            Given::Own(_) => true,
        }
    }

    /// Takes the vertices out whose maps may be moved.
    pub(crate) fn take_vertices(&mut self, alloc: Global) -> Vec<Vertex>
        ensures taken { result.items ≡ moved_of self.old }
    {
        match self {
            Given::Lent(_) => Vec::new(alloc),
            Given::Own(complex) => {
                mem::replace(&mut complex.vertices, List::new(alloc)).into_vec()
            }
        }
    }

    /// Puts vertices back that were taken out.
    pub(crate) fn put_vertices(&mut self, vertices: Vec<Vertex>) {
        if let Given::Own(complex) = self {
            complex.vertices = List::from_vec(vertices);
        }
    }
}
