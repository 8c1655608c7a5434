//! A list that contracts see as the list of its elements.

ghost use Rattle.std.specs.Prelude.{◌≡◌, ◌<◌, ◌↔◌, ◌∷◌, ◌++◌};
ghost use Rattle.nef_space.specs.Prelude.{[], length, slice_get, Some, OnOk, OnErr, IsTrue, None};

use std::alloc::{AllocError, Global};
use std::marker::Model;

/// A growing list, kept in a `Vec`; contracts see the list of its elements.
#[derive(Drop)]
pub struct List<T> {
    items: Vec<T>,
}

impl<T> Model for List<T> {
    ghost use Rattle.std.specs.Prelude.{List as Sequence};

    ghost Value = { Sequence T };

    ghost view = { λ l. l.items.items };
}

impl<T> List<T> {
    /// An empty list. No memory is taken yet.
    pub fn new(alloc: Global) -> List<T>
        ensures empty { result ≡ [] }
    {
        List {
            items: Vec::new(alloc),
        }
    }

    pub fn from_vec(items: Vec<T>) -> List<T>
        ensures all { result ≡ items.items }
    {
        List { items }
    }

    pub fn into_vec(self) -> Vec<T>
        ensures all { result.items ≡ self }
    {
        self.items
    }

    pub fn len(&self) -> usize
        ensures len { result ≡ length self.now }
    {
        self.items.len()
    }

    pub fn is_empty(&self) -> bool
        ensures empty { IsTrue result ↔ (self.now ≡ []) }
    {
        self.items.is_empty()
    }

    /// The element at `index`, counted from 0.
    pub fn at(&self, index: usize) -> &T
        requires within { index < length self.now }
        ensures element { slice_get self.now index ≡ Some result.now }
    {
        &self.items[index]
    }

    /// All elements in order.
    pub fn as_slice(&self) -> &[T]
        ensures all { result.now ≡ self.now }
    {
        self.items.as_slice()
    }
}

impl<T: Drop> List<T> {
    /// Adds an element at the end. Where no memory is left, the list stays as it was.
    pub fn push(&mut self, value: T) -> Result<(), AllocError>
        ensures ok { OnOk result (self.new ≡ self.old ++ value ∷ []) }
        ensures err { OnErr result (self.new ≡ self.old) }
    {
        self.items.push(value)?;
        Ok(())
    }
}
