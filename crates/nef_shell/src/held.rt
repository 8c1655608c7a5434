//! What is kept of the sets that steps make.

ghost use Rattle.nef_shell.specs.Prelude.{IsSomeAnd, IfOk, IfSome, OnOk, Set, ShowsSet, complex_of, IsParts, Text, option_copied, IsHeld, IsNewlyHeld, complex_in, complex_at, without_parts};
ghost use Rattle.std.specs.Prelude.{◌≡◌};

use nef_canon::write_text;
use nef_complex::{Complex, Parts};
use nef_volumes::parts_by_threads;
use nef_words::Options;
use std::alloc::{AllocError, Global};
use std::thread::Threads;

/// A set that a step made: its complex, with parts and text of that once a question asked for them.
#[derive(Drop)]
pub struct Held {
    pub complex: Complex,
    pub parts: Option<Parts>,
    pub text: Option<Vec<u8>>,
}

/// What is kept of the set that a step made, if anything is.
pub type Value = Option<Box<Held>>;

/// What is kept of a set whose complex this is. `AllocError` says that memory was wanted and not found.
pub(crate) fn kept(alloc: Global, complex: Complex) -> Result<Value, AllocError>
    ensures new { IfOk result (λ o. (s : Set) → ShowsSet s complex → IsSomeAnd o (λ b. IsNewlyHeld s b.value)) }
{
    let made = Held {
        complex,
        parts: None,
        text: None,
    };
    let made = Box::new(alloc, made)?;
    Ok(Some(made))
}

/// The complex of the value, if it is kept.
pub(crate) fn complex_in(place: &Value) -> Option<&Complex>
    ensures complex { option_copied result ≡ complex_in place.now }
{
    match place {
        Some(made) => Some(&made.complex),
        None => None,
    }
}

/// The complex of the value, if there is a value and it is kept.
pub(crate) fn complex_at(values: &[Value], value: Option<usize>) -> Option<&Complex>
    ensures complex { option_copied result ≡ complex_at values.now value }
{
    complex_in(values.get(value?)?)
}

impl Held {
    /// The parts of the complex, which are no longer kept then: those that were kept, or else new ones. `AllocError` says
    /// that memory was wanted and not found.
    pub(crate) fn take_parts<R: Threads + Sync>(
        &mut self,
        rt: &R,
        alloc: Global,
        options: &Options,
    ) -> Result<Parts, AllocError>
        requires shows { (s : Set) × ShowsSet s self.old.complex }
        requires parts { IfSome self.old.parts (λ p. IsParts (complex_of self.old.complex) p) }
        ensures parts { IfOk result (λ p. IsParts (complex_of self.old.complex) p) }
        ensures left { self.new ≡ without_parts self.old }
    {
        match self.parts.take() {
            Some(parts) => Ok(parts),
            None => parts_by_threads(rt, alloc, &self.complex, options.how.workers),
        }
    }

    /// The text of the complex, in the version that the options choose, which is no longer kept then: the one that was kept,
    /// or else a new one. `AllocError` says that memory was wanted and not found.
    pub(crate) fn take_text<R: Threads + Sync>(
        &mut self,
        rt: &R,
        alloc: Global,
        options: &Options,
    ) -> Result<Vec<u8>, AllocError>
        requires held { (s : Set) × IsHeld options.now.text s self.old }
        ensures text { IfOk result (λ x. Text options.now.text self.old.complex x.items) }
        ensures complex { self.new.complex ≡ self.old.complex }
        ensures held { OnOk result ((s : Set) → IsHeld options.now.text s self.old → IsHeld options.now.text s self.new) }
    {
        if let Some(text) = self.text.take() {
            return Ok(text);
        }
        let parts = self.take_parts(rt, alloc, options)?;
        let text = write_text(alloc, &self.complex, &parts, options.text)?;
        self.parts = Some(parts);
        Ok(text)
    }
}
