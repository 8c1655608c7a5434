//! What the texts of sets tell of them.

ghost use Rattle.std.specs.Prelude.{◌≡◌, ◌↔◌};
ghost use Rattle.nef_shell.specs.Prelude.{IfOk, IsTrue, SameSet, Set, ShowsSet, complex_of, IsParts, text, TextsTellSets, PiecesAreOne, TextHolds, CountsComponents};

use nef_canon::write_text;
use nef_complex::{Complex, Parts};
use nef_core::TextVersion;
use std::alloc::{AllocError, Global};

/// Whether the texts of two complexes with their parts, in this version, are equal, byte by byte. They are, exactly where
/// the sets that the complexes show are the same. `AllocError` says that memory was wanted and not found.
pub fn same_text(
    alloc: Global,
    version: TextVersion,
    a: &Complex,
    p: &Parts,
    b: &Complex,
    q: &Parts,
) -> Result<bool, AllocError>
    requires first_parts { IsParts (complex_of a.now) p.now }
    requires second_parts { IsParts (complex_of b.now) q.now }
    ensures text { IfOk result (λ r. IsTrue r ↔ (text version a.now p.now ≡ text version b.now q.now)) }
    ensures same { IfOk result (λ r. (s t : Set) → ShowsSet s a.now → ShowsSet t b.now → IsTrue r ↔ SameSet s t) }
{
    let first = write_text(alloc, a, p, version)?;
    let second = write_text(alloc, b, q, version)?;
    Ok(first.as_slice() == second.as_slice())
}

/// The texts that are printed of two sets, in one version, are equal exactly where the sets are the same; what is printed and counted is
/// determined by the set; the text of a set spells some complex, and a point of the frame belongs to each complex that it
/// spells exactly where the set holds. The four numbers that are counted are those of the connected components of the
/// points with no, one, two and three flat directions, over all of space; the outside is one of the last.
pub fn written_laws()
    ensures texts { TextsTellSets }
    ensures pieces { PiecesAreOne }
    ensures holds { TextHolds }
    ensures counts { CountsComponents }
{}
