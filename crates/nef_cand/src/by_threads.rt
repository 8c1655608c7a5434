//! The candidates of a combination, listed by several threads.

ghost use Rattle.nef_cand.specs.Prelude.{IfOk, Set, ShowsSet, First, Second, AreSpannedIn, MayBeCut, ListsCuts, ListsNear};

use crate::OutOfMemory;
use crate::listing::{Spanned, near_candidates, near_cuts, spanned_carriers};
use crate::named::{Named, Operand, merged, together};
use nef_complex::Complex;
use nef_core::{Work, all_four};
use std::alloc::Global;
use std::thread::Threads;

// The cuts of each complex by the carriers of the other one, as `near_cuts` lists them, by four threads: each asks half of the
// carriers of one complex. What each thread lists stands in order, and so does what is merged.
fn cuts_by_four<R: Threads + Sync>(
    rt: &R,
    alloc: Global,
    a: &Complex,
    of_a: &[Spanned],
    b: &Complex,
    of_b: &[Spanned],
) -> Result<(Vec<Named>, Vec<Named>), OutOfMemory>
    requires first { (s : Set) × ShowsSet s a.now }
    requires second { (t : Set) × ShowsSet t b.now }
    requires of_a { AreSpannedIn a.now of_a.now }
    requires of_b { AreSpannedIn b.now of_b.now }
    ensures inside_a { IfOk result (λ p. ListsCuts First a.now b.now of_b.now p.0.items) }
    ensures inside_b { IfOk result (λ p. ListsCuts Second b.now a.now of_a.now p.1.items) }
{
    let (front_a, back_a) = of_a.split_at(of_a.len() / 2);
    let (front_b, back_b) = of_b.split_at(of_b.len() / 2);
    let (front_in_a, back_in_a, front_in_b, back_in_b) = all_four(
        rt,
        || -> Result<Vec<Named>, OutOfMemory>
            requires { MayBeCut a.now b.now front_b.now }
            ensures { IfOk result (λ v. ListsCuts First a.entry.now b.entry.now front_b.entry.now v.items) }
        { near_cuts(alloc, a, Operand::First, b, front_b) },
        || -> Result<Vec<Named>, OutOfMemory>
            requires { MayBeCut a.now b.now back_b.now }
            ensures { IfOk result (λ v. ListsCuts First a.entry.now b.entry.now back_b.entry.now v.items) }
        { near_cuts(alloc, a, Operand::First, b, back_b) },
        || -> Result<Vec<Named>, OutOfMemory>
            requires { MayBeCut b.now a.now front_a.now }
            ensures { IfOk result (λ v. ListsCuts Second b.entry.now a.entry.now front_a.entry.now v.items) }
        { near_cuts(alloc, b, Operand::Second, a, front_a) },
        || -> Result<Vec<Named>, OutOfMemory>
            requires { MayBeCut b.now a.now back_a.now }
            ensures { IfOk result (λ v. ListsCuts Second b.entry.now a.entry.now back_a.entry.now v.items) }
        { near_cuts(alloc, b, Operand::Second, a, back_a) },
    )?;
    let inside_a = merged(alloc, front_in_a.as_slice(), back_in_a.as_slice())?;
    let inside_b = merged(alloc, front_in_b.as_slice(), back_in_b.as_slice())?;
    Ok((inside_a, inside_b))
}

/// As `near_candidates`. Where it pays for four of the workers, as many threads list the points strictly inside edges, each
/// those on half of the carriers of one set; where a thread can't be made another does its part.
pub fn near_candidates_by_threads<R: Threads + Sync>(
    rt: &R,
    alloc: Global,
    a: &Complex,
    b: &Complex,
    workers: u32,
) -> Result<Vec<Named>, OutOfMemory>
    requires first { (s : Set) × ShowsSet s a.now }
    requires second { (t : Set) × ShowsSet t b.now }
    ensures lists { IfOk result (λ v. ListsNear a.now b.now v.items) }
{
    let work = Work::Listing(a.carriers.len().min(b.carriers.len()));
    if work.crew(workers) < 4 {
        return near_candidates(alloc, a, b);
    }
    let of_a = spanned_carriers(alloc, a)?;
    let of_b = spanned_carriers(alloc, b)?;
    let (inside_a, inside_b) = cuts_by_four(rt, alloc, a, of_a.as_slice(), b, of_b.as_slice())?;
    together(alloc, a, b, inside_a.as_slice(), inside_b.as_slice())
}
