//! Jobs, what hands them out, and what keeps their results.
ghost use Rattle.std.specs.Prelude.{◌≡◌, ℕ, Bool, true, false, ◌+◌, ◌<◌, IfOk, Option, Some, None, List, [], ◌∷◌, ◌++◌, slice_get, vec_len, replicate};
ghost use Rattle.nef_core.specs.Views.{MatchClaim, has_job};
ghost use Rattle.nef_core.specs.Results.{IsClosedWith};

use crate::OutOfMemory;
use std::alloc::Global;
use std::collections::LinkedList;

/// Numbered jobs, each with results that are right for it.
pub trait Job: Sync {
    type Out: Send + Drop;

    /// How many jobs there are.
    ghost count: { Self → ℕ };

    /// The result is right for the job of this number.
    ghost right: { Self → ℕ → Self.Out → Type 0 };

    /// What has to be known of the job value, so that its jobs can be worked. Nothing, where the
    /// value's type says it all.
    ghost workable: { Self → Type 0 } = { λ job. Unit {0} };

    /// Returns the number of jobs; they are numbered from 0.
    fn jobs(&self) -> u64
        ensures { result ≡ count self.now };

    /// Works the job of this number and returns a right result for it.
    ///
    /// `OutOfMemory` says that memory was wanted and not found.
    fn work(&self, alloc: Global, job: u64) -> Result<Self::Out, OutOfMemory>
        requires job { job < count self.now }
        requires workable { workable self.now }
        ensures { IfOk result (λ out. right self.now job out) };
}

/// What the table of a board is told once: the job value, how many jobs it has, and how many
/// passes there may be.
#[derive(Drop)]
pub struct Order<'a, J: Job> {
    pub job: &'a J,
    pub jobs: u64,
    pub seats: u32,
}

/// The answer to a claim: a job, or that every number was handed out.
#[derive(Clone, Copy, PartialEq, Eq)]
pub enum Claim {
    /// The job of this number.
    Got(u64),
    /// Every number was handed out.
    NoneLeft,
}

/// The job that was deposited.
#[derive(Clone, Copy)]
pub struct Receipt {
    pub job: u64,
}

/// What a pass of a board knows.
// No value of it is made.
pub struct View {
    /// No other pass took it in.
    pub live: bool,
    pub number: u64,
    /// How many jobs the board has.
    pub jobs: u64,
    /// How many passes there are, where this one may make more.
    pub made: u64,
    /// How many passes it may still make.
    pub spare: u64,
    /// The job in its hand.
    pub hand: Option<u64>,
    /// It was answered `NoneLeft`.
    pub ended: bool,
    /// The jobs that it deposited or took in, each with the number of the pass that deposited it.
    pub deposits: LinkedList<(u64, u64)>,
}

/// Hands out each job of one job value once, and keeps the results.
///
/// Whoever works at a board has a pass. A pass is seen as five things: its number, how many
/// passes it may still make, the job in its hand if any, whether it was answered `NoneLeft`, and
/// the deposits that it made or took in, each with the number of the pass that made it.
pub trait Board<J: Job>: Sync + Drop {
    /// Its passes wait for nobody.
    const FREE: bool;

    type Pass: Send + Drop;

    /// The job value that the board was made for.
    ghost made_for: { Self → J };

    /// The pass is one of this board.
    ghost belongs: { Self → Self.Pass → Type 0 };

    ghost number: { Self.Pass → ℕ };

    /// How many passes it may still make.
    ghost spare: { Self.Pass → ℕ };

    /// The job that it holds.
    ghost hand: { Self.Pass → Option ℕ };

    /// It was answered `NoneLeft`.
    ghost ended: { Self.Pass → Bool };

    /// Jobs, each with the number of the pass that deposited it.
    ghost deposits: { Self.Pass → List (ℕ × ℕ) };

    /// Makes another pass, with nothing in hand and nothing deposited. Takes no memory.
    fn split(&self, pass: &mut Self::Pass) -> Self::Pass
        requires of { belongs self.now pass.old }
        requires may { 0 < spare pass.old }
        ensures of { belongs self.now pass.new × belongs self.now result }
        ensures fewer { spare pass.new + 1 ≡ spare pass.old }
        ensures same { (number pass.new ≡ number pass.old) × (hand pass.new ≡ hand pass.old) × (ended pass.new ≡ ended pass.old) × (deposits pass.new ≡ deposits pass.old) }
        ensures new { (spare result ≡ 0) × (hand result ≡ None) × (ended result ≡ false) × (deposits result ≡ []) };

    /// Takes in another pass with its deposits. Takes no memory.
    fn join(&self, pass: &mut Self::Pass, other: Self::Pass)
        requires of { belongs self.now pass.old × belongs self.now other }
        requires free { hand other ≡ None }
        ensures of { belongs self.now pass.new }
        ensures taken { deposits pass.new ≡ deposits pass.old ++ deposits other }
        ensures same { (number pass.new ≡ number pass.old) × (hand pass.new ≡ hand pass.old) × (ended pass.new ≡ ended pass.old) × (spare pass.new ≡ spare pass.old) };

    /// Asks for a job, which the pass then holds.
    ///
    /// `NoneLeft` says that every number had been handed out; the pass keeps this answer, and
    /// each later claim by it answers so too. That a job wasn't handed out before, to this pass
    /// or another, is a law of the machine that the board follows. Takes no memory.
    fn claim(&self, pass: &mut Self::Pass) -> Claim
        requires of { belongs self.now pass.old }
        requires free { hand pass.old ≡ None }
        ensures of { belongs self.now pass.new }
        ensures claim { MatchClaim result
            (λ job. (job < J.count (made_for self.now)) × (has_job job (deposits pass.old) ≡ false) × (hand pass.new ≡ Some job) × (ended pass.new ≡ false))
            ((hand pass.new ≡ None) × (ended pass.new ≡ true)) }
        ensures stays { ended pass.old ≡ true → result ≡ Claim.NoneLeft }
        ensures same { (number pass.new ≡ number pass.old) × (spare pass.new ≡ spare pass.old) × (deposits pass.new ≡ deposits pass.old) };

    /// Hands in the result of the job in hand, which is then done for good. Takes no memory.
    fn deposit(&self, pass: &mut Self::Pass, job: u64, out: J::Out) -> Receipt
        requires of { belongs self.now pass.old }
        requires held { hand pass.old ≡ Some job }
        requires right { J.right (made_for self.now) job out }
        ensures of { belongs self.now pass.new }
        ensures done { deposits pass.new ≡ deposits pass.old ++ (job, number pass.old) ∷ [] }
        ensures free { hand pass.new ≡ None }
        ensures receipt { result.job ≡ job }
        ensures same { (number pass.new ≡ number pass.old) × (spare pass.new ≡ spare pass.old) × (ended pass.new ≡ ended pass.old) };

    /// Gives up the job in hand. It isn't handed out again. Takes no memory.
    fn give_back(&self, pass: &mut Self::Pass, job: u64)
        requires of { belongs self.now pass.old }
        requires held { hand pass.old ≡ Some job }
        ensures of { belongs self.now pass.new }
        ensures free { hand pass.new ≡ None }
        ensures same { (number pass.new ≡ number pass.old) × (spare pass.new ≡ spare pass.old) × (ended pass.new ≡ ended pass.old) × (deposits pass.new ≡ deposits pass.old) };

    /// Returns for each job its right result, or `None` where the job isn't done. Every job that
    /// the pass deposited or took in has its result.
    ///
    /// `OutOfMemory` says that memory was wanted and not found; the board is gone then.
    fn close(self, alloc: Global, pass: Self::Pass) -> Result<Vec<Option<J::Out>>, OutOfMemory>
        requires of { belongs self pass }
        ensures each { IfOk result (λ v. vec_len v ≡ J.count (made_for self)) }
        ensures right { IfOk result (λ v. (job : ℕ) (out : _) → slice_get v.items job ≡ Some (Some out) → J.right (made_for self) job out) }
        ensures done { IfOk result (λ v. (job : ℕ) → has_job job (deposits pass) ≡ true → (out : _) × (slice_get v.items job ≡ Some (Some out))) }
        ensures closed { IfOk result (λ v. IsClosedWith (J.count (made_for self)) (deposits pass) v.items) };
}

/// So many entries with nothing there. `OutOfMemory` says that memory was wanted and not found.
pub fn empty_places<X: Drop>(alloc: Global, count: usize) -> Result<Vec<Option<X>>, OutOfMemory>
    ensures count { IfOk result (λ v. vec_len v ≡ count) }
    ensures items { IfOk result (λ v. v.items ≡ replicate count None) }
    ensures empty { IfOk result (λ v. (k : ℕ) (x : X) → slice_get v.items k ≡ Some (Some x) → ⊥) }
{
    let mut list = Vec::with_capacity(alloc, count)?;
    for _ in 0..count {
        list.push_reserved(None);
    }
    Ok(list)
}
