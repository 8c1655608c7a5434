//! What is to be worked, number by number, the results that are there, and in which round each number is worked.
ghost use Rattle.std.specs.Prelude.{◌≡◌, ℕ, ◌<◌, Option, IfOk, IfSome, length, option_map, slice_set, ◌≢◌, ◌++◌, ◌∷◌, [], ◌≤◌, ◌⊎◌, Some, OnOk, slice_get, slice_index, vec_len};
ghost use Rattle.nef_sched.specs.Results.{kept, IsReady};
ghost use Rattle.nef_sched.specs.Plans.{round_after, AreRounds, AreGroups, IsPlan};

use crate::OutOfMemory;
use std::alloc::Global;

/// The numbers whose results a number needs, at most two.
#[derive(Clone, Copy)]
pub struct Needs {
    pub first: Option<usize>,
    pub second: Option<usize>,
}

/// The results that are there, by their numbers.
#[derive(Drop)]
pub struct Results<T> {
    pub(crate) list: Vec<Option<T>>,
}

impl<T> Results<T> {
    /// Returns the result of this number. `None` comes exactly where no result is kept for it.
    pub fn get(&self, i: usize) -> Option<&T>
        ensures { option_map (λ out. out.now) result ≡ kept self.now.list.items i }
    {
        self.list.get(i)?.as_ref()
    }
}

impl<T: Drop> Results<T> {
    // Puts this result, or none, under the number.
    pub(crate) fn set(&mut self, i: usize, out: Option<T>)
        requires number { i < length self.old.list.items }
        ensures set { self.new.list.items ≡ slice_set self.old.list.items i out }
    {
        self.list[i] = out;
    }
}

/// Numbers from 0 on, each of which can be worked once the results that it needs are there.
pub trait Stage: Sync {
    type Out: Send + Sync + Drop;

    /// How many numbers there are.
    ghost size: { Self → ℕ };

    /// The first and the second number that a number needs.
    ghost first: { Self → ℕ → Option ℕ };

    ghost second: { Self → ℕ → Option ℕ };

    /// The result fits the number.
    ghost fits: { Self → ℕ → Self.Out → Type 0 };

    /// What has to be known of the stage, so that its numbers can be worked. Nothing, where its
    /// type says it all.
    ghost workable: { Self → Type 0 } = { λ stage. Unit {0} };

    /// Returns how many numbers there are; they go from 0 on.
    fn count(&self) -> usize
        ensures { result ≡ size self.now };

    /// Returns what a number needs, which is below it.
    fn needs(&self, i: usize) -> Needs
        requires number { i < size self.now }
        requires workable { workable self.now }
        ensures first { result.first ≡ first self.now i }
        ensures second { result.second ≡ second self.now i }
        ensures below { IfSome result.first (λ k. k < i) × IfSome result.second (λ k. k < i) };

    /// Returns how long the work on a number may take, in microseconds: an estimate, by which alone it
    /// is told how many workers a round is worked by.
    ///
    /// The results that it needs are there, and they fit.
    fn load(&self, i: usize, done: &Results<Self::Out>) -> u64
        requires number { i < size self.now }
        requires workable { workable self.now }
        requires there { IsReady (fits self.now) (first self.now i) (second self.now i) done.now.list.items };

    /// Works a number, and returns a fitting result for it.
    ///
    /// The results that it needs are there, and they fit. `alone` says that no other number is
    /// being worked. `OutOfMemory` says that memory was wanted and not found.
    fn work(
        &self,
        alloc: Global,
        i: usize,
        alone: bool,
        done: &Results<Self::Out>,
    ) -> Result<Self::Out, OutOfMemory>
        requires number { i < size self.now }
        requires workable { workable self.now }
        requires there { IsReady (fits self.now) (first self.now i) (second self.now i) done.now.list.items }
        ensures { IfOk result (λ out. fits self.now i out) };
}

// The round after that of the number, or the first one where there is no number.
fn round_after(rounds: &[usize], number: Option<usize>) -> usize
    requires number { IfSome number (λ k. k < length rounds.now) }
    requires low { (k : ℕ) → k < length rounds.now → slice_index rounds.now k ≤ k }
    ensures { result ≡ round_after rounds.now number }
{
    match number {
        Some(number) => rounds[number] + 1,
        None => 0,
    }
}

// The round of each number.
fn rounds_of<T: Stage>(alloc: Global, stage: &T) -> Result<Vec<usize>, OutOfMemory>
    requires workable { T.workable stage.now }
    ensures rounds { IfOk result (λ v. AreRounds (T.size stage.now) (T.first stage.now) (T.second stage.now) v.items) }
{
    let mut rounds = Vec::with_capacity(alloc, stage.count())?;
    for number in 0..stage.count() {
        let needs = stage.needs(number);
        let first = round_after(&rounds, needs.first);
        let second = round_after(&rounds, needs.second);
        rounds.push(first.max(second))?;
    }
    Ok(rounds)
}

// So many empty groups.
fn no_groups(alloc: Global, count: usize) -> Result<Vec<Vec<usize>>, OutOfMemory>
    ensures len { IfOk result (λ v. vec_len v ≡ count) }
    ensures empty { IfOk result (λ v. (r : ℕ) (group : _) → slice_get v.items r ≡ Some group → group.items ≡ []) }
{
    let mut groups = Vec::with_capacity(alloc, count)?;
    for _ in 0..count {
        groups.push_reserved(Vec::new(alloc));
    }
    Ok(groups)
}

// Adds the number to the group with this number.
fn add_to(groups: &mut [Vec<usize>], place: usize, number: usize) -> Result<(), OutOfMemory>
    requires place { place < length groups.old }
    ensures len { length groups.new ≡ length groups.old }
    ensures here { OnOk result ((group : _) → slice_get groups.new place ≡ Some group → (before : _) × (slice_get groups.old place ≡ Some before) × (group.items ≡ before.items ++ number ∷ [])) }
    ensures other { OnOk result ((r : ℕ) → r ≢ place → slice_get groups.new r ≡ slice_get groups.old r) }
{
    groups[place].push(number)?;
    Ok(())
}

// The numbers of each round, given the round of each number. There are as many groups as numbers, so the last may be empty.
fn grouped(alloc: Global, rounds: &[usize]) -> Result<Vec<Vec<usize>>, OutOfMemory>
    requires low { (k : ℕ) → k < length rounds.now → slice_index rounds.now k < length rounds.now }
    ensures groups { IfOk result (λ v. AreGroups (length rounds.now) rounds.now v.items) }
{
    let mut groups = no_groups(alloc, rounds.len())?;
    let list = groups.as_mut_slice();
    for number in 0..rounds.len() {
        add_to(list, rounds[number], number)?;
    }
    Ok(groups)
}

/// Returns the numbers of each round: each number comes into the first round after those of the numbers
/// that it needs.
///
/// `OutOfMemory` says that memory was wanted and not found.
pub(crate) fn plan_of<T: Stage>(alloc: Global, stage: &T) -> Result<Vec<Vec<usize>>, OutOfMemory>
    requires workable { T.workable stage.now }
    ensures plan { IfOk result (λ v. IsPlan (T.size stage.now) (T.first stage.now) (T.second stage.now) v.items) }
{
    let rounds = rounds_of(alloc, stage)?;
    grouped(alloc, &rounds)
}
