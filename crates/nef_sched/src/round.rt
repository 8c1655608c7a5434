//! Numbers are put into a round, taken by its passes, and accounted for at the end; what holds on every schedule.
ghost use Rattle.std.specs.Prelude.{◌≡◌, ℕ, true, false, ◌+◌, ◌^◌, ◌<◌, ◌≤◌, ◌||◌, None, [], ◌∷◌, ◌++◌, length, All, IfOk, IfSome, MatchOption, vec_len, vec_capacity};
ghost use Rattle.crossbeam_queue.specs.Passes.{view, IsPassOf, ruled_capacity};
ghost use Rattle.nef_sched.specs.Counts.{times, Differ, IsDealt};
ghost use Rattle.nef_sched.specs.Rounds.{IsPassInRound, parts, known, taken, ended, any_ended, total_parts, times_taken, numbers_of, TookAll, IsFresh};
ghost use Rattle.nef_sched.specs.Rule.{Took};
ghost use Rattle.nef_sched.specs.Views.{first_view, put, whole};
ghost use Rattle.nef_sched.specs.Laws.{BeginKeeps, PutKeeps, EndKeeps, TakeKeeps, ForkKeeps, MergeKeeps, NoneTwice, NoneTakenIsLeft, PassesAgree, NoneIsLost, EndedIsEmpty, NumbersAreKnown};

use crate::OutOfMemory;
use crate::pass::{Cut, Puts, Round, RoundPass, RoundRule, Takes, View};
use crossbeam_queue::{Pass, RuledArrayQueue};
use std::alloc::Global;
use std::sync::Wait;

type RoundQueue = RuledArrayQueue<Option<usize>, View, RoundRule>;

/// What became of the numbers of a round.
#[derive(Drop)]
pub struct Taken {
    /// The numbers that the passes took.
    pub taken: Vec<usize>,
    /// The numbers that no pass took.
    pub left: Vec<usize>,
}

impl Round {
    /// Returns a round of these numbers, and this many passes of it, which have taken nothing and
    /// haven't ended.
    ///
    /// The numbers differ, and there is at least one number and one pass. The parts of the passes
    /// add up to 2^32. The call may wait on the queue. `OutOfMemory` says that memory was wanted
    /// and not found.
    pub fn new<R: Wait>(
        rt: &R,
        alloc: Global,
        numbers: &[usize],
        passes: u32,
    ) -> Result<(Round, Vec<RoundPass>), OutOfMemory>
        requires differ { Differ numbers.now }
        requires some { 0 < length numbers.now }
        requires passes { 1 ≤ passes }
        ensures of { IfOk result (λ r. All (λ p. IsPassInRound r.0 p) r.1.items) }
        ensures fresh { IfOk result (λ r. All (λ p. (known p ≡ numbers.now) × (taken p ≡ []) × (ended p ≡ false)) r.1.items) }
        ensures every { IfOk result (λ r. total_parts r.1.items ≡ 2 ^ 32) }
        ensures len { IfOk result (λ r. vec_len r.1 ≡ passes) }
    {
        let left = Vec::with_capacity(alloc, numbers.len())?;
        let (queue, pass) = RoundQueue::ruled(alloc, numbers.len() + passes as usize)?;
        let pass = put_all(rt, &queue, pass, numbers);
        let pass = put_ends(rt, &queue, pass, passes);
        let list = passes_of(alloc, &queue, pass, numbers.len(), passes)?;
        Ok((Round { queue, left }, list))
    }

    /// Returns a number of the round that no pass was given before, and adds it to what the pass
    /// took.
    ///
    /// `None` says that every number was taken: the pass has ended, so that each later call answers
    /// so too, and where a pass of a round has ended `close` finds no number left. Where the round
    /// has one pass, `None` comes exactly where that pass took all numbers. The call may wait on the
    /// queue. Takes no memory.
    pub fn take<R: Wait>(&self, rt: &R, pass: &mut RoundPass) -> Option<usize>
        requires of { IsPassInRound self.now pass.old }
        ensures of { IsPassInRound self.now pass.new }
        ensures same { (parts pass.new ≡ parts pass.old) × (known pass.new ≡ known pass.old) }
        ensures number { MatchOption result (taken pass.new ≡ taken pass.old) (λ x. (taken pass.new ≡ taken pass.old ++ x ∷ []) × (times x (known pass.old) ≡ 1) × (times x (taken pass.old) ≡ 0)) }
        ensures ended { MatchOption result (ended pass.new ≡ true) (λ _. ended pass.new ≡ false) }
        ensures stays { ended pass.old ≡ true → result ≡ None }
        ensures alone { parts pass.old ≡ 2 ^ 32 → MatchOption result (TookAll pass.old) (λ _. ¬ (TookAll pass.old)) }
    {
        if pass.ended {
            return None;
        }
        let number = pop(rt, &self.queue, &mut pass.pass);
        match number {
            Some(number) => pass.taken.push_reserved(number),
            None => pass.ended = true,
        }
        number
    }

    /// Returns what the passes took and what no pass took, which together are the round's numbers,
    /// each once. Where some pass has ended, none is left.
    ///
    /// The list holds every pass of the round, each once: the passes are of this round, and their
    /// parts add up to 2^32. The call may wait on the queue. Takes no memory.
    pub fn close<R: Wait>(self, rt: &R, mut passes: Vec<RoundPass>) -> Taken
        requires of { All (λ p. IsPassInRound self p) passes.items }
        requires every { total_parts passes.items ≡ 2 ^ 32 }
        ensures each { IsDealt (numbers_of passes.items) result.taken.items result.left.items }
        ensures taken { (x : ℕ) → times x result.taken.items ≡ times_taken x passes.items }
        ensures ended { any_ended passes.items ≡ true → result.left.items ≡ [] }
    {
        let Round { queue, left } = self;
        let Some(mut whole) = passes.pop() else {
            unreachable!()
        };
        while let Some(other) = passes.pop() {
            whole = joined(&queue, whole, other);
        }
        let RoundPass { pass, taken, .. } = whole;
        let left = drained(rt, &queue, pass, left);
        Taken { taken, left }
    }
}

// Takes a number from the queue, or `None` where it takes an end, which stands there for each pass that hasn't ended.
fn pop<R: Wait>(rt: &R, queue: &RoundQueue, pass: &mut Pass<Option<usize>, View>) -> Option<usize>
    requires of { IsPassOf queue.now pass.old }
    requires part { 0 < (view pass.old).parts }
    requires due { 0 < (view pass.old).due }
    ensures of { IsPassOf queue.now pass.new }
    ensures took { Took (view pass.old) result (view pass.new) }
{
    queue.pop_as::<Takes, R>(rt, pass).flatten()
}

// Puts a number or an end into the queue, in which there is room for it.
fn put_item<R: Wait>(
    rt: &R,
    queue: &RoundQueue,
    pass: &mut Pass<Option<usize>, View>,
    item: Option<usize>,
)
    requires of { IsPassOf queue.now pass.old }
    requires whole { (known : _) × (due : ℕ) × (view pass.old ≡ whole known due) × (length known + due < ruled_capacity queue.now) × IfSome item (λ x. (due ≡ 0) × (times x known ≡ 0)) }
    ensures of { IsPassOf queue.now pass.new }
    ensures put { view pass.new ≡ put (view pass.old) item }
{
    let Ok(()) = queue.push_as::<Puts, R>(rt, pass, item) else {
        unreachable!()
    };
}

// Puts the numbers into the queue.
fn put_all<R: Wait>(
    rt: &R,
    queue: &RoundQueue,
    mut pass: Pass<Option<usize>, View>,
    numbers: &[usize],
) -> Pass<Option<usize>, View>
    requires of { IsPassOf queue.now pass }
    requires first { view pass ≡ first_view }
    requires differ { Differ numbers.now }
    requires room { length numbers.now ≤ ruled_capacity queue.now }
    ensures of { IsPassOf queue.now result }
    ensures all { view result ≡ whole numbers.now 0 }
{
    for number in numbers {
        put_item(rt, queue, &mut pass, Some(*number));
    }
    pass
}

// Puts so many ends behind the numbers that the pass knows.
fn put_ends<R: Wait>(
    rt: &R,
    queue: &RoundQueue,
    mut pass: Pass<Option<usize>, View>,
    count: u32,
) -> Pass<Option<usize>, View>
    requires of { IsPassOf queue.now pass }
    requires all { view pass ≡ whole (view pass).known 0 }
    requires room { length (view pass).known + count ≤ ruled_capacity queue.now }
    ensures of { IsPassOf queue.now result }
    ensures all { view result ≡ whole (view pass).known count }
{
    for _ in 0..count {
        put_item(rt, queue, &mut pass, None);
    }
    pass
}

// A pass of the round that took nothing, with room for so many numbers.
fn pass_of(
    alloc: Global,
    pass: Pass<Option<usize>, View>,
    room: usize,
) -> Result<RoundPass, OutOfMemory>
    requires part { 0 < (view pass).parts }
    requires fresh { ((view pass).taken ≡ []) × ((view pass).ended ≡ false) }
    requires due { 0 < (view pass).due }
    requires room { length (view pass).known ≤ room }
    ensures pass { IfOk result (λ p. p.pass ≡ pass) }
    ensures fresh { IfOk result (λ p. taken p ≡ []) }
{
    let taken = Vec::with_capacity(alloc, room)?;
    Ok(RoundPass {
        pass,
        taken,
        ended: false,
    })
}

// Makes the other passes, each with room for all numbers.
fn passes_of(
    alloc: Global,
    queue: &RoundQueue,
    mut pass: Pass<Option<usize>, View>,
    room: usize,
    passes: u32,
) -> Result<Vec<RoundPass>, OutOfMemory>
    requires of { IsPassOf queue.now pass }
    requires all { (view pass).parts ≡ 2 ^ 32 }
    requires fresh { ((view pass).taken ≡ []) × ((view pass).ended ≡ false) }
    requires due { (view pass).due ≡ passes }
    requires room { length (view pass).known ≡ room }
    requires passes { 1 ≤ passes }
    ensures of { IfOk result (λ v. All (λ p. IsPassOf queue.now p.pass) v.items) }
    ensures fresh { IfOk result (λ v. All (IsFresh (view pass).known) v.items) }
    ensures every { IfOk result (λ v. total_parts v.items ≡ 2 ^ 32) }
    ensures len { IfOk result (λ v. vec_len v ≡ passes) }
{
    let mut list = Vec::with_capacity(alloc, passes as usize)?;
    for _ in 1..passes {
        let other = queue.another::<Cut>(&mut pass);
        let more = pass_of(alloc, other, room)?;
        list.push_reserved(more);
    }
    let last = pass_of(alloc, pass, room)?;
    list.push_reserved(last);
    Ok(list)
}

// Takes the other pass in, with what it took.
fn joined(queue: &RoundQueue, into: RoundPass, other: RoundPass) -> RoundPass
    requires of { IsPassOf queue.now into.pass × IsPassOf queue.now other.pass }
    ensures of { IsPassOf queue.now result.pass }
    ensures parts { parts result ≡ parts into + parts other }
    ensures known { known result ≡ known into }
    ensures taken { taken result ≡ taken into ++ taken other }
    ensures ended { ended result ≡ (ended into || ended other) }
{
    let RoundPass {
        mut pass,
        mut taken,
        ended,
    } = into;
    let mut more = other.taken;
    queue.absorb::<Cut>(&mut pass, other.pass);
    queue.learn_as::<Takes>(&mut pass);
    // the list has room for all numbers
    let Ok(()) = taken.append(&mut more) else {
        unreachable!()
    };
    RoundPass {
        pass,
        taken,
        ended: ended | other.ended,
    }
}

// Takes out what is still in the queue.
fn drained<R: Wait>(
    rt: &R,
    queue: &RoundQueue,
    mut pass: Pass<Option<usize>, View>,
    mut left: Vec<usize>,
) -> Vec<usize>
    requires of { IsPassOf queue.now pass }
    requires all { (view pass).parts ≡ 2 ^ 32 }
    requires empty { left.items ≡ [] }
    requires room { length (view pass).known ≤ vec_capacity left }
    ensures each { IsDealt (view pass).known (view pass).taken result.items }
    ensures ended { (view pass).ended ≡ true → result.items ≡ [] }
{
    while let Some(item) = queue.pop_as::<Takes, R>(rt, &mut pass) {
        if let Some(number) = item {
            left.push_reserved(number);
        }
    }
    left
}

/// Each kind of step keeps the queue's rule: the first pass is made, the maker puts a number or an
/// end, a pass takes one, a pass makes another, and a pass is taken in.
pub fn steps_keep_the_rule()
    ensures begin { BeginKeeps }
    ensures put { PutKeeps }
    ensures end { EndKeeps }
    ensures take { TakeKeeps }
    ensures fork { ForkKeeps }
    ensures merge { MergeKeeps }
{}

/// Between any two steps all passes with a part know the same numbers, no number was taken twice,
/// by one pass or by two, none that was taken is still in the queue, and none is lost. Where some
/// pass has ended, the queue holds no number. The numbers that `close` accounts for are those that
/// each pass of its list knows.
pub fn passes_agree()
    ensures known { PassesAgree }
    ensures once { NoneTwice }
    ensures apart { NoneTakenIsLeft }
    ensures none_lost { NoneIsLost }
    ensures ended { EndedIsEmpty }
    ensures listed { NumbersAreKnown }
{}
