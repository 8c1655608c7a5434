//! A round, its passes and what they know, what holds between any two steps, and what each kind of step tells.
ghost use Rattle.std.specs.Prelude.{◌≡◌, true, false, ◌^◌, ◌<◌, ◌≤◌, [], length, vec_capacity};
ghost use Rattle.crossbeam_queue.specs.Passes.{view};
ghost use Rattle.nef_sched.specs.Rule.{TookEach, Kept, SawItems, Took};
ghost use Rattle.nef_sched.specs.Views.{first_view, put, cut, share};

use crossbeam_queue::protocol::{Join, Lesson, Outcome, Protocol, Split};
use crossbeam_queue::{Pass, RuledArrayQueue};
use std::collections::LinkedList;

/// The parts of a pass, the numbers that it knows were put, those that it took, how many ends it
/// may still take, and whether it took one.
// No value of it is made.
pub struct View {
    pub parts: u64,
    pub known: LinkedList<usize>,
    pub taken: LinkedList<usize>,
    pub due: u64,
    pub ended: bool,
}

/// A queue of the numbers of one round, for which each thread has a pass. Behind the numbers stands
/// one end (`None`) for each pass.
#[derive(Drop)]
pub struct Round {
    pub(crate) queue: RuledArrayQueue<Option<usize>, View, RoundRule>,
    // Room for what isn't taken when the round is closed.
    pub(crate) left: Vec<usize>,
    ghost empty: { left.items ≡ [] },
}

/// What a thread takes numbers of a [`Round`] by. It keeps what it took, and whether it found the
/// end.
#[derive(Drop)]
pub struct RoundPass {
    pub(crate) pass: Pass<Option<usize>, View>,
    pub(crate) taken: Vec<usize>,
    pub(crate) ended: bool,
    ghost some_part: { 0 < (view pass).parts },
    ghost same_taken: { (view pass).taken ≡ taken.items },
    ghost same_end: { (view pass).ended ≡ ended },
    ghost owes: { ended ≡ false → 0 < (view pass).due },
    ghost took_each: { ended ≡ true → (view pass).parts ≡ 2 ^ 32 → TookEach (view pass) },
    ghost room: { length (view pass).known ≤ vec_capacity taken },
}

/// The numbers that were put are what the passes took and what the queue holds, each once. Behind
/// them the queue holds an end for each pass that hasn't ended, so that where one has, no number
/// is left.
pub struct RoundRule;

impl Protocol<Option<usize>, View> for RoundRule {
    ghost holds = { Kept };

    ghost first = { first_view };
}

/// Puts a number, which the pass then knows, or an end.
pub struct Puts;

impl Outcome<Option<usize>, View> for Puts {
    ghost then = { λ v x w. w ≡ put v x };
}

impl Lesson<Option<usize>, View> for Puts {
    ghost fact = { SawItems };
}

/// Takes a number that no pass took before, or an end.
pub struct Takes;

impl Outcome<Option<usize>, View> for Takes {
    ghost then = { Took };
}

impl Lesson<Option<usize>, View> for Takes {
    ghost fact = { SawItems };
}

/// Gives a new pass one part, and takes a pass in.
pub struct Cut;

impl Split<View> for Cut {
    ghost left = { cut };

    ghost right = { share };
}

impl Join<View> for Cut {
    ghost use Rattle.nef_sched.specs.Views.{spent, taken_together};

    ghost both = { taken_together };

    ghost spent = { spent };
}
