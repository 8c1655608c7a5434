//! The lock-free board and its passes, what holds between any two steps, and what holds on every schedule.
ghost use Rattle.std.specs.Prelude.{◌≡◌, ℕ, true, false, ◌+◌, ◌<◌, ◌≤◌, IfOk, Some, None, [], ◌==◌, if◌then◌else◌, vec_len, vec_capacity, slice_get};
ghost use Rattle.std.specs.Mem.Slots.{slots_items, slots_len, IsFull};
ghost use mathlib.Core.Option.{some};
ghost use lib.ListN.{get_elem?};
ghost use Rattle.nef_free.specs.Rule.{carried, is_below, Kept, Claimed, Deposited, GaveBack};
ghost use Rattle.nef_core.specs.Passes.{first_view, cut, new_view};
ghost use Rattle.nef_free.specs.Laws.{DrawIsClaim, DrawPastIsNone, StoreIsDeposit, StoreIsGiveBack, SplitIsNothing, JoinIsNothing, HeldIsAway, BoardRuns};

use atomic_table::{Closed, Join, Play, Seat, Split, Table, TableRule};
use nef_core::{Board, Claim, Job, Order, OutOfMemory, Receipt, View};
use std::alloc::Global;

/// A board whose passes wait for nobody. The first word is the next number. Each job has a word, 0 while the job isn't
/// settled, 1 once it is done and 2 once it was given back, and a slot for its result.
#[derive(Drop)]
pub struct FreeBoard<'a, J: Job> {
    jobs: u64,
    table: Table<Option<J::Out>, View, Order<'a, J>, FreeRule, Global>,
    ghost jobs_are: { jobs ≡ table.shared.key.jobs },
    ghost word_count: { table.shared.table_id.words ≡ jobs + 1 },
    ghost slot_count: { table.shared.table_id.slots ≡ jobs },
}

/// A pass of a [`FreeBoard`].
#[derive(Drop)]
pub struct FreePass<J: Job> {
    seat: Seat<Option<J::Out>, View>,
    ended: bool,
    ghost live: { seat.me.0.live ≡ true },
    ghost same_end: { seat.me.0.ended ≡ ended },
    ghost held: { seat.me.1 ≡ carried seat.me.0.hand },
    ghost below: { is_below seat.me.0.jobs seat.me.0.hand ≡ true },
}

impl<'a, J: Job> FreeBoard<'a, J> {
    /// Returns a board for this job value, and its first pass, which may make one pass fewer than there are seats.
    /// `OutOfMemory` says that memory was wanted and not found.
    pub fn new(
        alloc: Global,
        job: &'a J,
        seats: u32,
    ) -> Result<(FreeBoard<'a, J>, FreePass<J>), OutOfMemory>
        requires { 0 < seats }
        ensures made_for { IfOk result (λ b. ⟦<FreeBoard<'a, J> as Board<J>>⟧.made_for b.0 ≡ job.now) }
        ensures first { IfOk result (λ b. ⟦<FreeBoard<'a, J> as Board<J>>⟧.belongs b.0 b.1 × (⟦<FreeBoard<'a, J> as Board<J>>⟧.number b.1 ≡ 0)) }
        ensures spare { IfOk result (λ b. ⟦<FreeBoard<'a, J> as Board<J>>⟧.spare b.1 + 1 ≡ seats) }
        ensures idle { IfOk result (λ b. (⟦<FreeBoard<'a, J> as Board<J>>⟧.hand b.1 ≡ None) × (⟦<FreeBoard<'a, J> as Board<J>>⟧.ended b.1 ≡ false) × (⟦<FreeBoard<'a, J> as Board<J>>⟧.deposits b.1 ≡ [])) }
    {
        let jobs = job.jobs();
        // no memory holds as many words as an address can count
        let Some(count) = (jobs as usize).checked_add(1) else {
            return Err(OutOfMemory);
        };
        let words = Vec::from_elem(alloc, 0u64, count)?;
        let order = Order { job, jobs, seats };
        let (table, seat) = Table::vacant(alloc, words.as_slice(), jobs as usize, &order)?;
        Ok((FreeBoard { jobs, table }, FreePass { seat, ended: false }))
    }
}

impl<'a, J: Job> Board<J> for FreeBoard<'a, J> {
    const FREE: bool = true;

    type Pass = FreePass<J>;

    ghost made_for = { λ b. b.table.shared.key.job.now };

    ghost belongs = { λ b p. (p.seat.table_id ≡ b.table.shared.table_id) × (p.seat.me.0.jobs ≡ b.jobs) × (b.jobs ≡ J.count b.table.shared.key.job.now) };

    ghost number = { λ p. p.seat.me.0.number };

    ghost spare = { λ p. p.seat.me.0.spare };

    ghost hand = { λ p. p.seat.me.0.hand };

    ghost ended = { λ p. p.seat.me.0.ended };

    ghost deposits = { λ p. p.seat.me.0.deposits };

    fn split(&self, pass: &mut FreePass<J>) -> FreePass<J> {
        let seat = self.table.shared.split_seat::<Cut>(&mut pass.seat);
        FreePass { seat, ended: false }
    }

    fn join(&self, pass: &mut FreePass<J>, other: FreePass<J>) {
        self.table
            .shared
            .join_seat::<Cut>(&mut pass.seat, other.seat);
    }

    fn claim(&self, pass: &mut FreePass<J>) -> Claim {
        if pass.ended {
            return Claim::NoneLeft;
        }
        let found = self.table.shared.fetch_add::<Claims>(&mut pass.seat, 0, 1);
        if found < self.jobs {
            Claim::Got(found)
        } else {
            pass.ended = true;
            Claim::NoneLeft
        }
    }

    fn deposit(&self, pass: &mut FreePass<J>, job: u64, out: J::Out) -> Receipt {
        let place = job as usize;
        self.table.shared.exchange(&mut pass.seat, place, Some(out));
        self.table
            .shared
            .store::<Deposits>(&mut pass.seat, place + 1, 1);
        Receipt { job }
    }

    fn give_back(&self, pass: &mut FreePass<J>, job: u64) {
        let place = job as usize;
        self.table
            .shared
            .store::<GivesBack>(&mut pass.seat, place + 1, 2);
    }

    fn close(self, alloc: Global, pass: FreePass<J>) -> Result<Vec<Option<J::Out>>, OutOfMemory> {
        let mut results = Vec::with_capacity(alloc, self.jobs as usize)?;
        let closed = self.table.close_with(pass.seat);
        Ok(gathered(closed, results))
    }
}

// The result of a job, where the job's word is 1, which says that the job is done.
fn kept<T: Drop>(word: u64, out: Option<T>) -> Option<T>
    ensures { result ≡ (if word == 1 then out else None) }
{
    if word == 1 { out } else { None }
}

// The results in the slots of all jobs, where the job's word is 1, and `None` for each other job.
fn gathered<T: Drop>(
    mut closed: Closed<Option<T>, Global>,
    mut results: Vec<Option<T>>,
) -> Vec<Option<T>>
    requires empty { results.items ≡ [] }
    requires room { slots_len closed.slots ≤ vec_capacity results }
    requires full { IsFull closed.words × IsFull closed.slots }
    requires words { slots_len closed.words ≡ slots_len closed.slots + 1 }
    ensures len { vec_len result ≡ slots_len closed.slots }
    ensures each { (i n : ℕ) (y : _) → get_elem? (slots_items closed.words) (i + 1) ≡ some n → get_elem? (slots_items closed.slots) i ≡ some y → slice_get result.items i ≡ Some (if n == 1 then y else None) }
{
    let mut next = 0;
    while next < closed.slot_count() {
        let word = closed.word(next + 1);
        let out = closed.take(next);
        results.push_reserved(kept(word, out));
        next += 1;
    }
    closed.free();
    results
}

/// The rule of the board: the words, homes and views show the machine after some legal history.
pub struct FreeRule;

impl<'a, J: Job> TableRule<Option<J::Out>, View, Order<'a, J>> for FreeRule {
    ghost holds = { λ order s. Kept order.jobs order.seats (J.right order.job.now) s };

    ghost first = { λ order. first_view order.jobs order.seats };
}

/// The step that adds to the first word, and takes the slot of the job with the number found.
pub struct Claims;

impl<T> Play<Option<T>, View> for Claims {
    ghost then = { Claimed };
}

/// The step that stores 1 in the word of the job in hand.
pub struct Deposits;

impl<T> Play<Option<T>, View> for Deposits {
    ghost then = { Deposited };
}

/// The step that stores 2 in the word of the job in hand.
pub struct GivesBack;

impl<T> Play<Option<T>, View> for GivesBack {
    ghost then = { GaveBack };
}

/// The cut of a pass into two, and the taking in of a pass by another.
pub struct Cut;

impl Split<View> for Cut {
    ghost left = { cut };

    ghost right = { new_view };
}

impl Join<View> for Cut {
    ghost use Rattle.nef_core.specs.Passes.{taken_in, spent};

    ghost both = { taken_in };

    ghost spent = { spent };
}

/// Each kind of atomic step is one event of the machine that the words, homes and views show, or leaves the machine as
/// it is: adding to the first word, the stores of 1 and of 2, splitting and joining a seat, and the exchange on a slot.
pub fn steps_are_events<J: Job>()
    ensures draw { (work : J) → DrawIsClaim (J.right work) }
    ensures past { (work : J) → DrawPastIsNone (J.right work) }
    ensures deposit { (work : J) → StoreIsDeposit (J.right work) }
    ensures give_back { (work : J) → StoreIsGiveBack (J.right work) }
    ensures split { (work : J) → SplitIsNothing (J.right work) }
    ensures join { (work : J) → JoinIsNothing (J.right work) }
    ensures exchange { (work : J) → HeldIsAway (J.right work) }
{}

/// Between any two steps the board shows the replay of a legal history, in which each pass has just its job in hand, a
/// claim and a deposit for each job that it deposited or took in, and a giving back for each further claim.
pub fn board_runs<J: Job>()
    ensures { (work : J) → BoardRuns (J.right work) }
{}
