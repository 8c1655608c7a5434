//! The lock board and its passes, what holds between any two steps, and what holds on every schedule.
ghost use Rattle.std.specs.Prelude.{◌≡◌, true, false, ◌+◌, ◌<◌, ◌≤◌, IfOk, Some, None, [], ◌∷◌, ◌==◌};
ghost use Rattle.nef_board.specs.Rule.{HasTurn, TookTurn, Kept, Claimed, SawEnd, Deposited, GaveBack};
ghost use Rattle.atomic_table.specs.Table.{Allows, step};
ghost use mathlib.Core.Option.{none};
ghost use prog.Atomic.{either};
ghost use Rattle.nef_board.specs.Views.{seeing, first_view, cut, new_view};
ghost use Rattle.nef_board.specs.Laws.{SplitIsNothing, JoinIsNothing, TakingIsNothing, FailingIsNothing, TurnIsAway, FreeingIsClaim, FreeingIsNone, FreeingIsDeposit, FreeingIsGiveBack, BoardRuns};

use crate::state::BoardState;
use atomic_table::{Join, Play, Seat, Shared, Split, Table, TableRule};
use nef_core::{Board, Claim, Job, Order, OutOfMemory, Receipt, View};
use std::alloc::Global;
use std::sync::Wait;
use std::{hint, mem, thread};

/// A board whose passes take turns. One word is the turn, 0 while the turn is free and 1 while a pass has it. One slot
/// has the state. Calls wait for the turn by the runtime that the board keeps.
#[derive(Drop)]
pub struct LockBoard<'a, R, J: Job> {
    rt: &'a R,
    table: Table<BoardState<J::Out>, LockView<J::Out>, Order<'a, J>, LockRule, Global>,
    ghost word_count: { table.shared.table_id.words ≡ 1 },
    ghost slot_count: { table.shared.table_id.slots ≡ 1 },
}

/// What every pass knows, and the state that a pass found while it has the turn.
// No value of this type is made.
pub struct LockView<T> {
    pub known: View,
    pub saw: Option<BoardState<T>>,
}

/// A pass of a [`LockBoard`].
#[derive(Drop)]
pub struct LockPass<J: Job> {
    seat: Seat<BoardState<J::Out>, LockView<J::Out>>,
    number: u64,
    made: u64,
    ended: bool,
    pub ghost live: { seat.me.0.known.live ≡ true },
    pub ghost same_number: { seat.me.0.known.number ≡ number },
    pub ghost same_made: { seat.me.0.known.made ≡ made },
    pub ghost room: { seat.me.0.known.made + seat.me.0.known.spare ≤ 4294967296 },
    pub ghost same_end: { seat.me.0.known.ended ≡ ended },
    pub ghost away: { seat.me.0.saw ≡ None },
    pub ghost free: { seat.me.1 ≡ [] },
}

impl<'a, R: Wait + Sync, J: Job> LockBoard<'a, R, J> {
    /// Returns a board for this job value, and its first pass, which may make one pass fewer than there are seats.
    /// `OutOfMemory` says that memory was wanted and not found.
    pub fn new(
        rt: &'a R,
        alloc: Global,
        job: &'a J,
        seats: u32,
    ) -> Result<(LockBoard<'a, R, J>, LockPass<J>), OutOfMemory>
        requires { 0 < seats }
        ensures made_for { IfOk result (λ b. ⟦<LockBoard<'a, R, J> as Board<J>>⟧.made_for b.0 ≡ job.now) }
        ensures first { IfOk result (λ b. ⟦<LockBoard<'a, R, J> as Board<J>>⟧.belongs b.0 b.1 × (⟦<LockBoard<'a, R, J> as Board<J>>⟧.number b.1 ≡ 0)) }
        ensures spare { IfOk result (λ b. ⟦<LockBoard<'a, R, J> as Board<J>>⟧.spare b.1 + 1 ≡ seats) }
        ensures idle { IfOk result (λ b. (⟦<LockBoard<'a, R, J> as Board<J>>⟧.hand b.1 ≡ None) × (⟦<LockBoard<'a, R, J> as Board<J>>⟧.ended b.1 ≡ false) × (⟦<LockBoard<'a, R, J> as Board<J>>⟧.deposits b.1 ≡ [])) }
    {
        let jobs = job.jobs();
        let state = BoardState::new(alloc, jobs)?;
        let mut slots = Vec::with_capacity(alloc, 1)?;
        slots.push_reserved(state);
        let words = [0u64];
        let order = Order { job, jobs, seats };
        match Table::new(alloc, words.as_slice(), slots, &order) {
            Ok((table, seat)) => Ok((
                LockBoard { rt, table },
                LockPass {
                    seat,
                    number: 0,
                    made: 1,
                    ended: false,
                },
            )),
            Err(_) => Err(OutOfMemory),
        }
    }
}

// How often a pass asks for the turn before it lets other threads run: each pass has the turn for a short time only.
const TRIES: u32 = 64;

// How long a pass waits before it asks for the turn again. A request takes the turn's memory away from the pass that
// has the turn; a pass that gives the turn back and asks for it at once mostly works on without waiting.
const PAUSES: u32 = 16;

// Waits a little, or lets other threads run after many requests. Returns how often the turn was asked for since then.
fn wait(asked: u32) -> u32 {
    if asked < TRIES {
        for _ in 0..PAUSES {
            hint::spin_loop();
        }
        asked + 1
    } else {
        thread::yield_now();
        0
    }
}

// Takes the turn. Mostly the turn is free, and one request is enough.
fn take_turn<R: Wait, T, K, P: TableRule<BoardState<T>, LockView<T>, K>>(
    rt: &R,
    shared: &Shared<BoardState<T>, LockView<T>, K, P>,
    seat: &mut Seat<BoardState<T>, LockView<T>>,
)
    requires of { seat.old.table_id ≡ shared.now.table_id }
    requires word { 0 < shared.now.table_id.words }
    requires free { seat.old.me.1 ≡ [] }
    requires rule { Allows (P.holds shared.now.key) shared.now.table_id.slots seat.old.id seat.old.me 0 (λ n. either (n == 0) 1 n) (TookTurn (step shared.now.table_id.slots 0 0 1 none) seat.old.me) }
    ensures of { (seat.new.table_id ≡ seat.old.table_id) × (seat.new.id ≡ seat.old.id) }
    ensures found { HasTurn seat.old.me.0 seat.new.me }
{
    let mut asked = 0;
    for _ in rt.forever() {
        if shared.compare_exchange::<Takes>(seat, 0, 0, 1) == 0 {
            return;
        }
        asked = wait(asked);
    }
    unreachable!()
}

impl<'a, R: Wait + Sync, J: Job> Board<J> for LockBoard<'a, R, J> {
    const FREE: bool = false;

    type Pass = LockPass<J>;

    ghost made_for = { λ b. b.table.shared.key.job.now };

    ghost belongs = { λ b p. (p.seat.table_id ≡ b.table.shared.table_id) × (p.seat.me.0.known.jobs ≡ b.table.shared.key.jobs) × (b.table.shared.key.jobs ≡ J.count b.table.shared.key.job.now) };

    ghost number = { λ p. p.seat.me.0.known.number };

    ghost spare = { λ p. p.seat.me.0.known.spare };

    ghost hand = { λ p. p.seat.me.0.known.hand };

    ghost ended = { λ p. p.seat.me.0.known.ended };

    ghost deposits = { λ p. p.seat.me.0.known.deposits };

    fn split(&self, pass: &mut LockPass<J>) -> LockPass<J> {
        let number = pass.made;
        let seat = self.table.shared.split_seat::<Cut>(&mut pass.seat);
        pass.made += 1;
        LockPass {
            seat,
            number,
            made: 0,
            ended: false,
        }
    }

    fn join(&self, pass: &mut LockPass<J>, other: LockPass<J>) {
        self.table
            .shared
            .join_seat::<Cut>(&mut pass.seat, other.seat);
    }

    fn claim(&self, pass: &mut LockPass<J>) -> Claim {
        if pass.ended {
            return Claim::NoneLeft;
        }
        take_turn(self.rt, &self.table.shared, &mut pass.seat);
        let state = pass.seat.slot_mut(&self.table.shared, 0);
        let claim = state.claim(pass.number);
        match claim {
            Claim::Got(job) => {
                self.table.shared.store::<Claims>(&mut pass.seat, 0, 0);
                Claim::Got(job)
            }
            Claim::NoneLeft => {
                self.table.shared.store::<Ends>(&mut pass.seat, 0, 0);
                pass.ended = true;
                Claim::NoneLeft
            }
        }
    }

    fn deposit(&self, pass: &mut LockPass<J>, job: u64, out: J::Out) -> Receipt {
        take_turn(self.rt, &self.table.shared, &mut pass.seat);
        let state = pass.seat.slot_mut(&self.table.shared, 0);
        let receipt = state.deposit(pass.number, job, out);
        self.table.shared.store::<Deposits>(&mut pass.seat, 0, 0);
        receipt
    }

    fn give_back(&self, pass: &mut LockPass<J>, job: u64) {
        take_turn(self.rt, &self.table.shared, &mut pass.seat);
        let state = pass.seat.slot_mut(&self.table.shared, 0);
        state.give_back(pass.number, job);
        self.table.shared.store::<GivesBack>(&mut pass.seat, 0, 0);
    }

    fn close(
        self,
        alloc: Global,
        mut pass: LockPass<J>,
    ) -> Result<Vec<Option<J::Out>>, OutOfMemory> {
        take_turn(self.rt, &self.table.shared, &mut pass.seat);
        let state = pass.seat.slot_mut(&self.table.shared, 0);
        let results = mem::replace(&mut state.results, Vec::new(alloc));
        let mut closed = self.table.close_with(pass.seat);
        drop(closed.take(0));
        closed.free();
        Ok(results)
    }
}

/// The rule of the board: the state at home, or seen by the pass that has the turn, is sound and fits all views.
pub struct LockRule;

impl<'a, J: Job> TableRule<BoardState<J::Out>, LockView<J::Out>, Order<'a, J>> for LockRule {
    ghost holds = { λ order s. Kept order.jobs order.seats (J.right order.job.now) s };

    ghost first = { λ order. first_view order.jobs order.seats };
}

/// The step that tries to take the turn.
pub struct Takes;

impl<T> Play<BoardState<T>, LockView<T>> for Takes {
    ghost then = { TookTurn };
}

/// The step that frees the turn after a claim that got a job.
pub struct Claims;

impl<T> Play<BoardState<T>, LockView<T>> for Claims {
    ghost then = { Claimed };
}

/// The step that frees the turn after a claim that got no job.
pub struct Ends;

impl<T> Play<BoardState<T>, LockView<T>> for Ends {
    ghost then = { SawEnd };
}

/// The step that frees the turn after a deposit.
pub struct Deposits;

impl<T> Play<BoardState<T>, LockView<T>> for Deposits {
    ghost then = { Deposited };
}

/// The step that frees the turn after a giving back.
pub struct GivesBack;

impl<T> Play<BoardState<T>, LockView<T>> for GivesBack {
    ghost then = { GaveBack };
}

/// The cut of a pass into two, and the taking in of a pass by another.
pub struct Cut;

impl<T> Split<LockView<T>> for Cut {
    ghost left = { cut };

    ghost right = { new_view };
}

impl<T> Join<LockView<T>> for Cut {
    ghost use Rattle.nef_board.specs.Views.{taken_in, spent};

    ghost both = { taken_in };

    ghost spent = { spent };
}

/// Each kind of atomic step leaves the machine as it is, but for the store that frees the turn, which is the one event
/// of its call. The steps are splitting and joining a seat, the compare-exchange of the turn, the change of the state
/// in its slot by the pass that has the turn, and that store.
pub fn steps_are_events<J: Job>()
    ensures split { (work : J) → SplitIsNothing (J.right work) }
    ensures join { (work : J) → JoinIsNothing (J.right work) }
    ensures take { (work : J) → TakingIsNothing (J.right work) }
    ensures fail { (work : J) → FailingIsNothing (J.right work) }
    ensures exchange { (work : J) → TurnIsAway (J.right work) }
    ensures claim { (work : J) → FreeingIsClaim (J.right work) }
    ensures past { (work : J) → FreeingIsNone (J.right work) }
    ensures deposit { (work : J) → FreeingIsDeposit (J.right work) }
    ensures give_back { (work : J) → FreeingIsGiveBack (J.right work) }
{}

/// Whenever the state is home, its machine is the replay of the legal history that it keeps, in which each pass has
/// just its job in hand, one claim and one deposit for each job that the pass deposited or took in, and one giving back
/// for each further claim. Each job that is done has its right result, and no other job has a result.
pub fn board_runs<J: Job>()
    ensures { (work : J) → BoardRuns (J.right work) }
{}
