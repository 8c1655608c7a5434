//! The state that the lock keeps.
use nef_core::{Claim, Event, Machine, OutOfMemory, Receipt, empty_places};
use std::alloc::Global;

/// The machine, which is the replay of the history; the history; and the results, one exactly where a job is done.
#[derive(Drop)]
pub struct BoardState<T> {
    pub(crate) machine: Machine,
    pub(crate) history: Vec<Event>,
    pub(crate) results: Vec<Option<T>>,
}

impl<T: Drop> BoardState<T> {
    ghost use Rattle.std.specs.Prelude.{◌≡◌, ◌<◌, ◌^◌, ◌++◌, ◌∷◌, [], Some, None, IfOk, slice_get, slice_set, replicate};
    ghost use Rattle.nef_core.specs.Views.{MatchClaim};
    ghost use Rattle.nef_core.specs.Machine.{start, after, reply};
    ghost use Rattle.nef_core.specs.declared.machine.Slot.TheVariants.{InHand};
    ghost use Rattle.nef_board.specs.Sound.{IsSound};

    /// Returns the state with this many jobs, all open, and with room for two events a job. `OutOfMemory` says that
    /// memory was wanted and not found.
    pub fn new(alloc: Global, jobs: u64) -> Result<BoardState<T>, OutOfMemory>
        ensures sound { IfOk result (λ b. IsSound b) }
        ensures machine { IfOk result (λ b. b.machine ≡ start jobs) }
        ensures history { IfOk result (λ b. b.history.items ≡ []) }
        ensures results { IfOk result (λ b. b.results.items ≡ replicate jobs None) }
    {
        let machine = Machine::new(alloc, jobs)?;
        let history = Vec::with_capacity(alloc, 2 * jobs as usize)?;
        let results = empty_places(alloc, jobs as usize)?;
        Ok(BoardState {
            machine,
            history,
            results,
        })
    }

    /// Claims the next job for the pass, and adds the event to the history. `NoneLeft` says that every number was
    /// handed out, and adds no event. No memory is taken.
    pub fn claim(&mut self, pass: u64) -> Claim
        requires { IsSound self.old }
        ensures sound { IsSound self.new }
        ensures machine { self.new.machine ≡ after self.old.machine (Event.Claim pass) }
        ensures reply { result ≡ reply self.old.machine (Event.Claim pass) }
        ensures history { MatchClaim result (λ job. self.new.history.items ≡ self.old.history.items ++ Event.Claim pass ∷ []) (self.new.history.items ≡ self.old.history.items) }
        ensures results { self.new.results.items ≡ self.old.results.items }
    {
        let claim = self.machine.step(Event::Claim(pass));
        if let Claim::Got(_) = claim {
            self.history.push_reserved(Event::Claim(pass));
        }
        claim
    }

    /// Keeps the result of the job in the hand of the pass, and adds the event to the history. No memory is taken.
    pub fn deposit(&mut self, pass: u64, job: u64, out: T) -> Receipt
        requires sound { IsSound self.old }
        requires held { slice_get self.old.machine.slots job ≡ Some (InHand pass) }
        ensures sound { IsSound self.new }
        ensures machine { self.new.machine ≡ after self.old.machine (Event.Deposit pass job) }
        ensures history { self.new.history.items ≡ self.old.history.items ++ Event.Deposit pass job ∷ [] }
        ensures results { self.new.results.items ≡ slice_set self.old.results.items job (Some out) }
        ensures receipt { result.job ≡ job }
    {
        self.machine.step(Event::Deposit(pass, job));
        self.history.push_reserved(Event::Deposit(pass, job));
        self.results[job as usize] = Some(out);
        Receipt { job }
    }

    /// Gives up the job in the hand of the pass, and adds the event to the history. No memory is taken.
    pub fn give_back(&mut self, pass: u64, job: u64)
        requires sound { IsSound self.old }
        requires held { slice_get self.old.machine.slots job ≡ Some (InHand pass) }
        ensures sound { IsSound self.new }
        ensures machine { self.new.machine ≡ after self.old.machine (Event.GiveBack pass job) }
        ensures history { self.new.history.items ≡ self.old.history.items ++ Event.GiveBack pass job ∷ [] }
        ensures results { self.new.results.items ≡ self.old.results.items }
    {
        self.machine.step(Event::GiveBack(pass, job));
        self.history.push_reserved(Event::GiveBack(pass, job));
    }
}
