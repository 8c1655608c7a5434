//! The board as a plain machine, one event after another, and what holds over every legal list of events.
ghost use Rattle.std.specs.Prelude.{◌≡◌, ◌^◌, ◌<◌, ◌≤◌, length, IfOk};
ghost use Rattle.nef_core.specs.Machine.{start, after, reply, HoldsItsJob, State};
ghost use Rattle.nef_core.specs.Laws.{EachSlotIsOne, NextNeverFalls, ClaimsGetTheNext, NoneTwice, DoneStays, ClaimsAreAccounted, DepositsAreDone, EachClaimIsAccounted, EachDepositIsDone, HandedOutOnce, HeldIsClaimed, DoneIsClaimed};

use crate::OutOfMemory;
use crate::board::Claim;
use std::alloc::Global;
use std::marker::Model;

/// What a job is: not handed out or given back, in the hand of a pass, or done by a pass.
#[derive(Clone, Copy)]
pub enum Slot {
    /// Not handed out yet, or given back.
    Open,
    /// In the hand of the pass of this number.
    InHand(u64),
    /// Done by the pass of this number.
    Done(u64),
}

/// What a pass does at a board. The first number is the pass, the second the job.
#[derive(Clone, Copy)]
pub enum Event {
    /// The pass asks for the next job.
    Claim(u64),
    /// The pass hands in the result of the job.
    Deposit(u64, u64),
    /// The pass gives up the job.
    GiveBack(u64, u64),
}

/// The number to be handed out next, and what each job is.
#[derive(Drop)]
pub struct Machine {
    next: u64,
    slots: Vec<Slot>,
}

impl Model for Machine {
    ghost Value = { State };

    ghost view = { λ m. record { next = m.next; slots = m.slots.items } };

    ghost invariant = { λ m. m.next ≤ length m.slots.items };
}

impl Machine {
    /// Returns the machine with this many jobs, all open.
    ///
    /// `OutOfMemory` says that memory was wanted and not found; for 2^63 jobs or more there is none.
    pub fn new(alloc: Global, jobs: u64) -> Result<Machine, OutOfMemory>
        ensures machine { IfOk result (λ m. m ≡ start jobs) }
        ensures few { IfOk result (λ m. jobs < 2 ^ 63) }
    {
        let slots = Vec::from_elem(alloc, Slot::Open, jobs as usize)?;
        Ok(Machine { next: 0, slots })
    }

    /// Returns what each job is, in the order of the jobs.
    pub fn slots(&self) -> &[Slot]
        ensures { result.now ≡ self.now.slots }
    {
        self.slots.as_slice()
    }

    /// Makes one event and returns the job that it is about; for a claim, the one handed out.
    ///
    /// `NoneLeft` comes exactly for a claim after every number was handed out, which changes
    /// nothing. A job that was given back isn't handed out again. Takes no memory.
    pub fn step(&mut self, event: Event) -> Claim
        requires { HoldsItsJob self.old event }
        ensures state { self.new ≡ after self.old event }
        ensures reply { result ≡ reply self.old event }
    {
        match event {
            Event::Claim(pass) => {
                if self.next as usize >= self.slots.len() {
                    return Claim::NoneLeft;
                }
                let job = self.next;
                self.slots[job as usize] = Slot::InHand(pass);
                self.next += 1;
                Claim::Got(job)
            }
            Event::Deposit(pass, job) => {
                self.slots[job as usize] = Slot::Done(pass);
                Claim::Got(job)
            }
            Event::GiveBack(_, job) => {
                self.slots[job as usize] = Slot::Open;
                Claim::Got(job)
            }
        }
    }
}

/// Over every legal list of events: each job is open, in the hand of one pass or done by one
/// pass; no number is handed out twice; a job that is done stays so; the next number never falls.
pub fn every_schedule()
    ensures slots { EachSlotIsOne }
    ensures next { NextNeverFalls }
    ensures claims { ClaimsGetTheNext }
    ensures once { NoneTwice }
    ensures done { DoneStays }
{}

/// Over every legal list of events, how often a pass claimed, deposited and gave back, all jobs
/// together and each by itself: a job that it deposited was claimed and deposited once, a job in
/// its hand was claimed once, and each further claim has its one giving back.
pub fn every_claim_is_accounted_for()
    ensures claims { ClaimsAreAccounted }
    ensures deposits { DepositsAreDone }
    ensures each_claim { EachClaimIsAccounted }
    ensures each_deposit { EachDepositIsDone }
    ensures handed_out { HandedOutOnce }
    ensures held { HeldIsClaimed }
    ensures done { DoneIsClaimed }
{}
