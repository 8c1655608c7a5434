//! A board of any kind, with a counter of its deposits.
ghost use Rattle.std.specs.Prelude.{◌≡◌};

use nef_core::{Board, Claim, Job, OutOfMemory, Receipt};
use std::alloc::Global;
use std::sync::atomic::{AtomicU64, Ordering};

#[derive(Drop)]
pub struct Counted<'a, B> {
    inner: B,
    deposits: &'a AtomicU64,
}

impl<'a, B> Counted<'a, B> {
    pub fn new(inner: B, deposits: &'a AtomicU64) -> Counted<'a, B>
        ensures { result.inner ≡ inner }
    {
        Counted { inner, deposits }
    }
}

impl<'a, J: Job, B: Board<J>> Board<J> for Counted<'a, B> {
    const FREE: bool = B::FREE;

    type Pass = B::Pass;

    ghost made_for = { λ b. B.made_for b.inner };

    ghost belongs = { λ b p. B.belongs b.inner p };

    ghost number = { B.number };

    ghost spare = { B.spare };

    ghost hand = { B.hand };

    ghost ended = { B.ended };

    ghost deposits = { B.deposits };

    fn split(&self, pass: &mut B::Pass) -> B::Pass {
        self.inner.split(pass)
    }

    fn join(&self, pass: &mut B::Pass, other: B::Pass) {
        self.inner.join(pass, other)
    }

    fn claim(&self, pass: &mut B::Pass) -> Claim {
        self.inner.claim(pass)
    }

    fn deposit(&self, pass: &mut B::Pass, job: u64, out: J::Out) -> Receipt {
        self.deposits.fetch_add(1, Ordering::SeqCst);
        self.inner.deposit(pass, job, out)
    }

    fn give_back(&self, pass: &mut B::Pass, job: u64) {
        self.inner.give_back(pass, job)
    }

    fn close(self, alloc: Global, pass: B::Pass) -> Result<Vec<Option<J::Out>>, OutOfMemory> {
        let Counted { inner, deposits: _ } = self;
        inner.close(alloc, pass)
    }
}
