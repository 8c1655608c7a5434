//! Jobs with results that are known from outside, which count what is done with the jobs.
ghost use Rattle.std.specs.Prelude.{◌≡◌, ◌*◌};

use crate::rows::TURNS;
use nef_core::{Job, OutOfMemory};
use nef_io::Gate;
use std::alloc::Global;
use std::sync::atomic::{AtomicU64, Ordering};
use std::thread;

// The bit of a job.
fn bit_of(job: u64) -> u64 {
    1 << (job % 64)
}

/// The squares of the numbers below `count`. The first call for a job whose bit is in `refused` wants memory in vain.
///
/// As a gate the trial holds each job but the first until `crowd` jobs began, for `TURNS` turns at most. The trial
/// counts the jobs heard of from each kind of board, the jobs held for all turns, the calls for jobs, the calls for
/// jobs not heard of, and the deposits at a counting board.
#[derive(Drop)]
pub struct Trial {
    pub count: u32,
    crowd: u64,
    refused: AtomicU64,
    heard: AtomicU64,
    pub locked: AtomicU64,
    pub free: AtomicU64,
    pub limits_reached: AtomicU64,
    pub calls: AtomicU64,
    pub unheard: AtomicU64,
    pub deposits: AtomicU64,
}

impl Trial {
    pub fn new(count: u32, refused: u64, crowd: u64) -> Trial
        ensures { result.count ≡ count }
    {
        Trial {
            count,
            crowd,
            refused: AtomicU64::new(refused),
            heard: AtomicU64::new(0),
            locked: AtomicU64::new(0),
            free: AtomicU64::new(0),
            limits_reached: AtomicU64::new(0),
            calls: AtomicU64::new(0),
            unheard: AtomicU64::new(0),
            deposits: AtomicU64::new(0),
        }
    }

    fn began(&self) -> u64 {
        let locked = self.locked.load(Ordering::SeqCst);
        locked.wrapping_add(self.free.load(Ordering::SeqCst))
    }
}

impl Job for Trial {
    type Out = u64;

    ghost count = { λ s. s.count };

    ghost right = { λ s i out. out ≡ i * i };

    fn jobs(&self) -> u64 {
        u64::from(self.count)
    }

    fn work(&self, _alloc: Global, job: u64) -> Result<u64, OutOfMemory> {
        let bit = bit_of(job);
        self.calls.fetch_add(1, Ordering::SeqCst);
        if self.heard.load(Ordering::SeqCst) & bit == 0 {
            self.unheard.fetch_add(1, Ordering::SeqCst);
        }
        if self.refused.fetch_and(!bit, Ordering::SeqCst) & bit != 0 {
            return Err(OutOfMemory);
        }
        Ok(job * job)
    }
}

impl Gate for Trial {
    fn before(&self, job: u64, free: bool) {
        self.heard.fetch_or(bit_of(job), Ordering::SeqCst);
        let counter = if free { &self.free } else { &self.locked };
        counter.fetch_add(1, Ordering::SeqCst);
        if job == 0 {
            return;
        }
        for _ in 0..TURNS {
            if self.began() >= self.crowd {
                return;
            }
            thread::yield_now();
        }
        self.limits_reached.fetch_add(1, Ordering::SeqCst);
    }
}
