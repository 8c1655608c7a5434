//! Gates: one counts its calls, one holds jobs back, and one asks for no workers beyond those that the jobs pay for.

use nef_io::Gate;
use std::alloc::{AllocError, Global};
use std::sync::atomic::{AtomicBool, AtomicU64, Ordering};
use std::thread;

/// More turns than another thread needs to begin a job.
pub const TURNS: u64 = 20_000_000;

/// A gate that counts the calls for each of the first jobs, for all later jobs, and from the board without a lock.
#[derive(Drop)]
pub struct Counting {
    jobs: Vec<AtomicU64>,
    later: AtomicU64,
    free: AtomicU64,
}

impl Counting {
    pub fn new(alloc: Global, count: usize) -> Result<Counting, AllocError> {
        let mut jobs = Vec::new(alloc);
        for _ in 0..count {
            jobs.push(AtomicU64::new(0))?;
        }
        Ok(Counting {
            jobs,
            later: AtomicU64::new(0),
            free: AtomicU64::new(0),
        })
    }

    /// Adds the calls for each of the first jobs, for all later jobs, and from the board without a lock.
    pub fn push_calls(&self, text: &mut String) -> Result<(), AllocError> {
        for job in &self.jobs {
            write!(text, " {}", job.load(Ordering::SeqCst))?;
        }
        let later = self.later.load(Ordering::SeqCst);
        write!(text, " {later} {}", self.free.load(Ordering::SeqCst))
    }
}

impl Gate for Counting {
    fn before(&self, job: u64, free: bool) {
        match self.jobs.get(job as usize) {
            Some(calls) => calls.fetch_add(1, Ordering::SeqCst),
            None => self.later.fetch_add(1, Ordering::SeqCst),
        };
        if free {
            self.free.fetch_add(1, Ordering::SeqCst);
        }
    }
}

/// A gate that holds each job `held` until `wanted` jobs `awaited` began, for `TURNS` turns at most.
#[derive(Drop)]
pub struct Holding {
    held: u64,
    awaited: u64,
    wanted: u64,
    began: AtomicU64,
    limit_reached: AtomicBool,
}

impl Holding {
    pub fn new(held: u64, awaited: u64, wanted: u64) -> Holding {
        Holding {
            held,
            awaited,
            wanted,
            began: AtomicU64::new(0),
            limit_reached: AtomicBool::new(false),
        }
    }

    /// Whether some job was held for all turns.
    pub fn limit_reached(&self) -> bool {
        self.limit_reached.load(Ordering::SeqCst)
    }
}

impl Gate for Holding {
    fn before(&self, job: u64, _free: bool) {
        if job == self.awaited {
            self.began.fetch_add(1, Ordering::SeqCst);
        }
        if job != self.held {
            return;
        }
        for _ in 0..TURNS {
            if self.began.load(Ordering::SeqCst) >= self.wanted {
                return;
            }
            thread::yield_now();
        }
        self.limit_reached.store(true, Ordering::SeqCst);
    }
}

/// A gate that keeps each job of one statement, counted from 1, until `wanted` workers have such a job at once, for
/// `turns` turns at most. No worker starts for this gate's sake.
#[derive(Drop)]
pub struct Crowd {
    statement: u64,
    wanted: u64,
    turns: u64,
    statements: AtomicU64,
    inside: AtomicU64,
    gathered: AtomicBool,
}

impl Crowd {
    pub fn new(statement: u64, wanted: u64, turns: u64) -> Crowd {
        Crowd {
            statement,
            wanted,
            turns,
            statements: AtomicU64::new(0),
            inside: AtomicU64::new(0),
            gathered: AtomicBool::new(false),
        }
    }

    /// Whether `wanted` workers had a job of the statement at once.
    pub fn gathered(&self) -> bool {
        self.gathered.load(Ordering::SeqCst)
    }

    // Whether `wanted` workers have a job by now, or had one before.
    fn is_here(&self) -> bool {
        if self.inside.load(Ordering::SeqCst) >= self.wanted {
            self.gathered.store(true, Ordering::SeqCst);
        }
        self.gathered()
    }
}

impl Gate for Crowd {
    fn before(&self, job: u64, _free: bool) {
        if job == 0 {
            self.statements.fetch_add(1, Ordering::SeqCst);
        }
        if self.statements.load(Ordering::SeqCst) != self.statement {
            return;
        }
        self.inside.fetch_add(1, Ordering::SeqCst);
        for _ in 0..self.turns {
            if self.is_here() {
                break;
            }
            thread::yield_now();
        }
        self.inside.fetch_sub(1, Ordering::SeqCst);
    }

    fn holds(&self) -> bool {
        false
    }
}
