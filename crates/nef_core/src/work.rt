//! How an operation is to run, what work costs, and how many workers that pays for. Starting a worker and waiting for
//! its end takes as long as a hundred jobs.
ghost use Rattle.std.specs.Prelude.{◌≡◌, ◌≤◌, min, max};
ghost use Rattle.nef_core.specs.Work.{Choice, combination_work, crew_of};

use std::marker::Model;

/// Which board hands out the jobs of an operation.
#[derive(Debug, Clone, Copy, PartialEq, Eq)]
pub enum BoardKind {
    /// The board whose passes take turns.
    Lock,
    /// The board whose passes wait for nobody.
    Free,
}

/// Which version of a set's canonical text is meant.
#[derive(Debug, Clone, Copy)]
pub enum TextVersion {
    /// The text of the vertices, edges, facets and volumes.
    One,
    /// That text with the faces of each vertex and the shells of each volume.
    Two,
}

/// How an operation runs: by how many workers, over which board.
///
/// There are 1 to 64 workers: who makes a value shows it, and who reads the number knows it.
#[derive(Clone, Copy)]
pub struct How {
    /// The number of workers beside the caller, 1 to 64.
    pub workers: u32,
    pub board: BoardKind,
}

impl Model for How {
    ghost Value = { Choice };

    ghost view = { λ h. record { workers = h.workers; board = h.board } };

    ghost inverse = { λ d. record { workers = d.workers; board = d.board } };

    ghost invariant = { λ h. (1 ≤ h.workers) × (h.workers ≤ 64) };
}

// So many jobs pay for a worker. On the lock board each job takes two turns besides, which the passes have one after
// another: where a job takes little longer than its turns, more of them are wanted.
const HEAVY_JOBS: u64 = 128;

const LIGHT_JOBS_FREE: u64 = 512;

const LIGHT_JOBS_LOCK: u64 = 1024;

// So many microseconds of a round pay for a worker.
const MICROSECONDS: u64 = 500;

// The jobs of two sets of which one has fewer carriers are light.
const MANY_CARRIERS: usize = 24;

// Edges of a set with fewer carriers are cut sooner than threads start.
const LISTED_CARRIERS: usize = 48;

// Three threads take as long to start as the parts of some thirty vertices to be made. Of fewer than this many vertices
// others would save less than half a millisecond.
const PARTED_VERTICES: usize = 128;

/// Work that several workers may share, with what tells how long it takes.
#[derive(Clone, Copy)]
pub enum Work {
    /// So many jobs, mostly no longer than their two turns on the lock board, over this board.
    LightJobs(BoardKind, u64),
    /// So many jobs that take several times as long, over any board.
    HeavyJobs(u64),
    /// Listing the candidates of two sets, of which each has so many carriers at least. It takes one worker or four.
    Listing(usize),
    /// Making the parts of a set with so many vertices. It takes one worker, two or four.
    Parts(usize),
    /// Working so many numbers of a round, which together take so many microseconds.
    Round(usize, u64),
}

// As many workers as were asked for, or fewer where fewer are paid for, and one at least.
fn paid_of(workers: u32, paid: u64) -> u32
    ensures crew { result ≡ min workers (max 1 paid) }
{
    u64::from(workers).min(paid.max(1)) as u32
}

impl Work {
    /// So many jobs, one for each candidate of two sets, of which each has so many carriers at least, and which have
    /// so many vertices together.
    ///
    /// Where one set is small, most candidates lie far from it, and one look tells their maps. Then no more of them
    /// count than the sets have vertices: the others are cuts on the frame's edges, far from both, of which there are
    /// many where a set was made of many planes.
    pub fn of_combination(board: BoardKind, jobs: u64, carriers: usize, vertices: usize) -> Work
        ensures work { result ≡ combination_work board jobs carriers vertices }
    {
        if carriers < MANY_CARRIERS {
            Work::LightJobs(board, jobs.min(vertices as u64))
        } else {
            Work::HeavyJobs(jobs)
        }
    }

    /// How many of the workers that were asked for share the work, the calling thread among them: as many as it pays
    /// for, and else one.
    pub fn crew(&self, workers: u32) -> u32
        ensures crew { result ≡ crew_of self.now workers }
    {
        match *self {
            Work::LightJobs(BoardKind::Lock, jobs) => paid_of(workers, jobs / LIGHT_JOBS_LOCK),
            Work::LightJobs(BoardKind::Free, jobs) => paid_of(workers, jobs / LIGHT_JOBS_FREE),
            Work::HeavyJobs(jobs) => paid_of(workers, jobs / HEAVY_JOBS),
            Work::Round(numbers, load) => {
                paid_of(workers, (numbers as u64).min(load / MICROSECONDS))
            }
            Work::Listing(carriers) if workers >= 4 && carriers >= LISTED_CARRIERS => 4,
            Work::Parts(vertices) if workers >= 4 && vertices >= PARTED_VERTICES => 4,
            Work::Parts(vertices) if workers >= 2 && vertices >= PARTED_VERTICES => 2,
            Work::Listing(_) | Work::Parts(_) => 1,
        }
    }
}
