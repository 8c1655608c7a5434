//! The operations: halves of the frame, the whole frame and the empty set, complement, interior, closure, boundary and
//! regularisation of a set, and combinations of two.

ghost use Rattle.std.specs.Prelude.{◌≡◌, ◌+◌, ◌-◌, ◌^◌};
ghost use Rattle.nef_complex.specs.Prelude.{[], length, min, IfOk, Set, given_form, ShowsSet, SpacePoint, Cone};
ghost use Rattle.nef_cand.specs.Candidates.{AreFramed};
ghost use Rattle.nef_ops.specs.Nodes.{constant_set, unary_set};
ghost use Rattle.nef_ops.specs.Rights.{IsRight};
ghost use Rattle.nef_smap.specs.Maps.{map_of, IsSphereMap, IsLeastMap};
ghost use Rattle.nef_cand.specs.Points.{points_of};
ghost use Rattle.nef_stopo.specs.Sets.{op_set};
ghost use Rattle.nef_core.specs.Work.{combination_work};
ghost use Rattle.nef_result.specs.Givens.{given_of, moved_if};
ghost use Rattle.nef_result.specs.Outcomes.{AreOutcomesOf};

use crate::OutOfMemory;
use crate::finished::{all_worked, complex_by_jobs};
use crate::local::{BinaryJob, Input};
use crate::regions::{core_span, regions_of};
use nef_cand::{cut_candidates, named_points, near_candidates_by_threads, vertex_points};
use nef_complex::Complex;
use nef_core::{BoardKind, How, Job, Work};
use nef_geo::{Label, List, Oriented, Plane, Point};
use nef_io::Gate;
use nef_locate::local_map;
use nef_result::{
    Given, Outcome, add_carrier, assemble, copy_carriers, frame, half_map, merge_carriers,
};
use nef_smap::SphereMap;
use nef_star::Op;
use nef_stopo::{boundary, closure, complement, interior};
use std::alloc::Global;
use std::sync::Wait;
use std::thread::Threads;

// The jobs of a half: its outcome at each point. `whole` is the complex of the whole frame.
#[derive(Drop)]
struct HalfJob<'a> {
    whole: &'a Complex,
    points: &'a [Point],
    oriented: &'a Oriented,
    closed: bool,
}

impl<'a> Job for HalfJob<'a> {
    type Out = Outcome;

    ghost count = { λ j. length j.points.now };

    ghost right = { λ j i o. IsRight (Set.half (given_form j.oriented.now) j.closed) [] [] j.points.now i o };

    ghost workable = { λ j. ShowsSet Set.full j.whole.now × AreFramed j.points.now };

    fn jobs(&self) -> u64 {
        self.points.len() as u64
    }

    fn work(&self, alloc: Global, job: u64) -> Result<Outcome, OutOfMemory> {
        let point = &self.points[job as usize];
        let whole = local_map(alloc, self.whole, point)?;
        let map = half_map(alloc, whole, self.oriented, self.closed, point)?;
        Outcome::of(alloc, map)
    }
}

/// The complex of a half of the frame, as `half` makes it, from a complex of the whole frame, which a caller may keep.
pub fn half_within<R: Threads + Wait + Sync, G: Gate + Sync>(
    rt: &R,
    alloc: Global,
    whole: &Complex,
    oriented: &Oriented,
    closed: bool,
    how: &How,
    gate: &G,
) -> Result<Complex, OutOfMemory>
    requires whole { ShowsSet Set.full whole.now }
    ensures shows { IfOk result (λ c. ShowsSet (Set.half (given_form oriented.now) closed) c) }
{
    let plane = oriented.plane();
    let listed = cut_candidates(alloc, whole, &plane)?;
    let points = listed.as_slice();
    let job = HalfJob {
        whole,
        points,
        oriented,
        closed,
    };
    let work = Work::LightJobs(how.board, job.jobs());
    let carriers = add_carrier(alloc, whole, &plane)?;
    complex_by_jobs(rt, alloc, &job, work, points, carriers, whole, how, gate)
}

/// The complex of a half of the frame: where the given form is negative, or where it is at most zero if the half is
/// closed. One job for each candidate, in order, is worked over the board that `how` names, by `how.workers` workers,
/// or by fewer where the jobs don't pay for so many and the gate holds none back; the gate is told of each job before
/// it begins. `OutOfMemory` says that memory was wanted and not found.
pub fn half<R: Threads + Wait + Sync, G: Gate + Sync>(
    rt: &R,
    alloc: Global,
    oriented: &Oriented,
    closed: bool,
    how: &How,
    gate: &G,
) -> Result<Complex, OutOfMemory>
    ensures shows { IfOk result (λ c. ShowsSet (Set.half (given_form oriented.now) closed) c) }
{
    let whole = frame(alloc, Label::In)?;
    let made = half_within(rt, alloc, &whole, oriented, closed, how, gate);
    drop(whole);
    made
}

/// The complex of the whole frame where `full` is true, and of the empty set otherwise. `OutOfMemory` says that memory
/// was wanted and not found.
pub fn constant(alloc: Global, full: bool) -> Result<Complex, OutOfMemory>
    ensures shows { IfOk result (λ c. ShowsSet (constant_set full) c) }
{
    if full {
        frame(alloc, Label::In)
    } else {
        frame(alloc, Label::Not)
    }
}

/// An operation on one set.
#[derive(Clone, Copy)]
pub enum UnaryOp {
    /// The complement within the frame.
    Not,
    /// The interior within the frame.
    Int,
    /// The closure within the frame.
    Cl,
    /// The boundary: the closure without the interior.
    Bd,
    /// The regularisation: the closure of the interior.
    Reg,
}

// The least map of what the operation makes of a set, from the set's map.
fn changed(alloc: Global, map: &SphereMap, op: UnaryOp) -> Result<SphereMap, OutOfMemory>
    requires map { IsSphereMap map.now }
    ensures least { IfOk result IsLeastMap }
    ensures cone { IfOk result (λ m. (s : Set) (p : SpacePoint) → Cone (map_of map.now) s p → Cone (map_of m) (unary_set op s) p) }
{
    match op {
        UnaryOp::Not => complement(alloc, map),
        UnaryOp::Int => interior(alloc, map),
        UnaryOp::Cl => closure(alloc, map),
        UnaryOp::Bd => boundary(alloc, map),
        UnaryOp::Reg => {
            let inside = interior(alloc, map)?;
            let map = closure(alloc, &inside)?;
            Ok(map)
        }
    }
}

// The jobs of an operation on the set of a complex: the outcome at each vertex.
#[derive(Drop)]
struct UnaryJob<'a> {
    op: UnaryOp,
    complex: &'a Complex,
}

impl<'a> Job for UnaryJob<'a> {
    type Out = Outcome;

    ghost count = { λ j. length j.complex.now.vertices };

    ghost right = { λ j i o. (s : Set) → ShowsSet s j.complex.now → IsRight (unary_set j.op s) [] [] (points_of j.complex.now) i o };

    ghost workable = { λ j. (s : Set) × ShowsSet s j.complex.now };

    fn jobs(&self) -> u64 {
        self.complex.vertices.len() as u64
    }

    fn work(&self, alloc: Global, job: u64) -> Result<Outcome, OutOfMemory> {
        let vertex = self.complex.vertices.at(job as usize);
        let map = changed(alloc, &vertex.map, self.op)?;
        Outcome::of(alloc, map)
    }
}

/// The complex of what the operation makes of the set of a complex. Its vertices are among the set's vertices. One job
/// for each vertex, in order, is worked over the board that `how` names, by `how.workers` workers, or by fewer where
/// the jobs don't pay for so many and the gate holds none back; the gate is told of each job before it begins.
/// `OutOfMemory` says that memory was wanted and not found.
pub fn unary<R: Threads + Wait + Sync, G: Gate + Sync>(
    rt: &R,
    alloc: Global,
    op: UnaryOp,
    a: &Complex,
    how: &How,
    gate: &G,
) -> Result<Complex, OutOfMemory>
    requires shows { (s : Set) × ShowsSet s a.now }
    ensures shows { IfOk result (λ c. (s : Set) → ShowsSet s a.now → ShowsSet (unary_set op s) c) }
{
    let points = vertex_points(alloc, a)?;
    let job = UnaryJob { op, complex: a };
    let work = Work::HeavyJobs(job.jobs());
    let carriers = copy_carriers(alloc, a)?;
    let points = points.as_slice();
    complex_by_jobs(rt, alloc, &job, work, points, carriers, a, how, gate)
}

// The work of so many jobs of a combination of the two sets.
fn work_of(a: &Complex, b: &Complex, jobs: u64, board: BoardKind) -> Work
    ensures work { result ≡ combination_work board jobs (min (length a.now.carriers) (length b.now.carriers)) (min (length a.now.vertices + length b.now.vertices) (2 ^ 64 - 1)) }
{
    let carriers = a.carriers.len().min(b.carriers.len());
    let vertices = a.vertices.len().saturating_add(b.vertices.len());
    Work::of_combination(board, jobs, carriers, vertices)
}

// The work of the jobs that take more than one look, which are counted only where all jobs would pay for two workers.
fn busy_work(job: &BinaryJob, how: &How) -> Work {
    let all = work_of(job.first.complex, job.second.complex, job.jobs(), how.board);
    if all.crew(how.workers) < 2 {
        return all;
    }
    work_of(
        job.first.complex,
        job.second.complex,
        job.busy_jobs(),
        how.board,
    )
}

// The carriers of a combination, its candidates, and the outcome at each candidate.
#[derive(Drop)]
struct Gathered {
    carriers: List<Plane>,
    points: Vec<Point>,
    outcomes: Vec<Outcome>,
}

// The carriers, candidates and outcomes of the combination. The two flags say which complex may be taken apart.
fn gather<R: Threads + Wait + Sync, G: Gate + Sync>(
    rt: &R,
    alloc: Global,
    op: Op,
    a: &Complex,
    own_a: bool,
    b: &Complex,
    own_b: bool,
    how: &How,
    gate: &G,
) -> Result<Gathered, OutOfMemory>
    requires first { (s : Set) × ShowsSet s a.now }
    requires second { (t : Set) × ShowsSet t b.now }
    ensures gathered { IfOk result (λ g. (s t : Set) → ShowsSet s a.now → ShowsSet t b.now → AreOutcomesOf (op_set op s t) g.carriers g.points.items (moved_if own_a a.now) (moved_if own_b b.now) g.outcomes.items) }
{
    let listed = near_candidates_by_threads(rt, alloc, a, b, how.workers)?;
    let candidates = listed.as_slice();
    let points = named_points(alloc, candidates)?;
    let core_a = core_span(a);
    let core_b = core_span(b);
    let far_first = regions_of(a, &core_a, &core_b, points.as_slice());
    let far_second = regions_of(b, &core_b, &core_a, points.as_slice());
    let job = BinaryJob {
        op,
        first: Input {
            complex: a,
            is_own: own_a,
            far: &far_first,
        },
        second: Input {
            complex: b,
            is_own: own_b,
            far: &far_second,
        },
        listed: candidates,
    };
    let work = busy_work(&job, how);
    let outcomes = all_worked(rt, alloc, &job, work, how, gate)?;
    let carriers = merge_carriers(alloc, a, b)?;
    Ok(Gathered {
        carriers,
        points,
        outcomes,
    })
}

// As `binary_given`, for complexes that the caller lets go of.
fn combined<R: Threads + Wait + Sync, G: Gate + Sync>(
    rt: &R,
    alloc: Global,
    op: Op,
    a: &mut Given,
    b: &mut Given,
    how: &How,
    gate: &G,
) -> Result<Complex, OutOfMemory>
    requires first { (s : Set) × ShowsSet s (given_of a.old) }
    requires second { (t : Set) × ShowsSet t (given_of b.old) }
    ensures shows { IfOk result (λ c. (s t : Set) → ShowsSet s (given_of a.old) → ShowsSet t (given_of b.old) → ShowsSet (op_set op s t) c) }
{
    let first = a.complex();
    let own_first = a.is_own();
    let second = b.complex();
    let own_second = b.is_own();
    let parts = gather(
        rt, alloc, op, first, own_first, second, own_second, how, gate,
    )?;
    let carriers = parts.carriers;
    let points = parts.points;
    let outcomes = parts.outcomes;
    assemble(alloc, carriers, points.as_slice(), outcomes, a, b)
}

/// The complex of the combination of the sets of two complexes. One job for each near candidate, in order, is worked
/// over the board that `how` names, by `how.workers` workers, or by fewer where the jobs don't pay for so many and the
/// gate holds none back; the gate is told of each job before it begins. `OutOfMemory` says that memory was wanted and
/// not found.
pub fn binary<R: Threads + Wait + Sync, G: Gate + Sync>(
    rt: &R,
    alloc: Global,
    op: Op,
    a: &Complex,
    b: &Complex,
    how: &How,
    gate: &G,
) -> Result<Complex, OutOfMemory>
    requires first { (s : Set) × ShowsSet s a.now }
    requires second { (t : Set) × ShowsSet t b.now }
    ensures shows { IfOk result (λ c. (s t : Set) → ShowsSet s a.now → ShowsSet t b.now → ShowsSet (op_set op s t) c) }
{
    binary_given(rt, alloc, op, Given::Lent(a), Given::Lent(b), how, gate)
}

/// As `binary`, for complexes that may be taken apart where they are given away: maps of vertices that stay are moved.
pub fn binary_given<R: Threads + Wait + Sync, G: Gate + Sync>(
    rt: &R,
    alloc: Global,
    op: Op,
    mut a: Given,
    mut b: Given,
    how: &How,
    gate: &G,
) -> Result<Complex, OutOfMemory>
    requires first { (s : Set) × ShowsSet s (given_of a) }
    requires second { (t : Set) × ShowsSet t (given_of b) }
    ensures shows { IfOk result (λ c. (s t : Set) → ShowsSet s (given_of a.entry) → ShowsSet t (given_of b.entry) → ShowsSet (op_set op s t) c) }
{
    let made = combined(rt, alloc, op, &mut a, &mut b, how, gate);
    drop(a);
    drop(b);
    made
}
