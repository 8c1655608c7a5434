//! The values of a block of steps that are worked ahead of it, what they need, and how they are worked in rounds.

ghost use Rattle.std.specs.Prelude.{◌≡◌, ◌+◌, ◌<◌, ◌∷◌, ◌++◌};
ghost use Rattle.nef_complex.specs.Prelude.{ℕ, true, IfOk, IfSome, OnOk, Some, None, length, slice_get, vec_len, [], option_copied};
ghost use Rattle.nef_plan.specs.declared.step.Step.{Step as PlannedStep};
ghost use Rattle.nef_plan.specs.Values.{AreEndedAt, AreSteps};
ghost use Rattle.nef_sched.specs.Results.{IsReady};
ghost use Rattle.nef_shell.specs.Early.{AreEarly, AreLate, IsIndex, first_need, second_need, needed_complex, ShowsItsSet};
ghost use Rattle.nef_shell.specs.Held.{IsThere};
ghost use Rattle.nef_shell.specs.Lean.{ArePlaced};
ghost use Rattle.nef_shell.specs.Operations.{AreMeans};

use crate::held::{Value, complex_at, complex_in};
use crate::operation::{Resources, made};
use nef_complex::Complex;
use nef_io::Gate;
use nef_plan::{Step, Task};
use nef_sched::{Needs, Results, Stage, run_ahead};
use std::alloc::{AllocError, Global};
use std::sync::Wait;
use std::thread::Threads;

/// A value that is worked ahead of its block, and the numbers, among all that are, of those operands that the block makes.
#[derive(Drop)]
pub(crate) struct Early {
    pub(crate) value: usize,
    pub(crate) needs: Needs,
}

/// What the table, which begins with the step `now`, has of the value, if there is a value and the table has its step.
pub(crate) fn of_block(table: &[Option<usize>], now: usize, value: Option<usize>) -> Option<usize>
    ensures entry { IfSome result (λ n. (k o : ℕ) × (value ≡ Some k) × (k ≡ now + o) × (slice_get table.now o ≡ Some (Some n))) }
{
    match value {
        Some(value) if now <= value && value - now < table.len() => table[value - now],
        _ => None,
    }
}

// The task of the step with this number.
fn task_of<'s, 'a>(steps: &'s [Step<'a>], number: usize) -> &'s Task<'a>
    requires within { number < length steps.now }
    ensures task { (s : PlannedStep) → slice_get steps.now number ≡ Some s → result.now ≡ s.task }
{
    &steps[number].task
}

// Whether the operand is worked ahead, or is kept; or there is none.
fn is_at_hand(values: &[Value], operand: Option<usize>, need: Option<usize>) -> bool
    ensures there { result ≡ true → need ≡ None → IfSome operand (IsThere values.now) }
{
    need.is_some() || operand.is_none() || complex_at(values, operand).is_some()
}

/// Adds the value to those that are worked ahead, and returns its number among them. Where no later step looks at it, or it
/// isn't wanted, or an operand is neither kept nor worked ahead, it isn't added, and has no number. `index` has the numbers of
/// the values of the steps from `now` on and before this one. `AllocError` says that memory was wanted and not found.
pub(crate) fn add_early(
    early: &mut Vec<Early>,
    index: &[Option<usize>],
    values: &[Value],
    steps: &[Step],
    now: usize,
    value: usize,
    is_wanted: bool,
) -> Result<Option<usize>, AllocError>
    requires steps { AreSteps steps.now }
    requires ends { AreEndedAt steps.now }
    requires value { value < length steps.now }
    requires place { value ≡ now + length index.now }
    requires index { IsIndex now index.now early.old.items }
    requires early { AreEarly steps.now values.now early.old.items }
    requires late { AreLate now early.old.items }
    ensures late { OnOk result (AreLate now early.new.items) }
    ensures early { OnOk result (AreEarly steps.now values.now early.new.items) }
    ensures index { IfOk result (λ number. IsIndex now (index.now ++ number ∷ []) early.new.items) }
{
    let step = &steps[value];
    if step.ends_made || !is_wanted {
        return Ok(None);
    }
    let (first, second) = step.task.looked_at();
    let needs = Needs {
        first: of_block(index, now, first),
        second: of_block(index, now, second),
    };
    if !is_at_hand(values, first, needs.first) || !is_at_hand(values, second, needs.second) {
        return Ok(None);
    }
    let number = early.len();
    early.push(Early { value, needs })?;
    Ok(Some(number))
}

/// The values that are worked ahead, each of which is worked by a call.
///
/// The call is no method, since a method of a stage can't hand the stage's own runtime to a thread.
/// Where the gate holds jobs back, each value counts as heavy.
#[derive(Drop)]
struct StepBlock<'v, 's, 'a, 'e, F> {
    values: &'v [Value],
    steps: &'s [Step<'a>],
    list: &'e [Early],
    holds: bool,
    work: F,
}

impl<F: Fn(usize, bool, &Results<Value>) -> Result<Value, AllocError> + Sync + Drop> Stage
    for StepBlock<'_, '_, '_, '_, F> {
    type Out = Value;

    ghost use Rattle.std.specs.Prelude.{◌<◌, ℕ, IfOk, length};
    ghost use Rattle.nef_sched.specs.Results.{IsReady};
    ghost use Rattle.nef_shell.specs.Early.{AreEarly, first_need, second_need, ShowsItsSet};

    ghost size = { λ s. length s.list.now };

    ghost first = { λ s n. first_need s.list.now n };

    ghost second = { λ s n. second_need s.list.now n };

    ghost fits = { λ s n o. ShowsItsSet s.steps.now s.list.now n o };

    ghost workable = { λ s. AreEarly s.steps.now s.values.now s.list.now × ((n : ℕ) (alone : _) (done : _) → n < length s.list.now → IsReady (ShowsItsSet s.steps.now s.list.now) (first_need s.list.now n) (second_need s.list.now n) done.now.list.items → F.pre s.work n alone done × ((r : _) → F.post s.work n alone done r → IfOk r (ShowsItsSet s.steps.now s.list.now n))) };

    fn count(&self) -> usize {
        self.list.len()
    }

    fn needs(&self, n: usize) -> Needs {
        self.list[n].needs
    }

    fn load(&self, n: usize, done: &Results<Value>) -> u64 {
        if self.holds {
            return u64::MAX;
        }
        let early = &self.list[n];
        let (first, second) = task_of(self.steps, early.value).looked_at();
        let first = needed(self.values, done, first, early.needs.first);
        let second = needed(self.values, done, second, early.needs.second);
        load_of(first, second)
    }

    fn work(
        &self,
        _alloc: Global,
        n: usize,
        alone: bool,
        done: &Results<Value>,
    ) -> Result<Value, AllocError> {
        (self.work)(n, alone, done)
    }
}

// The complex of the operand, if there is one: of the value with the number that is needed, or the one that is kept.
fn needed<'a>(
    values: &'a [Value],
    done: &'a Results<Value>,
    operand: Option<usize>,
    need: Option<usize>,
) -> Option<&'a Complex>
    ensures needed { option_copied result ≡ needed_complex values.now done.now.list.items operand need }
{
    match need {
        Some(n) => complex_in(done.get(n)?),
        None => complex_at(values, operand),
    }
}

// How many vertices a complex has that there is.
fn vertices(complex: Option<&Complex>) -> u64 {
    match complex {
        Some(complex) => complex.vertices.len() as u64,
        None => 0,
    }
}

// How many microseconds an operation takes on sets of few vertices.
const LEAST: u64 = 30;

// How many microseconds an operation may take on these operands.
fn load_of(first: Option<&Complex>, second: Option<&Complex>) -> u64 {
    let each = if second.is_some() { 3 } else { 1 };
    let vertices = vertices(first).saturating_add(vertices(second));
    vertices.saturating_mul(each).saturating_add(LEAST)
}

// Works the value with this number, by one worker, unless it is alone.
fn work_value<R: Threads + Wait + Sync, G: Gate + Sync>(
    rt: &R,
    alloc: Global,
    values: &[Value],
    steps: &[Step],
    early: &[Early],
    n: usize,
    alone: bool,
    done: &Results<Value>,
    means: &Resources<G>,
) -> Result<Value, AllocError>
    requires means { AreMeans means.now }
    requires placed { ArePlaced means.now.options.text steps.now values.now }
    requires early { AreEarly steps.now values.now early.now }
    requires number { n < length early.now }
    requires there { IsReady (ShowsItsSet steps.now early.now) (first_need early.now n) (second_need early.now n) done.now.list.items }
    ensures fits { IfOk result (ShowsItsSet steps.now early.now n) }
{
    let item = &early[n];
    let task = task_of(steps, item.value);
    let (first, second) = task.looked_at();
    let first = needed(values, done, first, item.needs.first);
    let second = needed(values, done, second, item.needs.second);
    let mut options = means.options;
    if !alone {
        options.how.workers = 1;
    }
    let means = Resources {
        whole: means.whole,
        options,
        gate: means.gate,
    };
    made(rt, alloc, task, first, second, &means)
}

/// Works these values in rounds, and gives what is to be kept of them, in order. `values` has what is kept of the others.
///
/// A value that is alone in its round is worked by as many workers as `means` says, and each other one by one worker.
/// `AllocError` says that memory was wanted and not found.
pub(crate) fn work_early<R: Threads + Wait + Sync, G: Gate + Sync>(
    rt: &R,
    alloc: Global,
    values: &[Value],
    steps: &[Step],
    early: &[Early],
    means: &Resources<G>,
) -> Result<Vec<Value>, AllocError>
    requires means { AreMeans means.now }
    requires placed { ArePlaced means.now.options.text steps.now values.now }
    requires early { AreEarly steps.now values.now early.now }
    ensures len { IfOk result (λ v. vec_len v ≡ length early.now) }
    ensures fits { IfOk result (λ v. (n : ℕ) (o : _) → slice_get v.items n ≡ Some o → ShowsItsSet steps.now early.now n o) }
{
    let work = |n: usize, alone: bool, done: &Results<Value>| -> Result<Value, AllocError>
        requires { AreMeans means.now × ArePlaced means.now.options.text steps.now values.now × AreEarly steps.now values.now early.now × (n < length early.now) × IsReady (ShowsItsSet steps.now early.now) (first_need early.now n) (second_need early.now n) done.now.list.items }
        ensures { IfOk result (ShowsItsSet steps.entry.now early.entry.now n) }
    { work_value(rt, alloc, values, steps, early, n, alone, done, means) };
    let stage = StepBlock {
        values,
        steps,
        list: early,
        holds: means.gate.holds(),
        work,
    };
    run_ahead(rt, alloc, &stage, means.options.how.workers)
}
