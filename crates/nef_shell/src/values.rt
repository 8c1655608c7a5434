//! The values of a script's work: the sets that its steps make, each under the number of its step.

ghost use Rattle.nef_shell.specs.Prelude.{IsSomeAnd, true, ℕ, List, Some, None, IfOk, IfSome, OnOk, length, option_map, slice_get, slice_set, Set, operand, Step, IsTask, LooksAtValue, MakesValue, first_value, task_set, second_value, given_of, AreHeld, IsNewlyHeld, IsShownAt, IsSpent, IsThere, cleared, handed_complex, AreLess, HasDone, IsLastUse, IsLet, StandAt, AreMeans, IsShown, op_set};
ghost use Rattle.std.specs.Prelude.{◌≡◌, ◌<◌};

use crate::held::{Held, Value, complex_at, kept};
use crate::operation::{Resources, combination, made};
use nef_complex::Complex;
use nef_io::Gate;
use nef_ops::{Given, binary_given};
use nef_plan::Step;
use nef_star::Op;
use std::alloc::{AllocError, Global};
use std::sync::Wait;
use std::thread::Threads;

// Whether something is there.
fn is_there<X>(places: &[Option<X>], k: usize) -> bool
    requires within { k < length places.now }
    ensures there { result ≡ true → IsThere places.now k }
{
    places[k].is_some()
}

/// Puts this there instead of what is there.
pub(crate) fn put_at<X: Drop>(places: &mut [Option<X>], k: usize, thing: Option<X>)
    requires within { k < length places.old }
    ensures put { places.new ≡ slice_set places.old k thing }
{
    places[k] = thing;
}

/// Takes out what is there, and leaves nothing.
pub(crate) fn taken_from<X>(places: &mut [Option<X>], k: usize) -> Option<X>
    requires within { k < length places.old }
    ensures taken { slice_get places.old k ≡ Some result }
    ensures put { places.new ≡ slice_set places.old k None }
{
    places[k].take()
}

// Lets go what is kept of the value, if there is one and the step ends it.
fn let_go(values: &mut [Value], value: Option<usize>, ends: bool)
    requires within { IfSome value (λ k. k < length values.old) }
    ensures cleared { values.new ≡ cleared ends value values.old }
{
    if let Some(k) = value
        && ends
    {
        put_at(values, k, None);
    }
}

/// Lets go what is kept of each value that the step, which has the number `now`, looks at or makes, and no later step looks at.
pub(crate) fn release(values: &mut [Value], step: &Step, now: usize)
    requires now { now < length values.old }
    requires within { (k : ℕ) → LooksAtValue step.now.task k → k < length values.old }
    ensures less { AreLess (IsLet step.now now) values.old values.new }
    ensures gone { (k : ℕ) → IsLet step.now now k → IsThere values.new k → ⊥ }
{
    let (first, second) = step.task.looked_at();
    let_go(values, first, step.ends_first);
    let_go(values, second, step.ends_second);
    let_go(values, Some(now), step.ends_made);
}

// What is kept of the value, taken out where the other operand is another value and the step ends this one, and
// else nothing.
fn spend(values: &mut [Value], value: usize, other: usize, ends: bool) -> Value
    requires within { value < length values.old }
    ensures spent { IsSpent value other ends values.old values.new result }
{
    if value == other || !ends {
        return None;
    }
    taken_from(values, value)
}

// The complex alone.
fn complex_of(made: Box<Held>) -> Complex
    ensures complex { result ≡ made.value.complex }
{
    let Held { complex, .. } = Box::into_inner(made);
    complex
}

// The complex of the value, given away where it was taken out, and else lent.
fn handed(values: &[Value], value: usize, spent: Value) -> Option<Given>
    ensures complex { option_map given_of result ≡ handed_complex spent value values.now }
{
    match spent {
        Some(made) => Some(Given::Own(complex_of(made))),
        None => Some(Given::Lent(complex_at(values, Some(value))?)),
    }
}

// What is to be kept of the combination of two sets, if both are there.
fn joined<R: Threads + Wait + Sync, G: Gate + Sync>(
    rt: &R,
    alloc: Global,
    op: Op,
    first: Option<Given>,
    second: Option<Given>,
    means: &Resources<G>,
) -> Result<Value, AllocError>
    requires first { (s : Set) × IsShown s (option_map given_of first) }
    requires second { (t : Set) × IsShown t (option_map given_of second) }
    ensures new { IfOk result (λ o. (s t : Set) → IsShown s (option_map given_of first.entry) → IsShown t (option_map given_of second.entry) → IsSomeAnd o (λ b. IsNewlyHeld (op_set op s t) b.value)) }
{
    match first.zip(second) {
        Some((a, b)) => {
            let complex = binary_given(rt, alloc, op, a, b, &means.options.how, means.gate)?;
            kept(alloc, complex)
        }
        None => Ok(None),
    }
}

// What is to be kept of the combination of two values by the step. The complexes of those that the step ends are given away,
// unless both are one value.
fn combined<R: Threads + Wait + Sync, G: Gate + Sync>(
    rt: &R,
    alloc: Global,
    values: &mut [Value],
    step: &Step,
    op: Op,
    i: usize,
    j: usize,
    means: &Resources<G>,
) -> Result<Value, AllocError>
    requires first { (s : Set) × IsShownAt s values.old i }
    requires second { (t : Set) × IsShownAt t values.old j }
    ensures new { IfOk result (λ o. (s t : Set) → IsShownAt s values.old i → IsShownAt t values.old j → IsSomeAnd o (λ b. IsNewlyHeld (op_set op s t) b.value)) }
    ensures less { AreLess (IsLastUse step.now (Some i) (Some j)) values.old values.new }
{
    let first = spend(values, i, j, step.ends_first);
    let second = spend(values, j, i, step.ends_second);
    let a = handed(values, i, first);
    let b = handed(values, j, second);
    joined(rt, alloc, op, a, b, means)
}

// What is to be kept of the value that the step makes.
fn worked<R: Threads + Wait + Sync, G: Gate + Sync>(
    rt: &R,
    alloc: Global,
    values: &mut [Value],
    step: &Step,
    means: &Resources<G>,
) -> Result<Value, AllocError>
    requires means { AreMeans means.now }
    requires task { IsTask step.now.task × MakesValue step.now.task }
    requires operands { (ss : List Set) × ((k : ℕ) → LooksAtValue step.now.task k → IsShownAt (operand ss k) values.old k) }
    ensures new { IfOk result (λ o. (ss : List Set) → ((k : ℕ) → LooksAtValue step.now.task k → IsShownAt (operand ss k) values.old k) → IsSomeAnd o (λ b. IsNewlyHeld (task_set ss step.now.task) b.value)) }
    ensures less { AreLess (IsLastUse step.now (first_value step.now.task) (second_value step.now.task)) values.old values.new }
{
    if let Some((op, i, j)) = combination(&step.task) {
        return combined(rt, alloc, values, step, op, i, j, means);
    }
    let (first, second) = step.task.looked_at();
    let (a, b) = (complex_at(values, first), complex_at(values, second));
    made(rt, alloc, &step.task, a, b, means)
}

/// Makes the value of the step with the number `now`, unless it was made ahead of the step. The complexes of two values are
/// given to the operation that combines them where no later step looks at them, and are gone then. `AllocError` says that
/// memory was wanted and not found.
pub(crate) fn make_value<R: Threads + Wait + Sync, G: Gate + Sync>(
    rt: &R,
    alloc: Global,
    values: &mut [Value],
    steps: &[Step],
    now: usize,
    means: &Resources<G>,
) -> Result<(), AllocError>
    requires means { AreMeans means.now }
    requires stand { StandAt means.now.options.text steps.now now values.old }
    requires now { now < length steps.now }
    requires makes { (s : Step) → slice_get steps.now now ≡ Some s → MakesValue s.task }
    ensures held { OnOk result (AreHeld means.now.options.text steps.now values.new) }
    ensures made { OnOk result (HasDone steps.now now values.old values.new) }
{
    if is_there(values, now) {
        return Ok(());
    }
    let made = worked(rt, alloc, values, &steps[now], means)?;
    put_at(values, now, made);
    Ok(())
}
