//! The steps of drafts: what makes the sets of nodes makes values.

ghost use Rattle.nef_plan.specs.Prelude.{slice_index, ℕ, IfOk, IfSome, List, Some, true, length, vec_len, NamesBelow, AreDrafts, AreLastUses, AreUses, IsDraftBelow, IsLastAt, IsUsedBy, LookBelow, over, put_value, task_over, tasks_in, tasks_over, value_of as value_there, AreEndedAt, LooksAtValue};
ghost use Rattle.std.specs.Prelude.{◌≡◌, ◌↔◌, ◌<◌, ◌≤◌, ◌⊎◌};

use crate::OutOfMemory;
use crate::planner::Draft;
use crate::planning::asked_nodes;
use crate::step::{Step, Task};
use nef_expr::{Node, Nodes};
use std::alloc::Global;

// The expression over the values of its operands.
fn over_values(values: &[usize], made: &Node) -> Node
    requires operands { NamesBelow (length values.now) made.now }
    ensures over { result ≡ over (slice_index values.now) made.now }
{
    match *made {
        Node::Half { oriented, closed } => Node::Half { oriented, closed },
        Node::Empty => Node::Empty,
        Node::Full => Node::Full,
        Node::And(i, j) => Node::And(values[i], values[j]),
        Node::Or(i, j) => Node::Or(values[i], values[j]),
        Node::Diff(i, j) => Node::Diff(values[i], values[j]),
        Node::Xor(i, j) => Node::Xor(values[i], values[j]),
        Node::Not(i) => Node::Not(values[i]),
        Node::Int(i) => Node::Int(values[i]),
        Node::Cl(i) => Node::Cl(values[i]),
        Node::Bd(i) => Node::Bd(values[i]),
        Node::Reg(i) => Node::Reg(values[i]),
    }
}

// The value of the node, if there is one.
fn value_of(values: &[usize], node: Option<usize>) -> Option<usize>
    requires within { IfSome node (λ k. k < length values.now) }
    ensures value { result ≡ value_there values.now node }
{
    match node {
        Some(k) => Some(values[k]),
        None => None,
    }
}

// The task of the draft, over the values of nodes. A question is about one node at least.
fn task_of<'a>(values: &[usize], draft: &Draft<'a>) -> Task<'a>
    requires among { IsDraftBelow (length values.now) draft.now }
    ensures task { result ≡ task_over values.now draft.now }
{
    match *draft {
        Draft::Make { made, .. } => Task::Make(over_values(values, &made)),
        Draft::Turn { from, turn, .. } => Task::Turn {
            from: values[from],
            turn,
        },
        Draft::Ask(command) => {
            let (node, other) = asked_nodes(command);
            Task::Ask {
                command,
                first: value_of(values, node).unwrap_or(0),
                second: value_of(values, other),
            }
        }
    }
}

// The node that the draft makes has this value from now on.
fn put_value(values: &mut [usize], draft: &Draft, number: usize)
    requires among { IsDraftBelow (length values.old) draft.now }
    ensures put { values.new ≡ put_value values.old draft.now number }
    ensures length { length values.new ≡ length values.old }
{
    match *draft {
        Draft::Make { node, .. } => values[node] = number,
        Draft::Turn { node, .. } => values[node] = number,
        Draft::Ask(_) => (),
    }
}

/// The tasks of the drafts: each has its draft's number, and so has the value that it makes.
pub(crate) fn tasks_of<'a>(
    alloc: Global,
    nodes: &Nodes,
    drafts: &[Draft<'a>],
) -> Result<Vec<Task<'a>>, OutOfMemory>
    requires drafts { AreDrafts nodes.now drafts.now }
    ensures tasks { IfOk result (λ v. (values : List ℕ) × (length nodes.now ≤ length values) × (v.items ≡ tasks_over values 0 drafts.now)) }
    ensures below { IfOk result (λ v. LookBelow (length v.items) v.items) }
{
    let mut table = vec![in alloc; 0; nodes.len()]?;
    let values = table.as_mut_slice();
    let mut tasks = Vec::with_capacity(alloc, drafts.len())?;
    for (now, draft) in drafts.iter().enumerate() {
        tasks.push(task_of(values, draft))?;
        put_value(values, draft, now);
    }
    Ok(tasks)
}

// Puts this number under the value's number, if there is a value.
fn mark(uses: &mut [usize], value: Option<usize>, now: usize)
    requires within { IfSome value (λ k. k < length uses.old) }
    ensures length { length uses.new ≡ length uses.old }
    ensures later { (i k : ℕ) → i ≤ now → i ≤ slice_index uses.old k → i ≤ slice_index uses.new k }
    ensures exact { (k : ℕ) → (slice_index uses.new k ≡ slice_index uses.old k) ⊎ ((value ≡ Some k) × (slice_index uses.new k ≡ now)) }
    ensures marked { (k : ℕ) → value ≡ Some k → now ≤ slice_index uses.new k }
{
    if let Some(k) = value {
        uses[k] = now;
    }
}

// For each value the number of the last task that looks at it, counted from 0, and 0 where none does.
fn last_uses(alloc: Global, tasks: &[Task]) -> Result<Vec<usize>, OutOfMemory>
    requires below { LookBelow (length tasks.now) tasks.now }
    ensures count { IfOk result (λ v. vec_len v ≡ length tasks.now) }
    ensures last { IfOk result (λ v. AreLastUses tasks.now v.items) }
    ensures uses { IfOk result (λ v. AreUses tasks.now v.items) }
{
    let mut uses = vec![in alloc; 0; tasks.len()]?;
    let places = uses.as_mut_slice();
    for (now, task) in tasks.iter().enumerate() {
        let (first, second) = task.looked_at();
        mark(places, first, now);
        mark(places, second, now);
    }
    Ok(uses)
}

// Whether there is no value, or its last use is no later than this number.
fn is_used_by(uses: &[usize], value: Option<usize>, now: usize) -> bool
    requires within { IfSome value (λ k. k < length uses.now) }
    ensures used { (result ≡ true) ↔ IsUsedBy uses.now now value }
{
    match value {
        Some(k) => uses[k] <= now,
        None => true,
    }
}

// The step with this number that has the task.
fn step_of<'a>(task: Task<'a>, uses: &[usize], now: usize) -> Step<'a>
    requires now { now < length uses.now }
    requires looks { (k : ℕ) → LooksAtValue task k → k < length uses.now }
    ensures task { result.task ≡ task.entry }
    ensures last { IsLastAt uses.now now result }
{
    let (first, second) = task.looked_at();
    Step {
        task,
        ends_first: is_used_by(uses, first, now),
        ends_second: is_used_by(uses, second, now),
        ends_made: is_used_by(uses, Some(now), now),
    }
}

/// The steps that have the tasks.
pub(crate) fn ended<'a>(alloc: Global, tasks: &[Task<'a>]) -> Result<Vec<Step<'a>>, OutOfMemory>
    requires below { LookBelow (length tasks.now) tasks.now }
    ensures tasks { IfOk result (λ v. tasks_in v.items ≡ tasks.now) }
    ensures ends { IfOk result (λ v. AreEndedAt v.items) }
{
    let found = last_uses(alloc, tasks)?;
    let uses = found.as_slice();
    let mut steps = Vec::with_capacity(alloc, tasks.len())?;
    for (now, task) in tasks.iter().enumerate() {
        steps.push(step_of(*task, uses, now))?;
    }
    Ok(steps)
}
