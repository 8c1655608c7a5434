//! What steps work: the operation that makes a set of the complexes of its operands.

ghost use Rattle.nef_shell.specs.Prelude.{IsSomeAnd, List, Some, IfOk, IfSome, option_copied, Set, ShowsSet, operand, set_of, shape_of, unary_set, IsTask, MakesValue, first_of, first_value, task_set, second_of, second_value, IsNewlyHeld, AreMeans, IsLent, IsShown, MakesSet, op_set};
ghost use Rattle.std.specs.Prelude.{◌≡◌};

use crate::held::{Value, kept};
use nef_complex::Complex;
use nef_expr::Node;
use nef_geo::Oriented;
use nef_io::Gate;
use nef_ops::{UnaryOp, binary, constant, half_within, unary};
use nef_plan::Task;
use nef_star::Op;
use nef_turn::turn_complex;
use nef_words::Options;
use std::alloc::{AllocError, Global};
use std::sync::Wait;
use std::thread::Threads;

/// What operations are worked with: the complex of the whole frame, of which each half is cut, the options that the words
/// choose, of which some say how candidates are worked, and the gate that is told of each job.
#[derive(Drop)]
pub struct Resources<'a, G> {
    pub whole: &'a Complex,
    pub options: Options,
    pub gate: &'a G,
}

/// An operation on sets, with the complexes of its operands.
#[derive(Clone, Copy)]
pub(crate) enum Operation<'a> {
    /// The whole frame where it is true, and the empty set otherwise.
    Constant(bool),
    /// The side where the given `a x + b y + c z + d` is negative, with its boundary if `closed`.
    Half { oriented: Oriented, closed: bool },
    Unary(UnaryOp, &'a Complex),
    Binary(Op, &'a Complex, &'a Complex),
    /// The turned set, under the turn with this number, which is below 48.
    Turned(usize, &'a Complex),
}

// An operation on the operand, if it is there.
fn on_one<'a>(op: UnaryOp, operand: Option<&'a Complex>) -> Option<Operation<'a>>
    ensures makes { (s : Set) → IsShown s (option_copied operand.entry) → IsSomeAnd result (λ o. MakesSet o (unary_set op s)) }
{
    Some(Operation::Unary(op, operand?))
}

// An operation on both operands, if they are there.
fn on_two<'a>(
    op: Op,
    first: Option<&'a Complex>,
    second: Option<&'a Complex>,
) -> Option<Operation<'a>>
    ensures makes { (s t : Set) → IsShown s (option_copied first.entry) → IsShown t (option_copied second.entry) → IsSomeAnd result (λ o. MakesSet o (op_set op s t)) }
{
    match (first, second) {
        (Some(first), Some(second)) => Some(Operation::Binary(op, first, second)),
        _ => None,
    }
}

// The operation of the expression, if its operands are there.
fn of_expression<'a>(
    made: &Node,
    first: Option<&'a Complex>,
    second: Option<&'a Complex>,
) -> Option<Operation<'a>>
    ensures makes { (ss : List Set) → IsLent ss (first_of (shape_of made.now)) (option_copied first.entry) → IsLent ss (second_of (shape_of made.now)) (option_copied second.entry) → IsSomeAnd result (λ o. MakesSet o (set_of ss made.now)) }
{
    match *made {
        Node::Half { oriented, closed } => Some(Operation::Half { oriented, closed }),
        Node::Empty => Some(Operation::Constant(false)),
        Node::Full => Some(Operation::Constant(true)),
        Node::And(..) => on_two(Op::And, first, second),
        Node::Or(..) => on_two(Op::Or, first, second),
        Node::Diff(..) => on_two(Op::Diff, first, second),
        Node::Xor(..) => on_two(Op::Xor, first, second),
        Node::Not(_) => on_one(UnaryOp::Not, first),
        Node::Int(_) => on_one(UnaryOp::Int, first),
        Node::Cl(_) => on_one(UnaryOp::Cl, first),
        Node::Bd(_) => on_one(UnaryOp::Bd, first),
        Node::Reg(_) => on_one(UnaryOp::Reg, first),
    }
}

// The operation of the task, if it makes a set and its operands are there.
fn of_task<'a>(
    task: &Task,
    first: Option<&'a Complex>,
    second: Option<&'a Complex>,
) -> Option<Operation<'a>>
    ensures makes { (ss : List Set) → IsTask task.now → MakesValue task.now → IsLent ss (first_value task.now) (option_copied first.entry) → IsLent ss (second_value task.now) (option_copied second.entry) → IsSomeAnd result (λ o. MakesSet o (task_set ss task.now)) }
{
    match task {
        Task::Make(made) => of_expression(made, first, second),
        Task::Turn { turn, .. } => Some(Operation::Turned(usize::from(*turn), first?)),
        Task::Ask { .. } => None,
    }
}

/// The operation on two sets by which the task makes a set, and the numbers of their values, if it is one on two.
pub(crate) fn combination(task: &Task) -> Option<(Op, usize, usize)>
    ensures operands { IfSome result (λ c. (first_value task.now ≡ Some c.1) × (second_value task.now ≡ Some c.2)) }
    ensures set { IfSome result (λ c. (ss : List Set) → task_set ss task.now ≡ op_set c.0 (operand ss c.1) (operand ss c.2)) }
{
    match task {
        Task::Make(made) => combined_by(made),
        _ => None,
    }
}

// The operation on two sets by which the expression makes its set, and their numbers, if it is one on two.
fn combined_by(made: &Node) -> Option<(Op, usize, usize)>
    ensures operands { IfSome result (λ c. (first_of (shape_of made.now) ≡ Some c.1) × (second_of (shape_of made.now) ≡ Some c.2)) }
    ensures set { IfSome result (λ c. (ss : List Set) → set_of ss made.now ≡ op_set c.0 (operand ss c.1) (operand ss c.2)) }
{
    match *made {
        Node::And(i, j) => Some((Op::And, i, j)),
        Node::Or(i, j) => Some((Op::Or, i, j)),
        Node::Diff(i, j) => Some((Op::Diff, i, j)),
        Node::Xor(i, j) => Some((Op::Xor, i, j)),
        _ => None,
    }
}

// The complex that the operation makes.
fn worked_by<R: Threads + Wait + Sync, G: Gate + Sync>(
    rt: &R,
    alloc: Global,
    operation: Operation,
    means: &Resources<G>,
) -> Result<Complex, AllocError>
    requires means { AreMeans means.now }
    requires operands { (s : Set) × MakesSet operation s }
    ensures shows { IfOk result (λ c. (s : Set) → MakesSet operation.entry s → ShowsSet s c) }
{
    let (how, gate) = (&means.options.how, means.gate);
    match operation {
        Operation::Constant(full) => constant(alloc, full),
        Operation::Half { oriented, closed } => {
            half_within(rt, alloc, means.whole, &oriented, closed, how, gate)
        }
        Operation::Unary(op, operand) => unary(rt, alloc, op, operand, how, gate),
        Operation::Binary(op, first, second) => binary(rt, alloc, op, first, second, how, gate),
        Operation::Turned(turn, operand) => turn_complex(alloc, operand, turn),
    }
}

/// What is to be kept of the set that the task makes of the complexes of its operands, if it makes one and they are there.
/// `AllocError` says that memory was wanted and not found.
pub(crate) fn made<R: Threads + Wait + Sync, G: Gate + Sync>(
    rt: &R,
    alloc: Global,
    task: &Task,
    first: Option<&Complex>,
    second: Option<&Complex>,
    means: &Resources<G>,
) -> Result<Value, AllocError>
    requires means { AreMeans means.now }
    requires task { IsTask task.now × MakesValue task.now }
    requires operands { (ss : List Set) × IsLent ss (first_value task.now) (option_copied first) × IsLent ss (second_value task.now) (option_copied second) }
    ensures new { IfOk result (λ o. (ss : List Set) → IsLent ss (first_value task.now) (option_copied first.entry) → IsLent ss (second_value task.now) (option_copied second.entry) → IsSomeAnd o (λ b. IsNewlyHeld (task_set ss task.now) b.value)) }
{
    match of_task(task, first, second) {
        Some(operation) => {
            let complex = worked_by(rt, alloc, operation, means)?;
            kept(alloc, complex)
        }
        None => Ok(None),
    }
}
