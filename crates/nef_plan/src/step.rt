//! The steps of a script's work.

ghost use Rattle.std.specs.Prelude.{◌≡◌, ◌↔◌, ◌⊎◌};
ghost use Rattle.nef_plan.specs.Prelude.{ℕ, Some, IsOperand, shape_of, LooksAtValue, first_of, first_value, second_of, second_value};

use nef_expr::Node;
use nef_script::Command;

/// A step of a script's work. The set that a step makes is a value, which has the step's number, counted from 0.
#[derive(Clone, Copy)]
pub struct Step<'a> {
    pub task: Task<'a>,
    /// Whether no later step looks at the first value that the task looks at.
    pub ends_first: bool,
    /// Whether no later step looks at the second one.
    pub ends_second: bool,
    /// Whether no later step looks at the value that the task makes.
    pub ends_made: bool,
}

/// What a step does.
#[derive(Clone, Copy)]
pub enum Task<'a> {
    /// Makes the set of the expression, whose operands are values of earlier steps.
    Make(Node),
    /// Makes the turned set of a value of an earlier step, under the turn, from 0 to 47.
    Turn {
        from: usize,
        turn: u8,
    },
    /// Answers the question about the values of one or two earlier steps.
    Ask {
        command: &'a Command,
        first: usize,
        second: Option<usize>,
    },
}

/// The steps of a script's work, in order.
#[derive(Drop)]
pub struct Plan<'a> {
    pub steps: Vec<Step<'a>>,
}

impl Task<'_> {
    /// The values that the task looks at.
    pub fn looked_at(&self) -> (Option<usize>, Option<usize>)
        ensures first { result.0 ≡ first_value self.now }
        ensures second { result.1 ≡ second_value self.now }
        ensures looked_at { (k : ℕ) → LooksAtValue self.now k ↔ ((result.0 ≡ Some k) ⊎ (result.1 ≡ Some k)) }
    {
        match *self {
            Task::Make(made) => operands(&made),
            Task::Turn { from, .. } => (Some(from), None),
            Task::Ask { first, second, .. } => (Some(first), second),
        }
    }
}

// The first operand of the expression, and the second.
fn operands(made: &Node) -> (Option<usize>, Option<usize>)
    ensures first { result.0 ≡ first_of (shape_of made.now) }
    ensures second { result.1 ≡ second_of (shape_of made.now) }
    ensures operands { (k : ℕ) → IsOperand k made.now ↔ ((result.0 ≡ Some k) ⊎ (result.1 ≡ Some k)) }
{
    match *made {
        Node::Half { .. } | Node::Empty | Node::Full => (None, None),
        Node::And(i, j) | Node::Or(i, j) | Node::Diff(i, j) | Node::Xor(i, j) => (Some(i), Some(j)),
        Node::Not(i) | Node::Int(i) | Node::Cl(i) | Node::Bd(i) | Node::Reg(i) => (Some(i), None),
    }
}
