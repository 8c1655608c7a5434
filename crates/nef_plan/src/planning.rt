//! The plan of a script.

ghost use Rattle.std.specs.Prelude.{◌≡◌, ◌↔◌, ◌⊎◌, ◌<◌, ◌≤◌, ◌+◌, ◌*◌, ◌∷◌};
ghost use Rattle.nef_plan.specs.Prelude.{ℕ, true, Some, IfOk, IfSome, OnOk, filter, length, vec_len, slice_get, [], Binds, TurnsRight, SpeaksOfFirst, ArePlanned, GoesOn, IsBoundIn, AreDrafts, AreTimely, HasMore, IsDraftBelow, DraftLooksAt, Makes, asked, AreWorkable, AsksAbout, first_asked, is_question, second_asked, IsPlanOf, joins_a_line};
ghost use Rattle.nef_expr.specs.Nodes.{IsOrdered};
ghost use Rattle.nef_script.specs.Commands.{LooksAt};
ghost use Rattle.nef_plan.specs.declared.row.Bound.TheVariants as bound;

use crate::OutOfMemory;
use crate::hints::{Hint, hints_of};
use crate::needed::as_needed;
use crate::numbering::{ended, tasks_of};
use crate::planner::{Draft, Drafts, add_draft, bind};
use crate::row::Bound;
use crate::step::Plan;
use nef_expr::Nodes;
use nef_script::{Command, Script};
use std::alloc::Global;

// A copy of the nodes.
fn copied(alloc: Global, nodes: &Nodes) -> Result<Nodes, OutOfMemory>
    ensures nodes { IfOk result (λ v. v ≡ nodes.now) }
{
    let mut copy = Nodes::new(alloc);
    for k in 0..nodes.len() {
        copy.push(*nodes.get(k))?;
    }
    Ok(copy)
}

// No node is bound.
fn unbound(alloc: Global, count: usize) -> Result<Vec<Bound>, OutOfMemory>
    ensures count { IfOk result (λ v. vec_len v ≡ count) }
    ensures unbound { IfOk result (λ v. (k : ℕ) (b : _) → slice_get v.items k ≡ Some b → b ≡ bound.No) }
{
    let mut bounds = Vec::with_capacity(alloc, count)?;
    for _ in 0..count {
        bounds.push(Bound::No)?;
    }
    Ok(bounds)
}

// Whether the node is bound.
fn is_bound(bounds: &[Bound], node: usize) -> bool
    requires within { node < length bounds.now }
    ensures bound { (result ≡ true) ↔ IsBoundIn bounds.now node }
{
    !matches!(bounds[node], Bound::No)
}

/// The nodes whose sets the command asks about: none, where it binds one.
pub(crate) fn asked_nodes(command: &Command) -> (Option<usize>, Option<usize>)
    ensures first { result.0 ≡ first_asked command.now }
    ensures second { result.1 ≡ second_asked command.now }
    ensures asked { (k : ℕ) → AsksAbout command.now k ↔ ((result.0 ≡ Some k) ⊎ (result.1 ≡ Some k)) }
    ensures within { (n : ℕ) → SpeaksOfFirst n command.now → IfSome result.0 (λ k. k < n) × IfSome result.1 (λ k. k < n) }
{
    match command {
        Command::Bind { .. } | Command::Turn { .. } => (None, None),
        Command::Same { left, right, .. } => (Some(*left), Some(*right)),
        Command::Has { node, .. }
        | Command::Joined { node, .. }
        | Command::Ray { node, .. }
        | Command::Count { node, .. }
        | Command::Print { node, .. } => (Some(*node), None),
    }
}

/// The nodes whose sets the step looks at: those of which it makes another, or those that it asks about.
pub(crate) fn looked_at(step: &Draft) -> (Option<usize>, Option<usize>)
    ensures looked_at { (k : ℕ) → DraftLooksAt step.now k ↔ ((result.0 ≡ Some k) ⊎ (result.1 ≡ Some k)) }
    ensures within { (n : ℕ) → IsDraftBelow n step.now → IfSome result.0 (λ k. k < n) × IfSome result.1 (λ k. k < n) }
{
    match step {
        Draft::Make { made, .. } => made.operands(),
        Draft::Turn { from, .. } => (Some(*from), None),
        Draft::Ask(command) => asked_nodes(command),
    }
}

/// The node whose set the step makes, if it makes one.
pub(crate) fn made_by(step: &Draft) -> Option<usize>
    ensures made { (k : ℕ) → Makes step.now k ↔ (result ≡ Some k) }
{
    match step {
        Draft::Make { node, .. } | Draft::Turn { node, .. } => Some(*node),
        Draft::Ask(_) => None,
    }
}

// Adds the steps of the command: none, where it binds a name to a node that is bound.
fn add_command<'a>(
    alloc: Global,
    plan: &mut Drafts<'a>,
    bounds: &mut [Bound],
    hints: &[Hint],
    nodes: &Nodes,
    command: &'a Command,
) -> Result<(), OutOfMemory>
    requires ordered { IsOrdered nodes.now }
    requires within { SpeaksOfFirst (length nodes.now) command.now }
    requires turned { TurnsRight nodes.now command.now }
    requires looks { (k : ℕ) → LooksAt nodes.now command.now k → IsBoundIn bounds.old k }
    requires planned { ArePlanned plan.old bounds.old }
    requires count { length bounds.old ≡ length nodes.now }
    requires hints { length hints.now ≡ length bounds.old }
    requires more { HasMore nodes.now plan.old.nodes }
    ensures goes_on { OnOk result (GoesOn plan.old bounds.old plan.new bounds.new (filter is_question (command.entry.now ∷ []))) }
    ensures joins { OnOk result (length plan.new.nodes ≤ length plan.old.nodes + joins_a_line) }
    ensures bound { OnOk result ((k : ℕ) → Binds command.entry.now k → IsBoundIn bounds.new k) }
    ensures only { OnOk result ((k : ℕ) → IsBoundIn bounds.new k → IsBoundIn bounds.old k ⊎ Binds command.entry.now k) }
{
    match command {
        Command::Bind { node, .. } => {
            if is_bound(bounds, *node) {
                Ok(())
            } else {
                bind(alloc, plan, bounds, hints, *node, *nodes.get(*node))
            }
        }
        Command::Turn {
            node,
            from,
            turn,
            ..
        } => {
            if is_bound(bounds, *node) {
                Ok(())
            } else {
                let (node, from, turn) = (*node, *from, *turn);
                add_draft(plan, bounds, Draft::Turn { node, from, turn })
            }
        }
        _ => add_draft(plan, bounds, Draft::Ask(command)),
    }
}

// Adds the steps of all commands, in order.
fn add_commands<'a>(
    alloc: Global,
    plan: &mut Drafts<'a>,
    bounds: &mut [Bound],
    hints: &[Hint],
    script: &'a Script,
) -> Result<(), OutOfMemory>
    requires ordered { IsOrdered script.now.nodes }
    requires workable { AreWorkable script.now.nodes script.now.commands }
    requires planned { ArePlanned plan.old bounds.old }
    requires count { length bounds.old ≡ length script.now.nodes }
    requires hints { length hints.now ≡ length script.now.nodes }
    requires more { HasMore script.now.nodes plan.old.nodes }
    requires none { plan.old.steps.items ≡ [] }
    requires unbound { (k : ℕ) → IsBoundIn bounds.old k → ⊥ }
    ensures steps { OnOk result (AreDrafts plan.new.nodes plan.new.steps.items) }
    ensures nodes { OnOk result (HasMore script.entry.now.nodes plan.new.nodes) }
    ensures joins { OnOk result (length plan.new.nodes ≤ length plan.old.nodes + joins_a_line * length script.entry.now.commands) }
    ensures asked { OnOk result (asked plan.new.steps.items ≡ filter is_question script.entry.now.commands) }
    ensures timely { OnOk result (AreTimely script.entry.now.nodes script.entry.now.commands plan.new.steps.items) }
{
    let nodes = &script.nodes;
    for command in script.commands() {
        add_command(alloc, plan, bounds, hints, nodes, command)?;
    }
    Ok(())
}

/// The steps of the script, in which its questions stand in their order, each behind the steps that make the values of the
/// nodes that it asks about. The value of a node is made once at most: before the first question that needs it and behind
/// the one before that, and behind the last question if none needs it. `OutOfMemory` says that memory was wanted and not
/// found.
pub fn plan<'a>(alloc: Global, script: &'a Script) -> Result<Plan<'a>, OutOfMemory>
    requires workable { AreWorkable script.now.nodes script.now.commands }
    ensures plan { IfOk result (λ p. IsPlanOf script.entry.now.nodes script.entry.now.commands p.steps.items) }
{
    let nodes = &script.nodes;
    let hints = hints_of(alloc, script)?;
    let mut bounds = unbound(alloc, nodes.len())?;
    let mut drafts = Drafts {
        nodes: copied(alloc, nodes)?,
        steps: Vec::new(alloc),
    };
    add_commands(
        alloc,
        &mut drafts,
        bounds.as_mut_slice(),
        hints.as_slice(),
        script,
    )?;
    let ordered = as_needed(alloc, &drafts.nodes, &drafts.steps)?;
    let tasks = tasks_of(alloc, &drafts.nodes, &ordered)?;
    let steps = ended(alloc, &tasks)?;
    Ok(Plan { steps })
}
