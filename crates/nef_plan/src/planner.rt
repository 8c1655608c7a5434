//! Drafts of steps, and those that make the sets of nodes.

ghost use Rattle.std.specs.Prelude.{◌≡◌, ◌<◌, ◌≤◌, ◌∷◌, ◌++◌, ◌⊎◌, ◌+◌};
ghost use Rattle.nef_plan.specs.Prelude.{ℕ, IfOk, IfSome, OnOk, length, Some, [], node_set, set_of, sets_after, IsOperand, PartsAreReady, ArePlanned, GoesOn, AddsOnly, HasGrown, IsBoundIn, IsFree, IsNodeReady, IsRowOf, AreOfOneKind, BeginsWith, combined, joined, row_parts, spare, AreDrafts, IsMade, IsRightDraft, DraftLooksAt, Makes, MayFollow, asked, joins_a_line, Drafts as State};

use crate::OutOfMemory;
use crate::hints::Hint;
use crate::planning::{looked_at, made_by};
use crate::row::{Bound, MOST_PARTS, Row, RowKind};
use nef_expr::{Node, Nodes};
use nef_script::Command;
use std::alloc::Global;
use std::mem;

/// The draft of a step, which speaks of the sets of nodes.
#[derive(Clone, Copy)]
pub(crate) enum Draft<'a> {
    /// The set of the node is made, of the sets of other nodes. Where it is one of a row that is joined as a tree, it isn't
    /// made as its line says.
    Make { node: usize, made: Node },
    /// The set of the node is the turned set of the node `from` under the turn `turn`, from 0 to 47.
    Turn { node: usize, from: usize, turn: u8 },
    /// The question is answered.
    Ask(&'a Command),
}

/// What is worked of a script: its nodes, with more behind them for sets that no name is bound to, and the drafts of its
/// steps, in order.
#[derive(Drop)]
pub(crate) struct Drafts<'a> {
    pub nodes: Nodes,
    pub steps: Vec<Draft<'a>>,
}

// Adds a step behind those that make what it looks at.
fn add_step<'a>(plan: &mut Drafts<'a>, step: Draft<'a>) -> Result<(), OutOfMemory>
    requires steps { AreDrafts plan.old.nodes plan.old.steps.items }
    requires right { IsRightDraft plan.old.nodes step }
    requires follows { MayFollow plan.old.steps.items step }
    ensures grown { OnOk result (HasGrown plan.old plan.new (asked (step.entry ∷ []))) }
    ensures nodes { plan.new.nodes ≡ plan.old.nodes }
    ensures steps { OnOk result (plan.new.steps.items ≡ plan.old.steps.items ++ step.entry ∷ []) }
    ensures made { OnOk result ((k : ℕ) → Makes step.entry k → IsMade plan.new.steps.items k) }
{
    plan.steps.push(step)?;
    Ok(())
}

// Makes one part of two.
fn joined_part(
    plan: &mut Drafts,
    kind: RowKind,
    first: usize,
    second: usize,
) -> Result<usize, OutOfMemory>
    requires steps { AreDrafts plan.old.nodes plan.old.steps.items }
    requires first { IsNodeReady plan.old first }
    requires second { IsNodeReady plan.old second }
    ensures grown { IfOk result (λ p. HasGrown plan.old plan.new []) }
    ensures ready { IfOk result (λ p. IsNodeReady plan.new p) }
    ensures added { IfOk result (λ p. AddsOnly plan.old plan.new (λ k. ⊥)) }
    ensures one { IfOk result (λ p. length plan.new.nodes ≡ length plan.old.nodes + 1) }
    ensures set { IfOk result (λ p. node_set plan.new.nodes p ≡ joined kind (node_set plan.old.nodes first) (node_set plan.old.nodes second)) }
{
    let made = kind.join(first, second);
    let node = plan.nodes.push(made)?;
    add_step(plan, Draft::Make { node, made })?;
    Ok(node)
}

// Joins the last two parts of the row, if there are two.
fn join_last(plan: &mut Drafts, row: &mut Row) -> Result<(), OutOfMemory>
    requires steps { AreDrafts plan.old.nodes plan.old.steps.items }
    requires ready { PartsAreReady plan.old row.old.kind (row_parts row.old) }
    ensures grown { OnOk result (HasGrown plan.old plan.new []) }
    ensures ready { OnOk result (PartsAreReady plan.new row.new.kind (row_parts row.new)) }
    ensures added { OnOk result (AddsOnly plan.old plan.new (λ k. ⊥)) }
    ensures kind { OnOk result (row.new.kind ≡ row.old.kind) }
    ensures row { OnOk result ((k : ℕ) → IsRowOf plan.old row.old k → IsRowOf plan.new row.new k) }
    ensures joins { OnOk result (length plan.new.nodes + length row.new.others.items ≤ length plan.old.nodes + length row.old.others.items) }
    ensures fewer { OnOk result (0 < length row.old.others.items → length row.new.others.items < length row.old.others.items) }
{
    if let Some(part) = row.others.pop() {
        row.last = joined_part(plan, row.kind, part, row.last)?;
    }
    Ok(())
}

// Joins last parts of the row, until no more than so many others are left.
fn join_parts(plan: &mut Drafts, row: &mut Row, others: usize) -> Result<(), OutOfMemory>
    requires steps { AreDrafts plan.old.nodes plan.old.steps.items }
    requires ready { PartsAreReady plan.old row.old.kind (row_parts row.old) }
    ensures grown { OnOk result (HasGrown plan.old plan.new []) }
    ensures added { OnOk result (AddsOnly plan.old plan.new (λ k. ⊥)) }
    ensures kind { OnOk result (row.new.kind ≡ row.old.kind) }
    ensures few { OnOk result (length row.new.others.items ≤ others) }
    ensures joins { OnOk result (length plan.new.nodes + length row.new.others.items ≤ length plan.old.nodes + length row.old.others.items) }
    ensures row { OnOk result ((k : ℕ) → IsRowOf plan.old row.old k → IsRowOf plan.new row.new k) }
{
    while row.others.len() > others {
        join_last(plan, row)?;
    }
    Ok(())
}

// Joins the parts of the node's row, and makes its set of them.
fn finish(plan: &mut Drafts, row: &mut Row, node: usize) -> Result<(), OutOfMemory>
    requires steps { AreDrafts plan.old.nodes plan.old.steps.items }
    requires free { IsFree plan.old node }
    requires row { IsRowOf plan.old row.old node }
    ensures grown { OnOk result (HasGrown plan.old plan.new []) }
    ensures added { OnOk result (AddsOnly plan.old plan.new (λ k. k ≡ node)) }
    ensures joins { OnOk result (length plan.new.nodes ≤ length plan.old.nodes + length row.old.others.items) }
    ensures ready { OnOk result (IsNodeReady plan.new node) }
{
    let spare = row.spare();
    join_parts(plan, row, spare)?;
    let made = row.ending();
    add_step(plan, Draft::Make { node, made })
}

// Makes the set of the node, if there is one, which is bound then, unless it is made.
fn demand(plan: &mut Drafts, bounds: &mut [Bound], wanted: Option<usize>) -> Result<(), OutOfMemory>
    requires planned { ArePlanned plan.old bounds.old }
    requires bound { IfSome wanted (IsBoundIn bounds.old) }
    ensures goes_on { OnOk result (GoesOn plan.old bounds.old plan.new bounds.new []) }
    ensures only { OnOk result ((k : ℕ) → IsBoundIn bounds.new k → IsBoundIn bounds.old k) }
    ensures joins { OnOk result (length plan.new.nodes ≤ length plan.old.nodes + MOST_PARTS) }
    ensures ready { OnOk result (IfSome wanted (IsNodeReady plan.new)) }
{
    let Some(node) = wanted else {
        return Ok(());
    };
    if let Bound::Deferred(mut row) = mem::replace(&mut bounds[node], Bound::Made) {
        finish(plan, &mut row, node)?;
    }
    Ok(())
}

/// Adds the step behind those that make what it looks at, which is bound. A node whose set it makes wasn't bound, and is
/// bound then.
pub(crate) fn add_draft<'a>(
    plan: &mut Drafts<'a>,
    bounds: &mut [Bound],
    step: Draft<'a>,
) -> Result<(), OutOfMemory>
    requires planned { ArePlanned plan.old bounds.old }
    requires looks { (k : ℕ) → DraftLooksAt step k → IsBoundIn bounds.old k }
    requires right { IsRightDraft plan.old.nodes step }
    requires unbound { (k : ℕ) → Makes step k → (k < length bounds.old) × (IsBoundIn bounds.old k → ⊥) }
    ensures goes_on { OnOk result (GoesOn plan.old bounds.old plan.new bounds.new (asked (step.entry ∷ []))) }
    ensures joins { OnOk result (length plan.new.nodes ≤ length plan.old.nodes + joins_a_line) }
    ensures bound { OnOk result ((k : ℕ) → Makes step.entry k → IsBoundIn bounds.new k) }
    ensures only { OnOk result ((k : ℕ) → IsBoundIn bounds.new k → IsBoundIn bounds.old k ⊎ Makes step.entry k) }
{
    let (first, second) = looked_at(&step);
    demand(plan, bounds, first)?;
    demand(plan, bounds, second)?;
    add_step(plan, step)?;
    if let Some(node) = made_by(&step) {
        bounds[node] = Bound::Made;
    }
    Ok(())
}

// A copy of the node's row, if it has one of the kind.
fn row_at(
    alloc: Global,
    bounds: &[Bound],
    kind: RowKind,
    node: usize,
) -> Result<Option<Row>, OutOfMemory>
    requires bound { IsBoundIn bounds.now node }
    ensures row { IfOk result (λ o. (r : Row) → o ≡ Some r → AreOfOneKind r.kind kind × ((plan : State) → ArePlanned plan bounds.now → IsRowOf plan r node × (length r.others.items ≤ MOST_PARTS))) }
{
    match &bounds[node] {
        Bound::Deferred(row) if row.kind.is_like(kind) => Ok(Some(row.copied(alloc)?)),
        _ => Ok(None),
    }
}

// The row of the operation on both nodes: where the first is a row of its kind, the second is one part more, and otherwise
// both begin a row.
fn row_of(
    alloc: Global,
    plan: &mut Drafts,
    bounds: &mut [Bound],
    kind: RowKind,
    first: usize,
    second: usize,
) -> Result<Row, OutOfMemory>
    requires planned { ArePlanned plan.old bounds.old }
    requires begins { BeginsWith kind first }
    requires first { IsBoundIn bounds.old first }
    requires second { IsBoundIn bounds.old second }
    ensures goes_on { IfOk result (λ r. GoesOn plan.old bounds.old plan.new bounds.new []) }
    ensures only { IfOk result (λ r. (k : ℕ) → IsBoundIn bounds.new k → IsBoundIn bounds.old k) }
    ensures joins { IfOk result (λ r. length plan.new.nodes + length r.others.items ≤ length plan.old.nodes + joins_a_line) }
    ensures row { IfOk result (λ r. (k : ℕ) → k < length plan.new.nodes → node_set plan.new.nodes k ≡ combined kind (node_set plan.new.nodes first) (node_set plan.new.nodes second) → IsRowOf plan.new r k) }
{
    demand(plan, bounds, Some(second))?;
    if let Some(mut row) = row_at(alloc, bounds, kind, first)? {
        row.add(second)?;
        return Ok(row);
    }
    demand(plan, bounds, Some(first))?;
    Row::begun(alloc, kind, first, second)
}

// Binds the node, which isn't bound, to the operation on both nodes, whose row is ended there unless the node's hint is that it goes on.
fn bind_row(
    alloc: Global,
    plan: &mut Drafts,
    bounds: &mut [Bound],
    hints: &[Hint],
    node: usize,
    kind: RowKind,
    first: usize,
    second: usize,
) -> Result<(), OutOfMemory>
    requires planned { ArePlanned plan.old bounds.old }
    requires hints { length hints.now ≡ length bounds.old }
    requires begins { BeginsWith kind first }
    requires first { IsBoundIn bounds.old first }
    requires second { IsBoundIn bounds.old second }
    requires node { node < length bounds.old }
    requires unbound { IsBoundIn bounds.old node → ⊥ }
    requires within { node < length plan.old.nodes }
    requires set { node_set plan.old.nodes node ≡ combined kind (node_set plan.old.nodes first) (node_set plan.old.nodes second) }
    ensures goes_on { OnOk result (GoesOn plan.old bounds.old plan.new bounds.new []) }
    ensures joins { OnOk result (length plan.new.nodes ≤ length plan.old.nodes + joins_a_line) }
    ensures bound { OnOk result (IsBoundIn bounds.new node) }
    ensures only { OnOk result ((k : ℕ) → IsBoundIn bounds.new k → IsBoundIn bounds.old k ⊎ (k ≡ node)) }
{
    let mut row = row_of(alloc, plan, bounds, kind, first, second)?;
    match hints[node] {
        Hint::GoesOn { others } => {
            join_parts(plan, &mut row, others.min(MOST_PARTS))?;
            bounds[node] = Bound::Deferred(row);
        }
        Hint::Made => {
            finish(plan, &mut row, node)?;
            bounds[node] = Bound::Made;
        }
    }
    Ok(())
}

/// Binds the node, which isn't bound, and whose set is the one that `made` makes.
pub(crate) fn bind(
    alloc: Global,
    plan: &mut Drafts,
    bounds: &mut [Bound],
    hints: &[Hint],
    node: usize,
    made: Node,
) -> Result<(), OutOfMemory>
    requires planned { ArePlanned plan.old bounds.old }
    requires hints { length hints.now ≡ length bounds.old }
    requires operands { (k : ℕ) → IsOperand k made → IsBoundIn bounds.old k }
    requires node { node < length bounds.old }
    requires unbound { IsBoundIn bounds.old node → ⊥ }
    requires within { node < length plan.old.nodes }
    requires set { node_set plan.old.nodes node ≡ set_of (sets_after [] plan.old.nodes) made }
    ensures goes_on { OnOk result (GoesOn plan.old bounds.old plan.new bounds.new []) }
    ensures joins { OnOk result (length plan.new.nodes ≤ length plan.old.nodes + joins_a_line) }
    ensures bound { OnOk result (IsBoundIn bounds.new node) }
    ensures only { OnOk result ((k : ℕ) → IsBoundIn bounds.new k → IsBoundIn bounds.old k ⊎ (k ≡ node)) }
{
    let (kind, first, second) = match made {
        Node::Or(i, j) => (RowKind::Union, i, j),
        Node::Xor(i, j) => (RowKind::Exclusive, i, j),
        Node::Diff(i, j) => (RowKind::Difference { from: i }, i, j),
        _ => return add_draft(plan, bounds, Draft::Make { node, made }),
    };
    bind_row(alloc, plan, bounds, hints, node, kind, first, second)
}
