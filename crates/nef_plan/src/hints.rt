//! Which rows are worked as trees: a rule by which little can be lost. No clause says which, and none has to: a row that isn't
//! ended is ended when its set is wanted.
//!
//! Where borders cross that a later set swallows, joining in another order makes crossings that the script's order doesn't
//! make. So there may be none: a crossing of two sets is swallowed only in a third, whose block then meets both blocks; and
//! what is taken away may cross outside of what it's taken from. Crossings of symmetric differences are never swallowed.
//! Then what each set costs more is one operation for each level of the tree, of which there are few above each set, and
//! that is little beside what its making cost: so it has to be made of half-spaces for this row alone.

ghost use Rattle.std.specs.Prelude.{◌≡◌, ◌<◌, ◌≤◌};
ghost use Rattle.nef_plan.specs.Prelude.{ℕ, All, IfOk, IfSome, OnOk, length, vec_len, SpeaksOfFirst};

use crate::OutOfMemory;
use crate::blocks::{Block, no_three_meet};
use crate::notes::{Note, notes_of};
use crate::row::RowKind;
use nef_expr::Nodes;
use nef_script::Script;
use std::alloc::Global;

// So many sets are joined with one another before they are joined with all those before, or are taken away.
const BATCH: usize = 16;

/// What is guessed of a node.
#[derive(Clone, Copy)]
pub(crate) enum Hint {
    /// Its set is made where its line stands.
    Made,
    /// It's one of a row that goes on, once last parts are joined, until so many others are left beside the last.
    GoesOn { others: usize },
}

// How many are left beside the last of so many parts, where each two of as many sets are joined.
fn others_of(parts: usize) -> usize
    ensures few { result ≤ 64 }
{
    (parts.count_ones() as usize).saturating_sub(1)
}

// How many parts of a row are joined with one another next, where so many are left. Of unions half of them are: then each
// has fewer joins than in the row, but the last few, of which none has more than six.
fn batch_size(kind: RowKind, left: usize) -> usize {
    match kind {
        RowKind::Exclusive => left,
        RowKind::Union | RowKind::Difference { .. } => BATCH.max(left / 2),
    }
}

// Hints for a row of the kind that is one tree. In each batch two of as many sets are joined, then each batch with those
// before.
fn hint_tree(hints: &mut [Hint], kind: RowKind, row: &[usize])
    requires within { All (λ k. k < length hints.old) row.now }
{
    let (mut left, mut parts, mut before) = (row.len().saturating_add(1), 1, 0);
    let mut batch = batch_size(kind, left);
    for node in row {
        parts += 1;
        let mut others = others_of(parts) + before;
        if parts == batch {
            left = left.saturating_sub(batch);
            batch = batch_size(kind, left);
            (parts, before, others) = (0, 1, 0);
        }
        hints[*node] = Hint::GoesOn { others };
    }
    if let Some(last) = row.last() {
        hints[*last] = Hint::Made;
    }
}

// The note of an operand, if there is one.
fn operand_note(notes: &[Note], operand: Option<usize>) -> Option<Note>
    requires operand { IfSome operand (λ k. k < length notes.now) }
{
    match operand {
        Some(node) => Some(notes[node]),
        None => None,
    }
}

// The block of the set that the node adds to its row, if that is made for it alone.
fn added_block(nodes: &Nodes, notes: &[Note], node: usize) -> Option<Block>
    requires node { node < length nodes.now }
    requires count { length notes.now ≡ length nodes.now }
{
    let note = operand_note(notes, nodes.get(node).operands().1)?;
    note.is_own.then_some(note.block)
}

// The block of the set that its row begins with.
fn first_block(nodes: &Nodes, notes: &[Note], node: usize) -> Option<Block>
    requires node { node < length nodes.now }
    requires count { length notes.now ≡ length nodes.now }
{
    let note = operand_note(notes, nodes.get(node).operands().0)?;
    Some(note.block)
}

// Hints for a row of differences: neighbours whose blocks are apart are taken away together.
fn hint_differences(
    alloc: Global,
    hints: &mut [Hint],
    nodes: &Nodes,
    notes: &[Note],
    row: &[usize],
) -> Result<(), OutOfMemory>
    requires within { All (λ k. k < length nodes.now) row.now }
    requires hints { length hints.old ≡ length nodes.now }
    requires count { length notes.now ≡ length nodes.now }
{
    let mut batch: Vec<Block> = Vec::new(alloc);
    let mut before: Option<usize> = None;
    for node in row {
        let added = added_block(nodes, notes, *node);
        let is_apart = added.is_some_and(|block| !batch.iter().any(|other| other.meets(&block)));
        match before {
            Some(before) if is_apart && 0 < batch.len() && batch.len() < BATCH => {
                let others = others_of(batch.len());
                hints[before] = Hint::GoesOn { others };
            }
            _ => batch.clear(),
        }
        if let Some(block) = added {
            batch.push(block)?;
        }
        before = Some(*node);
    }
    Ok(())
}

// The blocks of the sets of a row, if all that are added are made for it alone.
fn blocks_of_row(
    alloc: Global,
    nodes: &Nodes,
    notes: &[Note],
    row: &[usize],
) -> Result<Option<Vec<Block>>, OutOfMemory>
    requires within { All (λ k. k < length nodes.now) row.now }
    requires count { length notes.now ≡ length nodes.now }
{
    let mut blocks = Vec::with_capacity(alloc, row.len().saturating_add(1))?;
    for node in row {
        match added_block(nodes, notes, *node) {
            Some(block) => blocks.push(block)?,
            None => return Ok(None),
        }
    }
    if let Some(node) = row.first() {
        if let Some(block) = first_block(nodes, notes, *node) {
            blocks.push(block)?;
        }
    }
    Ok(Some(blocks))
}

// Hints for the nodes of a row, in order.
fn hint_row(
    alloc: Global,
    hints: &mut [Hint],
    nodes: &Nodes,
    notes: &[Note],
    kind: RowKind,
    row: &[usize],
) -> Result<(), OutOfMemory>
    requires within { All (λ k. k < length nodes.now) row.now }
    requires hints { length hints.old ≡ length nodes.now }
    requires count { length notes.now ≡ length nodes.now }
{
    match kind {
        RowKind::Exclusive => hint_tree(hints, kind, row),
        RowKind::Difference { .. } => hint_differences(alloc, hints, nodes, notes, row)?,
        RowKind::Union => {
            if let Some(mut blocks) = blocks_of_row(alloc, nodes, notes, row)? {
                if no_three_meet(alloc, blocks.as_mut_slice())? {
                    hint_tree(hints, kind, row);
                }
            }
        }
    }
    Ok(())
}

// The node before this one in its row.
fn node_before(nodes: &Nodes, notes: &[Note], node: usize) -> Option<usize>
    requires node { node < length nodes.now }
    requires count { length notes.now ≡ length nodes.now }
    ensures before { IfSome result (λ k. k < node) }
{
    let (first, _) = nodes.get(node).operands();
    if operand_note(notes, first)?.goes_on() {
        first
    } else {
        None
    }
}

// Lists the nodes of the row that ends with this one, in order.
fn list_row(
    nodes: &Nodes,
    notes: &[Note],
    end: usize,
    row: &mut Vec<usize>,
) -> Result<(), OutOfMemory>
    requires end { end < length nodes.now }
    requires count { length notes.now ≡ length nodes.now }
    ensures within { OnOk result (All (λ k. k < length nodes.now) row.new.items) }
{
    row.clear();
    row.push(end)?;
    let mut node = end;
    while let Some(before) = node_before(nodes, notes, node) {
        row.push(before)?;
        node = before;
    }
    row.reverse();
    Ok(())
}

/// A hint for each node of the script.
pub(crate) fn hints_of(alloc: Global, script: &Script) -> Result<Vec<Hint>, OutOfMemory>
    requires within { All (SpeaksOfFirst (length script.now.nodes)) script.now.commands }
    ensures count { IfOk result (λ v. vec_len v ≡ length script.now.nodes) }
{
    let nodes = &script.nodes;
    let notes = notes_of(alloc, script)?;
    let mut hints = vec![in alloc; Hint::Made; nodes.len()]?;
    let mut row: Vec<usize> = Vec::new(alloc);
    for end in 0..nodes.len() {
        if let Some(kind) = notes[end].ended() {
            list_row(nodes, notes.as_slice(), end, &mut row)?;
            let places = hints.as_mut_slice();
            hint_row(alloc, places, nodes, notes.as_slice(), kind, row.as_slice())?;
        }
    }
    Ok(hints)
}
