//! What is known of each node of a script before its work is planned: which lines make its set and look at it, what the set
//! is made of, and its block.

ghost use Rattle.std.specs.Prelude.{◌≡◌, ◌<◌};
ghost use Rattle.nef_plan.specs.Prelude.{ℕ, All, IfOk, IfSome, length, vec_len, NamesBelow, SpeaksOfFirst};

use crate::OutOfMemory;
use crate::blocks::{Block, list_operands, tightened};
use crate::planning::asked_nodes;
use crate::row::RowKind;
use nef_expr::{Node, Nodes};
use nef_script::{Command, Script};
use std::alloc::Global;

/// Which lines look at a node's set.
#[derive(Clone, Copy)]
enum Looks {
    None,
    /// One, which makes an operation of a row of which the set is the first operand.
    First(RowKind),
    /// One, otherwise.
    Other,
    Several,
}

/// What is known of a node.
#[derive(Clone, Copy)]
pub(crate) struct Note {
    /// Its block.
    pub(crate) block: Block,
    /// Whether it's made of half-spaces, by operations whose sets nothing else looks at.
    pub(crate) is_own: bool,
    // The operation of a row that a line makes it by, if it's one.
    link: Option<RowKind>,
    looks: Looks,
}

impl Note {
    /// The operation of a row by which it's made, if the row ends with it.
    pub(crate) fn ended(&self) -> Option<RowKind> {
        if self.goes_on() { None } else { self.link }
    }

    /// Whether it's made by an operation of a row that goes on.
    pub(crate) fn goes_on(&self) -> bool {
        match (self.link, self.looks) {
            (Some(link), Looks::First(next)) => link.is_like(next),
            _ => false,
        }
    }
}

// The operation of a row that the node is, if it's one.
fn link_of(node: &Node) -> Option<RowKind> {
    match *node {
        Node::Or(..) => Some(RowKind::Union),
        Node::Xor(..) => Some(RowKind::Exclusive),
        Node::Diff(from, _) => Some(RowKind::Difference { from }),
        _ => None,
    }
}

// The notes before any line is read.
fn first_notes(alloc: Global, nodes: &Nodes) -> Result<Vec<Note>, OutOfMemory>
    ensures count { IfOk result (λ v. vec_len v ≡ length nodes.now) }
{
    let mut notes: Vec<Note> = Vec::with_capacity(alloc, nodes.len())?;
    let mut listed: Vec<usize> = Vec::new(alloc);
    for node in 0..nodes.len() {
        let block = match nodes.get(node) {
            Node::Half { oriented, .. } => Block::FRAME.within(oriented),
            Node::And(i, j) => {
                list_operands(nodes, node, &mut listed)?;
                let both = notes[*i].block.common(&notes[*j].block);
                tightened(nodes, listed.as_slice(), both)
            }
            Node::Or(i, j) | Node::Xor(i, j) => notes[*i].block.hull(&notes[*j].block),
            Node::Diff(i, _) => notes[*i].block,
            _ => Block::FRAME,
        };
        notes.push(Note {
            block,
            is_own: false,
            link: None,
            looks: Looks::None,
        })?;
    }
    Ok(notes)
}

// Notes one look more at the node, if there is one.
fn note_look(notes: &mut [Note], node: Option<usize>, look: Looks)
    requires within { IfSome node (λ k. k < length notes.old) }
{
    if let Some(node) = node {
        let note = &mut notes[node];
        note.looks = match note.looks {
            Looks::None => look,
            _ => Looks::Several,
        };
    }
}

// Notes the looks of one line at both nodes.
fn note_both(notes: &mut [Note], nodes: (Option<usize>, Option<usize>), first: Looks)
    requires first { IfSome nodes.0 (λ k. k < length notes.old) }
    requires second { IfSome nodes.1 (λ k. k < length notes.old) }
{
    note_look(notes, nodes.0, first);
    note_look(notes, nodes.1, Looks::Other);
}

// Notes what a line says that makes the node by this operation. Whether it's the only one to look at the sets that it needs,
// is told at the end.
fn note_made(notes: &mut [Note], node: usize, made: &Node)
    requires node { node < length notes.old }
    requires operands { NamesBelow (length notes.old) made.now }
{
    let link = link_of(made);
    note_both(
        notes,
        made.operands(),
        link.map_or(Looks::Other, Looks::First),
    );
    let note = &mut notes[node];
    note.link = link;
    note.is_own = true;
}

// Notes what a line says.
fn note_command(notes: &mut [Note], nodes: &Nodes, command: &Command)
    requires within { SpeaksOfFirst (length nodes.now) command.now }
    requires count { length notes.old ≡ length nodes.now }
{
    match command {
        Command::Bind { node, .. } => note_made(notes, *node, nodes.get(*node)),
        Command::Turn { from, .. } => note_look(notes, Some(*from), Looks::Other),
        _ => note_both(notes, asked_nodes(command), Looks::Other),
    }
}

// Whether the operand of a node, if there is one, is made so.
fn is_operand_own(notes: &[Note], operand: Option<usize>) -> bool
    requires operand { IfSome operand (λ k. k < length notes.now) }
{
    match operand {
        Some(node) => notes[node].is_own,
        None => true,
    }
}

// Whether a node, which a line makes, is made of half-spaces by operations whose sets nothing else looks at. Its operands are
// told of.
fn is_own(notes: &[Note], made: &Node, looks: Looks) -> bool
    requires operands { NamesBelow (length notes.now) made.now }
{
    let (first, second) = made.operands();
    let is_alone = first.is_none() || matches!(looks, Looks::First(_) | Looks::Other);
    is_alone && is_operand_own(notes, first) && is_operand_own(notes, second)
}

// Takes it back of the nodes which aren't made so.
fn note_own(notes: &mut [Note], nodes: &Nodes)
    requires count { length notes.old ≡ length nodes.now }
{
    for node in 0..nodes.len() {
        let note = notes[node];
        if note.is_own {
            notes[node].is_own = is_own(notes, nodes.get(node), note.looks);
        }
    }
}

/// A note for each node of the script.
pub(crate) fn notes_of(alloc: Global, script: &Script) -> Result<Vec<Note>, OutOfMemory>
    requires within { All (SpeaksOfFirst (length script.now.nodes)) script.now.commands }
    ensures count { IfOk result (λ v. vec_len v ≡ length script.now.nodes) }
{
    let nodes = &script.nodes;
    let mut notes = first_notes(alloc, nodes)?;
    let places = notes.as_mut_slice();
    for command in script.commands() {
        note_command(places, nodes, command);
    }
    note_own(places, nodes);
    Ok(notes)
}
