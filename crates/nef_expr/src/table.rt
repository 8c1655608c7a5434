//! Nodes with their bases and turns, and turned copies of nodes: which nodes a copy needs, and the turned image of
//! each.

ghost use Rattle.std.specs.Prelude.{◌≡◌, ◌+◌, ◌*◌, ◌<◌, ◌≤◌, ◌∷◌, ◌++◌};
ghost use Rattle.nef_geo.specs.Prelude.{ℕ, [], length, slice_get, IfOk, IfSome, OnErr, None, Some, form, given_form};
ghost use Rattle.law_geometry.specs.turns.Turned.{turned_plane};
ghost use Rattle.nef_expr.specs.Nodes.{NamesBelow, IsOrdered};
ghost use Rattle.nef_expr.specs.Turns.{TurnOf};
ghost use Rattle.nef_expr.specs.Table.{most_bases, origin, key_of, HasOrigin, IsOfOrigin, AreOrigins, IsCopyOf};
ghost use Rattle.nef_expr.specs.Copying.{Stays, OperandsTurned, IsTurnedNode, MarksOperands, AreWithOperands};

use crate::OutOfMemory;
use crate::nodes::{Node, Nodes};
use nef_case::{turn_compose, turn_row, turned_coordinates};
use nef_geo::Oriented;
use std::alloc::Global;
use std::collections::BTreeMap;
use std::marker::Model;

const TURNS: usize = 48;

/// The base and the turn of which a node is the image: the base's number, counted from 0, and the turn's, below 48.
#[derive(Clone, Copy)]
pub struct Origin {
    pub base: usize,
    pub turn: usize,
}

/// The nodes of a script's own lines, which are the bases, and turned copies of them. Each node has a base and a turn,
/// and no two nodes have both in common. Contracts see the nodes, their origins and how many bases there are.
#[derive(Drop)]
pub struct TurnedNodes {
    nodes: Vec<Node>,
    origins: Vec<Origin>,
    bases: usize,
    places: BTreeMap<usize, usize>,
}

impl Model for TurnedNodes {
    ghost use Rattle.nef_expr.specs.Table.{NodeTable, IsTable, table};

    ghost Value = { NodeTable };

    ghost view = { λ t. table t.nodes.items t.origins.items t.bases };

    ghost invariant = { λ t. IsTable t.nodes.items t.origins.items t.bases t.places };
}

// The key of a base and a turn.
fn key_of(origin: Origin) -> usize
    requires base { origin.base < most_bases }
    requires turn { origin.turn < 48 }
    ensures key { result ≡ key_of origin }
{
    TURNS * origin.base + origin.turn
}

impl TurnedNodes {
    /// No nodes. No memory is taken.
    pub fn new(alloc: Global) -> TurnedNodes
        ensures nodes { result.nodes ≡ [] }
        ensures origins { result.origins ≡ [] }
        ensures bases { result.bases ≡ 0 }
    {
        TurnedNodes {
            nodes: Vec::new(alloc),
            origins: Vec::new(alloc),
            bases: 0,
            places: BTreeMap::new(alloc),
        }
    }

    /// The nodes, of which there are at most 48 for each base.
    pub fn into_nodes(self) -> Nodes
        ensures nodes { result ≡ self.nodes }
        ensures few { length result ≤ 48 * self.bases }
        ensures ordered { IsOrdered result }
        ensures origins { AreOrigins result self.origins self.bases }
    {
        Nodes::from_list(self.nodes)
    }

    /// Adds the node of a line, whose operands are earlier nodes, and gives its number. The node is the next base, with
    /// the turn 0. `OutOfMemory` says that memory was wanted and not found; the nodes are then as they were.
    pub fn push(&mut self, node: Node) -> Result<usize, OutOfMemory>
        requires operands { NamesBelow (length self.old.nodes) node }
        requires room { self.old.bases < most_bases }
        ensures number { IfOk result (λ n. n ≡ length self.old.nodes) }
        ensures added { IfOk result (λ n. self.new.nodes ≡ self.old.nodes ++ node ∷ []) }
        ensures with_origin { IfOk result (λ n. self.new.origins ≡ self.old.origins ++ origin self.old.bases 0 ∷ []) }
        ensures own { IfOk result (λ n. HasOrigin self.new.origins n (origin self.old.bases 0)) }
        ensures bases { IfOk result (λ n. self.new.bases ≡ self.old.bases + 1) }
        ensures unchanged { OnErr result (self.new ≡ self.old) }
    {
        let base = self.bases;
        self.add(node, Origin { base, turn: 0 }, base + 1)
    }

    /// The number of the turned copy of node `k` under the turn `t`, which is below 48. One node is added for each base
    /// and turn of the copy that no node has yet, operands first. The work grows with `k`. `OutOfMemory` says that
    /// memory was wanted and not found.
    pub fn turn(&mut self, alloc: Global, k: usize, t: usize) -> Result<usize, OutOfMemory>
        requires existing { k < length self.old.nodes }
        requires turn { t < 48 }
        ensures turned { IfOk result (λ n. TurnOf self.new.nodes t k n) }
        ensures copy { IfOk result (λ n. IsCopyOf self.new.origins t k n) }
        ensures stay { IfOk result (λ n. Stays self.old self.new) }
    {
        let needed = needed_nodes(alloc, &self.nodes, k)?;
        let mut copies = Vec::new(alloc);
        for i in 0..k {
            let copy = if needed[i] {
                self.copy(i, t, &copies)?
            } else {
                0
            };
            copies.push(copy)?;
        }
        self.copy(k, t, &copies)
    }

    // The number of the copy of node k under the turn t, where the numbers of its operands' copies are given.
    fn copy(&mut self, k: usize, t: usize, copies: &[usize]) -> Result<usize, OutOfMemory>
        requires existing { k < length self.old.nodes }
        requires turn { t < 48 }
        requires all { length copies.now ≡ k }
        requires operands { (n : _) → slice_get self.old.nodes k ≡ Some n → OperandsTurned self.old.nodes t copies.now n }
        ensures turned { IfOk result (λ n. TurnOf self.new.nodes t k n) }
        ensures copy { IfOk result (λ n. IsCopyOf self.new.origins t k n) }
        ensures stay { IfOk result (λ n. Stays self.old self.new) }
    {
        let of = self.origins[k];
        let origin = Origin {
            base: of.base,
            turn: turn_compose(t, of.turn),
        };
        match self.find(origin) {
            Some(copy) => Ok(copy),
            None => {
                let node = turned_node(&self.nodes[k], t, copies);
                self.add(node, origin, self.bases)
            }
        }
    }

    // The node with this base and this turn, if there is one.
    fn find(&self, origin: Origin) -> Option<usize>
        requires base { origin.base < self.now.bases }
        requires turn { origin.turn < 48 }
        ensures found { IfSome result (λ n. HasOrigin self.now.origins n origin) }
        ensures none { result ≡ None → (n : ℕ) → HasOrigin self.now.origins n origin → ⊥ }
    {
        self.places.get(&key_of(origin)).copied()
    }

    // Adds a node whose base and turn no node has yet. Its base is an earlier base, or the next one.
    fn add(&mut self, node: Node, origin: Origin, bases: usize) -> Result<usize, OutOfMemory>
        requires operands { NamesBelow (length self.old.nodes) node }
        requires new { (n : ℕ) → HasOrigin self.old.origins n origin → ⊥ }
        requires more_bases { self.old.bases ≤ bases }
        requires few_bases { bases ≤ most_bases }
        requires image { IsOfOrigin (self.old.nodes ++ node ∷ []) (self.old.origins ++ origin ∷ []) bases (length self.old.nodes) origin }
        ensures number { IfOk result (λ n. n ≡ length self.old.nodes) }
        ensures added { IfOk result (λ n. self.new.nodes ≡ self.old.nodes ++ node ∷ []) }
        ensures with_origin { IfOk result (λ n. self.new.origins ≡ self.old.origins ++ origin ∷ []) }
        ensures bases { IfOk result (λ n. self.new.bases ≡ bases) }
        ensures unchanged { OnErr result (self.new ≡ self.old) }
    {
        let number = self.nodes.len();
        self.nodes.reserve(1)?;
        self.origins.reserve(1)?;
        self.places.insert(key_of(origin), number)?;
        self.nodes.push_reserved(node);
        self.origins.push_reserved(origin);
        self.bases = bases;
        Ok(number)
    }
}

// The four numbers of the plane as it was given, up to a positive factor.
fn given(oriented: &Oriented) -> (i64, i64, i64, i64)
    ensures given { form result.0 result.1 result.2 result.3 ≡ given_form oriented.now }
{
    let plane = oriented.plane();
    let (a, b, c, d) = (plane.a(), plane.b(), plane.c(), plane.d());
    if oriented.flipped() {
        (-a, -b, -c, -d)
    } else {
        (a, b, c, d)
    }
}

// The given plane with its normal turned by the turn `t`, which is below 48.
fn turned_half(oriented: &Oriented, t: usize) -> Oriented
    requires turn { t < 48 }
    ensures turned { given_form result ≡ turned_plane t (given_form oriented.now) }
{
    let (a, b, c, d) = given(oriented);
    let row = turn_row(t);
    let (x, y, z) = turned_coordinates(&row, a, b, c);
    Oriented::of(x, y, z, d)
}

// The node of the same kind with the turned half-space, or with the copies of its operands, by each node's copy.
fn turned_node(node: &Node, t: usize, copies: &[usize]) -> Node
    requires turn { t < 48 }
    requires operands { NamesBelow (length copies.now) node.now }
    ensures turned { IsTurnedNode t copies.now node.now result }
{
    match *node {
        Node::Half { oriented, closed } => Node::Half {
            oriented: turned_half(&oriented, t),
            closed,
        },
        Node::Empty => Node::Empty,
        Node::Full => Node::Full,
        Node::And(i, j) => Node::And(copies[i], copies[j]),
        Node::Or(i, j) => Node::Or(copies[i], copies[j]),
        Node::Diff(i, j) => Node::Diff(copies[i], copies[j]),
        Node::Xor(i, j) => Node::Xor(copies[i], copies[j]),
        Node::Not(i) => Node::Not(copies[i]),
        Node::Int(i) => Node::Int(copies[i]),
        Node::Cl(i) => Node::Cl(copies[i]),
        Node::Bd(i) => Node::Bd(copies[i]),
        Node::Reg(i) => Node::Reg(copies[i]),
    }
}

fn mark_operands(marks: &mut [bool], node: &Node)
    requires operands { NamesBelow (length marks.old) node.now }
    ensures marked { MarksOperands node.now marks.old marks.new }
{
    match *node {
        Node::Half { .. } | Node::Empty | Node::Full => {}
        Node::And(i, j) | Node::Or(i, j) | Node::Diff(i, j) | Node::Xor(i, j) => {
            marks[i] = true;
            marks[j] = true;
        }
        Node::Not(i) | Node::Int(i) | Node::Cl(i) | Node::Bd(i) | Node::Reg(i) => marks[i] = true,
    }
}

// Which of the first `k + 1` nodes the set of node `k` is made of, at any depth. Nodes are marked from the last one on.
fn needed_nodes(alloc: Global, nodes: &[Node], k: usize) -> Result<Vec<bool>, OutOfMemory>
    requires existing { k < length nodes.now }
    requires ordered { IsOrdered nodes.now }
    ensures needed { IfOk result (λ v. AreWithOperands nodes.now k v.items) }
{
    let mut marks = vec![in alloc; false; k]?;
    marks.push(true)?;
    let list = marks.as_mut_slice();
    for back in 0..k + 1 {
        let i = k - back;
        if list[i] {
            mark_operands(list, &nodes[i]);
        }
    }
    Ok(marks)
}
