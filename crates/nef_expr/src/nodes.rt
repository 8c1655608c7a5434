//! The nodes of a script: each node names earlier nodes by their numbers.

ghost use Rattle.std.specs.Prelude.{◌≡◌, ◌<◌, ◌↔◌, ◌⊎◌, ◌∷◌, ◌++◌};
ghost use Rattle.nef_geo.specs.Prelude.{ℕ, [], length, slice_get, Some, IfOk, IfSome, OnErr};

use crate::OutOfMemory;
use nef_geo::Oriented;
use std::alloc::Global;
use std::marker::Model;

/// How a set is made of others, which are named by the numbers of earlier nodes: a half-space, nothing, the whole
/// frame, the boolean operations, and complement, interior, closure, boundary and regularisation (the closure of the
/// interior), as in the CGAL manual, "3D Boolean Operations on Nef Polyhedra".
#[derive(Clone, Copy)]
pub enum Node {
    /// The side where the given `a x + b y + c z + d` is negative, with its boundary if `closed`.
    Half { oriented: Oriented, closed: bool },
    Empty,
    Full,
    And(usize, usize),
    Or(usize, usize),
    /// The first set without the second.
    Diff(usize, usize),
    Xor(usize, usize),
    Not(usize),
    Int(usize),
    Cl(usize),
    Bd(usize),
    Reg(usize),
}

impl Node {
    ghost use Rattle.nef_expr.specs.Nodes.{IsOperand, NamesBelow};

    /// The numbers of the node's operands.
    pub fn operands(&self) -> (Option<usize>, Option<usize>)
        ensures operands { (k : ℕ) → IsOperand k self.now ↔ ((result.0 ≡ Some k) ⊎ (result.1 ≡ Some k)) }
        ensures below { (n : ℕ) → NamesBelow n self.now → IfSome result.0 (λ k. k < n) × IfSome result.1 (λ k. k < n) }
    {
        match *self {
            Node::Half { .. } | Node::Empty | Node::Full => (None, None),
            Node::And(i, j) | Node::Or(i, j) | Node::Diff(i, j) | Node::Xor(i, j) => {
                (Some(i), Some(j))
            }
            Node::Not(i) | Node::Int(i) | Node::Cl(i) | Node::Bd(i) | Node::Reg(i) => {
                (Some(i), None)
            }
        }
    }
}

/// Nodes in order. Contracts see the list of the nodes.
#[derive(Drop)]
pub struct Nodes {
    list: Vec<Node>,
}

impl Model for Nodes {
    ghost use Rattle.std.specs.Prelude.{List as Seq};
    ghost use Rattle.nef_expr.specs.declared.nodes.Node.{Node};
    ghost use Rattle.nef_expr.specs.Nodes.{IsOrdered};

    ghost Value = { Seq Node };

    ghost view = { λ n. n.list.items };

    ghost invariant = { λ n. IsOrdered n.list.items };
}

impl Nodes {
    ghost use Rattle.nef_expr.specs.Nodes.{NamesBelow, IsOrdered};

    /// No nodes. No memory is taken.
    pub fn new(alloc: Global) -> Nodes
        ensures empty { result ≡ [] }
    {
        Nodes {
            list: Vec::new(alloc),
        }
    }

    /// The list of nodes, each of which names earlier nodes.
    pub(crate) fn from_list(list: Vec<Node>) -> Nodes
        requires ordered { IsOrdered list.items }
        ensures nodes { result ≡ list.items }
    {
        Nodes { list }
    }

    /// Adds a node, whose operands are earlier nodes, and gives its number. `OutOfMemory` says that memory was wanted
    /// and not found; the nodes are then as they were.
    pub fn push(&mut self, node: Node) -> Result<usize, OutOfMemory>
        requires operands { NamesBelow (length self.old) node }
        ensures number { IfOk result (λ k. k ≡ length self.old) }
        ensures added { IfOk result (λ k. self.new ≡ self.old ++ node ∷ []) }
        ensures unchanged { OnErr result (self.new ≡ self.old) }
    {
        let number = self.list.len();
        self.list.push(node)?;
        Ok(number)
    }

    /// The node with the number `k`.
    pub fn get(&self, k: usize) -> &Node
        requires existing { k < length self.now }
        ensures node { slice_get self.now k ≡ Some result.now }
        ensures operands { NamesBelow k result.now }
    {
        &self.list[k]
    }

    /// How many nodes there are. Each node names earlier nodes only.
    pub fn len(&self) -> usize
        ensures count { result ≡ length self.now }
        ensures ordered { IsOrdered self.now }
    {
        self.list.len()
    }
}
