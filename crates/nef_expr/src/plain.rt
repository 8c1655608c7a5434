//! The label of a point for a node without topology, and the laws of lists of nodes.

ghost use Rattle.std.specs.Prelude.{◌<◌};
ghost use Rattle.nef_geo.specs.Prelude.{length, IfOk, HasLabel, point_of};
ghost use Rattle.nef_expr.specs.Nodes.{NamesBelow, node_set};
ghost use Rattle.nef_expr.specs.Plain.{IsPlainSet, TellsNext};
ghost use Rattle.nef_expr.specs.Laws.{EarlierSetsStay, NewSetIsOfItsNode, EachSetIsOfItsNode, NodeTurned, NodeHoldsTurned};

use crate::OutOfMemory;
use crate::nodes::{Node, Nodes};
use nef_geo::{Label, Point, Sign};
use std::alloc::Global;

// Whether the node's set holds at the point, where `holding` tells this of the earlier nodes' sets. The answer says
// nothing of a node with topology.
fn node_holds(node: &Node, holding: &[bool], p: &Point) -> bool
    requires operands { NamesBelow (length holding.now) node.now }
    ensures told { TellsNext holding.now node.now result (point_of p.now) }
{
    match *node {
        Node::Half { oriented, closed } => match oriented.side(p) {
            Sign::Minus => true,
            Sign::Zero => closed,
            Sign::Plus => false,
        },
        Node::Empty => false,
        Node::Full => true,
        Node::And(i, j) => holding[i] && holding[j],
        Node::Or(i, j) => holding[i] || holding[j],
        Node::Diff(i, j) => holding[i] && !holding[j],
        Node::Xor(i, j) => holding[i] != holding[j],
        Node::Not(i) => !holding[i],
        Node::Int(_) | Node::Cl(_) | Node::Bd(_) | Node::Reg(_) => false,
    }
}

/// The label of `p` for the node `k`, which uses no interior, closure, boundary or regularisation at any depth: `Out`
/// where `p` isn't in the frame, `In` where the set holds at `p`, `Not` otherwise. The nodes up to `k` are worked once
/// each, from the first on. `OutOfMemory` says that memory was wanted and not found.
pub fn plain_has(alloc: Global, nodes: &Nodes, k: usize, p: &Point) -> Result<Label, OutOfMemory>
    requires existing { k < length nodes.now }
    requires plain { IsPlainSet (node_set nodes.now k) }
    ensures label { IfOk result (HasLabel (node_set nodes.now k) (point_of p.now)) }
{
    if !p.in_frame() {
        return Ok(Label::Out);
    }
    let mut holding = Vec::with_capacity(alloc, k)?;
    for i in 0..k {
        let holds = node_holds(nodes.get(i), &holding, p);
        holding.push(holds)?;
    }
    if node_holds(nodes.get(k), &holding, p) {
        Ok(Label::In)
    } else {
        Ok(Label::Not)
    }
}

/// A node that is added leaves the sets of the earlier nodes, and its own set is made of their sets as the node says.
/// So the set of each node is made of the list's sets as the node says. The turned image of a node, a node of the same
/// kind with the turned half-space or with turned operands, has the turned set, under each of the 48 turns: this holds
/// at a turned point exactly where the node's set holds at the point.
pub fn node_laws()
    ensures earlier { EarlierSetsStay }
    ensures new { NewSetIsOfItsNode }
    ensures each { EachSetIsOfItsNode }
    ensures turned { NodeTurned }
    ensures turned_holds { NodeHoldsTurned }
{}
