//! A set expression, and its labels at points.

ghost use Rattle.std.specs.Prelude.{◌≡◌, ◌<◌};
ghost use Rattle.nef_geo.specs.Prelude.{length, IfOk};
ghost use Rattle.nef_expr.specs.Nodes.{node_set};
ghost use Rattle.nef_expr.specs.Plain.{IsPlainSet};

use crate::same::check;
use nef_expr::{Node, Nodes, OutOfMemory, plain_has};
use nef_geo::{Label, Oriented, Plane, Point};
use std::alloc::Global;
use std::process::Abort;
use std::test::Fail;

// x <= 0 and y <= 0, the closure of the first, which no other node uses, and the symmetric difference of both.
fn quarters(alloc: Global, left: Oriented, lower: Oriented) -> Result<Nodes, OutOfMemory>
    ensures four { IfOk result (λ nodes. length nodes ≡ 4) }
    ensures plain { IfOk result (λ nodes. IsPlainSet (node_set nodes 3)) }
{
    let closed = true;
    let mut nodes = Nodes::new(alloc);
    let left = nodes.push(Node::Half {
        oriented: left,
        closed,
    })?;
    let lower = nodes.push(Node::Half {
        oriented: lower,
        closed,
    })?;
    nodes.push(Node::Cl(left))?;
    nodes.push(Node::Xor(left, lower))?;
    Ok(nodes)
}

fn check_label(
    rt: &impl Abort,
    alloc: Global,
    nodes: &Nodes,
    p: &Point,
    wanted: Label,
) -> Result<(), Fail>
    requires four { length nodes.now ≡ 4 }
    requires plain { IsPlainSet (node_set nodes.now 3) }
{
    let label = plain_has(alloc, nodes, 3, p)?;
    check(rt, &label, &wanted, "a point");
    Ok(())
}

fn check_labels(rt: &impl Abort, alloc: Global, nodes: &Nodes) -> Result<(), Fail>
    requires four { length nodes.now ≡ 4 }
    requires plain { IsPlainSet (node_set nodes.now 3) }
{
    check_label(rt, alloc, nodes, &Point::of(-1, 1, 0, 1), Label::In)?;
    check_label(rt, alloc, nodes, &Point::of(-1, -1, 0, 1), Label::Not)?;
    check_label(rt, alloc, nodes, &Point::of(2048, 0, 0, 1), Label::Out)
}

fn check_nodes(rt: &impl Abort, alloc: Global, nodes: &Nodes) -> Result<(), Fail>
    requires four { length nodes.now ≡ 4 }
    requires plain { IsPlainSet (node_set nodes.now 3) }
{
    check(rt, &nodes.len(), &4, "the nodes");
    assert!(rt; matches!(nodes.get(2), Node::Cl(0)));
    check_labels(rt, alloc, nodes)
}

#[test]
fn labels_of_quarters(rt: HostRuntime) -> Result<(), Fail> {
    let (left, lower) = (Plane::read(1, 0, 0, 0)?, Plane::read(0, 1, 0, 0)?);
    let nodes = quarters(rt.alloc(), left, lower)?;
    check_nodes(&rt, rt.alloc(), &nodes)
}

#[test]
fn no_nodes(rt: HostRuntime) {
    let nodes = Nodes::new(rt.alloc());
    check(&rt, &nodes.len(), &0, "no nodes");
}
