//! The labels of three combined half-spaces in all directions of a small lattice.

ghost use Rattle.std.specs.Prelude.{◌<◌};
ghost use Rattle.nef_geo.specs.Prelude.{IfSome};
ghost use Rattle.nef_smap.specs.Maps.{IsLeastMap};

use crate::made::{half, with};
use crate::words::normal;
use nef_geo::{Dir, Label, Sign, dot};
use nef_smap::{SphereMap, label_at};
use nef_star::Op;
use std::alloc::Global;

const NORMALS: &str =
    "0 0 1, 0 1 -1, 0 1 0, 0 1 1, 1 -1 -1, 1 -1 0, 1 -1 1, 1 0 -1, 1 0 0, 1 0 1, 1 1 -1, \
    1 1 0, 1 1 1";

const LATTICE: &str =
    "-1 -1 -1, -1 -1 0, -1 -1 1, -1 0 -1, -1 0 0, -1 0 1, -1 1 -1, -1 1 0, -1 1 1, 0 -1 -1, \
    0 -1 0, 0 -1 1, 0 0 -1, 0 0 1, 0 1 -1, 0 1 0, 0 1 1, 1 -1 -1, 1 -1 0, 1 -1 1, 1 0 -1, 1 0 0, 1 0 1, 1 1 -1, \
    1 1 0, 1 1 1";

fn normal_of(k: usize) -> Option<&'static str> {
    NORMALS.split(", ").nth(k % 13)
}

fn op_of(k: usize) -> Op {
    match k % 4 {
        0 => Op::And,
        1 => Op::Or,
        2 => Op::Diff,
        _ => Op::Xor,
    }
}

// The half-space below a plane, with the plane or without the plane.
#[derive(Clone, Copy)]
struct Half {
    normal: usize,
    closed: bool,
}

// The label that the half-space gives the direction.
fn plain(given: &Half, d: &Dir) -> Option<Label> {
    match dot(&normal(normal_of(given.normal)?)?, d) {
        Sign::Minus => Some(Label::In),
        Sign::Zero if given.closed => Some(Label::In),
        _ => Some(Label::Not),
    }
}

// The label that the labels of three half-spaces give the direction.
fn plain_label(halves: &[Half; 3], ops: (Op, Op), d: &Dir) -> Option<Label> {
    let [a, b, c] = halves;
    let (a, b, c) = (plain(a, d)?, plain(b, d)?, plain(c, d)?);
    Some(ops.1.label(ops.0.label(a, b), c))
}

// Whether the map has the half-spaces' label in the direction.
fn agrees_at(map: &SphereMap, halves: &[Half; 3], ops: (Op, Op), d: &str) -> Option<bool>
    requires map { IsLeastMap map.now }
{
    let d = normal(d)?;
    Some(label_at(map, &d) == plain_label(halves, ops, &d)?)
}

// Whether the map has the half-spaces' label in each direction of the lattice.
fn agrees(map: &SphereMap, halves: &[Half; 3], ops: (Op, Op)) -> bool
    requires map { IsLeastMap map.now }
{
    for d in LATTICE.split(", ") {
        if agrees_at(map, halves, ops, d) != Some(true) {
            return false;
        }
    }
    true
}

fn half_of(alloc: Global, given: &Half) -> Option<SphereMap>
    ensures least { IfSome result IsLeastMap }
{
    half(alloc, normal_of(given.normal)?, given.closed)
}

fn two_of(alloc: Global, a: &Half, b: &Half, op: Op) -> Option<SphereMap>
    ensures least { IfSome result IsLeastMap }
{
    let first = half_of(alloc, a)?;
    with(alloc, &first, half_of(alloc, b), op)
}

fn made_of(alloc: Global, halves: &[Half; 3], ops: (Op, Op)) -> Option<SphereMap>
    ensures least { IfSome result IsLeastMap }
{
    let [a, b, c] = halves;
    let two = two_of(alloc, a, b, ops.0)?;
    with(alloc, &two, half_of(alloc, c), ops.1)
}

fn three_halves(k: usize) -> [Half; 3]
    requires small { k < 100 }
{
    [
        Half {
            normal: k,
            closed: k % 2 == 0,
        },
        Half {
            normal: k / 2 + 5,
            closed: k % 3 == 0,
        },
        Half {
            normal: k / 3 + 7,
            closed: true,
        },
    ]
}

// Whether the map with number k agrees with the labels of its half-spaces.
fn holds(alloc: Global, k: usize) -> bool
    requires small { k < 100 }
{
    let halves = three_halves(k);
    let ops = (op_of(k), op_of(k / 4));
    match made_of(alloc, &halves, ops) {
        Some(map) => agrees(&map, &halves, ops),
        None => false,
    }
}

#[test]
fn hundred_maps(rt: HostRuntime) {
    for k in 0..100 {
        assert!(rt; holds(rt.alloc(), k), "{k}");
    }
}
