//! Blocks: boxes with sides parallel to the axes, by which it's guessed whose borders meet.
//!
//! The block of a set holds all points of the frame where the set holds. Its sides are at whole numbers, so they lie on the
//! set or outside of it, by less than one for each plane that they come from. No clause says so, since none needs it: what
//! is worked by such a guess is right whatever is guessed.

ghost use Rattle.std.specs.Prelude.{◌<◌, ◌≤◌};
ghost use Rattle.nef_plan.specs.Prelude.{ℕ, All, OnOk, length, nat_abs, normal_limit, offset_limit, term_limit};

use crate::OutOfMemory;
use nef_expr::{Node, Nodes};
use nef_geo::{HALF_SIDE, Oriented};
use std::alloc::Global;

// So many times at most all planes of an intersection make its block less.
const MOST_ROUNDS: usize = 24;

// So many nodes at most of an intersection are asked for planes.
const MOST_NODES: usize = 128;

// So many other blocks at most, in the mean, a block is held against.
const MOST_OTHERS: usize = 4096;

/// The numbers from `low` to `high`, both from -2048 to 2048: none, where `low` is above `high`.
#[derive(Clone, Copy, PartialEq, Eq)]
struct Range {
    low: i16,
    high: i16,
}

/// The points with each coordinate in its range.
#[derive(Clone, Copy, PartialEq, Eq)]
pub(crate) struct Block {
    x: Range,
    y: Range,
    z: Range,
}

impl Range {
    // From one side of the frame to the other.
    const WHOLE: Range = Range {
        low: -2048,
        high: 2048,
    };

    fn meets(self, other: Range) -> bool {
        self.low <= other.high && other.low <= self.high
    }

    fn common(self, other: Range) -> Range {
        Range {
            low: self.low.max(other.low),
            high: self.high.min(other.high),
        }
    }

    // The least range that holds both.
    fn hull(self, other: Range) -> Range {
        Range {
            low: self.low.min(other.low),
            high: self.high.max(other.high),
        }
    }

    // The least product of the coefficient and a number of the range.
    fn least(self, coefficient: i64) -> i64
        requires coefficient { nat_abs coefficient ≤ normal_limit }
        ensures least { nat_abs result ≤ term_limit }
    {
        let number = if coefficient > 0 { self.low } else { self.high };
        coefficient * number as i64
    }

    // What the range has of the numbers whose product with the coefficient, and the rest, are together not positive.
    fn cut(self, coefficient: i64, rest: i64) -> Range
        requires coefficient { nat_abs coefficient ≤ normal_limit }
    {
        if coefficient == 0 {
            return self;
        }
        let floor = rest.div_euclid(coefficient.abs());
        let side = floor.clamp(-HALF_SIDE, HALF_SIDE) as i16;
        if coefficient > 0 {
            Range {
                low: self.low,
                high: self.high.min(-side),
            }
        } else {
            Range {
                low: self.low.max(side),
                high: self.high,
            }
        }
    }
}

impl Block {
    /// The closed frame.
    pub(crate) const FRAME: Block = Block {
        x: Range::WHOLE,
        y: Range::WHOLE,
        z: Range::WHOLE,
    };

    /// Whether both have a point in common, at a side perhaps.
    pub(crate) fn meets(&self, other: &Block) -> bool {
        self.x.meets(other.x) && self.y.meets(other.y) && self.z.meets(other.z)
    }

    /// The points of both.
    pub(crate) fn common(&self, other: &Block) -> Block {
        Block {
            x: self.x.common(other.x),
            y: self.y.common(other.y),
            z: self.z.common(other.z),
        }
    }

    /// The least block that holds both.
    pub(crate) fn hull(&self, other: &Block) -> Block {
        Block {
            x: self.x.hull(other.x),
            y: self.y.hull(other.y),
            z: self.z.hull(other.z),
        }
    }

    /// The block of what it has of the half-space.
    pub(crate) fn within(&self, half: &Oriented) -> Block {
        let (a, b, c, d) = given(half);
        let (x, y, z) = (self.x.least(a), self.y.least(b), self.z.least(c));
        Block {
            x: self.x.cut(a, y + z + d),
            y: self.y.cut(b, x + z + d),
            z: self.z.cut(c, x + y + d),
        }
    }
}

// The four numbers of the half-space: those of its plane, or their negatives.
fn given(half: &Oriented) -> (i64, i64, i64, i64)
    ensures a { nat_abs result.0 ≤ normal_limit }
    ensures b { nat_abs result.1 ≤ normal_limit }
    ensures c { nat_abs result.2 ≤ normal_limit }
    ensures d { nat_abs result.3 ≤ offset_limit }
{
    let plane = half.plane();
    let (a, b, c, d) = (plane.a(), plane.b(), plane.c(), plane.d());
    if half.flipped() {
        (-a, -b, -c, -d)
    } else {
        (a, b, c, d)
    }
}

/// Lists the node, and what it's an intersection of.
pub(crate) fn list_operands(
    nodes: &Nodes,
    node: usize,
    listed: &mut Vec<usize>,
) -> Result<(), OutOfMemory>
    requires node { node < length nodes.now }
    ensures listed { OnOk result (All (λ k. k < length nodes.now) listed.new.items) }
{
    listed.clear();
    listed.push(node)?;
    for place in 0..MOST_NODES {
        let Some(next) = listed.get(place) else {
            break;
        };
        if let Node::And(i, j) = *nodes.get(*next) {
            listed.push(i)?;
            listed.push(j)?;
        }
    }
    Ok(())
}

// The block of what it has of all listed half-spaces, one after the other.
fn within_all(nodes: &Nodes, listed: &[usize], block: Block) -> Block
    requires listed { All (λ k. k < length nodes.now) listed.now }
{
    let mut block = block;
    for node in listed {
        if let Node::Half { oriented, .. } = nodes.get(*node) {
            block = block.within(oriented);
        }
    }
    block
}

/// The block of what it has of all listed half-spaces, one after the other, until none makes it less.
pub(crate) fn tightened(nodes: &Nodes, listed: &[usize], block: Block) -> Block
    requires listed { All (λ k. k < length nodes.now) listed.now }
{
    let mut block = block;
    for _ in 0..MOST_ROUNDS {
        let less = within_all(nodes, listed, block);
        if less == block {
            break;
        }
        block = less;
    }
    block
}

// Whether none of those behind the first that meet it meet each other. They are sorted by their low sides along x. It says no
// where more are to be held against others than are left.
fn is_star(blocks: &[Block], near: &mut Vec<Block>, left: &mut usize) -> Result<bool, OutOfMemory> {
    near.clear();
    let Some((first, others)) = blocks.split_first() else {
        return Ok(true);
    };
    for block in others {
        if block.x.low > first.x.high {
            break;
        }
        *left = left.saturating_sub(1);
        if first.meets(block) {
            *left = left.saturating_sub(near.len());
            if *left == 0 || near.iter().any(|other| other.meets(block)) {
                return Ok(false);
            }
            near.push(*block)?;
        }
    }
    Ok(*left > 0)
}

/// Whether no three of the blocks meet one another, as far as it can be told soon: else it says no. They are sorted.
pub(crate) fn no_three_meet(alloc: Global, blocks: &mut [Block]) -> Result<bool, OutOfMemory> {
    blocks.sort_unstable_by_key(|block| block.x.low);
    let mut near: Vec<Block> = Vec::new(alloc);
    let mut left = blocks.len().saturating_mul(MOST_OTHERS);
    for first in 0..blocks.len() {
        if !is_star(&blocks[first..], &mut near, &mut left)? {
            return Ok(false);
        }
    }
    Ok(true)
}
