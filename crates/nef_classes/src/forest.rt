//! Classes of numbers that links join, as trees: the parent of a number is never greater, and the root of a tree, which
//! is its own parent, is the least number of its class. Classes are numbered by first appearance.

ghost use Rattle.std.specs.Prelude.{◌≡◌, ◌<◌};
ghost use Rattle.nef_geo.specs.Prelude.{length, ℕ, IfOk, IsAt, Chained};
ghost use Rattle.nef_classes.specs.Classes.{LinksAreBelow, AreClasses, AreNumbered};
ghost use Rattle.nef_classes.specs.Forest.{AreOrdered, IsLifted, HasSameTrees, AreTogether, AreRoots};

use crate::OutOfMemory;
use std::alloc::Global;

/// A link: two numbers of one class.
#[derive(Clone, Copy, Drop)]
pub struct Link {
    pub first: usize,
    pub second: usize,
}

/// The numbers below `count` in order: each is its own parent. `OutOfMemory` says that memory was wanted and not found.
pub fn own_numbers(alloc: Global, count: usize) -> Result<Vec<usize>, OutOfMemory>
    ensures as_many { IfOk result (λ v. length v.items ≡ count) }
    ensures own { IfOk result (λ v. (i n : ℕ) → IsAt v.items i n → n ≡ i) }
{
    (0..count).collect(alloc)
}

// Replaces the number's parent by the parent of that parent, and returns the new parent.
fn lift(parents: &mut [usize], number: usize) -> usize
    requires ordered { AreOrdered parents.old }
    requires within { number < length parents.old }
    ensures lifted { IsLifted number result parents.old parents.new }
{
    let parent = parents[number];
    let above = parents[parent];
    parents[number] = above;
    above
}

// The root of the number's tree. The way to the root gets shorter by half, which keeps later walks short.
fn root(parents: &mut [usize], number: usize) -> usize
    requires ordered { AreOrdered parents.old }
    requires within { number < length parents.old }
    ensures same { HasSameTrees parents.old parents.new }
    ensures root { IsAt parents.new result result }
    ensures reached { Chained (IsAt parents.new) number result }
{
    let mut reached = number;
    while parents[reached] != reached {
        reached = lift(parents, reached);
    }
    reached
}

// Joins the trees of the link's numbers into one tree.
fn join(parents: &mut [usize], link: &Link)
    requires ordered { AreOrdered parents.old }
    requires first { link.now.first < length parents.old }
    requires second { link.now.second < length parents.old }
    ensures joined { AreTogether link.now parents.old parents.new }
{
    let first = root(parents, link.first);
    let second = root(parents, link.second);
    let lower = first.min(second);
    let upper = first.max(second);
    parents[upper] = lower;
}

// Makes each number's root its parent.
fn flatten(parents: &mut [usize])
    requires ordered { AreOrdered parents.old }
    ensures same { HasSameTrees parents.old parents.new }
    ensures roots { AreRoots parents.new }
{
    for number in 0..parents.len() {
        lift(parents, number);
    }
}

/// For each number below `count` the least number of its class: the same for two numbers exactly where a chain of links
/// leads from one to the other. The time grows a little faster than `count` and the number of links together.
/// `OutOfMemory` says that memory was wanted and not found.
pub fn class_of_each(alloc: Global, count: usize, links: &[Link]) -> Result<Vec<usize>, OutOfMemory>
    requires within { LinksAreBelow count links.now }
    ensures classes { IfOk result (λ v. AreClasses count links.now v.items) }
    ensures roots { IfOk result (λ v. AreRoots v.items) }
{
    let mut parents = own_numbers(alloc, count)?;
    for link in links {
        join(parents.as_mut_slice(), link);
    }
    flatten(parents.as_mut_slice());
    Ok(parents)
}

/// The numbers of classes by first appearance: the class of the first element has 0, each later one the next number.
/// `roots` has for each element the first element of its class. `OutOfMemory` says that memory was wanted and not
/// found.
pub fn class_numbers(alloc: Global, roots: &[usize]) -> Result<Vec<usize>, OutOfMemory>
    requires roots { AreRoots roots.now }
    ensures numbers { IfOk result (λ v. AreNumbered roots.now v.items) }
{
    let mut numbers = Vec::new(alloc);
    let mut next = 0;
    for (number, root) in roots.iter().enumerate() {
        if *root < number {
            numbers.push(numbers[*root])?;
        } else {
            numbers.push(next)?;
            next += 1;
        }
    }
    Ok(numbers)
}
