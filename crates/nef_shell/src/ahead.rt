//! Works values of a block of steps ahead of it, side by side.

ghost use Rattle.std.specs.Prelude.{◌≡◌, ◌≤◌, ◌<◌};
ghost use Rattle.nef_shell.specs.Prelude.{ℕ, IfOk, OnOk, length, slice_get, vec_len, Some, AreEndedAt, AreSteps, Early, AreEarly, AreLate, ArePut, AreMore, ArePlaced, AreMeans};

use crate::early::{Early, add_early, of_block, work_early};
use crate::held::Value;
use crate::operation::Resources;
use crate::values::put_at;
use nef_io::Gate;
use nef_plan::Step;
use nef_words::Options;
use std::alloc::{AllocError, Global};
use std::sync::Wait;
use std::thread::Threads;

// How many steps a block has. In a longer one more sets can be worked side by side, but all that are worked ahead of it are
// there at once.
const BLOCK: usize = 512;

// Whether a block begins with this step, and there are workers to work its sets side by side.
fn begins_block(options: &Options, now: usize) -> bool {
    options.ahead && 1 < options.how.workers && now % BLOCK == 0
}

// The level of a set whose operand this is, if it has that one: one more than the operand's, or 0 if the block doesn't make
// the operand.
fn level_after(levels: &[Option<usize>], now: usize, operand: Option<usize>) -> usize {
    match of_block(levels, now, operand) {
        Some(level) => level.saturating_add(1),
        None => 0,
    }
}

// The level of each step from `now` on and before `end`, if a later step looks at what it makes: 0 where no step of these
// makes an operand, and else one more than the highest level of those that do.
fn levels_of(
    alloc: Global,
    steps: &[Step],
    now: usize,
    end: usize,
) -> Result<Vec<Option<usize>>, AllocError>
    requires end { end ≤ length steps.now }
{
    let mut levels = Vec::new(alloc);
    for value in now..end {
        let step = &steps[value];
        let (first, second) = step.task.looked_at();
        let level = level_after(&levels, now, first).max(level_after(&levels, now, second));
        levels.push(if step.ends_made { None } else { Some(level) })?;
    }
    Ok(levels)
}

// How many sets have each level, for each that is below the number of steps.
fn counts_of(alloc: Global, levels: &[Option<usize>]) -> Result<Vec<usize>, AllocError> {
    let mut counts = vec![in alloc; 0usize; levels.len()]?;
    let places = counts.as_mut_slice();
    for level in levels {
        if let Some(level) = *level
            && level < places.len()
        {
            places[level] = places[level].saturating_add(1);
        }
    }
    Ok(counts)
}

// How many levels there are before the first that has fewer than two sets. A set that is alone gains nothing, and where its
// step makes it, its operands can be given away.
fn broad_levels(counts: &[usize]) -> usize {
    for level in 0..counts.len() {
        if counts[level] < 2 {
            return level;
        }
    }
    counts.len()
}

// The values that are worked ahead of the block which begins with this step.
fn early_values(
    alloc: Global,
    values: &[Value],
    steps: &[Step],
    now: usize,
) -> Result<Vec<Early>, AllocError>
    requires steps { AreSteps steps.now }
    requires ends { AreEndedAt steps.now }
    ensures early { IfOk result (λ v. AreEarly steps.now values.now v.items) }
    ensures late { IfOk result (λ v. AreLate now v.items) }
{
    let end = steps.len().min(now.saturating_add(BLOCK));
    let levels = levels_of(alloc, steps, now, end)?;
    let broad = broad_levels(&counts_of(alloc, &levels)?);
    let mut early = Vec::new(alloc);
    let mut index = Vec::new(alloc);
    for value in now..end {
        let is_wanted = of_block(&levels, now, Some(value)).is_some_and(|level| level < broad);
        let number = add_early(&mut early, &index, values, steps, now, value, is_wanted)?;
        index.push(number)?;
    }
    Ok(early)
}

// Puts each thing under the number of its value.
fn put_each<X: Drop>(places: &mut [Option<X>], early: &[Early], mut things: Vec<Option<X>>)
    requires within { (n : ℕ) (e : Early) → slice_get early.now n ≡ Some e → e.value < length places.old }
    requires count { vec_len things ≡ length early.now }
    ensures put { ArePut early.now things.items places.old places.new }
{
    while let Some(thing) = things.pop() {
        put_at(places, early[things.len()].value, thing);
    }
}

/// Where a block begins with this step, works values of its steps side by side, if the options say so: those at which a later
/// step looks, and whose operands are kept or are worked with them. `now` is the number of the step, counted from 0.
/// `AllocError` says that memory was wanted and not found.
pub(crate) fn work_ahead<R: Threads + Wait + Sync, G: Gate + Sync>(
    rt: &R,
    alloc: Global,
    values: &mut [Value],
    steps: &[Step],
    now: usize,
    means: &Resources<G>,
) -> Result<(), AllocError>
    requires means { AreMeans means.now }
    requires placed { ArePlaced means.now.options.text steps.now values.old }
    ensures placed { OnOk result (ArePlaced means.now.options.text steps.now values.new) }
    ensures more { OnOk result (AreMore steps.now now values.old values.new) }
{
    if !begins_block(&means.options, now) {
        return Ok(());
    }
    let early = early_values(alloc, values, steps, now)?;
    let made = work_early(rt, alloc, values, steps, &early, means)?;
    put_each(values, &early, made);
    Ok(())
}
