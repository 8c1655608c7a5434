//! Works a script: the steps of its plan, in order.

ghost use Rattle.std.specs.Prelude.{◌≡◌, ◌+◌, ◌<◌, ◌∷◌};
ghost use Rattle.nef_shell.specs.Prelude.{ℕ, List, [], Some, IfSome, OnOk, Set, length, slice_get, Node as Expression, AreWorkable, AreEndedAt, AreSteps, asked_values, Step, SpeaksOfFirst, AreAsked, IsAskedOf, IsAskedOfOther, AreHeld, AreStill, IsHeldAt, ArePlaced, HasDone, IsLean, StandAt, AreMeans, WorkEnds};

use crate::ahead::work_ahead;
use crate::held::Value;
use crate::operation::Resources;
use crate::piece::piece_of;
use crate::values::{make_value, release};
use nef_io::{Gate, Sink, put_all};
use nef_ops::constant;
use nef_plan::{Step, Task, plan};
use nef_sched::empty_places;
use nef_script::{Command, Script};
use nef_statement::Status;
use nef_words::Options;
use std::alloc::Global;
use std::sync::Wait;
use std::thread::Threads;

// Writes the answer to the question about these values, with a text of the version that the options choose.
fn write_answer<R: Threads + Sync, K: Sink>(
    rt: &R,
    alloc: Global,
    values: &mut [Value],
    command: &Command,
    first: usize,
    second: Option<usize>,
    options: &Options,
    sink: &mut K,
) -> Result<(), Status>
    requires within { (count : ℕ) × SpeaksOfFirst count command.now }
    requires first { (s : Set) × IsHeldAt options.now.text s values.old first }
    requires second { IfSome second (λ j. (t : Set) × IsHeldAt options.now.text t values.old j) }
    ensures ends { (nodes : List Expression) → IsAskedOf nodes command.now (λ s. IsHeldAt options.now.text s values.old first) → IsAskedOfOther nodes command.now second (λ j s. IsHeldAt options.now.text s values.old j) → WorkEnds options.now.text nodes (command.now ∷ []) (K.written sink.old) (K.written sink.new) (K.faults sink.old) (K.faults sink.new) result }
    ensures still { OnOk result (AreStill options.now.text values.old values.new) }
{
    let piece = piece_of(rt, alloc, values, command, first, second, options)?;
    put_all(sink, piece.as_bytes())?;
    Ok(())
}

// Makes the value of the step with this number, or writes its answer.
fn do_task<R: Threads + Wait + Sync, K: Sink, G: Gate + Sync>(
    rt: &R,
    alloc: Global,
    values: &mut [Value],
    steps: &[Step],
    now: usize,
    means: &Resources<G>,
    sink: &mut K,
) -> Result<(), Status>
    requires means { AreMeans means.now }
    requires stand { StandAt means.now.options.text steps.now now values.old }
    requires asked { (nodes : List Expression) × AreAsked nodes steps.now }
    requires now { now < length steps.now }
    ensures ends { (nodes : List Expression) (step : Step) → AreAsked nodes steps.now → slice_get steps.now now ≡ Some step → WorkEnds means.now.options.text nodes (asked_values (step ∷ [])) (K.written sink.old) (K.written sink.new) (K.faults sink.old) (K.faults sink.new) result }
    ensures held { OnOk result (AreHeld means.now.options.text steps.now values.new) }
    ensures done { OnOk result (HasDone steps.now now values.old values.new) }
{
    match &steps[now].task {
        Task::Ask {
            command,
            first,
            second,
        } => {
            write_answer(
                rt,
                alloc,
                values,
                command,
                *first,
                *second,
                &means.options,
                sink,
            )
        }
        _ => {
            make_value(rt, alloc, values, steps, now, means)?;
            Ok(())
        }
    }
}

/// Works the step with this number, counted from 0: makes its value, or writes its answer, with a text of the version that
/// the options choose. Then it lets go what no later step looks at. Where each value that is kept before is one at which
/// this step or a later one looks, each that is kept afterwards is one at which a later step looks: none is kept past its
/// last use.
pub fn work_step<R: Threads + Wait + Sync, K: Sink, G: Gate + Sync>(
    rt: &R,
    alloc: Global,
    values: &mut [Value],
    steps: &[Step],
    now: usize,
    means: &Resources<G>,
    sink: &mut K,
) -> Result<(), Status>
    requires means { AreMeans means.now }
    requires stand { StandAt means.now.options.text steps.now now values.old }
    requires asked { (nodes : List Expression) × AreAsked nodes steps.now }
    requires now { now < length steps.now }
    requires lean { IsLean steps.now now values.old }
    ensures ends { (nodes : List Expression) (step : Step) → AreAsked nodes steps.now → slice_get steps.now now ≡ Some step → WorkEnds means.now.options.text nodes (asked_values (step ∷ [])) (K.written sink.old) (K.written sink.new) (K.faults sink.old) (K.faults sink.new) result }
    ensures stand { OnOk result (StandAt means.now.options.text steps.now (now + 1) values.new) }
    ensures lean { OnOk result (IsLean steps.now (now + 1) values.new) }
{
    do_task(rt, alloc, values, steps, now, means, sink)?;
    release(values, &steps[now], now);
    Ok(())
}

/// Works the steps in order, and writes each answer when its question's turn comes. Where the options say so, values of a
/// block of steps are worked ahead of it, several at the same time. Before and after each step, each value that is kept is
/// one at which a later step looks; so none is left at the end.
pub fn work_steps<R: Threads + Wait + Sync, K: Sink, G: Gate + Sync>(
    rt: &R,
    alloc: Global,
    values: &mut [Value],
    steps: &[Step],
    means: &Resources<G>,
    sink: &mut K,
) -> Result<(), Status>
    requires means { AreMeans means.now }
    requires placed { ArePlaced means.now.options.text steps.now values.old }
    requires asked { (nodes : List Expression) × AreAsked nodes steps.now }
    requires lean { IsLean steps.now 0 values.old }
    ensures ends { (nodes : List Expression) → AreAsked nodes steps.now → WorkEnds means.now.options.text nodes (asked_values steps.now) (K.written sink.old) (K.written sink.new) (K.faults sink.old) (K.faults sink.new) result }
    ensures lean { OnOk result (IsLean steps.now (length steps.now) values.new) }
{
    for now in 0..steps.len() {
        work_ahead(rt, alloc, values, steps, now, means)?;
        work_step(rt, alloc, values, steps, now, means, sink)?;
    }
    Ok(())
}

// Works the steps, of which none has made a value yet.
fn work_all<R: Threads + Wait + Sync, K: Sink, G: Gate + Sync>(
    rt: &R,
    alloc: Global,
    steps: &[Step],
    means: &Resources<G>,
    sink: &mut K,
) -> Result<(), Status>
    requires means { AreMeans means.now }
    requires steps { AreSteps steps.now }
    requires ends { AreEndedAt steps.now }
    requires asked { (nodes : List Expression) × AreAsked nodes steps.now }
    ensures ends { (nodes : List Expression) → AreAsked nodes steps.now → WorkEnds means.now.options.text nodes (asked_values steps.now) (K.written sink.old) (K.written sink.new) (K.faults sink.old) (K.faults sink.new) result }
{
    let mut values = empty_places(alloc, steps.len())?;
    work_steps(rt, alloc, values.as_mut_slice(), steps, means, sink)
}

/// Works the script, and writes what its commands ask for, in their order. Where the options say so, sets of later steps are
/// worked ahead, several at the same time.
pub(crate) fn work<R: Threads + Wait + Sync, K: Sink, G: Gate + Sync>(
    rt: &R,
    alloc: Global,
    options: &Options,
    script: &Script,
    sink: &mut K,
    gate: &G,
) -> Result<(), Status>
    requires workable { AreWorkable script.now.nodes script.now.commands }
    ensures ends { WorkEnds options.now.text script.now.nodes script.now.commands (K.written sink.old) (K.written sink.new) (K.faults sink.old) (K.faults sink.new) result }
{
    let plan = plan(alloc, script)?;
    let whole = constant(alloc, true)?;
    let means = Resources {
        whole: &whole,
        options: *options,
        gate,
    };
    let ended = work_all(rt, alloc, &plan.steps, &means, sink);
    drop(whole);
    ended
}
