//! The shortest and the longest scripts, lines and lists of names, and words of the command line.

use crate::empty_text::EMPTY_TEXT;
use crate::runs::{check, check_rows, gives};
use std::alloc::{AllocError, Global};
use std::process::Abort;
use std::sync::Wait;
use std::thread::Threads;

// Words that the command line accepts: an option of two words, or of one.
const ACCEPTED: &str = "--workers 2\n--workers=2\n--board free";

const REFUSED: &str = "--workers 0
--workers 65
--workers two
--stairs 0
--stairs 33
--board both
--colour red
--help
x";

fn repeated(alloc: Global, letter: char, count: u32) -> Result<String, AllocError> {
    let mut text = String::new(alloc);
    for _ in 0..count {
        text.push(letter)?;
    }
    Ok(text)
}

// Lines that bind as many names as a script may have.
fn most_names(alloc: Global) -> Result<String, AllocError> {
    let mut names = String::new(alloc);
    for number in 1..=4096u32 {
        names.push_str(format!(in alloc; "full n{number}\n")?.as_str())?;
    }
    Ok(names)
}

// Whether a run of the text writes nothing, and a run of the text with one letter more is refused so.
fn is_longest<R: Threads + Wait + Sync>(
    rt: &R,
    alloc: Global,
    text: &str,
    more: char,
    refusal: &str,
) -> Result<bool, AllocError> {
    let mut longer = String::from_str(alloc, text)?;
    longer.push(more)?;
    Ok(gives(rt, alloc, "", text, 0, "")? && gives(rt, alloc, "", longer.as_str(), 1, refusal)?)
}

// Whether a script of the most names and this line ends with the status and writes the output.
fn names_give<R: Threads + Wait + Sync>(
    rt: &R,
    alloc: Global,
    line: &str,
    status: u8,
    output: &str,
) -> Result<bool, AllocError> {
    let names = most_names(alloc)?;
    let script = format!(in alloc; "{names}{line}\n")?;
    gives(rt, alloc, "", script.as_str(), status, output)
}

// Whether the line binds a constant set by this name that has this text.
fn constant_gives<R: Threads + Wait + Sync>(
    rt: &R,
    alloc: Global,
    line: &str,
    name: &str,
    text: &str,
) -> Result<bool, AllocError> {
    let script = format!(in alloc; "{line}\ncount {name}\nprint {name}\n")?;
    let output = format!(in alloc; "8 12 6 2\npolyhedron {name}\n{text}end\n")?;
    gives(rt, alloc, "", script.as_str(), 0, output.as_str())
}

// Stops the test where a run with some of these words doesn't end with the status, or doesn't write what the row tells.
fn check_words<R: Threads + Wait + Abort + Sync>(
    rt: &R,
    alloc: Global,
    table: &str,
    row: &str,
    status: u8,
) {
    for words in table.split('\n') {
        check_rows(rt, alloc, words, row, status);
    }
}

#[test]
fn words(rt: HostRuntime) {
    let script = "full U / has U 0 0 0 1 => in";
    check_words(&rt, rt.alloc(), ACCEPTED, script, 0);
    let script = "full U / has U 0 0 0 1 => words refused";
    check_words(&rt, rt.alloc(), REFUSED, script, 2);
}

// Whether the empty script, a script without a last line end, the longest line and the longest script are worked.
fn are_within<R: Threads + Wait + Sync>(rt: &R, alloc: Global) -> Result<bool, AllocError> {
    let line = repeated(alloc, '#', 256)?;
    let script = repeated(alloc, '\n', 1_048_576)?;
    Ok(
        gives(rt, alloc, "", "", 0, "")?
            && gives(rt, alloc, "", "full U\r\nhas U 0 0 0 1", 0, "in\n")?
            && is_longest(rt, alloc, line.as_str(), ' ', "line 1: line too long\n")?
            && is_longest(
                rt,
                alloc,
                script.as_str(),
                '\n',
                "line 0: script too long\n",
            )?,
    )
}

#[test]
fn longest(rt: HostRuntime) {
    check(&rt, are_within(&rt, rt.alloc()).ok(), "", "lengths");
}

// Whether scripts of the most names are worked or refused as their last lines are.
fn are_most<R: Threads + Wait + Sync>(rt: &R, alloc: Global) -> Result<bool, AllocError> {
    Ok(
        names_give(rt, alloc, "has n4096 0 0 0 1", 0, "in\n")?
            && names_give(rt, alloc, "ball n4097", 1, "line 4097: unknown command\n")?
            && names_give(rt, alloc, "full n4097", 1, "line 4097: too many names\n")?,
    )
}

#[test]
fn names(rt: HostRuntime) {
    check(&rt, are_most(&rt, rt.alloc()).ok(), "", "names");
}

// Whether both constant sets are printed: the whole frame's text is the empty set's text with the other label inside.
fn are_printed<R: Threads + Wait + Sync>(rt: &R, alloc: Global) -> Result<bool, AllocError> {
    let text = EMPTY_TEXT.replace(alloc, " n", " i")?;
    Ok(
        constant_gives(rt, alloc, "empty E", "E", EMPTY_TEXT)?
            && constant_gives(rt, alloc, "full U", "U", text.as_str())?,
    )
}

#[test]
fn constants(rt: HostRuntime) {
    check(&rt, are_printed(&rt, rt.alloc()).ok(), "", "constants");
}
