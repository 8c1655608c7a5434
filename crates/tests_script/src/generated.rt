//! The generated scripts of stairs.

use crate::same::check;
use nef_script::{Command, Script, parse, stairs};
use nef_space::MOST_STAIRS;
use std::alloc::Global;
use std::process::Abort;
use std::test::Fail;

// The lines of the first box, and of the second box, of a script of stairs.
const FIRST_BOX: &[u8] =
    b"half b0a -1 0 0 0 closed\nhalf b0b 1 0 0 -12 closed\nhalf b0c 0 -1 0 0 closed\nhalf b0d 0 1 0 -12 closed\nhalf b0e 0 0 -1 0 closed\nhalf b0f 0 0 1 -12 closed\nand b0g b0a b0b\nand b0h b0g b0c\nand b0i b0h b0d\nand b0j b0i b0e\nand b0 b0j b0f\n";

const SECOND_BOX: &[u8] =
    b"half b1a -1 0 0 8 closed\nhalf b1b 1 0 0 -20 closed\nhalf b1c 0 -1 0 8 closed\nhalf b1d 0 1 0 -20 closed\nhalf b1e 0 0 -1 8 closed\nhalf b1f 0 0 1 -20 closed\nand b1g b1a b1b\nand b1h b1g b1c\nand b1i b1h b1d\nand b1j b1i b1e\nand b1 b1j b1f\n";

// The last lines of a script of three stairs.
const THIRD_END: &[u8] =
    b"\nhalf b2f 0 0 1 -28 closed\nand b2g b2a b2b\nand b2h b2g b2c\nand b2i b2h b2d\nand b2j b2i b2e\nand b2 b2j b2f\nor u2 u1 b2\ncount u2\n";

// Whether the script is the pieces one after the other.
fn is_made_of(script: &[u8], pieces: &[&[u8]]) -> bool {
    let mut rest = script;
    for piece in pieces {
        match rest.strip_prefix(*piece) {
            Some(after) => rest = after,
            None => return false,
        }
    }
    rest.is_empty()
}

#[test]
fn one_stair(rt: HostRuntime) -> Result<(), Fail> {
    let script = stairs(rt.alloc(), 1)?;
    assert!(rt; is_made_of(&script, &[FIRST_BOX, b"count b0\n"]));
    Ok(())
}

#[test]
fn two_stairs(rt: HostRuntime) -> Result<(), Fail> {
    let script = stairs(rt.alloc(), 2)?;
    let last = b"or u1 b0 b1\ncount u1\n";
    assert!(rt; is_made_of(&script, &[FIRST_BOX, SECOND_BOX, last]));
    Ok(())
}

#[test]
fn end_of_three_stairs(rt: HostRuntime) -> Result<(), Fail> {
    let script = stairs(rt.alloc(), 3)?;
    assert!(rt; script.ends_with(THIRD_END));
    Ok(())
}

fn longest_script(alloc: Global) -> Result<Script, Fail> {
    let text = stairs(alloc, MOST_STAIRS)?;
    let script = parse(alloc, &text)?;
    Ok(script)
}

// The line and the node of the last command, if it is a count.
fn last_count(script: &Script) -> Option<(u64, usize)> {
    match script.commands().last() {
        Some(Command::Count { line, node }) => Some((*line, *node)),
        _ => None,
    }
}

// The longest script has eleven names for each of 32 boxes, 31 names for unions, and one question.
fn check_longest(rt: &impl Abort, script: &Script) {
    check(rt, &script.nodes.len(), &383, "nodes");
    check(rt, &script.commands().len(), &384, "commands");
    check(rt, &last_count(script), &Some((384, 382)), "the last count");
}

#[test]
fn most_stairs(rt: HostRuntime) -> Result<(), Fail> {
    let script = longest_script(rt.alloc())?;
    check_longest(&rt, &script);
    Ok(())
}
