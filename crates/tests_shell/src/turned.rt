//! Turned sets against sets that are made of turned half-spaces, and sets that are turned back.

use crate::runs::{check, check_rows, unfolded, worked};
use std::alloc::{AllocError, Global};
use std::sync::Wait;
use std::thread::Threads;

// The points with x >= 0, y > 0, z >= 0 off a piece of a slanted plane, and the point (-3, -5, -7), which no turn but
// the one that moves nothing leaves in its place.
const CORNER: &str = "half a -1 0 0 0 closed / half b 0 -1 0 0 open / half c 0 0 -1 0 closed / \
    and d a b / and e d c / half f 1 2 3 -9 closed / half g -1 -2 -3 9 closed / \
    half h 1 0 0 -1 closed / and i f g / and j i h / diff k e j / half l 1 0 0 3 closed / \
    half m -1 0 0 -3 closed / half n 0 1 0 5 closed / half o 0 -1 0 -5 closed / \
    half p 0 0 1 7 closed / half q 0 0 -1 -7 closed / and r l m / and s r n / and t s o / \
    and u t p / and v u q / or A k v";

// For eight turns each, which of the words x, y and z become the new x, y and z; the words 3 and 4 stay where they are.
const ORDERS: &str = "0 1 2 3 4 / 0 2 1 3 4 / 1 0 2 3 4 / 1 2 0 3 4 / 2 0 1 3 4 / 2 1 0 3 4";

// For each turn the turn that undoes it. A turn negates the new x, y and z where its number has the bits 1, 2 and 4.
const BACKS: &str = "0 1 2 3 4 5 6 7 8 9 12 13 10 11 14 15 16 18 17 19 20 22 21 23 \
    32 34 36 38 33 35 37 39 24 28 25 29 26 30 27 31 40 44 42 46 41 45 43 47";

// Scripts with `/` between their lines, and what each writes: a box turned to its mirror image and back; a box that a
// turn leaves as it is, and a box with the sides 1, 2, 3; a turned set with two names; and a set that a turn gives
// back.
const ROWS: &str = "half Aa -1 0 0 0 closed / half Ab 1 0 0 -1 closed / half Ac 0 -1 0 0 closed / \
    half Ad 0 1 0 -1 closed / half Ae 0 0 -1 0 closed / half Af 0 0 1 -1 closed / and Ag Aa Ab / \
    and Ah Ag Ac / and Ai Ah Ad / and Aj Ai Ae / and A Aj Af / half Ca -1 0 0 -1 closed / \
    half Cb 1 0 0 0 closed / half Cc 0 -1 0 0 closed / half Cd 0 1 0 -1 closed / \
    half Ce 0 0 -1 0 closed / half Cf 0 0 1 -1 closed / and Cg Ca Cb / and Ch Cg Cc / and Ci Ch Cd / \
    and Cj Ci Ce / and C Cj Cf / turn B A 1 / same B C / count B / turn D B 1 / same D A => \
    same / 16 24 12 3 / same
half Aa -1 0 0 0 closed / half Ab 1 0 0 -1 closed / half Ac 0 -1 0 0 closed / \
    half Ad 0 1 0 -1 closed / half Ae 0 0 -1 0 closed / half Af 0 0 1 -1 closed / and Ag Aa Ab / \
    and Ah Ag Ac / and Ai Ah Ad / and Aj Ai Ae / and A Aj Af / turn E A 16 / same E A => same
half Aa -1 0 0 0 closed / half Ab 1 0 0 -1 closed / half Ac 0 -1 0 0 closed / \
    half Ad 0 1 0 -2 closed / half Ae 0 0 -1 0 closed / half Af 0 0 1 -3 closed / and Ag Aa Ab / \
    and Ah Ag Ac / and Ai Ah Ad / and Aj Ai Ae / and A Aj Af / half Ca -1 0 0 -2 closed / \
    half Cb 1 0 0 0 closed / half Cc 0 -1 0 0 closed / half Cd 0 1 0 -3 closed / \
    half Ce 0 0 -1 0 closed / half Cf 0 0 1 -1 closed / and Cg Ca Cb / and Ch Cg Cc / and Ci Ch Cd / \
    and Cj Ci Ce / and C Cj Cf / turn B A 25 / same B C => same
half A 1 2 3 0 open / turn B A 9 / turn C A 9 / same B C / has C 1 0 0 1 / has B -1 0 0 1 => \
    same / in / not
half A 1 0 0 0 closed / turn B A 1 / turn C B 1 / has B 1 0 0 1 => in
half A 1 0 0 0 closed / turn B A 1 / has B 1 0 0 1 / turn C B 1 / has C 1 0 0 1 / \
    has C -1 0 0 1 => in / not / in";

// Adds the word, or the word of the opposite number.
fn push_signed(script: &mut String, word: &str, negated: bool) -> Result<(), AllocError> {
    match word.strip_prefix('-') {
        Some(digits) if negated => write!(script, " {digits}"),
        None if negated => write!(script, " -{word}"),
        _ => write!(script, " {word}"),
    }
}

// Adds the words of a half-space behind its name, with the half-space's normal turned.
fn push_words(script: &mut String, order: &str, negated: usize, words: &str) -> Option<()> {
    let mut bits = negated;
    for place in order.split(' ') {
        let word = words.split(' ').nth(place.parse().ok()?)?;
        push_signed(script, word, bits % 2 == 1).ok()?;
        bits /= 2;
    }
    script.push('\n').ok()
}

// Adds the line for the turned set, with `t` before each name.
fn push_line(
    alloc: Global,
    script: &mut String,
    order: &str,
    negated: usize,
    line: &str,
) -> Option<()> {
    let (verb, names) = line.split_once(' ')?;
    if verb == "half" {
        let (name, words) = names.split_once(' ')?;
        write!(script, "half t{name}").ok()?;
        push_words(script, order, negated, words)
    } else {
        let names = names.replace(alloc, " ", " t").ok()?;
        writeln!(script, "{verb} t{names}").ok()
    }
}

// Adds the lines of the set `CORNER`, made of turned half-spaces.
fn push_turned(alloc: Global, script: &mut String, order: &str, negated: usize) -> Option<()> {
    for line in CORNER.split(" / ") {
        push_line(alloc, script, order, negated, line)?;
    }
    Some(())
}

// Whether the answers are `same`, and both printed texts are equal.
fn is_alike(written: &str) -> Option<bool> {
    let texts = written.strip_prefix("same\nsame\npolyhedron A\n")?;
    let (first, second) = texts.split_once("polyhedron C\n")?;
    Some(first == second)
}

// Whether the turned set is the set of turned half-spaces, and this set, turned back, has the text of the first set.
fn turns<R: Threads + Wait + Sync>(rt: &R, alloc: Global, turn: usize, back: &str) -> Option<bool> {
    let order = ORDERS.split(" / ").nth(turn / 8)?;
    let mut script = unfolded(alloc, CORNER).ok()?;
    push_turned(alloc, &mut script, order, turn % 8)?;
    write!(
        script,
        "turn B A {turn}\nsame B tA\nturn C tA {back}\nsame C A\nprint A\nprint C\n"
    )
    .ok()?;
    let (status, text) = worked(rt, alloc, "", script.as_str()).ok()?;
    Some(status == 0 && is_alike(text.as_str()) == Some(true))
}

#[test]
fn each_turn(rt: HostRuntime) {
    check(&rt, Some(BACKS.split(' ').count() == 48), "", BACKS);
    for (turn, back) in BACKS.split(' ').enumerate() {
        check(
            &rt,
            turns(&rt, rt.alloc(), turn, back),
            "turned back by",
            back,
        );
    }
}

#[test]
fn rows_of_turns(rt: HostRuntime) {
    check_rows(&rt, rt.alloc(), "--workers 2", ROWS, 0);
    let refused = "empty A / turn B A 48 => line 2: coefficient out of range";
    check_rows(&rt, rt.alloc(), "", refused, 1);
}
