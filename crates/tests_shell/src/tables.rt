//! Scripts and what they write, by both boards and any number of workers.

ghost use Rattle.nef_complex.specs.Prelude.{IfOk, Set, ShowsSet, complex_of, IsParts};

use crate::runs::{check, check_rows};
use nef_complex::{Complex, Parts};
use nef_core::TextVersion;
use nef_ops::constant;
use nef_shell::same_text;
use nef_volumes::parts;
use std::alloc::{AllocError, Global};
use std::process::Abort;
use std::sync::Wait;
use std::thread::Threads;

// Scripts with `/` between their lines, and what they write, with `/` between its lines: questions about half-spaces.
const ANSWERS: &str = "half A 1 0 0 0 closed / has A 0 0 0 1 => in
half A 1 0 0 0 open / has A 0 0 0 1 => not
half A 1 0 0 0 closed / has A 2048 0 0 1 => frame
half A 1 0 0 0 closed / has A 0 0 0 1 / half B 1 0 0 0 open / has B 0 0 0 1 => in / not
half A 1 0 0 0 closed / has A 1 0 0 2 / has A -2 0 0 4 => not / in
half A 1 0 0 0 closed / has A 2048 0 0 1 / has A 8796093022208 0 0 4294967296 => frame / frame
half A 1 0 0 0 closed / has A 8796093022207 0 0 4294967296 => not
full U / not N U / # nothing / has U 0 0 0 1 / has N 0 0 0 1 => in / not
half A 1 0 0 0 closed / half B 0 1 0 0 closed / xor C A B / has C -1 1 0 1 / has C -1 -1 0 1 => in / not
empty E / cl C E / has C 0 0 0 1 => not
full U / int V U / has V 1023 0 0 1 => in";

// Scripts and answers about solids: a box's boundary; two open boxes with a common wall; a half-space without a ray.
const SOLIDS: &str =
    "half Aa -1 0 0 0 closed / half Ab 1 0 0 -1 closed / half Ac 0 -1 0 0 closed / \
    half Ad 0 1 0 -1 closed / half Ae 0 0 -1 0 closed / half Af 0 0 1 -1 closed / \
    and Ag Aa Ab / and Ah Ag Ac / and Ai Ah Ad / and Aj Ai Ae / and A Aj Af / bd D A / \
    has D 0 0 0 1 / has D 1 1 1 2 / int I D / has I 0 0 0 1 => in / not / not
half Aa -1 0 0 0 open / half Ab 1 0 0 -1 open / half Ac 0 -1 0 0 open / \
    half Ad 0 1 0 -1 open / half Ae 0 0 -1 0 open / half Af 0 0 1 -1 open / and Ag Aa Ab / \
    and Ah Ag Ac / and Ai Ah Ad / and Aj Ai Ae / and A Aj Af / half Ba -1 0 0 1 open / \
    half Bb 1 0 0 -2 open / half Bc 0 -1 0 0 open / half Bd 0 1 0 -1 open / \
    half Be 0 0 -1 0 open / half Bf 0 0 1 -1 open / and Bg Ba Bb / and Bh Bg Bc / \
    and Bi Bh Bd / and Bj Bi Be / and B Bj Bf / or U A B / reg R U / has U 2 1 1 2 / \
    has R 2 1 1 2 / has R 0 0 0 1 => not / in / in
half A 0 0 1 0 closed / half B 0 0 -1 0 closed / half C 0 1 0 0 closed / \
    half D 0 -1 0 0 closed / half E -1 0 0 0 closed / and F A B / and G F C / and H G D / \
    and R H E / diff K A R / count K / has K 0 0 0 1 / has K -1 0 0 1 => 14 22 11 3 / not / in";

// Rows of unions, of symmetric differences and of differences, worked as trees, beside the same rows worked one
// operation after the other, since each of their sets is asked about. In the third row the set B comes twice.
const ROWS: &str =
    "half A 1 0 0 0 closed / half B 0 1 0 0 open / half C 0 0 1 0 closed / half D 1 1 1 2 open / \
    or U A B / or V U C / or W V D / or P A B / has P 0 0 0 1 / or Q P C / has Q 0 0 0 1 / \
    or R Q D / same W R => in / in / same
half A 1 0 0 0 closed / half B 0 1 0 0 open / half C 0 0 1 0 closed / half D 1 1 1 2 open / \
    xor U A B / xor V U C / xor W V D / xor P A B / has P 0 0 0 1 / xor Q P C / has Q 0 0 0 1 / \
    xor R Q D / same W R => in / not / same
half A 1 0 0 0 closed / half B 0 1 0 0 open / half C 0 0 1 0 closed / xor U A B / xor V U C / \
    xor W V B / xor X A C / same W X / same W A => same / differs
half a 1 0 0 0 closed / half b -1 0 0 0 closed / half c 0 1 0 0 closed / half d 0 -1 0 0 open / \
    half e 0 0 1 0 closed / and f a c / and g f e / and h b c / and i h e / and j a d / and k j e / \
    full F / diff L F g / diff M L i / diff N M k / diff P F g / has P 0 0 0 1 / diff Q P i / \
    has Q 1 -1 -1 1 / diff R Q k / has R -1 1 -1 1 / same N R / has N 1 1 -1 1 => \
    not / not / not / same / in";

// The numbers of parts of a half-space, boxes, a point, an axis, two axes that cross, and a box with corners at halves.
const COUNTS: &str = "half A 1 0 0 0 closed / count A => 12 20 11 3
half Aa -1 0 0 0 closed / half Ab 1 0 0 -1 closed / half Ac 0 -1 0 0 closed / \
    half Ad 0 1 0 -1 closed / half Ae 0 0 -1 0 closed / half Af 0 0 1 -1 closed / and Ag Aa Ab / \
    and Ah Ag Ac / and Ai Ah Ad / and Aj Ai Ae / and A Aj Af / count A => 16 24 12 3
half Pa -1 0 0 0 closed / half Pb 1 0 0 0 closed / half Pc 0 -1 0 0 closed / \
    half Pd 0 1 0 0 closed / half Pe 0 0 -1 0 closed / half Pf 0 0 1 0 closed / and Pg Pa Pb / \
    and Ph Pg Pc / and Pi Ph Pd / and Pj Pi Pe / and P Pj Pf / count P => 9 12 6 2
half a 1 0 0 0 closed / half b -1 0 0 0 closed / half c 0 1 0 0 closed / \
    half d 0 -1 0 0 closed / and e a b / and f e c / and Z f d / count Z => 10 13 6 2
half a 0 1 0 0 closed / half b 0 -1 0 0 closed / half c 0 0 1 0 closed / \
    half d 0 0 -1 0 closed / and e a b / and f e c / and X f d / half h 1 0 0 0 closed / \
    half i -1 0 0 0 closed / half j 0 0 1 0 closed / half k 0 0 -1 0 closed / and l h i / \
    and m l j / and Y m k / or U X Y / count U => 13 16 6 2
half Aa -1 0 0 0 closed / half Ab 2 0 0 -1 closed / half Ac 0 -1 0 0 closed / \
    half Ad 0 2 0 -1 closed / half Ae 0 0 -1 0 closed / half Af 0 0 2 -1 closed / and Ag Aa Ab / \
    and Ah Ag Ac / and Ai Ah Ad / and Aj Ai Ae / and A Aj Af / count A => 16 24 12 3";

// Sets that are the same, and sets that differ.
const COMPARISONS: &str =
    "half Aa -1 0 0 0 closed / half Ab 1 0 0 -1 closed / half Ac 0 -1 0 0 closed / \
    half Ad 0 1 0 -1 closed / half Ae 0 0 -1 0 closed / half Af 0 0 1 -1 closed / and Ag Aa Ab / \
    and Ah Ag Ac / and Ai Ah Ad / and Aj Ai Ae / and A Aj Af / half Ba -1 0 0 1 closed / \
    half Bb 1 0 0 -2 closed / half Bc 0 -1 0 0 closed / half Bd 0 1 0 -1 closed / \
    half Be 0 0 -1 0 closed / half Bf 0 0 1 -1 closed / and Bg Ba Bb / and Bh Bg Bc / \
    and Bi Bh Bd / and Bj Bi Be / and B Bj Bf / half La -1 0 0 0 closed / \
    half Lb 1 0 0 -2 closed / half Lc 0 -1 0 0 closed / half Ld 0 1 0 -1 closed / \
    half Le 0 0 -1 0 closed / half Lf 0 0 1 -1 closed / and Lg La Lb / and Lh Lg Lc / \
    and Li Lh Ld / and Lj Li Le / and L Lj Lf / or U A B / same U L => same
half Aa -1 0 0 0 open / half Ab 1 0 0 -1 open / half Ac 0 -1 0 0 open / \
    half Ad 0 1 0 -1 open / half Ae 0 0 -1 0 open / half Af 0 0 1 -1 open / and Ag Aa Ab / \
    and Ah Ag Ac / and Ai Ah Ad / and Aj Ai Ae / and A Aj Af / half Ba -1 0 0 1 open / \
    half Bb 1 0 0 -2 open / half Bc 0 -1 0 0 open / half Bd 0 1 0 -1 open / \
    half Be 0 0 -1 0 open / half Bf 0 0 1 -1 open / and Bg Ba Bb / and Bh Bg Bc / and Bi Bh Bd / \
    and Bj Bi Be / and B Bj Bf / half La -1 0 0 0 closed / half Lb 1 0 0 -2 closed / \
    half Lc 0 -1 0 0 closed / half Ld 0 1 0 -1 closed / half Le 0 0 -1 0 closed / \
    half Lf 0 0 1 -1 closed / and Lg La Lb / and Lh Lg Lc / and Li Lh Ld / and Lj Li Le / \
    and L Lj Lf / or U A B / same U L / reg R U / same R L => differs / same
half Aa -1 0 0 0 closed / half Ab 1 0 0 -1 closed / half Ac 0 -1 0 0 closed / \
    half Ad 0 1 0 -1 closed / half Ae 0 0 -1 0 closed / half Af 0 0 1 -1 closed / and Ag Aa Ab / \
    and Ah Ag Ac / and Ai Ah Ad / and Aj Ai Ae / and A Aj Af / bd D A / count D / same D A / \
    int I D / empty E / same I E => 16 24 12 3 / differs / same
half A 2 0 0 2 closed / half B 1 0 0 1 closed / same A B => same
half A 1 0 0 4194304 closed / empty E / same A E / half F 0 0 1 -2048 open / full U / \
    same F U => same / same
full U / not N U / empty E / same N E => same";

// Where rays end in a half-space with its boundary, in a half-space without its boundary, and in a box.
const RAYS: &str =
    "half A 1 0 0 0 closed / ray A -1 0 0 1 1 0 0 / ray A 1 0 0 2 1 0 0 => after 0 0 0 1 not \
    / at 2048 0 0 1 frame
half B 1 0 0 0 open / ray B -1 0 0 1 1 0 0 => at 0 0 0 1 not
half Ca -1 0 0 0 closed / half Cb 1 0 0 -1 closed / half Cc 0 -1 0 0 closed / half Cd 0 \
    1 0 -1 closed / half Ce 0 0 -1 0 closed / half Cf 0 0 1 -1 closed / and Cg Ca Cb / \
    and Ch Cg Cc / and Ci Ch Cd / and Cj Ci Ce / and C Cj Cf / ray C -1 1 1 2 1 0 0 / \
    ray C 1 1 1 2 1 0 0 / ray C -1 -1 -1 1 1 1 1 / ray C 0 0 0 1 -1 0 0 / ray C 2048 0 0 \
    1 1 0 0 => at 0 1 1 2 in / after 2 1 1 2 not / at 0 0 0 1 in / at -2048 0 0 1 frame \
    / frame";

// Points that may be joined: in two boxes; in a plate with a hole; in a box with a wall, and with a wall that has a
// hole; in two boxes with a common edge, and round these boxes.
const JOINS: &str =
    "half Aa -1 0 0 0 closed / half Ab 1 0 0 -1 closed / half Ac 0 -1 0 0 closed / half Ad 0 \
    1 0 -1 closed / half Ae 0 0 -1 0 closed / half Af 0 0 1 -1 closed / and Ag Aa Ab / \
    and Ah Ag Ac / and Ai Ah Ad / and Aj Ai Ae / and A Aj Af / half Ba -1 0 0 2 closed / \
    half Bb 1 0 0 -3 closed / half Bc 0 -1 0 0 closed / half Bd 0 1 0 -1 closed / half \
    Be 0 0 -1 0 closed / half Bf 0 0 1 -1 closed / and Bg Ba Bb / and Bh Bg Bc / and Bi \
    Bh Bd / and Bj Bi Be / and B Bj Bf / or U A B / joined U 1 1 1 2 5 1 1 2 / joined U \
    1 1 1 4 3 3 3 4 / joined U -1 0 0 1 5 0 0 1 / joined U 0 1 1 2 0 1 3 4 / joined U 0 \
    0 0 1 1 0 0 1 / joined U 0 0 0 1 0 0 0 7 / joined U 2048 0 0 1 0 0 0 1 / joined U 0 \
    0 0 1 0 2048 0 1 => apart / joined / joined / joined / apart / joined / frame / \
    frame
half Pa -1 0 0 -10 closed / half Pb 1 0 0 -10 closed / half Pc 0 -1 0 -10 closed / half \
    Pd 0 1 0 -10 closed / half Pe 0 0 -1 0 closed / half Pf 0 0 1 -2 closed / and Pg Pa \
    Pb / and Ph Pg Pc / and Pi Ph Pd / and Pj Pi Pe / and P Pj Pf / half a 0 1 0 -4 open \
    / half b 0 -1 0 -4 open / half c 2 1 0 -8 open / half d -2 -1 0 -8 open / half e 2 \
    -1 0 -8 open / half f -2 1 0 -8 open / and g a b / and h g c / and i h d / and j i e \
    / and H j f / diff K P H / joined K 9 9 2 1 -9 -9 2 1 / joined K 9 9 2 2 -9 -9 2 2 \
    => joined / joined
half Aa -1 0 0 0 closed / half Ab 1 0 0 -1 closed / half Ac 0 -1 0 0 closed / half Ad 0 \
    1 0 -1 closed / half Ae 0 0 -1 0 closed / half Af 0 0 1 -1 closed / and Ag Aa Ab / \
    and Ah Ag Ac / and Ai Ah Ad / and Aj Ai Ae / and A Aj Af / half Wa 2 0 0 -1 closed / \
    half Wb -2 0 0 1 closed / and W Wa Wb / diff D A W / joined D 1 2 2 4 3 2 2 4 / \
    joined D 1 1 1 4 1 3 3 4 => apart / joined
half Aa -1 0 0 0 closed / half Ab 1 0 0 -1 closed / half Ac 0 -1 0 0 closed / half Ad 0 \
    1 0 -1 closed / half Ae 0 0 -1 0 closed / half Af 0 0 1 -1 closed / and Ag Aa Ab / \
    and Ah Ag Ac / and Ai Ah Ad / and Aj Ai Ae / and A Aj Af / half Wa 2 0 0 -1 closed / \
    half Wb -2 0 0 1 closed / and W Wa Wb / half Ha 0 -4 0 1 open / half Hb 0 4 0 -3 \
    open / half Hc 0 0 -4 1 open / half Hd 0 0 4 -3 open / and He Ha Hb / and Hf He Hc / \
    and H Hf Hd / diff V W H / diff D A V / joined D 1 2 2 4 3 2 2 4 / joined D 2 2 2 4 \
    1 2 2 4 => joined / joined
half Aa -1 0 0 0 closed / half Ab 1 0 0 -1 closed / half Ac 0 -1 0 0 closed / half Ad 0 \
    1 0 -1 closed / half Ae 0 0 -1 0 closed / half Af 0 0 1 -1 closed / and Ag Aa Ab / \
    and Ah Ag Ac / and Ai Ah Ad / and Aj Ai Ae / and A Aj Af / half Ba -1 0 0 1 closed / \
    half Bb 1 0 0 -2 closed / half Bc 0 -1 0 1 closed / half Bd 0 1 0 -2 closed / half \
    Be 0 0 -1 0 closed / half Bf 0 0 1 -1 closed / and Bg Ba Bb / and Bh Bg Bc / and Bi \
    Bh Bd / and Bj Bi Be / and B Bj Bf / or E A B / joined E 1 1 1 2 3 3 1 2 / joined E \
    -1 3 1 2 3 -1 1 2 => apart / joined";

// Refused scripts, and the line that each writes.
const REFUSALS: &str = "ball A => line 1: unknown command
half A 1 0 0 closed => line 1: wrong number of words
empty 1A => line 1: bad name
empty A / full A => line 2: name taken
and C A B => line 1: unknown name
half A 1 0 0 1.5 closed => line 1: not a number
half A 0 0 0 5 closed => line 1: zero normal
half A 1 0 0 0 shut => line 1: mode is not open or closed
half A 2049 0 0 0 shut => line 1: coefficient out of range
empty A / has A 0 0 0 0 => line 2: weight out of range
empty A / has A 8796093022209 0 0 1 => line 2: coefficient out of range
empty A / ray A 0 0 0 1 0 0 0 => line 2: zero direction
empty A \x07 => line 1: bad byte
half A 2048 0 0 0 closed / has A 0 0 0 1 / half B 2049 0 0 0 closed => line 3: coefficient out of range
half A 2049 0 0 0 closed / has A 0 0 0 1 => line 1: coefficient out of range";

/// The closed unit box.
pub(crate) const UNIT_BOX: &str =
    "half Aa -1 0 0 0 closed / half Ab 1 0 0 -1 closed / half Ac 0 -1 0 0 closed / \
    half Ad 0 1 0 -1 closed / half Ae 0 0 -1 0 closed / half Af 0 0 1 -1 closed / \
    and Ag Aa Ab / and Ah Ag Ac / and Ai Ah Ad / and Aj Ai Ae / and A Aj Af";

/// Words for one worker, two, and the most, by the board whose passes take turns.
pub(crate) const BY_TURNS: &str = "--workers 1 --board lock
--workers 2 --board lock
--workers 64 --board lock";

/// Words for one worker, two, and the most, by the board whose passes wait for nobody.
pub(crate) const WITHOUT_TURNS: &str = "--workers 1 --board free
--workers 2 --board free
--workers 64 --board free";

// Words for runs by both boards in which statements run ahead.
const AHEAD: &str = "--ahead --workers 1 --board lock
--ahead --workers 2 --board lock
--ahead --workers 8 --board lock
--ahead --workers 64 --board lock
--ahead --workers 1 --board free
--ahead --workers 2 --board free
--ahead --workers 8 --board free
--ahead --workers 64 --board free";

// Stops the test where a row of the tables that are run ahead too doesn't come out with these words.
fn check_some<R: Threads + Wait + Abort + Sync>(rt: &R, alloc: Global, words: &str) {
    check_rows(rt, alloc, words, ANSWERS, 0);
    check_rows(rt, alloc, words, ROWS, 0);
    check_rows(rt, alloc, words, COUNTS, 0);
}

// Stops the test where a row of some table doesn't come out with some words of the list.
fn check_all<R: Threads + Wait + Abort + Sync>(rt: &R, alloc: Global, list: &str) {
    for words in list.split('\n') {
        check_some(rt, alloc, words);
        check_rows(rt, alloc, words, SOLIDS, 0);
        check_rows(rt, alloc, words, COMPARISONS, 0);
        check_rows(rt, alloc, words, RAYS, 0);
        check_rows(rt, alloc, words, JOINS, 0);
        check_rows(rt, alloc, words, REFUSALS, 1);
    }
}

#[test]
fn by_lock_board(rt: HostRuntime) {
    check_all(&rt, rt.alloc(), BY_TURNS);
}

#[test]
fn by_free_board(rt: HostRuntime) {
    check_all(&rt, rt.alloc(), WITHOUT_TURNS);
}

#[test]
fn rows_ahead(rt: HostRuntime) {
    for words in AHEAD.split('\n') {
        check_some(&rt, rt.alloc(), words);
    }
}

// Whether the texts of two complexes are equal, for the first complex and its parts.
fn is_text_of(
    alloc: Global,
    first: &Complex,
    first_parts: &Parts,
    second: &Complex,
) -> Result<bool, AllocError>
    requires first_parts { IsParts (complex_of first.now) first_parts.now }
    requires second { (s : Set) × ShowsSet s second.now }
{
    match &parts(alloc, second) {
        Ok(second_parts) => same_text(
            alloc,
            TextVersion::Two,
            first,
            first_parts,
            second,
            second_parts,
        ),
        Err(_) => Err(AllocError),
    }
}

// Whether the texts of two complexes are equal, in the second version.
fn have_one_text(alloc: Global, first: &Complex, second: &Complex) -> Result<bool, AllocError>
    requires first { (s : Set) × ShowsSet s first.now }
    requires second { (s : Set) × ShowsSet s second.now }
{
    match &parts(alloc, first) {
        Ok(first_parts) => is_text_of(alloc, first, first_parts, second),
        Err(_) => Err(AllocError),
    }
}

// Whether the complex has the text of the whole frame, where this could be made.
fn has_text_of(
    alloc: Global,
    first: &Complex,
    full: &Result<Complex, AllocError>,
) -> Result<bool, AllocError>
    requires first { (s : Set) × ShowsSet s first.now }
    requires full { IfOk full.now (ShowsSet Set.full) }
{
    match full {
        Ok(full) => have_one_text(alloc, first, full),
        Err(_) => Err(AllocError),
    }
}

fn has_full_text(alloc: Global, first: &Complex) -> Result<bool, AllocError>
    requires first { (s : Set) × ShowsSet s first.now }
{
    let full = constant(alloc, true);
    has_text_of(alloc, first, &full)
}

// Whether the complex has its own text, and not the text of the whole frame.
fn is_not_full(alloc: Global, empty: &Result<Complex, AllocError>) -> Result<bool, AllocError>
    requires empty { IfOk empty.now (ShowsSet Set.empty) }
{
    match empty {
        Ok(empty) => Ok(have_one_text(alloc, empty, empty)? && !has_full_text(alloc, empty)?),
        Err(_) => Err(AllocError),
    }
}

// The empty set against itself and the whole frame. No function branches while it holds a complex: letting go of the
// complex on each branch would cost minutes of proving.
#[test]
fn texts_compared(rt: HostRuntime) {
    let empty = constant(rt.alloc(), false);
    check(
        &rt,
        is_not_full(rt.alloc(), &empty).ok(),
        "",
        "the empty set",
    );
}
