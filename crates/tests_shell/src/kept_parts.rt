//! Sets that get several questions: what was worked of a set is kept with the set, and answers for no other set.

use crate::empty_text::EMPTY_TEXT;
use crate::runs::{check, check_rows, gives, worked};
use std::alloc::{AllocError, Global};
use std::process::Abort;
use std::sync::Wait;
use std::thread::Threads;

// Words of the command line, one line for each run.
const WORDS: &str = "--workers 1
--workers 4 --board free
--ahead --workers 4
--ahead --workers 4 --board free
--text 2";

const TWO_NAMES_WORDS: &str = "--text 2
--text 2 --ahead --workers 4 --board free";

// Scripts with `/` between their lines, and what each writes: questions to a set that a turn binds again; a set that a
// turn gives back after it was let go; questions to two sets in turns; a set that is used later and asked again; and
// points outside the frame first, for which no parts are worked.
const ROWS: &str = "half A 1 0 0 0 closed / turn B A 1 / count B / joined B 1 0 0 1 2 0 0 1 / \
    joined B -1 0 0 1 1 0 0 1 / turn C A 1 / count C / joined C 1 0 0 1 2 0 0 1 / \
    joined C -1 0 0 1 1 0 0 1 / count B / has C 1 0 0 1 / has B -1 0 0 1 => \
    12 20 11 3 / joined / apart / 12 20 11 3 / joined / apart / 12 20 11 3 / in / not
half A 1 0 0 0 closed / count A / turn B A 1 / count B / turn C B 1 / count C / \
    joined C -1 0 0 1 -2 0 0 1 / joined C -1 0 0 1 1 0 0 1 / has C -1 0 0 1 => \
    12 20 11 3 / 12 20 11 3 / 12 20 11 3 / joined / apart / in
half Aa -1 0 0 0 closed / half Ab 1 0 0 -1 closed / half Ac 0 -1 0 0 closed / \
    half Ad 0 1 0 -1 closed / half Ae 0 0 -1 0 closed / half Af 0 0 1 -1 closed / and Ag Aa Ab / \
    and Ah Ag Ac / and Ai Ah Ad / and Aj Ai Ae / and A Aj Af / half Pa -1 0 0 0 closed / \
    half Pb 1 0 0 0 closed / half Pc 0 -1 0 0 closed / half Pd 0 1 0 0 closed / \
    half Pe 0 0 -1 0 closed / half Pf 0 0 1 0 closed / and Pg Pa Pb / and Ph Pg Pc / \
    and Pi Ph Pd / and Pj Pi Pe / and P Pj Pf / count A / count P / joined A 1 1 1 2 1 1 1 4 / \
    joined A 1 1 1 2 3 3 3 1 / joined P 1 1 1 2 3 3 3 1 / joined P 0 0 0 1 3 3 3 1 / count P / \
    count A / empty E / count E / count P / count A / joined A 1 1 1 2 3 3 3 1 / count E => \
    16 24 12 3 / 9 12 6 2 / joined / apart / joined / apart / 9 12 6 2 / 16 24 12 3 / 8 12 6 2 / \
    9 12 6 2 / 16 24 12 3 / apart / 8 12 6 2
half A 1 0 0 0 closed / count A / half B 0 1 0 0 closed / joined B 0 -1 0 1 0 1 0 1 / and C A B / \
    joined C -1 -1 0 1 -2 -2 0 1 / joined C -1 1 0 1 1 -1 0 1 / joined C -1 -1 0 1 1 1 0 1 / \
    not D A / count D / joined A -1 0 0 1 -2 0 0 1 / joined D -1 0 0 1 1 0 0 1 / count A / \
    same D A / not F D / same F A / count F => \
    12 20 11 3 / apart / joined / joined / apart / 12 20 11 3 / joined / apart / 12 20 11 3 / \
    differs / same / 12 20 11 3
half A 1 0 0 0 closed / joined A 2048 0 0 1 -1 0 0 1 / joined A -1 0 0 1 2048 0 0 1 / \
    joined A -1 0 0 1 -2 0 0 1 / joined A -1 0 0 1 2048 0 0 1 / joined A -1 0 0 1 1 0 0 1 => \
    frame / frame / joined / frame / apart";

#[test]
fn asked_again(rt: HostRuntime) {
    for words in WORDS.split('\n') {
        check_rows(&rt, rt.alloc(), words, ROWS, 0);
    }
}

// The empty set, printed and counted in turns.
const PRINTED: &str = "empty E\nprint E\ncount E\nfull U\ncount U\nprint E\nand F U E\nprint E\n";

// Whether each print of `PRINTED` writes the text of the empty set.
fn is_printed<R: Threads + Wait + Sync>(
    rt: &R,
    alloc: Global,
    words: &str,
) -> Result<bool, AllocError> {
    let printed = format!(in alloc; "polyhedron E\n{EMPTY_TEXT}end\n")?;
    let output = format!(in alloc; "{printed}8 12 6 2\n8 12 6 2\n{printed}{printed}")?;
    gives(rt, alloc, words, PRINTED, 0, output.as_str())
}

// A turned set with two names, printed by the first, the second and the first name, in the second version of the text.
const TWO_NAMES: &str = "half A 1 0 0 0 open\nturn B A 1\nprint B\nturn C A 1\ncount C\nprint C\n\
    half D 0 0 1 0 open\njoined B -1 0 0 1 1 0 0 1\nprint B\n";

// Whether the three texts that the script of two names writes are equal, and of the second version.
fn is_alike(written: &str) -> Option<bool> {
    let texts = written.strip_prefix("polyhedron B\n")?;
    let (first, rest) = texts.split_once("12 20 11 3\npolyhedron C\n")?;
    let (second, third) = rest.split_once("apart\npolyhedron B\n")?;
    Some(first.starts_with("nef3 2 12 20 11 3\n") && first == second && second == third)
}

// Whether a run with these words writes three equal texts.
fn prints_alike<R: Threads + Wait + Sync>(rt: &R, alloc: Global, words: &str) -> Option<bool> {
    let (status, text) = worked(rt, alloc, words, TWO_NAMES).ok()?;
    Some(status == 0 && is_alike(text.as_str()) == Some(true))
}

// Whether two thousand questions about one set are answered.
fn is_answered<R: Threads + Wait + Sync>(
    rt: &R,
    alloc: Global,
    words: &str,
) -> Result<bool, AllocError> {
    let mut script = String::from_str(alloc, "half A 1 0 0 0 closed\n")?;
    let mut output = String::new(alloc);
    for _ in 0..1000u32 {
        script.push_str("joined A -1 0 0 1 -2 0 0 1\ncount A\n")?;
        output.push_str("joined\n12 20 11 3\n")?;
    }
    gives(rt, alloc, words, script.as_str(), 0, output.as_str())
}

fn check_repeated<R: Threads + Wait + Abort + Sync>(rt: &R, alloc: Global, words: &str) {
    check(rt, is_printed(rt, alloc, words).ok(), words, PRINTED);
    check(
        rt,
        is_answered(rt, alloc, words).ok(),
        words,
        "many questions",
    );
}

#[test]
fn printed_again_and_asked_often(rt: HostRuntime) {
    check_repeated(&rt, rt.alloc(), "");
    check_repeated(&rt, rt.alloc(), "--ahead --workers 4");
}

#[test]
fn printed_by_two_names(rt: HostRuntime) {
    for words in TWO_NAMES_WORDS.split('\n') {
        check(&rt, prints_alike(&rt, rt.alloc(), words), words, TWO_NAMES);
    }
}
