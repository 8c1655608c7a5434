//! Sets that are cut and put together again, and operations on a set and itself.

use crate::grids::comb;
use crate::runs::{check, check_rows, gives};
use std::alloc::{AllocError, Global};
use std::process::Abort;
use std::sync::Wait;
use std::thread::Threads;

// Words of the command line.
const WORDS: &str = "--workers 1
--workers 4 --board free
--ahead --workers 4";

// Scripts with `/` between their lines, and what each writes. A box and itself under each operation, with questions to
// the box afterwards, and a box and its complement. A long box without the slab from x = 1 to 2, which leaves two
// boxes; these with the slab's part of the box put back, and with the lower half of that part, a prism over a polygon
// of eight corners. A box within another, whose carriers hold nothing in the union; the greater box without the
// smaller, which has a cavity; and both joined again. Half-spaces that may be worked side by side: the complement of
// one, which is worked alone, the intersection of the complement with another, and a half-space that no question needs.
const ROWS: &str = "half Aa -1 0 0 0 closed / half Ab 1 0 0 -1 closed / half Ac 0 -1 0 0 closed / \
    half Ad 0 1 0 -1 closed / half Ae 0 0 -1 0 closed / half Af 0 0 1 -1 closed / and Ag Aa Ab / \
    and Ah Ag Ac / and Ai Ah Ad / and Aj Ai Ae / and A Aj Af / and B A A / or C A A / diff D A A / \
    xor X A A / empty E / count X / count D / same D E / same X E / count B / same B A / same C A / \
    count C / not N A / and P A N / or U A N / full F / same P E / same U F / count N / count A => \
    8 12 6 2 / 8 12 6 2 / same / same / 16 24 12 3 / same / same / 16 24 12 3 / same / same / \
    16 24 12 3 / 16 24 12 3
half Aa -1 0 0 0 closed / half Ab 1 0 0 -3 closed / half Ac 0 -1 0 0 closed / \
    half Ad 0 1 0 -1 closed / half Ae 0 0 -1 0 closed / half Af 0 0 1 -1 closed / and Ag Aa Ab / \
    and Ah Ag Ac / and Ai Ah Ad / and Aj Ai Ae / and A Aj Af / half Wa -1 0 0 1 closed / \
    half Wb 1 0 0 -2 closed / and W Wa Wb / diff D A W / and M A W / half H 0 0 2 -1 closed / \
    and L M H / or V D L / or U D M / count D / count V / same V A / count U / same U A / \
    joined D 1 1 1 2 5 1 1 2 / joined V 1 1 1 2 5 1 1 2 / has V 4 2 3 4 / has V 6 2 1 4 / \
    ray U 1 2 2 4 1 0 0 => \
    24 36 18 4 / 24 36 16 3 / differs / 16 24 12 3 / same / apart / joined / not / in / after 6 1 1 2 not
half Aa -1 0 0 0 closed / half Ab 1 0 0 -1 closed / half Ac 0 -1 0 0 closed / \
    half Ad 0 1 0 -1 closed / half Ae 0 0 -1 0 closed / half Af 0 0 1 -1 closed / and Ag Aa Ab / \
    and Ah Ag Ac / and Ai Ah Ad / and Aj Ai Ae / and A Aj Af / half La -1 0 0 -1 closed / \
    half Lb 1 0 0 -2 closed / half Lc 0 -1 0 -1 closed / half Ld 0 1 0 -2 closed / \
    half Le 0 0 -1 -1 closed / half Lf 0 0 1 -2 closed / and Lg La Lb / and Lh Lg Lc / \
    and Li Lh Ld / and Lj Li Le / and L Lj Lf / or U A L / diff R U A / or V R A / count U / \
    same U L / count R / has R 1 1 1 2 / count V / same V L => \
    16 24 12 3 / same / 24 36 18 4 / not / 16 24 12 3 / same
half A 1 0 0 0 closed / not N A / has N 1 0 0 1 / half B 0 1 0 0 closed / half D 0 0 1 0 closed / \
    and C A D / has C -1 5 -1 1 / has C -1 5 1 1 => in / in / not";

// Questions about twelve boxes in a row: without a slab that cuts all boxes, and put together again.
const QUESTIONS: &str =
    "half a 0 -4 0 5 open\nhalf b 0 2 0 -3 open\nand W a b\ndiff D G W\nand M G W\n\
    or R D M\ncount D\ncount R\nsame R G\nxor X R G\nempty E\nsame X E\ncount M\ncount G\n";

const ANSWERS: &str = "200 300 150 26\n104 156 78 14\nsame\nsame\n104 156 78 14\n104 156 78 14\n";

// Whether a run with these words answers the questions about the boxes.
fn is_answered<R: Threads + Wait + Sync>(
    rt: &R,
    alloc: Global,
    words: &str,
) -> Result<bool, AllocError> {
    let boxes = comb(alloc, 24)?;
    let script = format!(in alloc; "{boxes}{QUESTIONS}")?;
    gives(rt, alloc, words, script.as_str(), 0, ANSWERS)
}

fn check_comb<R: Threads + Wait + Abort + Sync>(rt: &R, alloc: Global, words: &str) {
    check(rt, is_answered(rt, alloc, words).ok(), words, QUESTIONS);
}

#[test]
fn put_together_again(rt: HostRuntime) {
    for words in WORDS.split('\n') {
        check_rows(&rt, rt.alloc(), words, ROWS, 0);
        check_comb(&rt, rt.alloc(), words);
    }
}
