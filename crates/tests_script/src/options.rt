//! Command lines whose words are accepted or refused.

use crate::same::{check, check_text};
use nef_words::{Options, WordsFault, line_words, read_words};
use std::alloc::{AllocError, Global};
use std::io::{Error, ErrorKind};
use std::process::Abort;
use std::test::Fail;

// Words with a bar after each, and the options that they choose: the workers, the board, the boxes of a generated
// script, the version of the texts, and whether statements may run ahead.
const ACCEPTED: &str = " => 1 Lock None One false
--workers|2| => 2 Lock None One false
--workers=2| => 2 Lock None One false
--workers|1| => 1 Lock None One false
--workers|64| => 64 Lock None One false
--workers|007| => 7 Lock None One false
--board|lock| => 1 Lock None One false
--board|free| => 1 Free None One false
--board=free|--workers|3| => 3 Free None One false
--stairs|1| => 1 Lock Some(1) One false
--stairs|32| => 1 Lock Some(32) One false
--stairs|007| => 1 Lock Some(7) One false
--stairs=5| => 1 Lock Some(5) One false
--stairs=2|--board|free|--workers|3| => 3 Free Some(2) One false
--text|1| => 1 Lock None One false
--text=2| => 1 Lock None Two false
--ahead|--workers|2| => 2 Lock None One true";

const REFUSED_NUMBERS: &str = "--workers|0|
--workers|000|
--workers|65|
--workers|340282366920938463463374607431768211457|
--workers|two|
--workers||
--workers|-1|
--workers|+1|
--workers|1.0|
--workers| 1|
--workers|0x1|
--stairs|0|
--stairs|33|
--stairs|340282366920938463463374607431768211457|
--stairs||
--stairs|x|
--stairs|-1|
--text|0|
--text|3|
--text|02|
--text||
--text|two|";

const REFUSED_WORDS: &str = "--help|
-h|
--version|
-V|
--workers=|
--board=|
--workers|
x|
-w|
--stairs|
--stairs=|
--stair=2|
--stairs|2|--stairs|2|
--stairs|--workers|2|
--board|both|
--board|Lock|
--colour|red|
--workers|2|--workers|3|
--workers|2|x|
--ahead=true|
--ahead|true|
--ahead|--ahead|
a|b|c|d|e|f|g|h|i|j|k|l|m|n|o|p|q|
--workers|2|--board|lock|--stairs|2|--text|1|--ahead|a|b|c|d|e|f|g|h|";

fn owned_words(alloc: Global, words: &str) -> Result<Vec<String>, AllocError> {
    let mut owned = Vec::new(alloc);
    for word in words.split_terminator('|') {
        owned.push(String::from_str(alloc, word)?)?;
    }
    Ok(owned)
}

fn read(alloc: Global, words: &str) -> Result<Result<Options, WordsFault>, AllocError> {
    let owned = owned_words(alloc, words)?;
    Ok(read_words(alloc, owned.as_slice()))
}

fn options_text(alloc: Global, options: &Options) -> Result<String, AllocError> {
    let (workers, board) = (options.how.workers, options.how.board);
    let (stairs, text, ahead) = (options.stairs, options.text, options.ahead);
    format!(in alloc; "{workers} {board:?} {stairs:?} {text:?} {ahead}")
}

// The options, or the fault, as a text.
fn answer(alloc: Global, read: &Result<Options, WordsFault>) -> Result<String, AllocError> {
    match read {
        Ok(options) => options_text(alloc, options),
        Err(fault) => format!(in alloc; "{fault:?}"),
    }
}

#[test]
fn accepted_words(rt: HostRuntime) -> Result<(), Fail> {
    for row in ACCEPTED.split('\n') {
        let (words, wanted) = row.split_once(" => ").ok_or("a row")?;
        let found = answer(rt.alloc(), &read(rt.alloc(), words)?)?;
        check_text(&rt, found.as_str(), wanted, words);
    }
    Ok(())
}

fn check_refused(rt: &impl Abort, alloc: Global, table: &str) -> Result<(), Fail> {
    for words in table.split('\n') {
        check_text(
            rt,
            answer(alloc, &read(alloc, words)?)?.as_str(),
            "Refused",
            words,
        );
    }
    Ok(())
}

#[test]
fn refused_words(rt: HostRuntime) -> Result<(), Fail> {
    check_refused(&rt, rt.alloc(), REFUSED_NUMBERS)?;
    check_refused(&rt, rt.alloc(), REFUSED_WORDS)
}

// The word `count` times, with a bar after each.
fn repeated(alloc: Global, word: &str, count: u32) -> Result<String, AllocError> {
    let mut words = String::new(alloc);
    for _ in 0..count {
        words.push_str(word)?;
        words.push('|')?;
    }
    Ok(words)
}

// More words than sixteen, or than 16 bits count, are refused, and aren't told as want of memory.
#[test]
fn many_words(rt: HostRuntime) -> Result<(), Fail> {
    for count in [16, 17, 33, 257, 65_537] {
        let words = repeated(rt.alloc(), "--ahead", count)?;
        let found = answer(rt.alloc(), &read(rt.alloc(), words.as_str())?)?;
        check_text(&rt, found.as_str(), "Refused", "many words");
    }
    Ok(())
}

// The options, or the fault, of a line of words with a bar after each.
fn read_line(alloc: Global, words: &str) -> Result<String, AllocError> {
    let line = Ok(owned_words(alloc, words)?);
    match line_words(&line) {
        Ok(words) => answer(alloc, &read_words(alloc, words)),
        Err(fault) => format!(in alloc; "{fault:?}"),
    }
}

// The fault of a line that can't be read for a reason of this kind.
fn line_fault(kind: ErrorKind) -> Option<WordsFault> {
    let line = Err(Error::from(kind));
    line_words(&line).err()
}

#[test]
fn words_of_a_line(rt: HostRuntime) -> Result<(), Fail> {
    let words = "nef|--stairs|3|";
    let found = read_line(rt.alloc(), words)?;
    check_text(&rt, found.as_str(), "1 Lock Some(3) One false", words);
    let unreadable = line_fault(ErrorKind::InvalidData);
    check(&rt, &unreadable, &Some(WordsFault::Refused), "no text");
    let unheld = line_fault(ErrorKind::OutOfMemory);
    check(&rt, &unheld, &Some(WordsFault::OutOfMemory), "no memory");
    Ok(())
}
