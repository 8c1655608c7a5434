//! Lines, words, numbers and names.

use crate::same::{check, check_bytes, check_text};
use nef_lex::{Line, is_name, lines, whole_number, words};
use std::alloc::{AllocError, Global};
use std::process::Abort;
use std::test::Fail;

// Scripts, and the lines of each script, with a bar after each line.
const LINES: &str = " => ;\
\n => |;\
a => a|;\
a\nb\n => a|b|;\
a\n\nb => a||b|;\
a # b\r\n# c\r => a # b|# c|;\
a\r\r\n => a\r|;\
a\rb\n\r => a\rb||;\
\n\n => ||";

// Lines, and the words of each line, with a bar after each word.
const WORDS: &str = " => ;\
\x20\t  => ;\
# and a b => ;\
has A 0 0 0 1 => has|A|0|0|0|1|;\
\tand  C\tA B  => and|C|A|B|;\
not N A#B # C => not|N|A|";

const NUMBERS: &str = "0 => Value(0)
-0 => Value(0)
007 => Value(7)
-12 => Value(-12)
4611686018427387904 => Value(4611686018427387904)
-4611686018427387904 => Value(-4611686018427387904)
0000000000000000000000000000000000000001 => Value(1)
4611686018427387905 => Beyond
-99999999999999999999999999999999999999 => Beyond
 => NotOne
- => NotOne
--1 => NotOne
+1 => NotOne
1a => NotOne
99999999999999999999999999999999999999x => NotOne";

const NAMES: &str = "A
_
half
b1_Z
abcdefghijklmnopqrstuvwxyz_01234";

const OTHER_WORDS: &str = "abcdefghijklmnopqrstuvwxyz_012345

1b
a-b
\u{e9}";

fn numbered(line: Option<Line<'_>>) -> Option<(u64, &[u8])> {
    let line = line?;
    Some((line.number, line.text))
}

fn check_line(rt: &impl Abort, line: Option<Line<'_>>, number: u64, text: &str) {
    let wanted = Some((number, text.as_bytes()));
    check(rt, &numbered(line), &wanted, text);
}

fn check_lines(rt: &impl Abort, script: &str, texts: &str) {
    let mut left = lines(script.as_bytes());
    for (i, text) in texts.split_terminator('|').enumerate() {
        check_line(rt, left.next(), i as u64 + 1, text);
    }
    check(rt, &left.next().is_some(), &false, script);
}

#[test]
fn lines_of_scripts(rt: HostRuntime) -> Result<(), Fail> {
    for row in LINES.split(';') {
        let (script, texts) = row.split_once(" => ").ok_or("a row")?;
        check_lines(&rt, script, texts);
    }
    Ok(())
}

fn joined_words(alloc: Global, line: &str) -> Result<Vec<u8>, AllocError> {
    let mut joined = Vec::new(alloc);
    for word in words(alloc, line.as_bytes())? {
        joined.extend_from_slice(word)?;
        joined.push(b'|')?;
    }
    Ok(joined)
}

#[test]
fn words_of_lines(rt: HostRuntime) -> Result<(), Fail> {
    for row in WORDS.split(';') {
        let (line, wanted) = row.split_once(" => ").ok_or("a row")?;
        let joined = joined_words(rt.alloc(), line)?;
        check_bytes(&rt, joined.as_slice(), wanted.as_bytes(), line);
    }
    Ok(())
}

fn number_text(alloc: Global, word: &str) -> Result<String, AllocError> {
    format!(in alloc; "{:?}", whole_number(word.as_bytes()))
}

#[test]
fn numbers(rt: HostRuntime) -> Result<(), Fail> {
    for row in NUMBERS.split('\n') {
        let (word, wanted) = row.split_once(" => ").ok_or("a row")?;
        let number = number_text(rt.alloc(), word)?;
        check_text(&rt, number.as_str(), wanted, word);
    }
    Ok(())
}

#[test]
fn names(rt: HostRuntime) {
    for word in NAMES.split('\n') {
        check(&rt, &is_name(word.as_bytes()), &true, word);
    }
    for word in OTHER_WORDS.split('\n') {
        check(&rt, &is_name(word.as_bytes()), &false, word);
    }
}
