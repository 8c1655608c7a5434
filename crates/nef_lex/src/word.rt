//! The lines of a script, the words of a line, and numbers and names among them.

ghost use Rattle.std.specs.Prelude.{◌≡◌, ◌==◌, ◌||◌, ◌↔◌, ◌<◌, ◌≤◌};
ghost use Rattle.nef_space.specs.Prelude.{ℕ, ℤ, Bool, true, List, map, IsTrue, Some, None, MatchOption, IfSome, IfOk, before_first, list_all, is_ascii_alphabetic, is_ascii_alphanumeric, is_ascii_digit, IsSomeAnd, number_limit};
ghost use Rattle.nef_lex.specs.Lines.{numbered_lines};
ghost use Rattle.nef_lex.specs.Words.{comment_mark, words_of};
ghost use Rattle.nef_lex.specs.Names.{is_name, underscore};
ghost use Rattle.nef_lex.specs.Numbers.{number_of, IsPastLimit, is_digits, decimal_value, has_minus, without_minus};
ghost use Rattle.nef_lex.specs.Laws.{PiecesOfEnded, EndedPieces, ReturnDropped, OthersKept, WordsOfSpaced, SpacedWords};

use crate::line::{Lines, index_of};
use std::alloc::{AllocError, Global};

/// The lines of a script, numbered from 1. The bytes are split at each line feed, and what follows the last line feed
/// is a line where it isn't empty. A carriage return that is the last byte of a line is dropped.
pub fn lines(script: &[u8]) -> Lines<'_>
    ensures lines { result ≡ numbered_lines 1 script.now }
{
    Lines {
        given: 0,
        rest: script,
    }
}

/// The words of a line: the longest pieces without blank or tab. A `#` starts a comment to the end of the line.
pub fn words<'a>(alloc: Global, line: &'a [u8]) -> Result<Vec<&'a [u8]>, AllocError>
    ensures words { IfOk result (λ v. map (λ w. w.now) v.items ≡ words_of line.now) }
{
    strip_comment(line)
        .split(|b| *b == b' ' || *b == b'\t')
        .filter(|word| !word.is_empty())
        .collect(alloc)
}

// The line up to its first comment mark.
fn strip_comment(line: &[u8]) -> &[u8]
    ensures stripped { result.now ≡ before_first (λ b. b == comment_mark) line.now }
{
    match index_of(line, b'#') {
        Some(end) => &line[..end],
        None => line,
    }
}

// How many bytes a name has at most.
const LONGEST: usize = 32;

/// Whether a word is a name: 1 to 32 bytes, of which the first is an ASCII letter or an underscore and the others are
/// ASCII letters, digits or underscores.
pub fn is_name(word: &[u8]) -> bool
    ensures name { result ≡ is_name word.now }
{
    match word {
        [first, rest @ ..] => begins(*first) && all_continue(rest) && word.len() <= LONGEST,
        [] => false,
    }
}

// Whether a name may begin with the byte.
fn begins(byte: u8) -> bool
    ensures begins { result ≡ (is_ascii_alphabetic byte || byte == underscore) }
{
    byte.is_ascii_alphabetic() || byte == b'_'
}

// Whether each byte may stand in a name after the first byte.
fn all_continue(bytes: &[u8]) -> bool
    ensures all { result ≡ list_all (λ b. is_ascii_alphanumeric b || b == underscore) bytes.now }
{
    bytes
        .iter()
        .all(|b| b.is_ascii_alphanumeric() || *b == b'_')
}

/// What a word says as a whole number.
#[derive(Clone, Copy, Debug)]
pub enum NumberWord {
    /// The word isn't an optional minus sign and one or more digits.
    NotOne,
    /// The number is past 2^62 in size.
    Beyond,
    /// The number.
    Value(i64),
}

// The greatest size of a number.
const LIMIT: u64 = 1 << 62;

/// The whole number that a word spells by an optional minus sign and digits. Leading zeros and `-0` are accepted.
#[tactic(auto, using(crate::proofs::Signs::number_of_parts))]
pub fn whole_number(word: &[u8]) -> NumberWord
    ensures not_one { (result ≡ NumberWord.NotOne) ↔ (number_of word.now ≡ None) }
    ensures beyond { (result ≡ NumberWord.Beyond) ↔ IsSomeAnd (number_of word.now) IsPastLimit }
    ensures value { (z : ℤ) → result ≡ NumberWord.Value z → number_of word.now ≡ Some z }
{
    let (is_negative, digits) = split_sign(word);
    if !is_decimal(digits) {
        return NumberWord::NotOne;
    }
    match magnitude(digits) {
        None => NumberWord::Beyond,
        Some(size) if is_negative => NumberWord::Value(-(size as i64)),
        Some(size) => NumberWord::Value(size as i64),
    }
}

// Whether a minus sign stands in front, and the bytes without the sign.
fn split_sign(word: &[u8]) -> (bool, &[u8])
    ensures sign { result.0 ≡ has_minus word.now }
    ensures digits { result.1.now ≡ without_minus word.now }
{
    match word {
        [b'-', digits @ ..] => (true, digits),
        _ => (false, word),
    }
}

// Whether the bytes are one or more digits.
fn is_decimal(bytes: &[u8]) -> bool
    ensures decimal { result ≡ is_digits bytes.now }
{
    !bytes.is_empty() && all_digits(bytes)
}

fn all_digits(bytes: &[u8]) -> bool
    ensures digits { result ≡ list_all is_ascii_digit bytes.now }
{
    bytes.iter().all(|b| b.is_ascii_digit())
}

// The number that digits spell, where it isn't past the limit.
fn magnitude(digits: &[u8]) -> Option<u64>
    requires { IsTrue (list_all is_ascii_digit digits.now) }
    ensures value { MatchOption result (number_limit < decimal_value digits.now) (λ n. n ≡ decimal_value digits.now) }
    ensures within { IfSome result (λ n. n ≤ number_limit) }
{
    let mut value: u64 = 0;
    for b in digits {
        let digit = u64::from(*b - b'0');
        if value > (LIMIT - digit) / 10 {
            return None;
        }
        value = value * 10 + digit;
    }
    Some(value)
}

/// The lines are the stretches between line feeds, and all bytes are made of such stretches; of carriage returns at the
/// end of a line one is dropped, and nothing else.
pub fn line_laws()
    ensures pieces_of_ended { PiecesOfEnded }
    ensures ended_pieces { EndedPieces }
    ensures return_dropped { ReturnDropped }
    ensures others_kept { OthersKept }
{}

/// The words are what stands between gaps of blanks and tabs, up to a comment, and each line is made of words and gaps.
pub fn word_laws()
    ensures words_of_spaced { WordsOfSpaced }
    ensures spaced_words { SpacedWords }
{}
