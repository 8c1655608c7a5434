//! The options that the words of the command line choose, or why the words are refused.

ghost use Rattle.std.specs.Prelude.{◌≡◌, ◌≤◌, ◌↔◌};
ghost use Rattle.nef_space.specs.Prelude.{false, [], Some, None, IfOk, IfErr, IfSome, MatchResult, map, string_bytes, IsOkAnd, IsErrAnd, drop, most_stairs, error_kind, InvalidData};
ghost use Rattle.clap.specs.Words.{fault_of, found_of, matches_of, rows_of, rule_of, HasKind};
ghost use Rattle.nef_words.specs.Usage.{usage, option_named};
ghost use Rattle.nef_words.specs.Chosen.{number_to, stairs_of};
ghost use Rattle.nef_words.specs.Grammar.{options_in};
ghost use Rattle.nef_words.specs.Values.{workers_of, board_of, text_of, is_given, options_of_values, text_in};

use clap::error::ErrorKind;
use clap::{Arg, ArgAction, ArgMatches, Command, Error};
use nef_core::{BoardKind, How, TextVersion};
use nef_lex::{NumberWord, whole_number};
use nef_space::MOST_STAIRS;
use std::alloc::Global;
use std::io;

/// The number of workers where the words don't give one.
pub const DEFAULT_WORKERS: u32 = 1;

/// The greatest number of workers.
pub const MOST_WORKERS: u32 = 64;

/// How the program is to run.
#[derive(Clone, Copy)]
pub struct Options {
    /// By how many workers, 1 to [`MOST_WORKERS`], and over which board.
    pub how: How,
    /// The number of boxes of the generated script that is run in place of the input, 1 to `MOST_STAIRS` of
    /// `nef_space`, or `None` where no word gives this number and the input is run.
    pub stairs: Option<u32>,
    /// The version of the texts that are printed.
    pub text: TextVersion,
    /// Whether statements whose operands are done may run at the same time.
    pub ahead: bool,
}

/// Why the words gave no options.
#[derive(Debug, Clone, Copy, PartialEq, Eq)]
pub enum WordsFault {
    /// The program has no command line of these words.
    Refused,
    /// There was no memory to read the words.
    OutOfMemory,
}

// The option of this name, which takes one value (`Set`) or none (`SetTrue`).
fn option_named<'a>(alloc: Global, name: &'a str, action: ArgAction) -> Arg<'a>
    ensures rule { rule_of result ≡ option_named action name.entry.now }
    ensures local { result.global ≡ false }
{
    Arg::new(alloc, name).long(name).action(action)
}

// The value that the words give to each option.
fn matched<'a>(alloc: Global, words: &'a [String]) -> Result<ArgMatches<'a>, Error>
    ensures ok { IfOk result (λ m. (fault_of usage (map string_bytes words.entry.now) ≡ []) × (rows_of (found_of m) ≡ matches_of usage (map string_bytes words.entry.now))) }
    ensures err { IfErr result (λ e. HasKind (fault_of usage (map string_bytes words.entry.now)) e) }
{
    let command = Command::new(alloc, "nef")
        .no_binary_name(true)
        .arg(option_named(alloc, "workers", ArgAction::Set))?
        .arg(option_named(alloc, "board", ArgAction::Set))?
        .arg(option_named(alloc, "stairs", ArgAction::Set))?
        .arg(option_named(alloc, "text", ArgAction::Set))?
        .arg(option_named(alloc, "ahead", ArgAction::SetTrue))?;
    command.try_get_matches_from(words)
}

// The number from 1 to `most` that one or more digits spell, or `None` for any other text. Leading zeros are accepted.
fn read_number(text: &[u8], most: u32) -> Option<u32>
    ensures number { result ≡ number_to most text.now }
    ensures range { IfSome result (λ n. (1 ≤ n) × (n ≤ most)) }
{
    // a sign is no digit
    if let [b'-', ..] = text {
        return None;
    }
    match whole_number(text) {
        NumberWord::NotOne | NumberWord::Beyond => None,
        NumberWord::Value(value) => {
            if 1 <= value && value <= i64::from(most) {
                Some(value as u32)
            } else {
                None
            }
        }
    }
}

// The number of workers that a value gives.
fn workers_of(value: Option<&str>) -> Option<u32>
    ensures workers { result ≡ workers_of (text_in value.entry) }
{
    match value {
        None => Some(DEFAULT_WORKERS),
        Some(text) => read_number(text.as_bytes(), MOST_WORKERS),
    }
}

// The board that a value names.
fn board_of(value: Option<&str>) -> Option<BoardKind>
    ensures board { result ≡ board_of (text_in value.entry) }
{
    match value {
        None | Some("lock") => Some(BoardKind::Lock),
        Some("free") => Some(BoardKind::Free),
        Some(_) => None,
    }
}

// The number of boxes that a value gives, if there is a value.
fn stairs_of(value: Option<&str>) -> Option<Option<u32>>
    ensures stairs { result ≡ stairs_of (text_in value.entry) }
    ensures range { IfSome result (λ o. IfSome o (λ n. (1 ≤ n) × (n ≤ most_stairs))) }
{
    match value {
        None => Some(None),
        Some(text) => Some(Some(read_number(text.as_bytes(), MOST_STAIRS)?)),
    }
}

// The version of the text that a value names.
fn text_of(value: Option<&str>) -> Option<TextVersion>
    ensures text { result ≡ text_of (text_in value.entry) }
{
    match value {
        None | Some("1") => Some(TextVersion::One),
        Some("2") => Some(TextVersion::Two),
        Some(_) => None,
    }
}

// Whether a flag is given, by its value.
fn is_given(value: Option<&str>) -> bool
    ensures given { result ≡ is_given (text_in value.entry) }
{
    matches!(value, Some("true"))
}

// The options that five values choose, or `None` where a value isn't of its form.
fn chosen(
    workers: Option<&str>,
    board: Option<&str>,
    stairs: Option<&str>,
    text: Option<&str>,
    ahead: Option<&str>,
) -> Option<Options>
    ensures options { result ≡ options_of_values (text_in workers.entry) (text_in board.entry) (text_in stairs.entry) (text_in text.entry) (text_in ahead.entry) }
    ensures stairs { IfSome result (λ o. IfSome o.stairs (λ n. (1 ≤ n) × (n ≤ most_stairs))) }
{
    let workers = workers_of(workers)?;
    let board = board_of(board)?;
    let stairs = stairs_of(stairs)?;
    let text = text_of(text)?;
    let ahead = is_given(ahead);
    Some(Options {
        how: How { workers, board },
        stairs,
        text,
        ahead,
    })
}

/// The options that the words choose. `words` are those after the program's name.
///
/// `--workers` takes a number from 1 to [`MOST_WORKERS`], by default [`DEFAULT_WORKERS`]. `--board` takes `lock` or
/// `free`, by default `lock`. `--stairs` takes a number from 1 to [`MOST_STAIRS`], and is `None` where it isn't given.
/// A number is one or more digits. `--text` takes `1` or `2`, by default `1`. `--ahead` takes no value.
/// `Refused` comes exactly where the words aren't those of a command with these five options, each given once at most,
/// or a value isn't of its form; a word for help or for the version is refused too. The plain grammar of these words is
/// `Grammar` in specs/ ([`crate::words_laws`]).
pub fn read_words(alloc: Global, words: &[String]) -> Result<Options, WordsFault>
    ensures accepted { IfOk result (λ options. options_in (map string_bytes words.now) ≡ Some options) }
    ensures stairs { IfOk result (λ o. IfSome o.stairs (λ n. (1 ≤ n) × (n ≤ most_stairs))) }
    ensures refused { result ≡ Err WordsFault.Refused → options_in (map string_bytes words.now) ≡ None }
{
    let matches = match matched(alloc, words) {
        Ok(matches) => matches,
        Err(error) => {
            return Err(match error.kind() {
                ErrorKind::OutOfMemory => WordsFault::OutOfMemory,
                _ => WordsFault::Refused,
            });
        }
    };
    let workers = matches.get_str("workers");
    let board = matches.get_str("board");
    let stairs = matches.get_str("stairs");
    let text = matches.get_str("text");
    let ahead = matches.get_str("ahead");
    match chosen(workers, board, stairs, text, ahead) {
        Some(options) => Ok(options),
        None => Err(WordsFault::Refused),
    }
}

// The words of the line but the first, which is the program's name.
fn after_name(line: &[String]) -> &[String]
    ensures words { result.now ≡ drop 1 line.now }
{
    match line {
        [_, words @ ..] => words,
        [] => line,
    }
}

/// The words after the program's name, from the words that `std::env::args` gives. `Refused` comes exactly where some
/// word of the command line isn't text, and `OutOfMemory` where the words can't be had for another reason.
pub fn line_words(line: &io::Result<Vec<String>>) -> Result<&[String], WordsFault>
    ensures words { IfOk result (λ words. IsOkAnd line.now (λ all. words.now ≡ drop 1 all.items)) }
    ensures refused { (result ≡ Err WordsFault.Refused) ↔ IsErrAnd line.now (λ e. error_kind e ≡ InvalidData) }
{
    match line {
        Ok(all) => Ok(after_name(all)),
        Err(error) => match error.kind() {
            io::ErrorKind::InvalidData => Err(WordsFault::Refused),
            _ => Err(WordsFault::OutOfMemory),
        },
    }
}
