//! The lines of a script.

ghost use Rattle.std.specs.Prelude.{◌≡◌, ◌==◌};
ghost use Rattle.nef_space.specs.Prelude.{List, [], position, before_first, after_first};
ghost use Rattle.nef_lex.specs.Lines.{is_line_feed, without_return};

use std::marker::Model;

/// A line of a script.
#[derive(Clone, Copy)]
pub struct Line<'a> {
    /// The line's number, counted from 1.
    pub number: u64,
    /// The line's bytes with its comment, without the line feed and without a carriage return before the line feed.
    pub text: &'a [u8],
}

/// The lines of a script that are still to come.
#[derive(Drop)]
pub struct Lines<'a> {
    pub(crate) given: u64,
    pub(crate) rest: &'a [u8],
}

impl<'a> Model for Lines<'a> {
    ghost use Rattle.std.specs.Prelude.{ℕ, ◌+◌, ◌<◌, ◌^◌, List, length};
    ghost use Rattle.nef_lex.specs.Lines.{numbered_lines};

    ghost Value = { List (ℕ × List ℕ) };

    ghost view = { λ l. numbered_lines (l.given + 1) l.rest.now };

    ghost invariant = { λ l. l.given + length l.rest.now < 2 ^ 64 };
}

impl<'a> Iterator for Lines<'a> {
    ghost use Rattle.std.specs.Iterator.{item_count, YieldsFirstBy};
    ghost use Rattle.nef_lex.specs.Lines.{line_shown};

    type Item = Line<'a>;

    ghost next_gives = { YieldsFirstBy line_shown (λ l. l) };

    ghost remaining = { item_count (λ l. l) };

    fn next(&mut self) -> Option<Line<'a>> {
        if self.rest.is_empty() {
            return None;
        }
        let (piece, rest) = split_line(self.rest);
        self.given += 1;
        self.rest = rest;
        Some(Line {
            number: self.given,
            text: strip_return(piece),
        })
    }
}

/// The number of the first byte of this value.
pub(crate) fn index_of(bytes: &[u8], byte: u8) -> Option<usize>
    ensures place { result ≡ position (λ b. b == byte) bytes.now }
{
    bytes.iter().position(|b| *b == byte)
}

// The bytes before the first line feed, and the bytes after it.
fn split_line(bytes: &[u8]) -> (&[u8], &[u8])
    ensures piece { result.0.now ≡ before_first is_line_feed bytes.now }
    ensures rest { result.1.now ≡ after_first is_line_feed bytes.now }
{
    match index_of(bytes, b'\n') {
        Some(end) => (&bytes[..end], &bytes[end + 1..]),
        None => (bytes, &[]),
    }
}

// The piece, without its last byte if this byte is a carriage return.
fn strip_return(piece: &[u8]) -> &[u8]
    ensures stripped { result.now ≡ without_return piece.now }
{
    match piece {
        [front @ .., last] if *last == b'\r' => front,
        _ => piece,
    }
}
