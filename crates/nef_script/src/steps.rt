//! The script of boxes that stand as stairs.

ghost use Rattle.std.specs.Prelude.{◌≡◌, ◌<◌, ◌≤◌, ◌∷◌, ◌++◌};
ghost use Rattle.nef_script.specs.Prelude.{[], IfOk, OnOk, most_stairs, script_of, IsAccepted, box_name, whole_name, stairs_text, bytes_of, filled, count_command, step_box, join_lines};

use crate::OutOfMemory;
use itoa::Buffer;
use std::alloc::Global;

// A box: its six half-spaces, and the intersections of the first two of these, of the first three, and so on.
const BOX: &[u8] = b"half @a -1 0 0 < closed\n\
    half @b 1 0 0 -> closed\n\
    half @c 0 -1 0 < closed\n\
    half @d 0 1 0 -> closed\n\
    half @e 0 0 -1 < closed\n\
    half @f 0 0 1 -> closed\n\
    and @g @a @b\n\
    and @h @g @c\n\
    and @i @h @d\n\
    and @j @i @e\n\
    and @ @j @f\n";

// The line that joins a box to the boxes before it.
const JOIN: &[u8] = b"or < > @\n";

// The question for the numbers of a set's parts.
const COUNT: &[u8] = b"count @\n";

// A word: bytes followed by a number.
#[derive(Clone, Copy)]
struct NumberedWord<'a> {
    front: &'a [u8],
    number: u32,
}

fn box_name(i: u32) -> NumberedWord<'static>
    ensures name { bytes_of result ≡ box_name i }
{
    NumberedWord {
        front: b"b",
        number: i,
    }
}

// The name of the union of the first i + 1 boxes.
fn whole_name(i: u32) -> NumberedWord<'static>
    ensures name { bytes_of result ≡ whole_name i }
{
    if i == 0 {
        box_name(i)
    } else {
        NumberedWord {
            front: b"u",
            number: i,
        }
    }
}

fn add_word(text: &mut Vec<u8>, word: NumberedWord) -> Result<(), OutOfMemory>
    ensures added { OnOk result (text.new.items ≡ text.old.items ++ bytes_of word.entry) }
{
    let mut buffer = Buffer::new();
    text.extend_from_slice(word.front)?;
    text.extend_from_slice(buffer.format(word.number).as_bytes())
}

// Adds the template, with these words in place of its bytes `@`, `<` and `>`.
fn add_filled(
    text: &mut Vec<u8>,
    template: &[u8],
    at: NumberedWord,
    low: NumberedWord,
    high: NumberedWord,
) -> Result<(), OutOfMemory>
    ensures added { OnOk result (text.new.items ≡ text.old.items ++ filled (bytes_of at.entry) (bytes_of low.entry) (bytes_of high.entry) template.now) }
{
    for byte in template {
        match *byte {
            b'@' => add_word(text, at)?,
            b'<' => add_word(text, low)?,
            b'>' => add_word(text, high)?,
            other => text.push(other)?,
        }
    }
    Ok(())
}

fn add_box(text: &mut Vec<u8>, i: u32) -> Result<(), OutOfMemory>
    requires small { i < most_stairs }
    ensures added { OnOk result (text.new.items ≡ text.old.items ++ script_of (step_box i)) }
{
    let low = NumberedWord {
        front: b"",
        number: 8 * i,
    };
    let high = NumberedWord {
        front: b"",
        number: 8 * i + 12,
    };
    add_filled(text, BOX, box_name(i), low, high)
}

// Adds the line that joins box i to the boxes before it, if there are any.
fn add_join(text: &mut Vec<u8>, i: u32) -> Result<(), OutOfMemory>
    ensures added { OnOk result (text.new.items ≡ text.old.items ++ script_of (join_lines i)) }
{
    if i == 0 {
        return Ok(());
    }
    add_filled(text, JOIN, box_name(i), whole_name(i), whole_name(i - 1))
}

// Adds the question for the numbers of the union of the first i + 1 boxes.
fn add_count(text: &mut Vec<u8>, i: u32) -> Result<(), OutOfMemory>
    ensures added { OnOk result (text.new.items ≡ text.old.items ++ script_of (count_command (whole_name i) ∷ [])) }
{
    let whole = whole_name(i);
    add_filled(text, COUNT, whole, whole, whole)
}

/// The script of `n` boxes that stand as stairs, `n` from 1 to `MOST_STAIRS`: each box reaches into the next, the boxes
/// are joined one after the other, and the last line asks for the numbers of the whole. The script has no refusal.
/// `OutOfMemory` says that memory was wanted and not found.
pub fn stairs(alloc: Global, n: u32) -> Result<Vec<u8>, OutOfMemory>
    requires some { 1 ≤ n }
    requires most { n ≤ most_stairs }
    ensures script { IfOk result (λ v. v.items ≡ stairs_text n) }
    ensures accepted { IsAccepted (stairs_text n) }
{
    let mut text = Vec::new(alloc);
    for i in 0..n {
        add_box(&mut text, i)?;
        add_join(&mut text, i)?;
    }
    add_count(&mut text, n - 1)?;
    Ok(text)
}
