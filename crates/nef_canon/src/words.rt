//! Words of a line, each after a blank, and lines of a few words.

ghost use Rattle.std.specs.Prelude.{◌≡◌, ◌++◌, ◌∷◌};
ghost use Rattle.nef_complex.specs.Prelude.{ℕ, List, [], flat_map, OnOk, label_word};
ghost use Rattle.nef_complex.specs.Text.{line, numbers, signed_numbers};
ghost use Rattle.nef_canon.specs.Words.{blanked, entry_words};

use crate::OutOfMemory;
use itoa::Buffer;
use nef_geo::{Dir, Label, Plane, Point};

/// What stands in a line behind its first word.
#[derive(Clone, Copy)]
pub(crate) enum Entry<'a> {
    Counts(&'a [usize]),
    Label(Label),
    /// The label, or a dash without one.
    Option(Option<Label>),
    Dir(Dir),
    Point(Point),
    Plane(Plane),
}

/// Adds the text of each item in turn, by `add`.
pub(crate) fn add_each<T, F: Fn(&mut Vec<u8>, &T) -> Result<(), OutOfMemory>>(
    text: &mut Vec<u8>,
    items: &[T],
    add: F,
) -> Result<(), OutOfMemory>
    requires callable { F.IsAlwaysCallable add }
    ensures added { (line : T → List ℕ) → ((before : _) (item : _) (outcome : _) (after : _) → F.post add before item outcome after → OnOk outcome (after.now.items ≡ before.now.items ++ line item.now)) → OnOk result (text.new.items ≡ text.old.items ++ flat_map line items.now) }
{
    for item in items {
        add(text, item)?;
    }
    Ok(())
}

/// Adds the numbers, each after a blank.
pub(crate) fn add_counts(text: &mut Vec<u8>, counts: &[usize]) -> Result<(), OutOfMemory>
    ensures added { OnOk result (text.new.items ≡ text.old.items ++ blanked (numbers counts.now)) }
{
    let mut buffer = Buffer::new();
    for n in counts {
        text.push(b' ')?;
        text.extend_from_slice(buffer.format(*n).as_bytes())?;
    }
    Ok(())
}

// Adds the numbers with their signs, each after a blank.
fn add_signed(text: &mut Vec<u8>, list: &[i64]) -> Result<(), OutOfMemory>
    ensures added { OnOk result (text.new.items ≡ text.old.items ++ blanked (signed_numbers list.now)) }
{
    let mut buffer = Buffer::new();
    for n in list {
        text.push(b' ')?;
        text.extend_from_slice(buffer.format(*n).as_bytes())?;
    }
    Ok(())
}

fn letter(label: Label) -> u8
    ensures letter { result ∷ [] ≡ label_word label }
{
    match label {
        Label::Out => b'o',
        Label::Not => b'n',
        Label::In => b'i',
    }
}

// Adds the words of the entry, each after a blank.
fn add_entry(text: &mut Vec<u8>, entry: Entry) -> Result<(), OutOfMemory>
    ensures added { OnOk result (text.new.items ≡ text.old.items ++ blanked (entry_words entry.entry)) }
{
    match entry {
        Entry::Counts(counts) => add_counts(text, counts),
        Entry::Label(label) => text.extend_from_slice(&[b' ', letter(label)]),
        Entry::Option(label) => match label {
            Some(label) => text.extend_from_slice(&[b' ', letter(label)]),
            None => text.extend_from_slice(b" -"),
        },
        Entry::Dir(d) => add_signed(text, &[d.x(), d.y(), d.z()]),
        Entry::Point(p) => add_signed(text, &[p.x(), p.y(), p.z(), p.w()]),
        Entry::Plane(h) => add_signed(text, &[h.a(), h.b(), h.c(), h.d()]),
    }
}

/// Adds the line of the first word and the words of the entries.
pub(crate) fn add_line(
    text: &mut Vec<u8>,
    first: &[u8],
    entries: &[Entry],
) -> Result<(), OutOfMemory>
    ensures added { OnOk result (text.new.items ≡ text.old.items ++ line (first.now ∷ flat_map entry_words entries.now)) }
{
    text.extend_from_slice(first)?;
    for entry in entries {
        add_entry(text, *entry)?;
    }
    text.extend_from_slice(b"\n")
}
