//! Printed texts of sets.

use crate::runs::{check, gives, unfolded, worked};
use crate::tables::{BY_TURNS, WITHOUT_TURNS};
use std::alloc::{AllocError, Global};
use std::process::Abort;
use std::sync::Wait;
use std::thread::Threads;

// Scripts with `/` between their lines, the first lines that each writes, and parts of the text that the script prints.
// A part is a number and the lines from a line with a first word, as `v` for a vertex, up to the next line with that
// word; the number counts the parts with this word from 0.

// A half-space, a cube, a cube with corners at halves, and a point.
const SOLIDS: &str = "half A 1 0 0 0 closed / count A / print A => \
    12 20 11 3 / polyhedron A / nef3 1 12 20 11 3 => \
    4 v 0 -2048 -2048 1 o - / s -1 0 0 o - / s 0 0 1 o - / s 0 1 0 o - / s 1 0 0 o - / \
    a 2 0 0 0 1 o i o / a 3 2 0 0 1 o n o / a 0 1 0 1 0 o i o / a 1 3 0 1 0 o n o / \
    a 2 1 1 0 0 i n i
half Aa -1 0 0 0 closed / half Ab 1 0 0 -1 closed / half Ac 0 -1 0 0 closed / \
    half Ad 0 1 0 -1 closed / half Ae 0 0 -1 0 closed / half Af 0 0 1 -1 closed / and Ag Aa Ab / \
    and Ah Ag Ac / and Ai Ah Ad / and Aj Ai Ae / and A Aj Af / count A / print A => \
    16 24 12 3 / polyhedron A / nef3 1 16 24 12 3 => \
    5 f 0 0 1 0 i 2 1 / c 4 0 8 0 10 0 6 0 => 0 w o => 1 w n => 2 w i / end
half Aa -1 0 0 0 closed / half Ab 2 0 0 -1 closed / half Ac 0 -1 0 0 closed / \
    half Ad 0 2 0 -1 closed / half Ae 0 0 -1 0 closed / half Af 0 0 2 -1 closed / and Ag Aa Ab / \
    and Ah Ag Ac / and Ai Ah Ad / and Aj Ai Ae / and A Aj Af / count A / print A => \
    16 24 12 3 / polyhedron A / nef3 1 16 24 12 3 => \
    11 v 1 1 1 2 i - / s -1 0 0 i - / s 0 -1 0 i - / s 0 0 -1 i - / a 0 1 0 0 1 i n i / \
    a 2 0 0 1 0 i n i / a 1 2 1 0 0 i n i
half Pa -1 0 0 0 closed / half Pb 1 0 0 0 closed / half Pc 0 -1 0 0 closed / \
    half Pd 0 1 0 0 closed / half Pe 0 0 -1 0 closed / half Pf 0 0 1 0 closed / and Pg Pa Pb / \
    and Ph Pg Pc / and Pi Ph Pd / and Pj Pi Pe / and P Pj Pf / count P / print P => \
    9 12 6 2 / polyhedron P / nef3 1 9 12 6 2 => 4 v 0 0 0 1 i n";

// An axis, two axes that cross, and a half-space without a half of an axis.
const LINES: &str = "half a 1 0 0 0 closed / half b -1 0 0 0 closed / half c 0 1 0 0 closed / \
    half d 0 -1 0 0 closed / and e a b / and f e c / and Z f d / count Z / print Z => \
    10 13 6 2 / polyhedron Z / nef3 1 10 13 6 2 => \
    4 v 0 0 -2048 1 o - / s 0 0 1 i n / l 0 0 1 o n o => \
    5 v 0 0 2048 1 o - / s 0 0 -1 i n / l 0 0 1 o o n => 8 e 4 0 5 0 i => \
    0 f 0 0 1 2048 o 1 0 / c 0 0 6 0 8 0 2 0 / c 4 0
half a 0 1 0 0 closed / half b 0 -1 0 0 closed / half c 0 0 1 0 closed / \
    half d 0 0 -1 0 closed / and e a b / and f e c / and X f d / half h 1 0 0 0 closed / \
    half i -1 0 0 0 closed / half j 0 0 1 0 closed / half k 0 0 -1 0 closed / and l h i / \
    and m l j / and Y m k / or U X Y / count U / print U => \
    13 16 6 2 / polyhedron U / nef3 1 13 16 6 2 => \
    6 v 0 0 0 1 i - / s -1 0 0 i n / s 0 -1 0 i n / s 0 1 0 i n / s 1 0 0 i n
half A 0 0 1 0 closed / half B 0 0 -1 0 closed / half C 0 1 0 0 closed / \
    half D 0 -1 0 0 closed / half E -1 0 0 0 closed / and F A B / and G F C / and H G D / \
    and R H E / diff K A R / count K / has K 0 0 0 1 / has K -1 0 0 1 / print K => \
    14 22 11 3 / not / in / polyhedron K / nef3 1 14 22 11 3 => \
    6 v 0 0 0 1 n - / s 1 0 0 n - / a 0 0 0 0 1 i n i";

// Faces and shells: of the empty set, of a cube, of a point, and of an axis, which makes a hole in a facet.
const FACES_AND_SHELLS: &str = "\
    empty E / print E => polyhedron E / nef3 2 8 12 6 2 => 0 v -2048 -2048 -2048 1 o - / s 0 0 \
    1 o - / s 0 1 0 o - / s 1 0 0 o - / a 2 1 0 0 1 o n o / a 0 2 0 1 0 o n o / a 1 0 1 0 0 o n \
    o / g 0 1 0 1 0 1 => 1 v -2048 -2048 2048 1 o - / s 0 0 -1 o - / s 0 1 0 o - / s 1 0 0 o - \
    / a 2 1 0 0 1 o o n / a 2 0 0 1 0 o n o / a 0 1 1 0 0 o n o / g 0 1 1 0 1 0 => 0 w o / h 0 \
    1 0 3 0 5 1 0 1 3 1 5 2 1 2 2 2 5 3 0 3 2 3 5 4 1 4 3 4 4 5 0 5 3 5 4 6 1 6 2 6 4 7 0 7 2 7 \
    4 => 1 w n / h 0 0 0 2 0 4 1 1 1 2 1 4 2 0 2 3 2 4 3 1 3 3 3 4 4 0 4 2 4 5 5 1 5 2 5 5 6 0 \
    6 3 6 5 7 1 7 3 7 5 / end
half Aa -1 0 0 0 closed / half Ab 1 0 0 -1 closed / half Ac 0 -1 0 0 closed / half Ad 0 1 0 \
    -1 closed / half Ae 0 0 -1 0 closed / half Af 0 0 1 -1 closed / and Ag Aa Ab / and Ah Ag Ac \
    / and Ai Ah Ad / and Aj Ai Ae / and A Aj Af / print A => polyhedron A / nef3 2 16 24 12 3 \
    => 0 w o / h 0 1 0 3 0 5 1 0 1 3 1 5 2 1 2 2 2 5 3 0 3 2 3 5 12 1 12 3 12 4 13 0 13 3 13 4 \
    14 1 14 2 14 4 15 0 15 2 15 4 => 1 w n / h 0 0 0 2 0 4 1 1 1 2 1 4 2 0 2 3 2 4 3 1 3 3 3 4 \
    12 0 12 2 12 5 13 1 13 2 13 5 14 0 14 3 14 5 15 1 15 3 15 5 / h 4 1 4 3 4 5 5 0 5 3 5 5 6 1 \
    6 2 6 5 7 0 7 2 7 5 8 1 8 3 8 4 9 0 9 3 9 4 10 1 10 2 10 4 11 0 11 2 11 4 => 2 w i / h 4 0 \
    4 2 4 4 5 1 5 2 5 4 6 0 6 3 6 4 7 1 7 3 7 4 8 0 8 2 8 5 9 1 9 2 9 5 10 0 10 3 10 5 11 1 11 \
    3 11 5 / end
half Pa -1 0 0 0 closed / half Pb 1 0 0 0 closed / half Pc 0 -1 0 0 closed / half Pd 0 1 0 \
    0 closed / half Pe 0 0 -1 0 closed / half Pf 0 0 1 0 closed / and Pg Pa Pb / and Ph Pg Pc / \
    and Pi Ph Pd / and Pj Pi Pe / and P Pj Pf / print P => polyhedron P / nef3 2 9 12 6 2 => 4 \
    v 0 0 0 1 i n / g 0 => 0 w o / h 0 1 0 3 0 5 1 0 1 3 1 5 2 1 2 2 2 5 3 0 3 2 3 5 5 1 5 3 5 \
    4 6 0 6 3 6 4 7 1 7 2 7 4 8 0 8 2 8 4 => 1 w n / h 0 0 0 2 0 4 1 1 1 2 1 4 2 0 2 3 2 4 3 1 \
    3 3 3 4 5 0 5 2 5 5 6 1 6 2 6 5 7 0 7 3 7 5 8 1 8 3 8 5 / h 4 0 / end
half a 1 0 0 0 closed / half b -1 0 0 0 closed / half c 0 1 0 0 closed / half d 0 -1 0 0 \
    closed / and e a b / and f e c / and Z f d / print Z => polyhedron Z / nef3 2 10 13 6 2 => \
    4 v 0 0 -2048 1 o - / s 0 0 1 i n / l 0 0 1 o n o / g 0 0 1 => 5 v 0 0 2048 1 o - / s 0 0 \
    -1 i n / l 0 0 1 o o n / g 0 1 0 => 0 f 0 0 1 2048 o 1 0 / c 0 0 6 0 8 0 2 0 / c 4 0 => 0 w \
    o / h 0 1 0 3 0 5 1 0 1 3 1 5 2 1 2 2 2 5 3 0 3 2 3 5 4 2 5 1 6 1 6 3 6 4 7 0 7 3 7 4 8 1 8 \
    2 8 4 9 0 9 2 9 4 => 1 w n / h 0 0 0 2 0 4 1 1 1 2 1 4 2 0 2 3 2 4 3 1 3 3 3 4 4 0 4 1 5 0 \
    5 2 6 0 6 2 6 5 7 1 7 2 7 5 8 0 8 3 8 5 9 1 9 3 9 5 / end";

// Faces and shells: of a wall across the frame, of a box with a hollow inside, and of two boxes with a common edge,
// round which the outside is one face.
const WALL_HOLLOW_EDGE: &str = "\
    half A 1 0 0 0 closed / half B -1 0 0 0 closed / and W A B / print W => polyhedron W / nef3 2 \
    12 20 11 3 => 4 v 0 -2048 -2048 1 o - / s -1 0 0 o - / s 0 0 1 o - / s 0 1 0 o - / s 1 0 0 \
    o - / a 2 0 0 0 1 o n o / a 3 2 0 0 1 o n o / a 0 1 0 1 0 o n o / a 1 3 0 1 0 o n o / a 2 \
    1 1 0 0 i n n / g 0 1 2 1 0 1 2 1 2 0 => 7 v 0 2048 2048 1 o - / s -1 0 0 o - / s 0 -1 0 o \
    - / s 0 0 -1 o - / s 1 0 0 o - / a 0 1 0 0 1 o o n / a 1 3 0 0 1 o o n / a 2 0 0 1 0 o o n \
    / a 3 2 0 1 0 o o n / a 1 2 1 0 0 i n n / g 0 1 0 2 0 1 0 2 2 1 => 0 w o / h 0 1 0 3 0 5 1 \
    0 1 3 1 5 2 1 2 2 2 5 3 0 3 2 3 5 4 1 4 3 4 5 4 7 5 0 5 2 5 5 5 7 6 1 6 3 6 4 6 6 7 0 7 2 \
    7 4 7 6 8 1 8 3 8 4 9 0 9 3 9 4 10 1 10 2 10 4 11 0 11 2 11 4 => 1 w n / h 0 0 0 2 0 4 1 1 \
    1 2 1 4 2 0 2 3 2 4 3 1 3 3 3 4 4 0 4 4 4 9 5 1 5 4 5 9 6 0 6 5 6 9 7 1 7 5 7 9 => 2 w n / \
    h 4 2 4 6 4 8 5 3 5 6 5 8 6 2 6 7 6 8 7 3 7 7 7 8 8 0 8 2 8 5 9 1 9 2 9 5 10 0 10 3 10 5 \
    11 1 11 3 11 5 / end
half Aa -1 0 0 0 closed / half Ab 1 0 0 -3 closed / half Ac 0 -1 0 0 closed / half Ad 0 1 0 -3 \
    closed / half Ae 0 0 -1 0 closed / half Af 0 0 1 -3 closed / and Ag Aa Ab / and Ah Ag Ac / \
    and Ai Ah Ad / and Aj Ai Ae / and A Aj Af / half Ba -1 0 0 1 closed / half Bb 1 0 0 -2 \
    closed / half Bc 0 -1 0 1 closed / half Bd 0 1 0 -2 closed / half Be 0 0 -1 1 closed / \
    half Bf 0 0 1 -2 closed / and Bg Ba Bb / and Bh Bg Bc / and Bi Bh Bd / and Bj Bi Be / and \
    B Bj Bf / diff K A B / print K => polyhedron K / nef3 2 24 36 18 4 => 0 w o / h 0 1 0 3 0 \
    5 1 0 1 3 1 5 2 1 2 2 2 5 3 0 3 2 3 5 20 1 20 3 20 4 21 0 21 3 21 4 22 1 22 2 22 4 23 0 23 \
    2 23 4 => 1 w n / h 0 0 0 2 0 4 1 1 1 2 1 4 2 0 2 3 2 4 3 1 3 3 3 4 20 0 20 2 20 5 21 1 21 \
    2 21 5 22 0 22 3 22 5 23 1 23 3 23 5 / h 4 1 4 3 4 5 5 0 5 3 5 5 6 1 6 2 6 5 7 0 7 2 7 5 \
    16 1 16 3 16 4 17 0 17 3 17 4 18 1 18 2 18 4 19 0 19 2 19 4 => 2 w i / h 4 0 4 2 4 4 5 1 5 \
    2 5 4 6 0 6 3 6 4 7 1 7 3 7 4 16 0 16 2 16 5 17 1 17 2 17 5 18 0 18 3 18 5 19 1 19 3 19 5 \
    / h 8 1 8 3 8 5 9 0 9 3 9 5 10 1 10 2 10 5 11 0 11 2 11 5 12 1 12 3 12 4 13 0 13 3 13 4 14 \
    1 14 2 14 4 15 0 15 2 15 4 => 3 w n / h 8 0 8 2 8 4 9 1 9 2 9 4 10 0 10 3 10 4 11 1 11 3 \
    11 4 12 0 12 2 12 5 13 1 13 2 13 5 14 0 14 3 14 5 15 1 15 3 15 5 / end
half Aa -1 0 0 0 closed / half Ab 1 0 0 -1 closed / half Ac 0 -1 0 0 closed / half Ad 0 1 0 -1 \
    closed / half Ae 0 0 -1 0 closed / half Af 0 0 1 -1 closed / and Ag Aa Ab / and Ah Ag Ac / \
    and Ai Ah Ad / and Aj Ai Ae / and A Aj Af / half Ba -1 0 0 1 closed / half Bb 1 0 0 -2 \
    closed / half Bc 0 -1 0 1 closed / half Bd 0 1 0 -2 closed / half Be 0 0 -1 0 closed / \
    half Bf 0 0 1 -1 closed / and Bg Ba Bb / and Bh Bg Bc / and Bi Bh Bd / and Bj Bi Be / and \
    B Bj Bf / or U A B / print U => polyhedron U / nef3 2 22 35 18 4 => 10 v 1 1 0 1 i - / s \
    -1 0 0 i - / s 0 -1 0 i - / s 0 0 1 i - / s 0 1 0 i - / s 1 0 0 i - / a 0 1 0 0 1 i i n / \
    a 4 3 0 0 1 i i n / a 0 2 0 1 0 i n i / a 2 4 0 1 0 i i n / a 2 1 1 0 0 i n i / a 3 2 1 0 \
    0 i i n / g 0 1 2 1 1 0 2 1 1 0 2 1 => 11 v 1 1 1 1 i - / s -1 0 0 i - / s 0 -1 0 i - / s \
    0 0 -1 i - / s 0 1 0 i - / s 1 0 0 i - / a 0 1 0 0 1 i n i / a 4 3 0 0 1 i n i / a 2 0 0 1 \
    0 i n i / a 4 2 0 1 0 i i n / a 1 2 1 0 0 i n i / a 2 3 1 0 0 i i n / g 0 1 0 2 0 1 2 0 0 \
    1 2 0 => 0 w o / h 0 1 0 3 0 5 1 0 1 3 1 5 2 1 2 2 2 5 3 0 3 2 3 5 18 1 18 3 18 4 19 0 19 \
    3 19 4 20 1 20 2 20 4 21 0 21 2 21 4 => 1 w n / h 0 0 0 2 0 4 1 1 1 2 1 4 2 0 2 3 2 4 3 1 \
    3 3 3 4 18 0 18 2 18 5 19 1 19 2 19 5 20 0 20 3 20 5 21 1 21 3 21 5 / h 4 1 4 3 4 5 5 0 5 \
    3 5 5 6 1 6 2 6 5 7 0 7 2 7 5 8 1 8 3 8 4 9 0 9 3 9 4 10 1 10 3 10 4 10 7 10 8 10 11 11 0 \
    11 2 11 4 11 7 11 8 11 11 12 1 12 2 12 5 13 0 13 2 13 5 14 1 14 3 14 4 15 0 15 3 15 4 16 1 \
    16 2 16 4 17 0 17 2 17 4 => 2 w i / h 4 0 4 2 4 4 5 1 5 2 5 4 6 0 6 3 6 4 7 1 7 3 7 4 8 0 \
    8 2 8 5 9 1 9 2 9 5 10 0 10 5 10 9 11 1 11 5 11 9 => 3 w i / h 10 2 10 6 10 10 11 3 11 6 \
    11 10 12 0 12 3 12 4 13 1 13 3 13 4 14 0 14 2 14 5 15 1 15 2 15 5 16 0 16 3 16 5 17 1 17 3 \
    17 5 / end";

// The script of a plate with a hexagonal hole, and the first lines that this script writes.
const PLATE: &str = "half Pa -1 0 0 -10 closed / half Pb 1 0 0 -10 closed / \
    half Pc 0 -1 0 -10 closed / half Pd 0 1 0 -10 closed / half Pe 0 0 -1 0 closed / \
    half Pf 0 0 1 -2 closed / and Pg Pa Pb / and Ph Pg Pc / and Pi Ph Pd / and Pj Pi Pe / \
    and P Pj Pf / half a 0 1 0 -4 open / half b 0 -1 0 -4 open / half c 2 1 0 -8 open / \
    half d -2 -1 0 -8 open / half e 2 -1 0 -8 open / half f -2 1 0 -8 open / and g a b / \
    and h g c / and i h d / and j i e / and H j f / diff K P H / count K / \
    has K 0 0 1 1 / has K 4 0 1 1 / has K 9 9 1 1 / print K";

const PLATE_OPENING: &str = "28 42 18 3 / not / in / in / polyhedron K / nef3 1 28 42 18 3";

// A box, and two boxes with a common wall that make up the box.
const BOXES: &str = "half La -1 0 0 0 closed / half Lb 1 0 0 -2 closed / half Lc 0 -1 0 0 closed / \
    half Ld 0 1 0 -1 closed / half Le 0 0 -1 0 closed / half Lf 0 0 1 -1 closed / and Lg La Lb / \
    and Lh Lg Lc / and Li Lh Ld / and Lj Li Le / half Aa -1 0 0 0 closed / \
    half Ab 1 0 0 -1 closed / half Ac 0 -1 0 0 closed / half Ad 0 1 0 -1 closed / \
    half Ae 0 0 -1 0 closed / half Af 0 0 1 -1 closed / and Ag Aa Ab / and Ah Ag Ac / \
    and Ai Ah Ad / and Aj Ai Ae / and A Aj Af / half Ba -1 0 0 1 closed / \
    half Bb 1 0 0 -2 closed / half Bc 0 -1 0 0 closed / half Bd 0 1 0 -1 closed / \
    half Be 0 0 -1 0 closed / half Bf 0 0 1 -1 closed / and Bg Ba Bb / and Bh Bg Bc / \
    and Bi Bh Bd / and Bj Bi Be / and B Bj Bf / and L Lj Lf / or U A B / print U / print L";

const BOUNDARY: &str = "half Aa -1 0 0 0 closed / half Ab 1 0 0 -1 closed / \
    half Ac 0 -1 0 0 closed / half Ad 0 1 0 -1 closed / half Ae 0 0 -1 0 closed / \
    half Af 0 0 1 -1 closed / and Ag Aa Ab / and Ah Ag Ac / and Ai Ah Ad / and Aj Ai Ae / \
    and A Aj Af / bd D A / print D / print A";

// The part with this number, of the parts of the text that begin with this word.
fn part_of<'a>(text: &'a str, begin: &str, number: usize) -> Option<&'a str> {
    text.trim_end().split(begin).nth(number)
}

// Whether the part with this number, of those that begin with the first word of `lines`, is these lines.
fn is_part(alloc: Global, text: &str, number: u8, lines: &str) -> Result<bool, AllocError> {
    let (word, rest) = lines.split_once(' ').unwrap_or((lines, ""));
    let begin = format!(in alloc; "\n{word} ")?;
    let wanted = unfolded(alloc, rest)?;
    let part = part_of(text, begin.as_str(), usize::from(number) + 1);
    Ok(part == wanted.strip_suffix('\n'))
}

// Whether the text has the part where the number before the part says.
pub(crate) fn has_part(alloc: Global, text: &str, part: &str) -> Option<bool> {
    let (number, lines) = part.split_once(' ')?;
    is_part(alloc, text, number.parse().ok()?, lines).ok()
}

fn has_parts(alloc: Global, text: &str, parts: &str) -> bool {
    for part in parts.split(" => ") {
        if has_part(alloc, text, part) != Some(true) {
            return false;
        }
    }
    true
}

// Whether the script writes these first lines and prints these parts.
fn prints<R: Threads + Wait + Sync>(
    rt: &R,
    alloc: Global,
    words: &str,
    script: &str,
    opening: &str,
    parts: &str,
) -> Result<bool, AllocError> {
    let (script, opening) = (unfolded(alloc, script)?, unfolded(alloc, opening)?);
    let (status, text) = worked(rt, alloc, words, script.as_str())?;
    let begins = status == 0 && text.starts_with(opening.as_str());
    Ok(begins && has_parts(alloc, text.as_str(), parts))
}

fn row_prints<R: Threads + Wait + Sync>(
    rt: &R,
    alloc: Global,
    words: &str,
    row: &str,
) -> Option<bool> {
    let (script, rest) = row.split_once(" => ")?;
    let (opening, parts) = rest.split_once(" => ")?;
    prints(rt, alloc, words, script, opening, parts).ok()
}

fn check_texts<R: Threads + Wait + Abort + Sync>(rt: &R, alloc: Global, words: &str, table: &str) {
    for row in table.split('\n') {
        check(rt, row_prints(rt, alloc, words, row), words, row);
    }
}

#[test]
fn parts_of_texts(rt: HostRuntime) {
    let alloc = rt.alloc();
    check_texts(&rt, alloc, "", SOLIDS);
    check_texts(&rt, alloc, "--text 1", SOLIDS);
    check_texts(&rt, alloc, "--workers 2 --board free", SOLIDS);
    check_texts(&rt, alloc, "--text 2", FACES_AND_SHELLS);
    check_texts(&rt, alloc, "--text 2", WALL_HOLLOW_EDGE);
    check_texts(&rt, alloc, "", LINES);
    check_texts(&rt, alloc, "--workers 2 --board free", LINES);
}

// Whether the plate's script writes its first lines, and the same text with other words of the command line.
fn writes_alike<R: Threads + Wait + Sync>(
    rt: &R,
    alloc: Global,
    words: &str,
) -> Result<bool, AllocError> {
    let (script, opening) = (unfolded(alloc, PLATE)?, unfolded(alloc, PLATE_OPENING)?);
    let (status, output) = worked(rt, alloc, "", script.as_str())?;
    let begins = status == 0 && output.starts_with(opening.as_str());
    Ok(begins && gives(rt, alloc, words, script.as_str(), 0, output.as_str())?)
}

fn check_plate<R: Threads + Wait + Abort + Sync>(rt: &R, alloc: Global, list: &str) {
    for words in list.split('\n') {
        check(rt, writes_alike(rt, alloc, words).ok(), words, "the plate");
    }
}

#[test]
fn plate_by_any_board(rt: HostRuntime) {
    let alloc = rt.alloc();
    check_plate(&rt, alloc, BY_TURNS);
    check_plate(&rt, alloc, WITHOUT_TURNS);
    check_plate(&rt, alloc, "--ahead --workers 8 --board lock");
    check_plate(&rt, alloc, "--ahead --workers 8 --board free");
}

// Whether the printed texts of two sets are equal behind their names.
fn is_alike(written: &str) -> Option<bool> {
    let (_, text) = written.split_once("polyhedron ")?;
    let (left, right) = text.split_once("polyhedron ")?;
    let (_, left) = left.split_once('\n')?;
    let (_, right) = right.split_once('\n')?;
    Some(left == right)
}

// Whether the texts of two sets, which the script makes and prints, are equal.
fn are_alike<R: Threads + Wait + Sync>(rt: &R, alloc: Global, script: &str) -> Option<bool> {
    let script = unfolded(alloc, script).ok()?;
    let words = "--text 1 --workers 2 --board lock";
    let (status, text) = worked(rt, alloc, words, script.as_str()).ok()?;
    if status == 0 {
        is_alike(text.as_str())
    } else {
        None
    }
}

// Equal texts: a box, and two boxes with a common wall that make up the box. Unequal texts: a cube and its boundary.
#[test]
fn alike(rt: HostRuntime) {
    check(&rt, are_alike(&rt, rt.alloc(), BOXES), "", BOXES);
    let differ = are_alike(&rt, rt.alloc(), BOUNDARY) == Some(false);
    check(&rt, Some(differ), "", BOUNDARY);
}
