//! The arguments of a line: what the words after the command give, or the first kind of refusal for these words.

ghost use Rattle.std.specs.Prelude.{◌≡◌, ◌<◌, ◌≤◌, ◌<ℤ◌, ◌&&◌, ◌||◌, ◌∷◌};
ghost use Rattle.nef_script.specs.Prelude.{List, ℕ, [], codes, length, nat_abs, None, pos, position, find, bytes_eq, normal_limit, number_limit, offset_limit, query_limit, query_weight_limit, ray_direction_limit, IsAtMost, IsPointAtMost, point_of, vector_of, NamesNode as IsNamed, IsGiven, IsQuotient, IsToward, name_count_limit, number_or_zero, word_test, earlier, both, IsRead, is_normal, is_direction, are_zero, no_room, some_fails, option_map, verb_of};
ghost use Rattle.nef_script.specs.Table as role;

use crate::script::{Names, ScriptKind};
use nef_geo::{Dir, Oriented, Plane, PlaneFault, Point};
use nef_lex::{NumberWord, is_name, whole_number};
use nef_space::{NORMAL_LIMIT, OFFSET_LIMIT, RAY_ENTRY_LIMIT};

/// The first word of a line.
#[derive(Clone, Copy)]
pub enum Verb {
    Half,
    Empty,
    Full,
    And,
    Or,
    Diff,
    Xor,
    Not,
    Int,
    Cl,
    Bd,
    Reg,
    Turn,
    Has,
    Joined,
    Ray,
    Same,
    Count,
    Print,
}

const COMMANDS: [(&[u8], Verb); 19] = [
    (b"half", Verb::Half),
    (b"empty", Verb::Empty),
    (b"full", Verb::Full),
    (b"and", Verb::And),
    (b"or", Verb::Or),
    (b"diff", Verb::Diff),
    (b"xor", Verb::Xor),
    (b"not", Verb::Not),
    (b"int", Verb::Int),
    (b"cl", Verb::Cl),
    (b"bd", Verb::Bd),
    (b"reg", Verb::Reg),
    (b"turn", Verb::Turn),
    (b"has", Verb::Has),
    (b"joined", Verb::Joined),
    (b"ray", Verb::Ray),
    (b"same", Verb::Same),
    (b"count", Verb::Count),
    (b"print", Verb::Print),
];

// The first command of the table with this word.
fn verb_in(table: &[(&[u8], Verb)], word: &[u8]) -> Option<Verb>
    ensures found { result ≡ option_map (λ c. c.1) (find (λ c. bytes_eq word.now c.0.now) table.now) }
{
    let command = table.iter().find(|command| word == command.0)?;
    Some(command.1)
}

impl Verb {
    // The command with this word.
    pub(crate) fn of(word: &[u8]) -> Option<Verb>
        ensures verb { result ≡ verb_of word.now }
    {
        verb_in(&COMMANDS, word)
    }
}

const NAME_COUNT_LIMIT: usize = 4096;

const LAST_TURN: i64 = 47;

// The modes of a half-space.
const OPEN: &[u8] = b"open";

const CLOSED: &[u8] = b"closed";

// The earlier of two kinds of refusal in the order of the tests.
fn earlier(first: ScriptKind, second: ScriptKind) -> ScriptKind
    ensures earlier { result ≡ earlier first second }
{
    if first as u8 <= second as u8 {
        first
    } else {
        second
    }
}

/// Both values, or the earlier kind of their refusals.
pub(crate) fn both<A: Drop, B: Drop>(
    first: Result<A, ScriptKind>,
    second: Result<B, ScriptKind>,
) -> Result<(A, B), ScriptKind>
    ensures both { result ≡ both first second }
{
    match (first, second) {
        (Ok(a), Ok(b)) => Ok((a, b)),
        (Ok(_), Err(kind)) | (Err(kind), Ok(_)) => Err(kind),
        (Err(j), Err(k)) => Err(earlier(j, k)),
    }
}

/// The word as a new name, which can be bound.
pub(crate) fn new_name<'a>(names: &Names, word: &'a [u8]) -> Result<&'a [u8], ScriptKind>
    ensures read { IsRead (λ k. word_test k names.now (role.NewName, word.now) || no_room names.now k) (λ name. (name.now ≡ word.now) × (position (bytes_eq word.now) names.now ≡ None) × (length names.now < name_count_limit)) result }
{
    if !is_name(word) {
        Err(ScriptKind::BadName)
    } else if names.find(word).is_some() {
        Err(ScriptKind::NameTaken)
    } else if names.len() >= NAME_COUNT_LIMIT {
        Err(ScriptKind::TooManyNames)
    } else {
        Ok(word)
    }
}

/// The number of the node that the word names. `bound` has the nodes in the order of the names.
pub(crate) fn operand(names: &Names, bound: &[usize], word: &[u8]) -> Result<usize, ScriptKind>
    requires level { length bound.now ≡ length names.now }
    ensures read { IsRead (λ k. word_test k names.now (role.Operand, word.now)) (IsNamed names.now bound.now word.now) result }
{
    if !is_name(word) {
        return Err(ScriptKind::BadName);
    }
    match names.find(word) {
        Some(place) => Ok(bound[place]),
        None => Err(ScriptKind::UnknownName),
    }
}

// The word as a whole number of at most `limit` in size.
fn coefficient(limit: u64, word: &[u8]) -> Result<i64, ScriptKind>
    requires readable { limit ≤ number_limit }
    ensures read { (names : List (List ℕ)) → IsRead (λ k. word_test k names (role.Coefficient limit, word.now)) (λ n. (n ≡ number_or_zero word.now) × (nat_abs n ≤ limit)) result }
{
    match whole_number(word) {
        NumberWord::NotOne => Err(ScriptKind::NotANumber),
        NumberWord::Value(number) if number.unsigned_abs() <= limit => Ok(number),
        NumberWord::Beyond | NumberWord::Value(_) => Err(ScriptKind::OutOfRange),
    }
}

// The word as a whole number from 1 to `most`.
fn weight(most: u64, word: &[u8]) -> Result<i64, ScriptKind>
    requires readable { most ≤ number_limit }
    ensures read { (names : List (List ℕ)) → IsRead (λ k. word_test k names (role.Weight most, word.now)) (λ n. (n ≡ number_or_zero word.now) × (pos 0 <ℤ n) × (nat_abs n ≤ most)) result }
{
    match whole_number(word) {
        NumberWord::NotOne => Err(ScriptKind::NotANumber),
        NumberWord::Value(number) if number >= 1 && number.unsigned_abs() <= most => Ok(number),
        NumberWord::Beyond | NumberWord::Value(_) => Err(ScriptKind::BadWeight),
    }
}

/// The word as the number of a turn, from 0 to 47.
pub(crate) fn turn_number(word: &[u8]) -> Result<u8, ScriptKind>
    ensures read { (names : List (List ℕ)) → IsRead (λ k. word_test k names (role.Index 47, word.now)) (λ turn. (number_or_zero word.now ≡ pos turn) × (turn < 48)) result }
{
    match whole_number(word) {
        NumberWord::NotOne => Err(ScriptKind::NotANumber),
        NumberWord::Value(number) if 0 <= number && number <= LAST_TURN => Ok(number as u8),
        NumberWord::Beyond | NumberWord::Value(_) => Err(ScriptKind::OutOfRange),
    }
}

/// Whether the mode is `closed`; a mode that is neither `open` nor `closed` is refused.
pub(crate) fn is_closed(word: &[u8]) -> Result<bool, ScriptKind>
    ensures read { (names : List (List ℕ)) → IsRead (λ k. word_test k names (role.Mode, word.now)) (λ closed. closed ≡ bytes_eq word.now (codes "closed")) result }
{
    if word == CLOSED {
        Ok(true)
    } else if word == OPEN {
        Ok(false)
    } else {
        Err(ScriptKind::BadMode)
    }
}

/// The plane whose four numbers the words give.
pub(crate) fn plane(a: &[u8], b: &[u8], c: &[u8], d: &[u8]) -> Result<Oriented, ScriptKind>
    ensures read { (names : List (List ℕ)) → IsRead (λ k. some_fails names (role.Coefficient normal_limit ∷ role.Coefficient normal_limit ∷ role.Coefficient normal_limit ∷ role.Coefficient offset_limit ∷ []) (a.now ∷ b.now ∷ c.now ∷ d.now ∷ []) k || (is_normal k && are_zero a.now b.now c.now)) (λ o. IsGiven o (number_or_zero a.now) (number_or_zero b.now) (number_or_zero c.now) (number_or_zero d.now)) result }
{
    let numbers = both(
        coefficient(NORMAL_LIMIT, a),
        both(
            coefficient(NORMAL_LIMIT, b),
            both(coefficient(NORMAL_LIMIT, c), coefficient(OFFSET_LIMIT, d)),
        ),
    );
    let (a, (b, (c, d))) = numbers?;
    match Plane::read(a, b, c, d) {
        Ok(oriented) => Ok(oriented),
        Err(PlaneFault::OutOfRange) => Err(ScriptKind::OutOfRange),
        Err(PlaneFault::ZeroNormal) => Err(ScriptKind::ZeroNormal),
    }
}

/// The point of four numbers: the first three are at most `limits.0` in size, the last is from 1 to `limits.1`.
pub(crate) fn point(
    limits: (u64, u64),
    x: &[u8],
    y: &[u8],
    z: &[u8],
    w: &[u8],
) -> Result<Point, ScriptKind>
    requires place { limits.0 ≤ query_limit }
    requires weight { limits.1 ≤ query_weight_limit }
    ensures read { (names : List (List ℕ)) → IsRead (some_fails names (role.Coefficient limits.0 ∷ role.Coefficient limits.0 ∷ role.Coefficient limits.0 ∷ role.Weight limits.1 ∷ []) (x.now ∷ y.now ∷ z.now ∷ w.now ∷ [])) (λ p. IsQuotient p (number_or_zero x.now) (number_or_zero y.now) (number_or_zero z.now) (number_or_zero w.now) × IsPointAtMost limits.0 limits.1 (point_of p)) result }
{
    let numbers = both(
        coefficient(limits.0, x),
        both(
            coefficient(limits.0, y),
            both(coefficient(limits.0, z), weight(limits.1, w)),
        ),
    );
    let (x, (y, (z, w))) = numbers?;
    Ok(Point::of(x, y, z, w))
}

/// The direction of a ray, whose three numbers the words give.
pub(crate) fn direction(x: &[u8], y: &[u8], z: &[u8]) -> Result<Dir, ScriptKind>
    ensures read { (names : List (List ℕ)) → IsRead (λ k. some_fails names (role.Coefficient ray_direction_limit ∷ role.Coefficient ray_direction_limit ∷ role.Coefficient ray_direction_limit ∷ []) (x.now ∷ y.now ∷ z.now ∷ []) k || (is_direction k && are_zero x.now y.now z.now)) (λ d. IsToward d (number_or_zero x.now) (number_or_zero y.now) (number_or_zero z.now) × IsAtMost ray_direction_limit (vector_of d)) result }
{
    let numbers = both(
        coefficient(RAY_ENTRY_LIMIT, x),
        both(
            coefficient(RAY_ENTRY_LIMIT, y),
            coefficient(RAY_ENTRY_LIMIT, z),
        ),
    );
    let (x, (y, z)) = numbers?;
    match Dir::of(x, y, z) {
        Some(dir) => Ok(dir),
        None => Err(ScriptKind::ZeroDirection),
    }
}
