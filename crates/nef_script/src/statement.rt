//! What a line says: the command and the words after it, or the first kind of refusal that holds for the line.

ghost use Rattle.std.specs.Prelude.{◌≡◌, ◌∷◌};
ghost use Rattle.nef_script.specs.Prelude.{ℕ, List, [], length, IfOk, list_any, words_of, is_bad_byte, line_refusal, pointed, SecondIs, LastTwoAre, refused, IsRead, Reads, roles_test, BindsNew, LineSays};
ghost use Rattle.nef_script.specs.Table as role;
ghost use Rattle.nef_script.specs.declared.arguments.Verb.TheVariants as verb;

use crate::arguments::{
    Verb, both, direction, is_closed, new_name, operand, plane, point, turn_number,
};
use crate::script::{Command, Names, ScriptKind};
use nef_expr::Node;
use nef_space::{QUERY_LIMIT, QUERY_WEIGHT_LIMIT, RAY_LIMIT, RAY_WEIGHT_LIMIT};

// The greatest number of bytes of a line without its end.
const LINE_LIMIT: usize = 256;

// The limits of the numbers of a point that is asked for, and of the start of a ray.
const QUERY: (u64, u64) = (QUERY_LIMIT, QUERY_WEIGHT_LIMIT);

const RAY_START: (u64, u64) = (RAY_LIMIT, RAY_WEIGHT_LIMIT);

/// What a line with words says. Sets that earlier lines bound are named by their nodes.
#[derive(Drop)]
pub(crate) enum Statement<'a> {
    /// The name is bound to a node of its own.
    Bind {
        name: &'a [u8],
        node: Node,
    },
    /// The name is bound to the image of the node under the turn.
    Turn {
        name: &'a [u8],
        from: usize,
        turn: u8,
    },
    /// Something is asked of sets.
    Ask(Command),
    /// The text of the node's set is asked, under its name.
    Print {
        node: usize,
        name: &'a [u8],
    },
}

// The statement of a line, or the first kind of refusal.
type Said<'a> = Result<Statement<'a>, ScriptKind>;

// Binds the name to a node without operands.
fn constant<'a>(names: &Names, args: &[&'a [u8]], node: Node) -> Said<'a>
    ensures read { IsRead (roles_test names.now (role.NewName ∷ []) (pointed args.now)) (BindsNew names.now (pointed args.now) (λ n. (length args.now ≡ 1) × (n ≡ node))) result }
{
    let [name] = args else {
        return Err(ScriptKind::WordCount);
    };
    let name = new_name(names, name)?;
    Ok(Statement::Bind { name, node })
}

// Binds the name to the half-space of the numbers and the mode.
fn half_space<'a>(names: &Names, args: &[&'a [u8]]) -> Said<'a>
    ensures read { (bound : List ℕ) (line : ℕ) → Reads names.now bound line verb.Half (pointed args.now) result }
{
    let [name, a, b, c, d, mode] = args else {
        return Err(ScriptKind::WordCount);
    };
    let numbers = both(plane(a, b, c, d), is_closed(mode));
    let (name, (oriented, closed)) = both(new_name(names, name), numbers)?;
    let node = Node::Half { oriented, closed };
    Ok(Statement::Bind { name, node })
}

// Binds the name to a node of one operand.
fn unary<'a, F: Fn(usize) -> Node>(
    names: &Names,
    bound: &[usize],
    args: &[&'a [u8]],
    node: F,
) -> Said<'a>
    requires level { length bound.now ≡ length names.now }
    requires callable { F.IsAlwaysCallable node }
    ensures read { IsRead (roles_test names.now (role.NewName ∷ role.Operand ∷ []) (pointed args.now)) (BindsNew names.now (pointed args.now) (λ n. (i : ℕ) × SecondIs names.now bound.now (pointed args.now) i × F.post node i n)) result }
{
    let [name, word] = args else {
        return Err(ScriptKind::WordCount);
    };
    let (name, i) = both(new_name(names, name), operand(names, bound, word))?;
    let node = node(i);
    Ok(Statement::Bind { name, node })
}

// Binds the name to a node of two operands.
fn binary<'a, F: Fn(usize, usize) -> Node>(
    names: &Names,
    bound: &[usize],
    args: &[&'a [u8]],
    node: F,
) -> Said<'a>
    requires level { length bound.now ≡ length names.now }
    requires callable { F.IsAlwaysCallable node }
    ensures read { IsRead (roles_test names.now (role.NewName ∷ role.Operand ∷ role.Operand ∷ []) (pointed args.now)) (BindsNew names.now (pointed args.now) (λ n. (i : ℕ) × (j : ℕ) × LastTwoAre names.now bound.now (pointed args.now) i j × F.post node i j n)) result }
{
    let [name, left, right] = args else {
        return Err(ScriptKind::WordCount);
    };
    let operands = both(operand(names, bound, left), operand(names, bound, right));
    let (name, (i, j)) = both(new_name(names, name), operands)?;
    let node = node(i, j);
    Ok(Statement::Bind { name, node })
}

// Binds the name to the turned image of the operand.
fn turned<'a>(names: &Names, bound: &[usize], args: &[&'a [u8]]) -> Said<'a>
    requires level { length bound.now ≡ length names.now }
    ensures read { (line : ℕ) → Reads names.now bound.now line verb.Turn (pointed args.now) result }
{
    let [name, from, turn] = args else {
        return Err(ScriptKind::WordCount);
    };
    let turned = both(operand(names, bound, from), turn_number(turn));
    let (name, (from, turn)) = both(new_name(names, name), turned)?;
    Ok(Statement::Turn { name, from, turn })
}

// Asks where the point lies.
fn has<'a>(line: u64, names: &Names, bound: &[usize], args: &[&'a [u8]]) -> Said<'a>
    requires level { length bound.now ≡ length names.now }
    ensures read { Reads names.now bound.now line verb.Has (pointed args.now) result }
{
    let [name, x, y, z, w] = args else {
        return Err(ScriptKind::WordCount);
    };
    let (node, point) = both(operand(names, bound, name), point(QUERY, x, y, z, w))?;
    Ok(Statement::Ask(Command::Has { line, node, point }))
}

// Asks whether the two points are joined.
fn joined<'a>(line: u64, names: &Names, bound: &[usize], args: &[&'a [u8]]) -> Said<'a>
    requires level { length bound.now ≡ length names.now }
    ensures read { Reads names.now bound.now line verb.Joined (pointed args.now) result }
{
    let [name, x, y, z, w, x2, y2, z2, w2] = args else {
        return Err(ScriptKind::WordCount);
    };
    let points = both(point(QUERY, x, y, z, w), point(QUERY, x2, y2, z2, w2));
    let (node, (first, second)) = both(operand(names, bound, name), points)?;
    Ok(Statement::Ask(Command::Joined {
        line,
        node,
        first,
        second,
    }))
}

// Asks for the end of the ray.
fn ray<'a>(line: u64, names: &Names, bound: &[usize], args: &[&'a [u8]]) -> Said<'a>
    requires level { length bound.now ≡ length names.now }
    ensures read { Reads names.now bound.now line verb.Ray (pointed args.now) result }
{
    let [name, x, y, z, w, dx, dy, dz] = args else {
        return Err(ScriptKind::WordCount);
    };
    let ray = both(point(RAY_START, x, y, z, w), direction(dx, dy, dz));
    let (node, (point, dir)) = both(operand(names, bound, name), ray)?;
    Ok(Statement::Ask(Command::Ray {
        line,
        node,
        point,
        dir,
    }))
}

// Asks whether the two sets are the same.
fn same<'a>(line: u64, names: &Names, bound: &[usize], args: &[&'a [u8]]) -> Said<'a>
    requires level { length bound.now ≡ length names.now }
    ensures read { Reads names.now bound.now line verb.Same (pointed args.now) result }
{
    let [left, right] = args else {
        return Err(ScriptKind::WordCount);
    };
    let (left, right) = both(operand(names, bound, left), operand(names, bound, right))?;
    Ok(Statement::Ask(Command::Same { line, left, right }))
}

// Asks for the numbers of the set's parts.
fn count<'a>(line: u64, names: &Names, bound: &[usize], args: &[&'a [u8]]) -> Said<'a>
    requires level { length bound.now ≡ length names.now }
    ensures read { Reads names.now bound.now line verb.Count (pointed args.now) result }
{
    let [name] = args else {
        return Err(ScriptKind::WordCount);
    };
    let node = operand(names, bound, name)?;
    Ok(Statement::Ask(Command::Count { line, node }))
}

// Asks for the text of the set.
fn print<'a>(names: &Names, bound: &[usize], args: &[&'a [u8]]) -> Said<'a>
    requires level { length bound.now ≡ length names.now }
    ensures read { (line : ℕ) → Reads names.now bound.now line verb.Print (pointed args.now) result }
{
    let [name] = args else {
        return Err(ScriptKind::WordCount);
    };
    let node = operand(names, bound, name)?;
    Ok(Statement::Print { node, name })
}

// The statement of a command and of the words after it.
fn command_statement<'a>(
    line: u64,
    names: &Names,
    bound: &[usize],
    verb: Verb,
    args: &[&'a [u8]],
) -> Said<'a>
    requires level { length bound.now ≡ length names.now }
    ensures read { Reads names.now bound.now line verb (pointed args.now) result }
{
    match verb {
        Verb::Half => half_space(names, args),
        Verb::Empty => constant(names, args, Node::Empty),
        Verb::Full => constant(names, args, Node::Full),
        Verb::And => binary(names, bound, args, Node::And),
        Verb::Or => binary(names, bound, args, Node::Or),
        Verb::Diff => binary(names, bound, args, Node::Diff),
        Verb::Xor => binary(names, bound, args, Node::Xor),
        Verb::Not => unary(names, bound, args, Node::Not),
        Verb::Int => unary(names, bound, args, Node::Int),
        Verb::Cl => unary(names, bound, args, Node::Cl),
        Verb::Bd => unary(names, bound, args, Node::Bd),
        Verb::Reg => unary(names, bound, args, Node::Reg),
        Verb::Turn => turned(names, bound, args),
        Verb::Has => has(line, names, bound, args),
        Verb::Joined => joined(line, names, bound, args),
        Verb::Ray => ray(line, names, bound, args),
        Verb::Same => same(line, names, bound, args),
        Verb::Count => count(line, names, bound, args),
        Verb::Print => print(names, bound, args),
    }
}

// Whether some byte is neither a tab nor a printable ASCII byte.
fn has_bad_byte(text: &[u8]) -> bool
    ensures bad { result ≡ list_any is_bad_byte text.now }
{
    text.iter().any(|byte| !(*byte == b'\t' || (b' ' <= *byte && *byte <= b'~')))
}

/// The statement of the line with these words, if it has words, or the first kind of refusal that holds for the line.
/// `names` are the names that earlier lines bound.
pub(crate) fn read_statement<'a>(
    line: u64,
    text: &[u8],
    words: &[&'a [u8]],
    names: &Names,
    bound: &[usize],
) -> Result<Option<Statement<'a>>, ScriptKind>
    requires words { pointed words.now ≡ words_of text.now }
    requires level { length bound.now ≡ length names.now }
    ensures refusal { refused result ≡ line_refusal names.now text.now }
    ensures says { IfOk result (λ s. LineSays names.now bound.now line (words_of text.now) s) }
{
    if text.len() > LINE_LIMIT {
        return Err(ScriptKind::LineTooLong);
    }
    if has_bad_byte(text) {
        return Err(ScriptKind::BadByte);
    }
    match words.split_first() {
        None => Ok(None),
        Some((word, args)) => match Verb::of(word) {
            None => Err(ScriptKind::UnknownCommand),
            Some(verb) => {
                let statement = command_statement(line, names, bound, verb, args)?;
                Ok(Some(statement))
            }
        },
    }
}
