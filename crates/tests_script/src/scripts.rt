//! Scripts that are refused, commands of scripts, and the limits of a script.

use crate::same::{check, check_text};
use nef_expr::Node;
use nef_geo::{Dir, Oriented, Point};
use nef_script::{Command, Name, OutOfMemory, Script, ScriptFault, ScriptKind, parse};
use std::alloc::Global;
use std::process::Abort;
use std::test::Fail;

// Each row is a script, with `/` between its lines, and the first refusal. From the row of the bad byte on, each script
// has two faults on one line, or a further fault on an earlier line.
const REFUSALS: &str = "ball A => line 1: unknown command
turning B A 1 => line 1: unknown command
half A 1 0 0 closed => line 1: wrong number of words
empty A / turn B A => line 2: wrong number of words
empty A / ray A 0 0 0 1 0 0 => line 2: wrong number of words
empty A / joined A 0 0 0 1 0 0 0 => line 2: wrong number of words
empty 1A => line 1: bad name
empty A / full A => line 2: name taken
and C A B => line 1: unknown name
turn B A 1 => line 1: unknown name
half A 1 0 0 1.5 closed => line 1: not a number
empty A / turn B A +1 => line 2: not a number
half A 2049 0 0 0 shut => line 1: coefficient out of range
half A 0 0 0 4194305 open => line 1: coefficient out of range
empty A / turn B A 48 => line 2: coefficient out of range
empty A / turn B A -1 => line 2: coefficient out of range
empty A / turn B A 99999999999999999999 => line 2: coefficient out of range
empty A / has A 8796093022209 0 0 1 => line 2: coefficient out of range
empty A / joined A 0 0 0 1 0 0 -8796093022209 1 => line 2: coefficient out of range
empty A / ray A 0 -2097153 0 1 1 0 0 => line 2: coefficient out of range
empty A / ray A 0 0 0 1 0 0 1025 => line 2: coefficient out of range
half A 0 0 0 5 closed => line 1: zero normal
half A 1 0 0 0 shut => line 1: mode is not open or closed
empty A / has A 0 0 0 0 => line 2: weight out of range
empty A / has A 0 0 0 4294967297 => line 2: weight out of range
empty A / joined A 0 0 0 1 0 0 0 0 => line 2: weight out of range
empty A / joined A 0 0 0 4294967297 0 0 0 1 => line 2: weight out of range
empty A / ray A 0 0 0 1025 1 0 0 => line 2: weight out of range
empty A / ray A 0 0 0 1 0 -0 00 => line 2: zero direction
half A 2048 0 0 0 closed / has A 0 0 0 1 / half B 2049 0 0 0 closed => line 3: coefficient out of range
ball\x07 A => line 1: bad byte
full A # \x7f => line 1: bad byte
empty 1A B => line 1: wrong number of words
empty A / and A 1 2 => line 2: bad name
empty A / and A B C => line 2: name taken
empty A / turn A B 48 => line 2: name taken
empty A / turn B B 48 => line 2: unknown name
not A A => line 1: unknown name
has B x 0 0 1 => line 1: unknown name
ray A 0 0 0 1 0 0 0 => line 1: unknown name
joined A 0 0 0 x 0 0 0 1 => line 1: unknown name
half A 2049 0 0 +1 open => line 1: not a number
empty A / ray A 2097153 0 0 1 0 0 x => line 2: not a number
half A 99999999999999999999 0 0 0 open => line 1: coefficient out of range
half A 0 -0 00 0 shut => line 1: zero normal
empty A / has A 8796093022209 0 0 0 => line 2: coefficient out of range
empty A / joined A 0 0 0 0 0 8796093022209 0 1 => line 2: coefficient out of range
empty A / ray A 0 0 0 0 1025 0 0 => line 2: coefficient out of range
empty A / ray A 0 0 0 0 0 0 0 => line 2: weight out of range
half A 1 0 0 0 shut / ball A => line 1: mode is not open or closed
empty A / ray A 0 0 0 1 0 0 0 / ball A => line 2: zero direction
empty A /  / # none\r / empty A => line 4: name taken";

// Commands of each kind, with comments, blanks, tabs and carriage returns among them.
const COMMANDS: &str = "# a corner\r
half a -1 0 0 0 open
half b 0 2 0 -4 closed # two\r

and\tC a b
has C 8796093022208 -0 007 4294967296
same C a
count C
print C
joined C 2 4 -6 8 0 0 -8796093022208 1
ray a 2097152 -0 8 1024 -1024 0 0512
turn D C -0";

const COMMANDS_TOLD: &str = "3 nodes
line 2 binds 0
line 3 binds 1
line 5 binds 2
line 6 has 2 at 8796093022208 0 7 4294967296
line 7 same 2 as 0
line 8 counts 2
line 9 prints 2 as C
line 10 joined 2 from 1 2 -3 4 to 0 0 -8796093022208 1
line 11 ray 0 from 262144 0 1 128 toward -2 0 1
line 12 turns 2 from 2 by 0
";

// The turn 16 exchanges x and y, 1 negates x, 2 negates y: first 16 and then 1 is 17, and first 1 and then 16 is 18.
const COPIES: &str = "half a 1 2 3 4 open
half b 0 1 0 0 closed
and A a b
turn B A 16
turn C B 1
turn D A 17
turn E A 1
turn F E 16
turn G A 18
turn H G 0
turn I B 16
has A 0 0 0 1
";

const COPIES_TOLD: &str = "15 nodes
line 1 binds 0
line 2 binds 1
line 3 binds 2
line 4 turns 5 from 2 by 16
line 5 turns 8 from 5 by 1
line 6 turns 8 from 2 by 17
line 7 turns 11 from 2 by 1
line 8 turns 14 from 11 by 16
line 9 turns 14 from 2 by 18
line 10 turns 14 from 14 by 0
line 11 turns 2 from 5 by 16
line 12 has 2 at 0 0 0 1
";

/// The script with line ends for `/`, and a line end behind its last line.
pub(crate) fn unfolded(alloc: Global, script: &str) -> Result<String, OutOfMemory> {
    let mut lines = String::new(alloc);
    for line in script.split(" / ") {
        lines.push_str(line)?;
        lines.push('\n')?;
    }
    Ok(lines)
}

fn fault(alloc: Global, script: &[u8]) -> Option<ScriptFault> {
    parse(alloc, script).err()
}

// The first refusal of a script with `/` between its lines.
fn fault_of_lines(alloc: Global, script: &str) -> Result<Option<ScriptFault>, OutOfMemory> {
    let lines = unfolded(alloc, script)?;
    Ok(fault(alloc, lines.as_bytes()))
}

// The first refusal as the program prints it, or `none`.
fn refusal(alloc: Global, script: &str) -> Result<String, OutOfMemory> {
    match fault_of_lines(alloc, script)? {
        Some(ScriptFault::Refused { line, kind }) => format!(in alloc; "line {line}: {kind}"),
        Some(ScriptFault::OutOfMemory) => Err(OutOfMemory),
        None => String::from_str(alloc, "none"),
    }
}

#[test]
fn refusals(rt: HostRuntime) -> Result<(), Fail> {
    for row in REFUSALS.split('\n') {
        let (script, wanted) = row.split_once(" => ").ok_or("a row")?;
        let found = refusal(rt.alloc(), script)?;
        check_text(&rt, found.as_str(), wanted, script);
    }
    Ok(())
}

fn point_text(alloc: Global, p: &Point) -> Result<String, OutOfMemory> {
    format!(in alloc; "{} {} {} {}", p.x(), p.y(), p.z(), p.w())
}

fn dir_text(alloc: Global, d: &Dir) -> Result<String, OutOfMemory> {
    format!(in alloc; "{} {} {}", d.x(), d.y(), d.z())
}

fn joined_text(alloc: Global, p: &Point, q: &Point) -> Result<String, OutOfMemory> {
    let p = point_text(alloc, p)?;
    let q = point_text(alloc, q)?;
    format!(in alloc; " from {p} to {q}")
}

fn ray_text(alloc: Global, p: &Point, d: &Dir) -> Result<String, OutOfMemory> {
    let p = point_text(alloc, p)?;
    let d = dir_text(alloc, d)?;
    format!(in alloc; " from {p} toward {d}")
}

fn has_text(alloc: Global, p: &Point) -> Result<String, OutOfMemory> {
    let p = point_text(alloc, p)?;
    format!(in alloc; " at {p}")
}

fn name_text(alloc: Global, name: &Name) -> Result<String, OutOfMemory> {
    format!(in alloc; " as {}", str::from_utf8(name.as_bytes()).unwrap_or("?"))
}

// A command's line, its effect, and the node that it is about.
fn head(command: &Command) -> (u64, &'static str, usize) {
    match command {
        Command::Bind { line, node } => (*line, "binds", *node),
        Command::Turn { line, node, .. } => (*line, "turns", *node),
        Command::Has { line, node, .. } => (*line, "has", *node),
        Command::Joined { line, node, .. } => (*line, "joined", *node),
        Command::Ray { line, node, .. } => (*line, "ray", *node),
        Command::Same { line, left, .. } => (*line, "same", *left),
        Command::Count { line, node } => (*line, "counts", *node),
        Command::Print { line, node, .. } => (*line, "prints", *node),
    }
}

// The other numbers and words of the command.
fn rest(alloc: Global, command: &Command) -> Result<String, OutOfMemory> {
    match command {
        Command::Turn { from, turn, .. } => format!(in alloc; " from {from} by {turn}"),
        Command::Has { point, .. } => has_text(alloc, point),
        Command::Joined { first, second, .. } => joined_text(alloc, first, second),
        Command::Ray { point, dir, .. } => ray_text(alloc, point, dir),
        Command::Same { right, .. } => format!(in alloc; " as {right}"),
        Command::Print { name, .. } => name_text(alloc, name),
        _ => Ok(String::new(alloc)),
    }
}

fn command_text(alloc: Global, command: &Command) -> Result<String, OutOfMemory> {
    let (line, does, node) = head(command);
    let rest = rest(alloc, command)?;
    format!(in alloc; "line {line} {does} {node}{rest}\n")
}

// The number of nodes of the script, and all commands.
fn script_text(alloc: Global, script: &Script) -> Result<String, OutOfMemory> {
    let mut text = format!(in alloc; "{} nodes\n", script.nodes.len())?;
    for command in script.commands() {
        text.push_str(command_text(alloc, command)?.as_str())?;
    }
    Ok(text)
}

fn told(alloc: Global, text: &str) -> Result<String, Fail> {
    let script = parse(alloc, text.as_bytes())?;
    let told = script_text(alloc, &script)?;
    Ok(told)
}

fn check_told(rt: &impl Abort, alloc: Global, script: &str, wanted: &str) -> Result<(), Fail> {
    let told = told(alloc, script)?;
    check_text(rt, told.as_str(), wanted, script);
    Ok(())
}

#[test]
fn commands_of_scripts(rt: HostRuntime) -> Result<(), Fail> {
    check_told(&rt, rt.alloc(), COMMANDS, COMMANDS_TOLD)?;
    check_told(&rt, rt.alloc(), COPIES, COPIES_TOLD)
}

fn half_text(alloc: Global, half: &Oriented, closed: bool) -> Result<String, OutOfMemory> {
    let (plane, flipped) = (half.plane(), half.flipped());
    let (a, b, c, d) = (plane.a(), plane.b(), plane.c(), plane.d());
    format!(in alloc; "half {a} {b} {c} {d}, flipped {flipped}, closed {closed}")
}

fn node_text(alloc: Global, node: &Node) -> Result<String, OutOfMemory> {
    match node {
        Node::And(left, right) => format!(in alloc; "and {left} {right}"),
        Node::Half { oriented, closed } => half_text(alloc, oriented, *closed),
        _ => String::from_str(alloc, "another"),
    }
}

fn node_of_copies(alloc: Global, number: usize) -> Result<String, Fail> {
    let script = parse(alloc, COPIES.as_bytes())?;
    if number < script.nodes.len() {
        Ok(node_text(alloc, script.nodes.get(number))?)
    } else {
        Err("a node".into())
    }
}

fn check_copy(rt: &impl Abort, alloc: Global, number: usize, wanted: &str) -> Result<(), Fail> {
    let node = node_of_copies(alloc, number)?;
    check_text(rt, node.as_str(), wanted, "a node of the copies");
    Ok(())
}

#[test]
fn copies_are_kept_once(rt: HostRuntime) -> Result<(), Fail> {
    check_copy(&rt, rt.alloc(), 8, "and 6 7")?;
    let first = "half 2 -1 -3 -4, flipped true, closed false";
    check_copy(&rt, rt.alloc(), 6, first)
}

// Adds the turns of the half-space A0 by all turns but 0.
fn push_turns(text: &mut String) -> Result<(), OutOfMemory> {
    for turn in 1..48 {
        write!(text, "turn A{turn} A0 {turn}\n")?;
    }
    Ok(())
}

// Adds a turn by 25 of each of the 48 half-spaces.
fn push_turns_of_turns(text: &mut String) -> Result<(), OutOfMemory> {
    for turn in 0..48 {
        write!(text, "turn B{turn} A{turn} 25\n")?;
    }
    Ok(())
}

fn all_turns(alloc: Global) -> Result<String, OutOfMemory> {
    let mut text = String::from_str(alloc, "half A0 1 2 3 4 open\n")?;
    push_turns(&mut text)?;
    push_turns_of_turns(&mut text)?;
    Ok(text)
}

fn node_count(alloc: Global, text: &str) -> Result<usize, ScriptFault> {
    let script = parse(alloc, text.as_bytes())?;
    Ok(script.nodes.len())
}

// Each of the 48 turns of a half-space adds one node, and turns of turned half-spaces add none.
#[test]
fn copies_are_at_most_48(rt: HostRuntime) -> Result<(), Fail> {
    let text = all_turns(rt.alloc())?;
    check(&rt, &node_count(rt.alloc(), &text)?, &48, "the nodes");
    Ok(())
}

// A comment of 256 bytes, and then `returns` carriage returns.
fn long_line(alloc: Global, returns: usize) -> Result<Vec<u8>, OutOfMemory> {
    let mut line = Vec::new(alloc);
    line.push(b'#')?;
    line.extend_from_slice(&[b' '; 255])?;
    for _ in 0..returns {
        line.push(b'\r')?;
    }
    Ok(line)
}

fn fault_of_long_line(alloc: Global, returns: usize) -> Result<Option<ScriptFault>, OutOfMemory> {
    let line = long_line(alloc, returns)?;
    Ok(fault(alloc, &line))
}

fn fault_of_line_feeds(alloc: Global, count: usize) -> Result<Option<ScriptFault>, OutOfMemory> {
    let script = vec![in alloc; b'\n'; count]?;
    Ok(fault(alloc, &script))
}

// Lines that bind 4,096 names, and behind these lines the last line.
fn many_names(alloc: Global, last: &[u8]) -> Result<Vec<u8>, OutOfMemory> {
    let mut script = Vec::new(alloc);
    for i in 1..4097u32 {
        let line = format!(in alloc; "empty n{i}\n")?;
        script.extend_from_slice(line.as_bytes())?;
    }
    script.extend_from_slice(last)?;
    Ok(script)
}

fn fault_of_names(alloc: Global, last: &[u8]) -> Result<Option<ScriptFault>, OutOfMemory> {
    let script = many_names(alloc, last)?;
    Ok(fault(alloc, &script))
}

fn refused(line: u64, kind: ScriptKind) -> Option<ScriptFault> {
    Some(ScriptFault::Refused { line, kind })
}

#[test]
fn longest_line(rt: HostRuntime) -> Result<(), Fail> {
    check(&rt, &fault_of_long_line(rt.alloc(), 1)?, &None, "257 bytes");
    let fault = refused(1, ScriptKind::LineTooLong);
    check(
        &rt,
        &fault_of_long_line(rt.alloc(), 2)?,
        &fault,
        "258 bytes",
    );
    Ok(())
}

#[test]
fn longest_script(rt: HostRuntime) -> Result<(), Fail> {
    check(
        &rt,
        &fault_of_line_feeds(rt.alloc(), 1_048_576)?,
        &None,
        "the longest script",
    );
    let fault = refused(0, ScriptKind::ScriptTooLong);
    check(
        &rt,
        &fault_of_line_feeds(rt.alloc(), 1_048_577)?,
        &fault,
        "a longer script",
    );
    Ok(())
}

#[test]
fn most_names(rt: HostRuntime) -> Result<(), Fail> {
    check(&rt, &fault_of_names(rt.alloc(), b"")?, &None, "4,096 names");
    let fault = refused(4097, ScriptKind::TooManyNames);
    check(
        &rt,
        &fault_of_names(rt.alloc(), b"empty n4097")?,
        &fault,
        "4,097 names",
    );
    Ok(())
}

#[test]
fn texts(rt: HostRuntime) -> Result<(), Fail> {
    let text = format!(in rt.alloc(); "{}", ScriptKind::BadMode)?;
    check_text(&rt, text.as_str(), "mode is not open or closed", "a kind");
    Ok(())
}
