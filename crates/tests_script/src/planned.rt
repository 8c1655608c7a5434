//! The steps in which scripts are worked.

use crate::same::{check, check_text};
use crate::scripts::unfolded;
use nef_expr::Node;
use nef_plan::{Plan, Step, Task, plan};
use nef_script::{Command, OutOfMemory, parse, stairs};
use std::alloc::Global;
use std::process::Abort;
use std::test::Fail;

// Slabs across x, each the intersection of two half-spaces. The slabs a to e, of the nodes 2, 5, 8, 11 and 14, lie
// apart from each other; g and h, of the nodes 17 and 20, meet all other slabs and each other.
const SLABS: &str = "half a1 -1 0 0 0 closed / half a2 1 0 0 -2 closed / and a a1 a2 / \
half b1 -1 0 0 10 closed / half b2 1 0 0 -12 closed / and b b1 b2 / \
half c1 -1 0 0 20 closed / half c2 1 0 0 -22 closed / and c c1 c2 / \
half d1 -1 0 0 30 closed / half d2 1 0 0 -32 closed / and d d1 d2 / \
half e1 -1 0 0 40 closed / half e2 1 0 0 -42 closed / and e e1 e2 / \
half g1 -1 0 0 -9 closed / half g2 1 0 0 -50 closed / and g g1 g2 / \
half h1 -1 0 0 -9 closed / half h2 1 0 0 -50 closed / and h h1 h2";

// Each row is a script behind the lines of the slabs, with `/` between its own lines, and its steps: a name for the value
// that is made, with both operands where it belongs to a row of one operation, or with its source and its turn where it is
// turned; and the line of each question. A slab's letter stands for the three steps that make the slab.
//
// The first row of unions becomes a tree. In the second row a question is asked about a set within the row, which makes
// two rows; in the next ones a set is used twice in one statement, later, as a second operand, by another operation, or
// by a turn. Then two sets meet a third, but not each other; three sets meet each other; no question needs the last
// set; and no question is asked. A row of symmetric differences becomes a tree whatever sets meet; of a row of
// differences, neighbours that lie apart are joined if nothing else uses them. The last rows ask about each set before
// the next line, about another set within a row, about sets in another order than their lines, and twice about one set.
// Sets that no question needs come last.
const PLANNED: &str =
    "or p a b / or q p c / or r q d / or s r e / count s => a b c d e 25=2|5 26=8|11 27=25|26 24=27|14 ?26 g h
or p a b / or q p c / count q / or r q d / count r => a b c 24=2|5 22=24|8 ?24 d 23=22|11 ?26 e g h
or p a b / or q p p / count q => a b 21=2|5 22=21|21 ?24 c d e g h
or p a b / or q p a / and r q p / count r => a b 21=2|5 22=21|2 23=22&21 ?25 c d e g h
or p a b / or q p a / count q => a b 21=2|5 22=21|2 ?24 c d e g h
or p a b / or q c p / count q => a b c 21=2|5 22=8|21 ?24 d e g h
or p a b / xor q p c / diff r q d / count r => a b c d 21=2|5 22=21^8 23=22-11 ?25 e g h
or p a b / or q p c / turn r q 16 / count r => a b c 34=2|5 22=34|8 33@22*16 ?25 d e g h
or p g a / or q p b / or r q c / count r => a b c g 24=17|2 25=5|8 23=24|25 ?25 d e h
or p g a / or q p h / or r q b / count r => a b g h 21=17|2 22=21|20 23=22|5 ?25 c d e
or p a b / or q p c / count p => a b 21=2|5 ?24 c d e g h 22=21|8
or p a b / or q p c => a b c d e g h 23=2|5 22=23|8
xor p g h / xor q p a / xor r q g / count r => a g h 24=17^20 25=2^17 23=24^25 ?25 b c d e
diff p g a / diff q p b / diff r q c / count r => a b c g 24=2|5 25=24|8 23=17-25 ?25 d e h
diff p e a / diff q p b / diff r q h / diff s r c / count s => a b c e h 25=2|5 22=14-25 23=22-20 24=23-8 ?26 d g
diff p g a / diff q p g / diff r q b / diff s r c / count s => a b c g 21=17-2 22=21-17 25=5|8 24=22-25 ?26 d e h
or p a b / count p / or q p c / count q / xor r q d / count r => a b 21=2|5 ?23 c 22=21|8 ?25 d 23=22^11 ?27 e g h
diff p g a / diff q p b / count h / diff r q c / count r => h ?24 a b c g 24=2|5 25=24|8 23=17-25 ?26 d e
or p a b / xor q c d / count q / count b / count p => c d 22=8^11 ?24 b ?25 a 21=2|5 ?26 e g h
xor p a b / count p / count p / count a => a b 21=2^5 ?23 ?24 ?25 c d e g h";

// The generated script of 32 boxes: the first 16 boxes are joined, then the other 16, and then both unions.
const STAIRS_END: &str = " 378=366|377 379=355|378 380=332|379 381=285|380 382=190|381 ?384";

// The operands and the sign of an operation whose rows become trees.
fn sign(made: &Node) -> Option<(usize, char, usize)> {
    match *made {
        Node::And(i, j) => Some((i, '&', j)),
        Node::Or(i, j) => Some((i, '|', j)),
        Node::Xor(i, j) => Some((i, '^', j)),
        Node::Diff(i, j) => Some((i, '-', j)),
        _ => None,
    }
}

// The name that a word gives the value of its step, and otherwise the step's number.
fn name_in(alloc: Global, word: &str, number: usize) -> Result<String, OutOfMemory> {
    for sign in ['=', '@', ':'] {
        if let Some((name, _)) = word.split_once(sign) {
            return String::from_str(alloc, name);
        }
    }
    format!(in alloc; "{number}")
}

fn name_of(names: &[String], value: usize) -> &str {
    match names.get(value) {
        Some(name) => name.as_str(),
        None => "",
    }
}

// What makes the value of this name: two others, or the half-space with its offset.
fn made_text(
    alloc: Global,
    names: &[String],
    name: &str,
    made: &Node,
) -> Result<String, OutOfMemory> {
    if let Node::Half { oriented, .. } = made {
        let offset = oriented.plane().d().unsigned_abs();
        return format!(in alloc; "{name}:{offset}");
    }
    match sign(made) {
        Some((i, sign, j)) => {
            let (first, second) = (name_of(names, i), name_of(names, j));
            format!(in alloc; "{name}={first}{sign}{second}")
        }
        None => format!(in alloc; "{name}"),
    }
}

// The line of a question, which is a count.
fn line_of(command: &Command) -> u64 {
    match command {
        Command::Count { line, .. } => *line,
        _ => 0,
    }
}

fn step_text(
    alloc: Global,
    names: &[String],
    name: &str,
    step: &Step,
) -> Result<String, OutOfMemory> {
    match &step.task {
        Task::Make(made) => made_text(alloc, names, name, made),
        Task::Turn { from, turn } => {
            let from = name_of(names, *from);
            format!(in alloc; "{name}@{from}*{turn}")
        }
        Task::Ask { command, .. } => format!(in alloc; "?{}", line_of(command)),
    }
}

// The names that the words give the values of the steps, in order.
fn names_in(alloc: Global, words: &str, count: usize) -> Result<Vec<String>, OutOfMemory> {
    let mut names = Vec::new(alloc);
    let mut words = words.split(' ');
    for number in 0..count {
        let word = words.next().unwrap_or("");
        names.push(name_in(alloc, word, number)?)?;
    }
    Ok(names)
}

fn plan_text(alloc: Global, plan: &Plan, words: &str) -> Result<String, OutOfMemory> {
    let names = names_in(alloc, words, plan.steps.len())?;
    let mut text = String::new(alloc);
    for (step, name) in plan.steps.iter().zip(&names) {
        if !text.is_empty() {
            text.push(' ')?;
        }
        text.push_str(step_text(alloc, &names, name.as_str(), step)?.as_str())?;
    }
    Ok(text)
}

// The steps of the script as a text, with the names that the words give their values.
fn planned(alloc: Global, lines: &[u8], words: &str) -> Result<String, Fail> {
    let script = parse(alloc, lines)?;
    let plan = plan(alloc, &script)?;
    let text = plan_text(alloc, &plan, words)?;
    Ok(text)
}

// The steps that a word of a row of `PLANNED` stands for.
fn steps_of(word: &str) -> &str {
    match word {
        "a" => "0:0 1:2 2=0&1",
        "b" => "3:10 4:12 5=3&4",
        "c" => "6:20 7:22 8=6&7",
        "d" => "9:30 10:32 11=9&10",
        "e" => "12:40 13:42 14=12&13",
        "g" => "15:9 16:50 17=15&16",
        "h" => "18:9 19:50 20=18&19",
        _ => word,
    }
}

// The steps that the words of a row stand for, with blanks between.
fn steps_text(alloc: Global, words: &str) -> Result<String, OutOfMemory> {
    let mut text = String::new(alloc);
    for word in words.split(' ') {
        if !text.is_empty() {
            text.push(' ')?;
        }
        text.push_str(steps_of(word))?;
    }
    Ok(text)
}

// The steps of the slabs' lines and of the row's lines.
fn planned_of_slabs(alloc: Global, lines: &str, words: &str) -> Result<String, Fail> {
    let mut all = unfolded(alloc, SLABS)?;
    all.push_str(unfolded(alloc, lines)?.as_str())?;
    planned(alloc, all.as_bytes(), words)
}

#[test]
fn steps_of_scripts(rt: HostRuntime) -> Result<(), Fail> {
    for row in PLANNED.split('\n') {
        let (script, wanted) = row.split_once(" => ").ok_or("a row")?;
        let wanted = steps_text(rt.alloc(), wanted)?;
        let found = planned_of_slabs(rt.alloc(), script, wanted.as_str())?;
        check_text(&rt, found.as_str(), wanted.as_str(), script);
    }
    Ok(())
}

#[test]
fn steps_of_stairs(rt: HostRuntime) -> Result<(), Fail> {
    let script = stairs(rt.alloc(), 32)?;
    let found = planned(rt.alloc(), script.as_slice(), "")?;
    check(&rt, &found.ends_with(STAIRS_END), &true, found.as_str());
    Ok(())
}

// A row of an operation with `count` sets behind the first, each of three half-spaces, and a question about the row.
fn long_row(alloc: Global, word: &str, count: u32) -> Result<String, OutOfMemory> {
    let mut script = String::from_str(alloc, "half r0 1 0 0 0 closed\nand w r0 r0\n")?;
    for number in 1..=count {
        let before = number - 1;
        let lines = format!(in alloc;
            "half h{number} 1 0 0 -{number} closed\nand t{number} h{number} w\n{word} r{number} r{before} t{number}\n"
        )?;
        script.push_str(lines.as_str())?;
    }
    let question = format!(in alloc; "count r{count}\n")?;
    script.push_str(question.as_str())?;
    Ok(script)
}

fn step_count(alloc: Global, lines: &str) -> Result<usize, Fail> {
    let script = parse(alloc, lines.as_bytes())?;
    let plan = plan(alloc, &script)?;
    Ok(plan.steps.len())
}

// A tree of joined sets has one operation fewer than sets, and one more where sets are subtracted from a set. So a row
// of over 4,000 half-spaces has as many steps as names, nearly as many as a script may bind, and one question.
fn check_row(rt: &impl Abort, alloc: Global, word: &str) -> Result<(), Fail> {
    let script = long_row(alloc, word, 1364)?;
    let steps = step_count(alloc, script.as_str())?;
    check(rt, &steps, &4095, word);
    Ok(())
}

#[test]
fn rows_of_most_names(rt: HostRuntime) -> Result<(), Fail> {
    for word in ["or", "xor", "diff"] {
        check_row(&rt, rt.alloc(), word)?;
    }
    Ok(())
}

// A script of `count` questions about one set, which one step makes.
fn questions(alloc: Global, count: u32) -> Result<String, OutOfMemory> {
    let mut script = String::from_str(alloc, "full a\n")?;
    for _ in 0..count {
        script.push_str("count a\n")?;
    }
    Ok(script)
}

// As many questions as the bytes of the longest script allow.
#[test]
fn most_questions(rt: HostRuntime) -> Result<(), Fail> {
    let script = questions(rt.alloc(), 131_071)?;
    let steps = step_count(rt.alloc(), script.as_str())?;
    check(&rt, &steps, &131_072, "questions");
    Ok(())
}
