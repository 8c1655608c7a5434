//! Sets whose planes touch the frame, come close to each other, or all pass through one point; long operation chains.

use crate::runs::{check, check_rows, gives};
use std::alloc::{AllocError, Global};
use std::sync::Wait;
use std::thread::Threads;

// Planes that meet the frame in a corner alone, that pass through its corners and edges, or that have the greatest
// numbers; a thin wedge; a solid without one point.
const PLANES: &str = "half A 1 1 1 -6144 open / full U / same A U => same
half B 1 1 1 6144 closed / empty E / same B E => same
half D 1 1 0 0 closed / count D => 8 14 9 3
half E 1 1 1 -2048 closed / count E / half G 1 1 1 -1024 closed / count G => 8 15 10 3 / 14 24 13 3
half A 1024 1023 1021 -1048575 closed / count A => 14 24 13 3
half A 2048 2047 2045 -4194303 closed / count A => 12 20 11 3
half A 1024 1023 0 0 open / half B -1023 -1022 0 0 open / and C A B / has C 2045 -2047 0 4 / \
    has C 1023 -1024 0 4 / has C 1 -1 0 1 / count C => in / not / not / 14 23 12 3
half Pa -1 0 0 0 closed / half Pb 1 0 0 0 closed / half Pc 0 -1 0 0 closed / \
    half Pd 0 1 0 0 closed / half Pe 0 0 -1 0 closed / half Pf 0 0 1 0 closed / and Pg Pa Pb / \
    and Ph Pg Pc / and Pi Ph Pd / and Pj Pi Pe / and P Pj Pf / full U / diff K U P / count K / \
    cl C K / same C U => 9 12 6 2 / same";

// A script of the points on or above all of 49 planes through one point, where the four steepest planes bound the set.
fn planes_through_a_point(alloc: Global) -> Result<String, AllocError> {
    let mut script = String::from_str(alloc, "full a0\n")?;
    for plane in 0..49i32 {
        let (x, y, next) = (plane / 7 - 3, plane % 7 - 3, plane + 1);
        script.push_str(format!(in alloc; "half h{plane} {x} {y} -1 0 closed\n")?.as_str())?;
        script.push_str(format!(in alloc; "and a{next} a{plane} h{plane}\n")?.as_str())?;
    }
    script.push_str("and b h0 h6\nand c b h42\nand D c h48\nsame a49 D\ncount a49\n")?;
    Ok(script)
}

// A script of complements and closures in turn, fifty of each: after every fourth step a closed half-space comes back.
fn closures_of_complements(alloc: Global) -> Result<String, AllocError> {
    let mut script = String::from_str(alloc, "half A 1 0 0 0 closed\nnot n1 A\n")?;
    for step in 2..=100u32 {
        let before = step - 1;
        let word = if step % 2 == 0 { "cl" } else { "not" };
        script.push_str(format!(in alloc; "{word} n{step} n{before}\n")?.as_str())?;
    }
    script.push_str("same n100 A\nsame n98 A\n")?;
    Ok(script)
}

fn planes_are_worked<R: Threads + Wait + Sync>(rt: &R, alloc: Global) -> Result<bool, AllocError> {
    let script = planes_through_a_point(alloc)?;
    gives(rt, alloc, "", script.as_str(), 0, "same\n13 20 11 3\n")
}

fn chain_is_worked<R: Threads + Wait + Sync>(rt: &R, alloc: Global) -> Result<bool, AllocError> {
    let script = closures_of_complements(alloc)?;
    gives(rt, alloc, "", script.as_str(), 0, "same\ndiffers\n")
}

#[test]
fn planes_and_chains(rt: HostRuntime) {
    check_rows(&rt, rt.alloc(), "", PLANES, 0);
    check(
        &rt,
        planes_are_worked(&rt, rt.alloc()).ok(),
        "",
        "planes through a point",
    );
    check(
        &rt,
        chain_is_worked(&rt, rt.alloc()).ok(),
        "",
        "closures of complements",
    );
}
