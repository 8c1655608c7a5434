//! Scripts of sets of many boxes or slabs.

use std::alloc::{AllocError, Global};

// The slabs along this normal from each odd number to the next number, up to the even number `last`: where an odd
// number of half-spaces hold. The first half-space takes one statement, and each other one two.
fn slabs(alloc: Global, name: &str, normal: &str, last: u32) -> Result<String, AllocError> {
    let mut script = format!(in alloc; "half {name}1 {normal} -1 closed\n")?;
    for number in 2..=last {
        let before = number - 1;
        let lines = format!(in alloc;
            "half {name}h{number} {normal} -{number} closed\nxor {name}{number} {name}{before} {name}h{number}\n"
        )?;
        script.push_str(lines.as_str())?;
    }
    Ok(script)
}

/// Boxes with the name `G`, where the slabs along x, y and z meet. The last of 6 `last` - 1 statements makes the boxes.
pub(crate) fn grid(alloc: Global, last: u32) -> Result<String, AllocError> {
    let (xs, ys) = (
        slabs(alloc, "x", "1 0 0", last)?,
        slabs(alloc, "y", "0 1 0", last)?,
    );
    let zs = slabs(alloc, "z", "0 0 1", last)?;
    format!(in alloc; "{xs}{ys}{zs}and xy x{last} y{last}\nand G xy z{last}\n")
}

/// Boxes with the name `G`, where the slabs along x meet the first slab along y and the first along z.
pub(crate) fn comb(alloc: Global, last: u32) -> Result<String, AllocError> {
    let (xs, ys) = (
        slabs(alloc, "x", "1 0 0", last)?,
        slabs(alloc, "y", "0 1 0", 2)?,
    );
    let zs = slabs(alloc, "z", "0 0 1", 2)?;
    format!(in alloc; "{xs}{ys}{zs}and xy x{last} y2\nand G xy z2\n")
}
