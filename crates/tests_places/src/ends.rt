//! Where rays end: `end POINT DIRECTION`. The answer is `at` or `after`, as the label changes at a point or just after
//! the point; this point; and the label from there on. It is `frame` where the ray begins on the border of the frame.

ghost use Rattle.std.specs.Prelude.{◌≤◌};
ghost use Rattle.nef_complex.specs.Prelude.{IsTrue, IfSome, ray_direction_limit, ray_point_limit, ray_weight_limit, Set, IsAtMost, IsPointAtMost, vector_of, point_of, ShowsSet};

use crate::tables::check_table;
use crate::words::{is_within, label_word, numbers, point};
use nef_complex::{Complex, OutOfMemory};
use nef_geo::{Dir, Point};
use nef_ray::{RayEnd, ray_end};
use std::alloc::Global;

// The greatest size of a number of a ray's start, the greatest weight, the greatest size of a direction's number.
const GREATEST_NUMBER: u64 = 1 << 21;

const GREATEST_WEIGHT: u64 = 1 << 10;

const GREATEST_WAY: u64 = 1 << 10;

fn is_start(p: &Point) -> bool
    ensures small { IsTrue result → IsPointAtMost ray_point_limit ray_weight_limit (point_of p.now) }
{
    is_within(p.x(), GREATEST_NUMBER)
        && is_within(p.y(), GREATEST_NUMBER)
        && is_within(p.z(), GREATEST_NUMBER)
        && is_within(p.w(), GREATEST_WEIGHT)
}

fn is_way(d: &Dir) -> bool
    ensures small { IsTrue result → IsAtMost ray_direction_limit (vector_of d.now) }
{
    is_within(d.x(), GREATEST_WAY)
        && is_within(d.y(), GREATEST_WAY)
        && is_within(d.z(), GREATEST_WAY)
}

// The direction of three numbers, if they are small enough.
fn way(x: i64, y: i64, z: i64) -> Option<Dir>
    ensures small { IfSome result (λ d. IsAtMost ray_direction_limit (vector_of d)) }
{
    if !is_within(x, GREATEST_WAY) || !is_within(y, GREATEST_WAY) || !is_within(z, GREATEST_WAY) {
        return None;
    }
    let d = Dir::of(x, y, z)?;
    if is_way(&d) { Some(d) } else { None }
}

// Adds where a ray ends.
fn add_ray_end(text: &mut String, end: &RayEnd) -> Result<(), OutOfMemory> {
    let p = &end.point;
    text.push_str(if end.after { "after" } else { "at" })?;
    write!(
        text,
        " {} {} {} {} {}",
        p.x(),
        p.y(),
        p.z(),
        p.w(),
        label_word(end.label)
    )
}

// Adds where the ray from the point along the direction ends, if the point lies within the frame.
fn add_end_from(alloc: Global, text: &mut String, c: &Complex, p: &Point, d: &Dir) -> Option<()>
    requires shows { (s : Set) × ShowsSet s c.now }
    requires small { IsAtMost ray_direction_limit (vector_of d.now) }
{
    if !p.in_frame() {
        return text.push_str("frame").ok();
    }
    if !is_start(p) {
        return None;
    }
    add_ray_end(text, &ray_end(alloc, c, p, d).ok()?).ok()
}

/// Adds the answer to `end` of a point and a direction.
pub(crate) fn add_end(alloc: Global, text: &mut String, c: &Complex, words: &str) -> Option<()>
    requires shows { (s : Set) × ShowsSet s c.now }
{
    let p = point(words, 0)?;
    let [x, y, z, _] = numbers(words, 4)?;
    add_end_from(alloc, text, c, &p, &way(x, y, z)?)
}

// The half x <= 0 with its plane, so the label changes just after the plane.
const CLOSED_HALF: &str = "\
1 0 0 0
end -1 0 0 1 1 0 0 => after 0 0 0 1 not # through the plane
end 1 0 0 2 1 0 0 => at 2048 0 0 1 out # to the border of the frame";

// The half x < 0, which is the frame without x >= 0: the plane doesn't belong to the half, so the label changes there.
const OPEN_HALF: &str = "\
full; diff -1 0 0 0
end -1 0 0 1 1 0 0 => at 0 0 0 1 not # to the plane";

// The closed unit box.
const BOX: &str = "\
-1 0 0 0, 1 0 0 -1, 0 -1 0 0, 0 1 0 -1, 0 0 -1 0, 0 0 1 -1
end -1 1 1 2 1 0 0 => at 0 1 1 2 in # from outside to a side
end 1 1 1 2 1 0 0 => after 2 1 1 2 not # from inside through a side
end -1 -1 -1 1 1 1 1 => at 0 0 0 1 in # from outside to a corner
end 0 0 0 1 -1 0 0 => at -2048 0 0 1 out # from a corner away to the border of the frame
end 2048 0 0 1 1 0 0 => frame # from the border of the frame";

#[test]
fn ends_of_rays(rt: HostRuntime) {
    check_table(&rt, rt.alloc(), CLOSED_HALF);
    check_table(&rt, rt.alloc(), OPEN_HALF);
    check_table(&rt, rt.alloc(), BOX);
}
