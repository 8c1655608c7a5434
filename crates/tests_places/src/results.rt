//! Maps of halves at the origin, merged carriers, and classes that links join.

ghost use Rattle.std.specs.Prelude.{◌<◌};
ghost use Rattle.nef_complex.specs.Prelude.{IfSome, Set, point_of, Cone};
ghost use Rattle.nef_smap.specs.Maps.{map_of, IsLeastMap};

use crate::items::{add_planes, letter};
use crate::words::{add_numbers, case_of, check, oriented, parted};
use nef_classes::{Link, class_numbers, class_of_each};
use nef_complex::{Complex, OutOfMemory, Table};
use nef_geo::{Label, List, Plane, Point};
use nef_result::{add_carrier, copy_carriers, half_map, merge_carriers};
use nef_smap::{SphereMap, face_map};
use std::alloc::Global;

// A half, closed or open, where the form of four numbers is negative; and the half's map at the origin: the mark and
// the ground, or the mark and the three labels of the sloop.
const HALVES: &str = "\
closed 1 0 0 0 => iini # the border belongs to it, and holds below
open 1 0 0 0 => nnni # the border doesn't
open -1 0 0 0 => nnin # and holds above
open 1 0 0 -5 => ii # the origin lies inside
closed 1 0 0 5 => nn # the origin lies outside";

// The whole frame's map at a point inside the frame.
fn whole_map(alloc: Global, p: &Point) -> Option<SphereMap>
    ensures least { IfSome result (λ m. IsLeastMap m) }
    ensures cone { IfSome result (λ m. Cone (map_of m) Set.full (point_of p.now)) }
{
    let is_inside = p.in_frame();
    if is_inside {
        let map = face_map(alloc, Label::In, Label::In);
        Some(map)
    } else {
        None
    }
}

fn add_map(text: &mut String, map: &SphereMap) -> Result<(), OutOfMemory> {
    text.push_str(letter(map.mark))?;
    if let Some(label) = map.ground {
        text.push_str(letter(label))?;
    }
    match map.sloop {
        Some(l) => write!(text, "{}{}{}", letter(l.mark), letter(l.pos), letter(l.neg)),
        None => Ok(()),
    }
}

fn half_at_origin(alloc: Global, half: &str) -> Option<SphereMap> {
    let (border, words) = parted(half, " ");
    let oriented = oriented(words)?;
    let origin = Point::of(0, 0, 0, 1);
    let whole = whole_map(alloc, &origin)?;
    half_map(alloc, whole, &oriented, border == "closed", &origin).ok()
}

fn is_half(alloc: Global, row: &str) -> Option<bool> {
    let (half, wanted) = case_of(row)?;
    let map = half_at_origin(alloc, half)?;
    let mut text = String::new(alloc);
    add_map(&mut text, &map).ok()?;
    Some(text.as_str() == wanted)
}

#[test]
fn halves_at_the_origin(rt: HostRuntime) {
    for row in HALVES.split('\n') {
        check(&rt, is_half(rt.alloc(), row) == Some(true), "halves", row);
    }
}

// A complex that has two sides of the frame as carriers, and nothing else.
fn of_carriers(alloc: Global, first: usize, second: usize) -> Result<Complex, OutOfMemory>
    requires first { first < 6 }
    requires second { second < 6 }
{
    let mut carriers = List::new(alloc);
    carriers.push(Plane::frame(first))?;
    carriers.push(Plane::frame(second))?;
    let table = Table::with_rows(alloc, 0, 0)?;
    let mut complex = Complex::of(
        alloc,
        List::new(alloc),
        List::new(alloc),
        List::new(alloc),
        table,
    )?;
    complex.carriers = carriers;
    Ok(complex)
}

// The merged carriers of both, the carriers of `a` with the side x = -2048, and a copy of the carriers of `b`.
fn carriers_text(alloc: Global, a: &Complex, b: &Complex) -> Result<String, OutOfMemory> {
    let mut text = String::new(alloc);
    add_planes(&mut text, merge_carriers(alloc, b, a)?.as_slice())?;
    text.push_str(",")?;
    add_planes(
        &mut text,
        add_carrier(alloc, a, &Plane::frame(0))?.as_slice(),
    )?;
    text.push_str(",")?;
    add_planes(&mut text, copy_carriers(alloc, b)?.as_slice())?;
    Ok(text)
}

fn with_second(alloc: Global, a: &Complex) -> Result<String, OutOfMemory> {
    let b = of_carriers(alloc, 4, 0)?;
    carriers_text(alloc, a, &b)
}

fn carriers_of_two(alloc: Global) -> Result<String, OutOfMemory> {
    let a = of_carriers(alloc, 5, 4)?;
    with_second(alloc, &a)
}

fn is_text(text: Result<String, OutOfMemory>, wanted: &str) -> bool {
    match text {
        Ok(text) => text.as_str() == wanted,
        Err(_) => false,
    }
}

// The first complex has the sides z = 2048 and z = -2048, the second z = -2048 and x = -2048.
#[test]
fn carriers(rt: HostRuntime) {
    let wanted = " 001- 001+ 100+, 001- 001+ 100+, 001+ 100+";
    check(
        &rt,
        is_text(carriers_of_two(rt.alloc()), wanted),
        "carriers",
        wanted,
    );
}

// The class numbers of six items, with links from 5 to 3, from 4 to 1 and from 0 to 3.
fn numbers_of_classes(alloc: Global) -> Result<String, OutOfMemory> {
    let links = [
        Link {
            first: 5,
            second: 3,
        },
        Link {
            first: 4,
            second: 1,
        },
        Link {
            first: 0,
            second: 3,
        },
    ];
    let classes = class_of_each(alloc, 6, links.as_slice())?;
    let numbers = class_numbers(alloc, classes.as_slice())?;
    let mut text = String::new(alloc);
    add_numbers(&mut text, numbers.as_slice())?;
    Ok(text)
}

#[test]
fn classes(rt: HostRuntime) {
    let wanted = " 0 1 2 0 1 0";
    check(
        &rt,
        is_text(numbers_of_classes(rt.alloc()), wanted),
        "classes",
        wanted,
    );
}
