//! The sides and items of a map made by hand, and a copy of it.

use crate::texts::{add_items, add_label, add_numbers};
use crate::words::{check, normal};
use nef_geo::{Dir, Label, List};
use nef_smap::{SArc, SLoop, SVertex, SphereMap, copy, side_label, sides};
use std::alloc::{AllocError, Global};

// The labels of the sides; the svertices, the arc and the sloop of a copy; and the marks and the sides of the items.
// The arc is item 0 and the sloop item 1; the side round the svertex comes before the sides of the items.
const TEXT: &str = " o i n n o; \
/ s 0 0 -1 i o / s 0 1 1 i - / s 1 0 1 i - / a 1 2 1 1 -1 n i n / l 0 0 1 i n o; n 1 2 i 3 4";

fn svertex(dir: Dir, around: Option<Label>) -> SVertex {
    SVertex {
        dir,
        mark: Label::In,
        around,
    }
}

fn svertices(
    alloc: Global,
    below: Dir,
    first: Dir,
    second: Dir,
) -> Result<List<SVertex>, AllocError> {
    let mut svertices = List::new(alloc);
    svertices.push(svertex(below, Some(Label::Out)))?;
    svertices.push(svertex(first, None))?;
    svertices.push(svertex(second, None))?;
    Ok(svertices)
}

fn arcs(alloc: Global, normal: Dir) -> Result<List<SArc>, AllocError> {
    let mut arcs = List::new(alloc);
    arcs.push(SArc {
        source: 1,
        target: 2,
        normal,
        mark: Label::Not,
        pos: Label::In,
        neg: Label::Not,
    })?;
    Ok(arcs)
}

fn map_of(svertices: List<SVertex>, arcs: List<SArc>, above: Dir) -> SphereMap {
    let sloop = SLoop {
        normal: above,
        mark: Label::In,
        pos: Label::Not,
        neg: Label::Out,
    };
    SphereMap {
        mark: Label::In,
        svertices,
        arcs,
        sloop: Some(sloop),
        ground: None,
    }
}

fn of_ways(alloc: Global, above: Dir, first: Dir, second: Dir, about: Dir) -> Option<SphereMap> {
    let svertices = svertices(alloc, above.back(), first, second).ok()?;
    let arcs = arcs(alloc, about).ok()?;
    Some(map_of(svertices, arcs, above))
}

// A map with a svertex without arcs below, and an arc between two svertices above a sloop.
fn by_hand(alloc: Global) -> Option<SphereMap> {
    let (above, first) = (normal("0 0 1")?, normal("0 1 1")?);
    let (second, about) = (normal("1 0 1")?, normal("1 1 -1")?);
    of_ways(alloc, above, first, second, about)
}

fn add_side_labels(text: &mut String, map: &SphereMap) -> Result<(), AllocError> {
    for side in 0..sides(map) {
        add_label(text, side_label(map, side))?;
    }
    Ok(())
}

fn add_copy(alloc: Global, text: &mut String, map: &SphereMap) -> Result<(), AllocError> {
    let second = copy(alloc, map)?;
    add_items(text, &second)
}

// Adds for each item the mark, and the sides to which the item's normal points and doesn't point.
fn add_item_sides(text: &mut String, map: &SphereMap) -> Result<(), AllocError> {
    for number in 0..map.item_count() {
        add_label(text, map.item_at(number).mark())?;
        add_numbers(
            text,
            &[map.item_side(number, true), map.item_side(number, false)],
        )?;
    }
    Ok(())
}

fn text_of(alloc: Global, map: &SphereMap) -> Result<String, AllocError> {
    let mut text = String::new(alloc);
    add_side_labels(&mut text, map)?;
    text.push_str(";")?;
    add_copy(alloc, &mut text, map)?;
    text.push_str(";")?;
    add_item_sides(&mut text, map)?;
    Ok(text)
}

fn is_text(text: Result<String, AllocError>, wanted: &str) -> bool {
    match text {
        Ok(text) => text.as_str() == wanted,
        Err(_) => false,
    }
}

fn has_item(map: &SphereMap, d: &str, wanted: Option<usize>) -> bool {
    match normal(d) {
        Some(d) => map.item_with(&d) == wanted,
        None => false,
    }
}

fn has_items(map: &SphereMap) -> bool {
    has_item(map, "1 1 -1", Some(0))
        && has_item(map, "0 0 1", Some(1))
        && has_item(map, "0 0 -1", None)
}

fn holds(alloc: Global) -> bool {
    match by_hand(alloc) {
        Some(map) => is_text(text_of(alloc, &map), TEXT) && has_items(&map),
        None => false,
    }
}

#[test]
fn sides_and_items_by_number(rt: HostRuntime) {
    check(&rt, holds(rt.alloc()), TEXT);
}
