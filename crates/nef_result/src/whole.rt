//! The sets that are made of no others: the complexes of the empty set and of the whole frame, with the law of the frame's
//! corners; and the map of a half at a point.

ghost use Rattle.std.specs.Prelude.{◌≡◌, ◌∷◌, ◌++◌};
ghost use Rattle.nef_result.specs.Prelude.{List as Sequence, true, false, map, IfOk, OnOk, [], Set, Lies, Out, Not, In, form_of, vector_of, given_form, point_of, Cone, ShowsSet, map_of, IsLeastMap, axes, frame_end, FrameCorner, ends, all_ends, IsWall, IsFrameCornerOf, AreFrameCorners, sorted_sides, CornersAreVertices, CornersAreShown, inside_label, IsMapOfPlane};

use crate::OutOfMemory;
use nef_complex::{Complex, Vertex};
use nef_edges::pair;
use nef_geo::{
    Dir, HALF_SIDE, Label, List, Oriented, Plane, Point, Sign, axis_x, axis_y, axis_z, plane_normal,
};
use nef_smap::{SLoop, SphereMap, plane_map};
use nef_star::Op;
use nef_stopo::{combine, exchanged};
use std::alloc::Global;

// The map of the frame at a side of it, at right angles to the axis, at its high end or its low one: `label` on the
// inward side, and `Out` on the outward side and in the plane itself.
fn wall(alloc: Global, axis: Dir, high: bool, label: Label) -> SphereMap
    requires axis { Lies axes (vector_of axis) }
    ensures wall { IsWall (vector_of axis) high label result }
{
    let pos = if high { Label::Out } else { label };
    let neg = if high { label } else { Label::Out };
    plane_map(
        alloc,
        SLoop {
            normal: axis,
            mark: Label::Out,
            pos,
            neg,
        },
    )
}

// The end of each axis of the frame.
fn end(high: bool) -> i64
    ensures end { result ≡ frame_end high }
{
    if high { HALF_SIDE } else { -HALF_SIDE }
}

// The frame's corner at these ends of the axes, with the map that has the label on the inward side of all three planes.
fn corner(alloc: Global, label: Label, x: bool, y: bool, z: bool) -> Result<Vertex, OutOfMemory>
    ensures corner { IfOk result (IsFrameCornerOf label (ends x y z)) }
{
    let x_wall = wall(alloc, axis_x(), x, label);
    let y_wall = wall(alloc, axis_y(), y, label);
    let z_wall = wall(alloc, axis_z(), z, label);
    let two_walls = combine(alloc, &x_wall, &y_wall, Op::And)?;
    let map = combine(alloc, &two_walls, &z_wall, Op::And)?;
    Ok(Vertex {
        point: Point::of(end(x), end(y), end(z), 1),
        map,
    })
}

// Adds the two corners of the frame at these ends of the axes of x and y.
fn add_two(
    vertices: &mut List<Vertex>,
    alloc: Global,
    label: Label,
    x: bool,
    y: bool,
) -> Result<(), OutOfMemory>
    ensures added { OnOk result ((ks : Sequence FrameCorner) → AreFrameCorners label ks vertices.old → AreFrameCorners label ((ks ++ ends x y false ∷ []) ++ ends x y true ∷ []) vertices.new) }
{
    vertices.push(corner(alloc, label, x, y, false)?)?;
    vertices.push(corner(alloc, label, x, y, true)?)?;
    Ok(())
}

// The vertices at the eight corners of the frame, in order.
fn corners(alloc: Global, label: Label) -> Result<List<Vertex>, OutOfMemory>
    ensures corners { IfOk result (AreFrameCorners label all_ends) }
{
    let mut vertices = List::new(alloc);
    add_two(&mut vertices, alloc, label, false, false)?;
    add_two(&mut vertices, alloc, label, false, true)?;
    add_two(&mut vertices, alloc, label, true, false)?;
    add_two(&mut vertices, alloc, label, true, true)?;
    Ok(vertices)
}

// The six planes of the frame in order of their four numbers, which is the reverse of the order of their sides.
fn sorted_planes(alloc: Global) -> Result<List<Plane>, OutOfMemory>
    ensures planes { IfOk result (λ hs. map form_of hs ≡ sorted_sides) }
{
    let mut planes = List::new(alloc);
    for k in 0..6 {
        planes.push(Plane::frame(5 - k))?;
    }
    Ok(planes)
}

/// The complex of the whole frame where the label is `In`, and of the empty set where it is `Not`. `OutOfMemory` says
/// that memory was wanted and not found.
pub fn frame(alloc: Global, label: Label) -> Result<Complex, OutOfMemory>
    requires some { label ≡ Out → ⊥ }
    ensures full { label ≡ In → IfOk result (λ c. ShowsSet Set.full c) }
    ensures empty { label ≡ Not → IfOk result (λ c. ShowsSet Set.empty c) }
{
    let planes = sorted_planes(alloc)?;
    let vertices = corners(alloc, label)?;
    let complex = pair(alloc, planes, vertices)?;
    Ok(complex)
}

/// The eight corners of the frame are vertices of every set, and each complex that shows a set has a vertex at each.
pub fn corner_laws()
    ensures vertices { CornersAreVertices }
    ensures shown { CornersAreShown }
{}

// The label of points of the frame that a set holds at, or doesn't.
fn inside(holds: bool) -> Label
    ensures label { result ≡ inside_label holds }
{
    if holds { Label::In } else { Label::Not }
}

// The map of the half at a point of its plane, as if there were no frame.
fn map_of_plane(alloc: Global, oriented: &Oriented, closed: bool) -> SphereMap
    ensures map { IsMapOfPlane (given_form oriented.now) closed result }
{
    let turned = oriented.flipped();
    plane_map(
        alloc,
        SLoop {
            normal: plane_normal(&oriented.plane()),
            mark: inside(closed),
            pos: inside(turned),
            neg: inside(!turned),
        },
    )
}

/// The least map of a half at `p`, from the whole frame's map there: the half has the points of the frame where the
/// given `a x + b y + c z + d w` is negative, and those where it is zero if it is closed. `OutOfMemory` says that memory
/// was wanted and not found; off the half's plane none is wanted.
pub fn half_map(
    alloc: Global,
    whole: SphereMap,
    oriented: &Oriented,
    closed: bool,
    p: &Point,
) -> Result<SphereMap, OutOfMemory>
    requires whole { IsLeastMap whole }
    requires frame { Cone (map_of whole) Set.full (point_of p.now) }
    ensures least { IfOk result (λ m. IsLeastMap m) }
    ensures cone { IfOk result (λ m. Cone (map_of m) (Set.half (given_form oriented.now) closed) (point_of p.now)) }
{
    match oriented.side(p) {
        Sign::Minus => Ok(whole),
        Sign::Zero => {
            let half = map_of_plane(alloc, oriented, closed);
            let map = combine(alloc, &whole, &half, Op::And)?;
            Ok(map)
        }
        Sign::Plus => Ok(exchanged(whole)),
    }
}
