//! The axes of an overlay: the svertices of both maps, and the directions in which items of the two maps cross.

ghost use Rattle.std.specs.Prelude.{◌≡◌, ◌↔◌, ◌<◌};
ghost use Rattle.nef_geo.specs.Prelude.{length, IsTrue, IfOk, OnOk, normal_limit, svertex_limit, IsAtMost, vector_of, IsAt};
ghost use Rattle.law_geometry.specs.sphere.Maps.{Item as PlainItem, items};
ghost use Rattle.nef_smap.specs.Maps.{map_of, IsSphereMap};
ghost use Rattle.nef_sover.specs.Tracks.{track_normal, track_number, IsOnTrack, IsTrackOf, AreTracks, AreSmallTracks};
ghost use Rattle.nef_sover.specs.Axes.{AddsAxes, AreAxes, IsOnSvertex, IsTrackMeet, IsMeetAlong, MeetsOne, MeetsSome};

use crate::OutOfMemory;
use nef_arc::{Arc, strictly_on};
use nef_geo::{Dir, cross};
use nef_smap::{Item, SLoop, SphereMap};
use std::alloc::Global;

/// A direction of an overlay. `crossed` has the numbers of an item of the first map and one of the second that cross
/// there, if any do, so that no map needs to be searched for the direction.
#[derive(Clone, Copy)]
pub(crate) struct Axis {
    pub(crate) dir: Dir,
    pub(crate) crossed: Option<(usize, usize)>,
}

// An item of a map, with its number: an arc as a set of directions, so that its ends are looked up once, or the sloop.
#[derive(Clone, Copy)]
enum Track {
    Arc(usize, Arc),
    Sloop(usize, SLoop),
}

impl Track {
    // The normal of the item's great circle.
    fn normal(&self) -> &Dir
        ensures normal { vector_of result.now ≡ track_normal self.now }
    {
        match self {
            Track::Arc(_, arc) => &arc.normal,
            Track::Sloop(_, circle) => &circle.normal,
        }
    }

    // Whether the direction lies on the sloop, or strictly on the arc.
    fn holds(&self, d: &Dir) -> bool
        ensures on { IsTrue result ↔ IsOnTrack self.now (vector_of d.now) }
    {
        match self {
            Track::Arc(_, arc) => strictly_on(arc, d),
            Track::Sloop(_, circle) => circle.holds(d),
        }
    }

    fn number(&self) -> usize
        ensures number { result ≡ track_number self.now }
    {
        match self {
            Track::Arc(number, _) | Track::Sloop(number, _) => *number,
        }
    }
}

// The track of the item with this number.
fn track_at(map: &SphereMap, number: usize) -> Track
    requires map { IsSphereMap map.now }
    requires within { number < length (items (map_of map.now)) }
    ensures track { (x : PlainItem) × IsAt (items (map_of map.now)) number x × IsTrackOf (map_of map.now) result x }
{
    match map.item_at(number) {
        Item::Arc(arc) => Track::Arc(number, map.great_arc(&arc)),
        Item::Loop(circle) => Track::Sloop(number, circle),
    }
}

// The tracks of the map's items, in order.
fn tracks_of(alloc: Global, map: &SphereMap) -> Result<Vec<Track>, OutOfMemory>
    requires map { IsSphereMap map.now }
    ensures tracks { IfOk result (λ v. AreTracks (map_of map.now) v.items) }
    ensures small { IfOk result (λ v. AreSmallTracks v.items) }
{
    let mut tracks = Vec::with_capacity(alloc, map.item_count())?;
    for number in 0..map.item_count() {
        tracks.push(track_at(map, number))?;
    }
    Ok(tracks)
}

// AddsAxes the directions of the map's svertices.
fn add_svertices(axes: &mut Vec<Axis>, map: &SphereMap) -> Result<(), OutOfMemory>
    requires map { IsSphereMap map.now }
    ensures added { OnOk result (AddsAxes (IsOnSvertex (map_of map.now)) axes.old.items axes.new.items) }
{
    for svertex in map.svertices.as_slice() {
        axes.push(Axis {
            dir: svertex.dir,
            crossed: None,
        })?;
    }
    Ok(())
}

// AddsAxes the direction if both items hold the direction.
fn add_common(axes: &mut Vec<Axis>, x: &Track, y: &Track, d: Dir) -> Result<(), OutOfMemory>
    requires small { IsAtMost svertex_limit (vector_of d) }
    ensures added { OnOk result (AddsAxes (IsMeetAlong x.now y.now (vector_of d)) axes.old.items axes.new.items) }
{
    if x.holds(&d) && y.holds(&d) {
        axes.push(Axis {
            dir: d,
            crossed: Some((x.number(), y.number())),
        })?;
    }
    Ok(())
}

// AddsAxes the directions that both items hold, if their normals aren't parallel: then their great circles meet in two
// opposite directions.
fn add_meets(axes: &mut Vec<Axis>, x: &Track, y: &Track) -> Result<(), OutOfMemory>
    requires x_small { IsAtMost normal_limit (track_normal x.now) }
    requires y_small { IsAtMost normal_limit (track_normal y.now) }
    ensures added { OnOk result (AddsAxes (IsTrackMeet x.now y.now) axes.old.items axes.new.items) }
{
    let Some(ahead) = cross(x.normal(), y.normal()) else {
        return Ok(());
    };
    add_common(axes, x, y, ahead)?;
    add_common(axes, x, y, ahead.back())
}

// AddsAxes the directions in which the item x meets an item of ys.
fn add_meets_with(axes: &mut Vec<Axis>, x: &Track, ys: &[Track]) -> Result<(), OutOfMemory>
    requires x_small { IsAtMost normal_limit (track_normal x.now) }
    requires ys_small { AreSmallTracks ys.now }
    ensures added { OnOk result (AddsAxes (MeetsOne x.now ys.now) axes.old.items axes.new.items) }
{
    for y in ys {
        add_meets(axes, x, y)?;
    }
    Ok(())
}

// AddsAxes the directions in which an item of xs meets an item of ys.
fn add_crossings(axes: &mut Vec<Axis>, xs: &[Track], ys: &[Track]) -> Result<(), OutOfMemory>
    requires xs_small { AreSmallTracks xs.now }
    requires ys_small { AreSmallTracks ys.now }
    ensures added { OnOk result (AddsAxes (MeetsSome xs.now ys.now) axes.old.items axes.new.items) }
{
    for x in xs {
        add_meets_with(axes, x, ys)?;
    }
    Ok(())
}

/// The directions of the svertices of both maps, and the directions in which an item of the first map meets an item of
/// the second with another normal, in increasing order, once each. Where two items meet, their numbers come along.
pub(crate) fn axes_of(alloc: Global, a: &SphereMap, b: &SphereMap) -> Result<Vec<Axis>, OutOfMemory>
    requires first { IsSphereMap a.now }
    requires second { IsSphereMap b.now }
    ensures axes { IfOk result (λ v. AreAxes (map_of a.now) (map_of b.now) v.items) }
{
    let xs = tracks_of(alloc, a)?;
    let ys = tracks_of(alloc, b)?;
    let mut axes = Vec::new(alloc);
    add_svertices(&mut axes, a)?;
    add_svertices(&mut axes, b)?;
    add_crossings(&mut axes, xs.as_slice(), ys.as_slice())?;
    axes.sort_unstable_by_key(|axis| axis.dir);
    axes.dedup_by_key(|axis| axis.dir);
    Ok(axes)
}
