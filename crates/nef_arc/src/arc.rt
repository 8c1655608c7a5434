//! Arcs of great circles, and what two arcs have in common.

ghost use Rattle.std.specs.Prelude.{◌≡◌};
ghost use Rattle.nef_geo.specs.Prelude.{pos, dot, vector_of};

use nef_geo::Dir;

/// The set of directions strictly passed when going counterclockwise about the normal from the source to the target:
/// where these are one, all of the circle but that direction. An arc may be longer than half a circle.
#[derive(Clone, Copy)]
pub struct Arc {
    pub source: Dir,
    pub target: Dir,
    pub normal: Dir,
    pub ghost source_level: { dot (vector_of normal) (vector_of source) ≡ pos 0 },
    pub ghost target_level: { dot (vector_of normal) (vector_of target) ≡ pos 0 },
}

impl Arc {
    /// The arc counterclockwise about the normal from the source to the target, both perpendicular to the normal.
    pub fn of(source: Dir, target: Dir, normal: Dir) -> Arc
        requires source_level { dot (vector_of normal) (vector_of source) ≡ pos 0 }
        requires target_level { dot (vector_of normal) (vector_of target) ≡ pos 0 }
        ensures source { result.source ≡ source }
        ensures target { result.target ≡ target }
        ensures normal { result.normal ≡ normal }
    {
        Arc {
            source,
            target,
            normal,
        }
    }
}

/// The directions strictly on both of two arcs whose normals aren't parallel, in their order as triples of numbers.
#[derive(Clone, Copy)]
pub enum Crossing {
    Nowhere,
    One(Dir),
    Two(Dir, Dir),
}
