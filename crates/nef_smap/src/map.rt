//! What a sphere map is made of.

ghost use Rattle.std.specs.Prelude.{◌<◌, ◌^◌};

use nef_geo::{Dir, Label, List};
use nef_star::Star;

/// A direction that stands for an edge. `around` is the label of the face round the svertex, given exactly where no arc
/// begins or ends there.
#[derive(Clone, Copy, PartialEq, Eq)]
pub struct SVertex {
    pub dir: Dir,
    pub mark: Label,
    pub around: Option<Label>,
}

/// An arc of a great circle, which stands for a facet. The arc goes counterclockwise about its normal from one svertex
/// to another, or once round to the same. `pos` is the label of the face on the side to which the normal points, `neg`
/// the label of the face on the other side.
#[derive(Clone, Copy, PartialEq, Eq)]
pub struct SArc {
    /// The number of the svertex where the arc begins.
    pub source: usize,
    /// The number of the svertex where the arc ends.
    pub target: usize,
    pub normal: Dir,
    pub mark: Label,
    pub pos: Label,
    pub neg: Label,
    pub ghost source_small: { source < 2 ^ 64 },
    pub ghost target_small: { target < 2 ^ 64 },
}

/// A whole great circle without a svertex.
#[derive(Clone, Copy, PartialEq, Eq)]
pub struct SLoop {
    pub normal: Dir,
    pub mark: Label,
    pub pos: Label,
    pub neg: Label,
}

/// A sphere map. `mark` is the label of the point itself. Svertices stand in increasing order of their directions, arcs
/// in increasing order of their normals and then of their sources. `ground` is the label of the one face, given exactly
/// where the map has no svertices and no sloop.
#[derive(Drop)]
pub struct SphereMap {
    pub mark: Label,
    pub svertices: List<SVertex>,
    pub arcs: List<SArc>,
    pub sloop: Option<SLoop>,
    pub ground: Option<Label>,
}

/// What an overlay gives: the stars of all directions that may be svertices, in increasing order of their axes; the
/// circle on which no axis lies, if there is one; and the one label of a map with neither.
#[derive(Drop)]
pub struct RawStars {
    pub mark: Label,
    pub stars: List<Star>,
    pub sloop: Option<SLoop>,
    pub ground: Option<Label>,
}

/// Where a direction lies on a map.
#[derive(Clone, Copy)]
pub enum SPlace {
    /// On the svertex with this number.
    SVertex(usize),
    /// Strictly on the arc with this number.
    Arc(usize),
    /// On the sloop.
    Loop,
    /// In the face that the side with this number sees.
    Face(usize),
}
