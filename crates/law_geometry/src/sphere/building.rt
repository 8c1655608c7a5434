//! The theory of overlays and of least maps: the stars of two maps overlaid show the combined labels, and simplified
//! stars make the one least map with their labels. Each law is a clause of a function with an empty body.

ghost use Rattle.law_geometry.specs.sphere.building.Laws.{LabelsBuild, KeptShow, FromStars, MapLabelling, OpLabelling, RawShowsOp};

/// A map that is built of a labelling is valid and least and has the labelling's labels; stars that kept their labels
/// show the same labelling; a map made of the simplified stars of a labelling is the ordered least map with its labels.
pub fn building_laws()
    ensures build { LabelsBuild }
    ensures kept { KeptShow }
    ensures stars { FromStars }
{}

/// The labels of a valid map, and an operation on the labels of two valid maps, are determined by the signs of finitely
/// many forms; the stars of two maps overlaid show the operation's labels.
pub fn overlay_laws()
    ensures map { MapLabelling }
    ensures op { OpLabelling }
    ensures raw { RawShowsOp }
{}
