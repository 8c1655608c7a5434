//! The theory of topology on sphere maps: the interior, the closure, the boundary and the complement of a map's set, by
//! the map's labels and by its stars. Nothing runs; each law is a clause of a function with an empty body.

ghost use Rattle.law_geometry.specs.sphere.border.Laws.{TopologyLabelling, TopologyOneLabel, ListsAppended, TopologyStars, TopologyMark, TopologyCone, RegularCone, ExchangedMap};

/// Each direction of a valid map has one label in the interior, the closure, the boundary and the complement. The signs
/// on the map's forms determine this label, which depends on whether all, and whether some, of the close labels are In.
pub fn label_laws()
    ensures labelling { TopologyLabelling }
    ensures one { TopologyOneLabel }
    ensures lists { ListsAppended }
{}

/// The remarked stars of a map show the labels of the topological operation, and its mark comes from the map's listed
/// labels; for the complement it is enough to exchange In and Not everywhere.
pub fn star_laws()
    ensures stars { TopologyStars }
    ensures mark { TopologyMark }
    ensures exchanged { ExchangedMap }
{}

/// A map with the labels and the mark of a topological operation on M shows the set of that operation on M's set.
pub fn cone_laws()
    ensures cone { TopologyCone }
    ensures regular { RegularCone }
{}
