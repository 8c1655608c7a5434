//! The existence of least sphere maps: labels that the signs of finitely many forms determine are those of an ordered
//! map, so every set has one at every point. Each law is a clause of a function with an empty body.

ghost use Rattle.law_geometry.specs.sphere.cones.Laws.{EveryPointHasMap, EveryOpHasMap};

/// Every set has a least map at every point, and every operation on two maps has a least map.
pub fn cone_laws()
    ensures point { EveryPointHasMap }
    ensures op { EveryOpHasMap }
{}
