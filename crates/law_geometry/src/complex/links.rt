//! The links of items and of sides, whose classes are the facets and the volumes of a complex, and the points that
//! links join (Granados et al., "Boolean Operations on 3D Selective Nef Complexes", ESA 2003). Here a complex is plain
//! data; nothing runs. Each law is a clause of a function with an empty body.

ghost use Rattle.law_geometry.specs.complex.links.Components.{ItemsJoined, SidesJoined, ItemsHavePoints, SidesHavePoints};

/// Each item and each side has points. Links between two items or two sides join all points at both by points that are
/// as flat; links between sides do so where the upward direction is above each item.
pub fn link_laws()
    ensures items { ItemsJoined }
    ensures sides { SidesJoined }
    ensures item_points { ItemsHavePoints }
    ensures side_points { SidesHavePoints }
{}
