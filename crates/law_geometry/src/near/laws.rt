//! The laws, grouped by their subject.

ghost use Rattle.law_geometry.specs.near.Examples.{HalvesDisjoint, TwoHalves, WallExample, WallPart, EdgeExample, PointAlone};
ghost use Rattle.law_geometry.specs.near.Laws.{HoldsByCell, LabelByCell, GermByCell, FlatByCell, FlatDimByCell, SignsAtSamePoint, HoldsAtSamePoint, LabelAtSamePoint, GermAtSamePoint, FlatDimAtSamePoint, LabelExists, LabelIsUnique, GermExists, GermIsUnique, SetIsItsCone, LabelAlongRay, GermBySlopes, GermTowardZero, NoGermOutInFrame, GermOutForAll, GermOnRay, NearGermExists, NearGermIsUnique, NearGermTowardZero, NearGermBySlopes, ConeNearby, HoldsIsDecided, LabelIsDecided, GermIsDecided, NearGermIsDecided, Representatives, GermRepresentatives, AllGermsAreDecided, AllDirectionsAreDecided, AllNearGermsAreDecided, SameConeIsDecided, FlatIsDecided, FlatDimExists, FlatIsFlatCone, FlatInCarriers, FlatCombination, FlatIsNearCone, FlatBySlopes, FlatNearby, AllFlat, FlatOutside, FlatDimOutside, FlatDimIsUnique, FlatWhereHeld, FlatLine, FlatPlane, VertexIsMeet, EdgeInCarriers, FacetInCarrier, LabelOfCombination, GermOfCombination, NearGermOfCombination, FlatOfTwo, FlatOfOne, InsideAt, ClosedAt, BorderAt, RegularAt, InsideToward, ClosedToward, BorderToward, RegularToward, SameSetBySameCones, SameConeIsSameNear, FlatBySameCone, FlatDimBySameCone, NearGermBySameCone, JoinedBySameSet, SameSetByVertices, LabelAlongSegment, FlatDimAlongSegment, LabelChangesFirst, FlatDimChangesFirst, FlatDimNearby, FlatBelowFirst, EvenUntilDrop, FlatWayEnds, EdgeHasEnds, FiniteVertices, OneConeAlongEven, OneConeOfJoined, OneLabelOfJoined, JoinedToItself, JoinedSymmetric, JoinedThrough};

/// A set is constant on the cells of its carriers, which are the planes of its halves at any depth and the sides of the
/// frame: on which side of each carrier a point lies decides whether the set holds there, its label, its germs and its
/// flat directions. Equal points have equal labels and germs.
pub fn cell_laws()
    ensures holds_by_cell { HoldsByCell }
    ensures label_by_cell { LabelByCell }
    ensures germ_by_cell { GermByCell }
    ensures flat_by_cell { FlatByCell }
    ensures flat_dim_by_cell { FlatDimByCell }
    ensures signs_at_same_place { SignsAtSamePoint }
    ensures holds_at_same_place { HoldsAtSamePoint }
    ensures label_at_same_place { LabelAtSamePoint }
    ensures germ_at_same_place { GermAtSamePoint }
    ensures flat_dim_at_same_place { FlatDimAtSamePoint }
{}

/// Each point has one label and each direction one germ. Close to a point the label doesn't change along a ray from the
/// point, so that the set is its cone there; and the germ in a direction is decided by the side of each carrier through
/// the point to which the direction leads.
pub fn cone_laws()
    ensures label_exists { LabelExists }
    ensures label_is_unique { LabelIsUnique }
    ensures germ_exists { GermExists }
    ensures germ_is_unique { GermIsUnique }
    ensures set_is_its_cone { SetIsItsCone }
    ensures label_along_ray { LabelAlongRay }
    ensures germ_by_slopes { GermBySlopes }
    ensures germ_toward_zero { GermTowardZero }
    ensures no_germ_out_in_frame { NoGermOutInFrame }
    ensures germ_out_for_all { GermOutForAll }
{}

/// The cone at a point of a ray from p, close to p, is read off the cone at p near the ray's direction: it is the
/// function from e to the germ at p in the direction n d + e for large n.
pub fn near_laws()
    ensures germ_on_ray { GermOnRay }
    ensures near_germ_exists { NearGermExists }
    ensures near_germ_is_unique { NearGermIsUnique }
    ensures near_germ_toward_zero { NearGermTowardZero }
    ensures near_germ_by_slopes { NearGermBySlopes }
    ensures cone_nearby { ConeNearby }
{}

/// It is decided whether a set holds, which label and germ it has, and what is said of all directions or of all
/// directions near one, since finitely many vectors represent all.
pub fn decision_laws()
    ensures holds_is_decided { HoldsIsDecided }
    ensures label_is_decided { LabelIsDecided }
    ensures germ_is_decided { GermIsDecided }
    ensures near_germ_is_decided { NearGermIsDecided }
    ensures representatives { Representatives }
    ensures germ_representatives { GermRepresentatives }
    ensures all_germs { AllGermsAreDecided }
    ensures all_directions { AllDirectionsAreDecided }
    ensures all_near_germs { AllNearGermsAreDecided }
    ensures same_cone { SameConeIsDecided }
    ensures flat_is_decided { FlatIsDecided }
    ensures flat_dim_exists { FlatDimExists }
{}

/// A direction is flat exactly where the germs don't change along it. The flat directions are a space that has all
/// directions which lie in all carriers through the point; so a vertex is a meet of three carriers, an edge lies in two
/// and a facet in one. Outside the closed frame all directions are flat.
pub fn flat_laws()
    ensures flat_is_flat_cone { FlatIsFlatCone }
    ensures flat_in_carriers { FlatInCarriers }
    ensures flat_combination { FlatCombination }
    ensures flat_is_near_cone { FlatIsNearCone }
    ensures flat_by_slopes { FlatBySlopes }
    ensures flat_nearby { FlatNearby }
    ensures all_flat { AllFlat }
    ensures flat_outside { FlatOutside }
    ensures flat_dim_outside { FlatDimOutside }
    ensures flat_dim_is_unique { FlatDimIsUnique }
    ensures flat_where_held { FlatWhereHeld }
    ensures flat_line { FlatLine }
    ensures flat_plane { FlatPlane }
    ensures vertex_is_meet { VertexIsMeet }
    ensures edge_in_carriers { EdgeInCarriers }
    ensures facet_in_carrier { FacetInCarrier }
{}

/// The labels and germs of a combination are the combination of the operands' labels and germs. A direction that is
/// flat for the operands is flat for what any operation makes of them.
pub fn combination_laws()
    ensures label_of_combination { LabelOfCombination }
    ensures germ_of_combination { GermOfCombination }
    ensures near_germ_of_combination { NearGermOfCombination }
    ensures flat_of_two { FlatOfTwo }
    ensures flat_of_one { FlatOfOne }
{}

/// Interior, closure, boundary and regularisation in terms of cones, at a point and toward a direction. Their germs are
/// Out where the operand's are, and elsewhere In or Not.
pub fn topology_laws()
    ensures inside_at { InsideAt }
    ensures closed_at { ClosedAt }
    ensures border_at { BorderAt }
    ensures regular_at { RegularAt }
    ensures inside_toward { InsideToward }
    ensures closed_toward { ClosedToward }
    ensures border_toward { BorderToward }
    ensures regular_toward { RegularToward }
{}

/// Sets are equal exactly where their cones are equal at all points, and cones are equal exactly where the sets agree
/// close by. Equal cones have the same flat directions, and equal sets join the same points. The vertices of a set and
/// its cones at them determine the set.
pub fn same_set_laws()
    ensures same_set_by_same_cones { SameSetBySameCones }
    ensures same_cone_is_same_near { SameConeIsSameNear }
    ensures flat_by_same_cone { FlatBySameCone }
    ensures flat_dim_by_same_cone { FlatDimBySameCone }
    ensures near_germ_by_same_cone { NearGermBySameCone }
    ensures joined_by_same_set { JoinedBySameSet }
    ensures same_set_by_vertices { SameSetByVertices }
{}

/// What changes close to no point of a segment is the same at both ends; and a label that changes along a segment has a
/// first point where it does. Between two points a segment crosses finitely many carriers.
pub fn segment_laws()
    ensures label_along_segment { LabelAlongSegment }
    ensures flat_dim_along_segment { FlatDimAlongSegment }
    ensures label_changes_first { LabelChangesFirst }
    ensures flat_dim_changes_first { FlatDimChangesFirst }
    ensures flat_dim_nearby { FlatDimNearby }
    ensures flat_below_first { FlatBelowFirst }
{}

/// Along a flat direction the number of independent flat directions stays until it drops, and where the number is below
/// three it drops before the frame ends. So each point with one flat direction lies strictly on an edge between two
/// vertices. A set has finitely many vertices.
pub fn edge_laws()
    ensures even_until_drop { EvenUntilDrop }
    ensures flat_way_ends { FlatWayEnds }
    ensures edge_has_ends { EdgeHasEnds }
    ensures finite_vertices { FiniteVertices }
{}

/// Along a segment whose points have equally many flat directions the cone doesn't change. So joined points, those of
/// one edge, one facet or one volume, have one cone and one label. To be joined is an equivalence.
pub fn joined_laws()
    ensures one_cone_along_even { OneConeAlongEven }
    ensures one_cone_of_joined { OneConeOfJoined }
    ensures one_label_of_joined { OneLabelOfJoined }
    ensures joined_to_itself { JoinedToItself }
    ensures joined_turned { JoinedSymmetric }
    ensures joined_through { JoinedThrough }
{}

/// Closed examples at the origin: two open half-spaces, a wall and a part of it, an edge of two planes, and a point.
pub fn cone_examples()
    ensures halves_disjoint { HalvesDisjoint }
    ensures two_halves { TwoHalves }
    ensures wall { WallExample }
    ensures wall_part { WallPart }
    ensures edge { EdgeExample }
    ensures point { PointAlone }
{}
