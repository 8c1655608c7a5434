//! The laws of homogeneous vectors, linear forms and their signs.

ghost use Rattle.law_geometry.specs.near.FormLaws.{
  BetweenIsMixed,
  BetweenRespectsPoint,
  ClosedIsOnSegment,
  DifferenceLeads,
  DifferenceSlope,
  FactorIsEquivalence,
  FirstChangeAtDirections,
  FirstChangeAtPoints,
  FirstChangeLaw,
  GenericDirection,
  GenericPoint,
  GenericVector,
  MixedRespectsFactor,
  RayForm,
  RayKeeps,
  RayTurns,
  RepresentativeDirections,
  RepresentativePoints,
  SameDirectionIsFactor,
  SamePointIsFactor,
  SegmentLaw,
  SegmentOfDirections,
  SegmentOfPoints,
  SignsRespectFactor,
  StableFar,
  StableListNear,
  StableNear,
  WithinRespectsPoint,
};

/// The vectors of one point, and of one direction, are equal up to a positive factor, which doesn't change signs of
/// forms, betweenness and nearness.
pub fn factor_laws()
    ensures same_place { SamePointIsFactor }
    ensures same_direction { SameDirectionIsFactor }
    ensures equivalence { FactorIsEquivalence }
    ensures signs { SignsRespectFactor }
    ensures between { BetweenIsMixed }
    ensures closed { ClosedIsOnSegment }
    ensures mixed_respects { MixedRespectsFactor }
    ensures between_respects { BetweenRespectsPoint }
    ensures within_respects { WithinRespectsPoint }
{}

/// A form that isn't nought at a point keeps its sign near the point and along short steps from it; the values of forms
/// along rays and at the difference of two points.
pub fn near_form_laws()
    ensures stable { StableNear }
    ensures stable_list { StableListNear }
    ensures stable_far { StableFar }
    ensures ray_form { RayForm }
    ensures ray_keeps { RayKeeps }
    ensures ray_turns { RayTurns }
    ensures difference_leads { DifferenceLeads }
    ensures difference_slope { DifferenceSlope }
{}

/// Vectors, directions and points in general position, beside any given ones.
pub fn generic_laws()
    ensures vectors { GenericVector }
    ensures directions { GenericDirection }
    ensures points { GenericPoint }
{}

/// A test that looks at finitely many signs and agrees near each vector of a segment is the same at both ends.
pub fn form_segment_laws()
    ensures vectors { SegmentLaw }
    ensures points { SegmentOfPoints }
    ensures directions { SegmentOfDirections }
{}

/// A test on finitely many signs that holds at one end of a segment and fails at the other changes at some first
/// vector.
pub fn first_change_laws()
    ensures vectors { FirstChangeLaw }
    ensures points { FirstChangeAtPoints }
    ensures directions { FirstChangeAtDirections }
{}

/// Finitely many directions, and finitely many points, have all signs that finitely many forms have.
pub fn representative_laws()
    ensures directions { RepresentativeDirections }
    ensures points { RepresentativePoints }
{}
