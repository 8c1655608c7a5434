//! Laws of exact arithmetic in proofs, and closed examples that show what the definitions mean.

ghost use Rattle.nef_space.specs.ArithmeticLaws.{
  EqualFractionsCompareAlike,
  EveryCombination,
  EveryCombinationTimes,
  EveryIdentity,
  EveryOrder,
  EverySizeIsBounded,
  EveryValueIsExact,
  FinitelyManyPoints,
  FinitelyManyVectors,
  FractionsAreOrdered,
  NothingOverflows,
  SignOfProduct,
  SignOfSum,
  SignsAreOrders,
  SizeOfSum,
  SmallAdds,
  SmallIsTwoSided,
  SmallScales,
  SmallWeakens,
};
ghost use Rattle.nef_space.specs.Laws.{InteriorOfWhole, OpenHalfAtBoundary, ClosureAtBoundary, MissingPoint, FrameIsOpen, GermBesideHalf};

/// An equation or an order between polynomials holds where a computed test passes.
pub fn identity_laws()
    ensures identity { EveryIdentity }
    ensures combination { EveryCombination }
    ensures combination_times { EveryCombinationTimes }
    ensures order { EveryOrder }
{}

/// Where a computed test on the variables' bounds passes, machine arithmetic is exact.
pub fn machine_laws()
    ensures fits { NothingOverflows }
    ensures exact { EveryValueIsExact }
    ensures size { EverySizeIsBounded }
{}

/// The signs of a number, of a product and of a sum.
pub fn sign_laws()
    ensures orders { SignsAreOrders }
    ensures product { SignOfProduct }
    ensures sum { SignOfSum }
{}

/// Fractions are compared by cross products.
pub fn fraction_laws()
    ensures ordered { FractionsAreOrdered }
    ensures alike { EqualFractionsCompareAlike }
{}

/// Sizes of sums of products, and numbers that are small beside others.
pub fn size_laws()
    ensures sum { SizeOfSum }
    ensures weakens { SmallWeakens }
    ensures adds { SmallAdds }
    ensures scales { SmallScales }
    ensures two_sided { SmallIsTwoSided }
{}

/// Finitely many vectors show every list of signs that finitely many linear forms have.
pub fn sample_laws()
    ensures points { FinitelyManyPoints }
    ensures vectors { FinitelyManyVectors }
{}

/// Closed examples: the interior of the whole is the whole; an open half-space doesn't hold on its boundary and its
/// closure does; the frame is open.
pub fn definition_examples()
    ensures interior_of_whole { InteriorOfWhole }
    ensures open_half { OpenHalfAtBoundary }
    ensures closure { ClosureAtBoundary }
    ensures missing_point { MissingPoint }
    ensures frame_is_open { FrameIsOpen }
    ensures germ { GermBesideHalf }
{}
