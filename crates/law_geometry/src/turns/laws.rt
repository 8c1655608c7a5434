//! Laws of turns, on vectors, numbers, points, sets, sphere maps and complexes.

ghost use Rattle.law_geometry.specs.turns.Laws.{DotTurned, CrossTurned, TripleTurned, DirectionTurned, SameDirectionTurned, OppositeTurned, ArcTurned, EachVectorIsTurned, AtMostTurned, PrimitiveTurned, LowestVectorTurned, LowestFormTurned, LowestPointTurned, NormalExists, NormalIsOne, VectorsDiffer, NormalsDiffer, PlanesDiffer, FormTurned, SlopeTurned, StepTurned, TowardTurned, AheadTurned, BetweenTurned, SamePointTurned, WithinTurned, FrameTurned, EachPointIsTurned, HoldsTurned, LabelTurned, SameSetTurned, GermTurned, NearGermTurned, FlatTurned, FlatDimTurned, VertexTurned, JoinedTurned, SetTurnedBack, SetTurnedTwice, MapLabelTurned, NearLabelTurned, MapTurned, LeastTurned, ConeTurned, ListsTurned, TurnedExists, ArcsBegin, ArcsEnd, CarrierTurned, CarrierIsTurned, SamePlaneTurned, CarriersTurned, VerticesTurned, ShowsTurned, TurnedPlanesExist, TurnedVerticesExist};

/// Turned vectors have the dot products of the vectors, and the cross and triple products up to the sign of the turn.
/// About a turned normal, a way keeps its sense up to this sign.
pub fn vector_laws()
    ensures dots { DotTurned }
    ensures crosses { CrossTurned }
    ensures triples { TripleTurned }
    ensures directions { DirectionTurned }
    ensures same_directions { SameDirectionTurned }
    ensures opposites { OppositeTurned }
    ensures arcs { ArcTurned }
    ensures all { EachVectorIsTurned }
{}

/// Turned vectors, forms and points, with either sign, keep their size and their lowest terms. A direction or its
/// opposite is in normal form. Different vectors, and different normals and planes in normal form, stay different.
pub fn number_laws()
    ensures sizes { AtMostTurned }
    ensures primitive { PrimitiveTurned }
    ensures lowest_vectors { LowestVectorTurned }
    ensures lowest_forms { LowestFormTurned }
    ensures lowest_places { LowestPointTurned }
    ensures normal { NormalExists }
    ensures one_normal { NormalIsOne }
    ensures vectors_differ { VectorsDiffer }
    ensures normals_differ { NormalsDiffer }
    ensures planes_differ { PlanesDiffer }
{}

/// A turned form has at a turned point the value of the form at the point; turned points keep their mutual position.
pub fn place_laws()
    ensures forms { FormTurned }
    ensures slopes { SlopeTurned }
    ensures steps { StepTurned }
    ensures ways { TowardTurned }
    ensures ahead { AheadTurned }
    ensures between { BetweenTurned }
    ensures same_places { SamePointTurned }
    ensures nearby { WithinTurned }
    ensures frame { FrameTurned }
    ensures all { EachPointIsTurned }
{}

/// A turned set holds at a turned point exactly where the set holds at the point, and has the set's labels, germs, flat
/// directions and joined points at the turned points. A set that is turned and turned back is the set.
pub fn set_laws()
    ensures holds { HoldsTurned }
    ensures labels { LabelTurned }
    ensures same_sets { SameSetTurned }
    ensures germs { GermTurned }
    ensures near_germs { NearGermTurned }
    ensures flat { FlatTurned }
    ensures flat_dim { FlatDimTurned }
    ensures vertices { VertexTurned }
    ensures joined { JoinedTurned }
    ensures back { SetTurnedBack }
    ensures twice { SetTurnedTwice }
{}

/// A turned map has the map's labels at the turned directions; it is valid and least where the map is, and shows the
/// turned set at the turned point. A map whose ordered lists have the turned items is the turned map, and such a map
/// exists. Arcs with one normal and one common end are equal, so exchanging ends keeps the order of arcs strict.
pub fn map_laws()
    ensures labels { MapLabelTurned }
    ensures near_labels { NearLabelTurned }
    ensures valid { MapTurned }
    ensures least { LeastTurned }
    ensures cones { ConeTurned }
    ensures lists { ListsTurned }
    ensures exists { TurnedExists }
    ensures begin { ArcsBegin }
    ensures end { ArcsEnd }
{}

/// The carriers of a turned set are the turned carriers, and a turned complex shows the turned set. Lists of turned
/// planes and of turned vertices, in order, always exist.
pub fn complex_laws()
    ensures carrier { CarrierTurned }
    ensures only_carriers { CarrierIsTurned }
    ensures same_planes { SamePlaneTurned }
    ensures carriers { CarriersTurned }
    ensures vertices { VerticesTurned }
    ensures shows { ShowsTurned }
    ensures planes_exist { TurnedPlanesExist }
    ensures vertices_exist { TurnedVerticesExist }
{}
