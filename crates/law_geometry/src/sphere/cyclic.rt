//! Arcs of great circles and the cyclic order of directions about an axis, for directions of any size. Nothing runs;
//! each law is a clause of a function with an empty body, and the crates above cite the lemmas that prove the laws.

ghost use Rattle.law_geometry.specs.sphere.cyclic.Laws.{ClassesAreArcs, ArcsAreOfDirections, WayBackPassesTheSame, TwoMeets, OneIsFirst, NeverBothWays, OrderIsTransitive, SameInPlace, OrderIsCyclic, WaysGlue, WaysSplit, NearerOnes, SeenFromLater, SeenFromBetween, SeenFromAfter, NextRises, InSector, SectorHolds, NoRayBetween};

/// Five signs decide whether a direction lies strictly on an arc; the way back passes the same directions; two great
/// circles meet in two opposite directions.
pub fn arc_laws()
    ensures classes { ClassesAreArcs }
    ensures directions { ArcsAreOfDirections }
    ensures back { WayBackPassesTheSame }
    ensures meets { TwoMeets }
{}

/// The order of directions about an axis, seen from one of them, is a strict total order.
pub fn order_laws()
    ensures first { OneIsFirst }
    ensures never_both { NeverBothWays }
    ensures transitive { OrderIsTransitive }
    ensures same { SameInPlace }
{}

/// The order about an axis, seen from another direction, and the ways about the axis that are parts of other ways.
pub fn turned_laws()
    ensures cyclic { OrderIsCyclic }
    ensures glue { WaysGlue }
    ensures split { WaysSplit }
    ensures nearer { NearerOnes }
    ensures from_later { SeenFromLater }
    ensures from_between { SeenFromBetween }
    ensures from_after { SeenFromAfter }
{}

/// A direction lies in the sector between two neighbouring rays exactly where it comes after the one ray and before the
/// other, seen from the first of all rays.
pub fn sector_laws()
    ensures rises { NextRises }
    ensures inside { InSector }
    ensures holds { SectorHolds }
    ensures no_ray { NoRayBetween }
{}
