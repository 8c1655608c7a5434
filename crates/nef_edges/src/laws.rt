//! The laws of matched ends.

ghost use Rattle.nef_edges.specs.Prelude.{MatchedAreEdges, EdgesAreMatched};

/// Pairs of svertices are exactly the edges if each svertex that leads to later points is paired with one that leads
/// back along the same line, and no two with the same partner: then nothing lies between. The edges are such pairs.
pub fn matching_laws()
    ensures matched { MatchedAreEdges }
    ensures edges { EdgesAreMatched }
{}
