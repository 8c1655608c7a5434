//! The existence of vertices, of a complex that shows a set, of parts, and of numbers of components. Nothing runs; each
//! law is a clause of a function with an empty body.

ghost use Rattle.nef_statement.specs.text.existence.Laws.{EverySetHasVertices, VerticesHaveEdges, EverySetIsShown, EveryCarriedSetIsShown, EveryTurnedSetIsShown, EveryShownHasParts, JoinedIsDecided, ComponentsAreCounted};

/// Every set has an ordered list of its vertices with least maps, and ordered vertices have all their edges. A set
/// whose carriers are planes is shown by a complex, and by a complex of the program if the program has these planes.
/// Every complex of the program that shows a set has parts.
pub fn complex_laws()
    ensures vertices { EverySetHasVertices }
    ensures edges { VerticesHaveEdges }
    ensures shown { EverySetIsShown }
    ensures carried { EveryCarriedSetIsShown }
    ensures turned { EveryTurnedSetIsShown }
    ensures parts { EveryShownHasParts }
{}

/// Two points of a set are joined or not joined, and the points with k flat directions have a number of components.
pub fn joined_laws()
    ensures decided { JoinedIsDecided }
    ensures counted { ComponentsAreCounted }
{}
