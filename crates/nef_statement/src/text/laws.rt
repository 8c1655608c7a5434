//! Laws of texts, and of parts and texts that the set of a complex determines.

ghost use Rattle.nef_statement.specs.text.Laws.{TextReadsBack, CountsRead};
ghost use Rattle.nef_statement.specs.text.Frame.{EmptyText, FullText};
ghost use Rattle.nef_statement.specs.text.Determined.{SamePartsOfSame, SameSetSameText, TurnedBackSameText, SameTextSameSet, SpelledHolds};

/// Complexes with one text, in either version, have equal vertices with equal maps, and as many edges, facets and
/// volumes.
pub fn text_laws()
    ensures vertices { TextReadsBack }
    ensures counts { CountsRead }
{}

/// Complexes with the same vertices and edges have the same parts, whatever their carriers; complexes that show one set
/// have the same parts and texts, so turning a set and turning it back gives its text again. Sets whose complexes have
/// one text are one set; a point of the frame belongs to the complex that a set's text spells exactly where the set
/// holds.
pub fn determined_laws()
    ensures same_parts { SamePartsOfSame }
    ensures same_text { SameSetSameText }
    ensures turned_back { TurnedBackSameText }
    ensures same_set { SameTextSameSet }
    ensures spelled { SpelledHolds }
{}

/// The first version's texts of the empty set and of the whole frame, byte by byte, for any set that is empty or full.
pub fn frame_text_laws()
    ensures empty { EmptyText }
    ensures full { FullText }
{}
