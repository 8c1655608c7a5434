//! Tests of exact geometry, tables, arcs, stars, sphere maps, overlays, combinations, and topology of maps. Most tests
//! are rows of a table: a question in words, and the answer that follows by hand.
#![tactic(auto)]

#[cfg(test)]
mod arcs;
#[cfg(test)]
mod by_hand;
#[cfg(test)]
mod geometry;
#[cfg(test)]
mod hits;
#[cfg(test)]
mod lattice;
#[cfg(test)]
mod made;
#[cfg(test)]
mod maps;
#[cfg(test)]
mod stars;
#[cfg(test)]
mod tables;
#[cfg(test)]
mod texts;
#[cfg(test)]
mod words;
