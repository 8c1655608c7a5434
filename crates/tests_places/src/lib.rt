//! Tests of complexes: places of points in sets that follow by hand, what rays meet, candidates, ties, facets and
//! volumes of the frame, classes, comparisons, turns, and topology of maps.
#![tactic(auto)]

#[cfg(test)]
mod ends;
#[cfg(test)]
mod frame;
#[cfg(test)]
mod grid_edges;
#[cfg(test)]
mod half_spaces;
#[cfg(test)]
mod hits_by_number;
#[cfg(test)]
mod items;
#[cfg(test)]
mod joins;
#[cfg(test)]
mod lines;
#[cfg(test)]
mod made;
#[cfg(test)]
mod pairs;
#[cfg(test)]
mod parts;
#[cfg(test)]
mod places;
#[cfg(test)]
mod rays;
#[cfg(test)]
mod regions;
#[cfg(test)]
mod results;
#[cfg(test)]
mod sets;
#[cfg(test)]
mod tables;
#[cfg(test)]
mod turns;
#[cfg(test)]
mod walls;
#[cfg(test)]
mod words;
