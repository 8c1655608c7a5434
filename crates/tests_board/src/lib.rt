//! Tests of the machine, both boards and the pool together, and of rounds of numbers.
#![tactic(auto)]

#[cfg(test)]
mod boards;
#[cfg(test)]
mod counted;
#[cfg(test)]
mod pools;
#[cfg(test)]
mod rounds;
#[cfg(test)]
mod rows;
#[cfg(test)]
mod trial;
