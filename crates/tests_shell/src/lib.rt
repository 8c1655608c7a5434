//! Tests of the program: scripts and what they write, by both boards and any number of workers; printed texts; turned
//! sets; faults of source and sink; jobs that the gate hears of; and the limits of scripts.
#![tactic(auto)]

#[cfg(test)]
mod crews;
#[cfg(test)]
mod cuts;
#[cfg(test)]
mod empty_text;
#[cfg(test)]
mod extreme;
#[cfg(test)]
mod failing;
#[cfg(test)]
mod gates;
#[cfg(test)]
mod generated;
#[cfg(test)]
mod grids;
#[cfg(test)]
mod kept_parts;
#[cfg(test)]
mod large;
#[cfg(test)]
mod limits;
#[cfg(test)]
mod runs;
#[cfg(test)]
mod shipped;
#[cfg(test)]
mod tables;
#[cfg(test)]
mod texts;
#[cfg(test)]
mod told;
#[cfg(test)]
mod turned;
#[cfg(test)]
mod writes;
