//! Tests of what the program reads and writes: bytes in and out, the words of the command line, lines and words of a
//! script, whole scripts, and set expressions.
#![tactic(auto)]

#[cfg(test)]
mod bytes;
#[cfg(test)]
mod expressions;
#[cfg(test)]
mod generated;
#[cfg(test)]
mod lexing;
#[cfg(test)]
mod options;
#[cfg(test)]
mod planned;
#[cfg(test)]
mod same;
#[cfg(test)]
mod scripts;
