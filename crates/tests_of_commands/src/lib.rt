//! Tests of workers and callers that pass a gate, and of standard output. What each command prints,
//! and which words are a command, is said by the rows of the crate `rows`.
//!
//! There are only tests. What is asked for was worked out by hand.
#![tactic(auto)]

#[cfg(test)]
mod asking;
#[cfg(test)]
mod gates;
#[cfg(test)]
mod standard_output;
