//! Tests of formulas, of the elimination and of the prover. Which certificates are accepted, and
//! which guards the prover refutes, is said by the rows of the crate `rows`.
//!
//! There are only tests. What they ask for was worked out by hand.
#![tactic(auto)]

#[cfg(test)]
mod cases;
#[cfg(test)]
mod deciding;
#[cfg(test)]
mod differences;
#[cfg(test)]
mod range;
#[cfg(test)]
mod refuting;
#[cfg(test)]
mod shapes;
#[cfg(test)]
mod solving;
