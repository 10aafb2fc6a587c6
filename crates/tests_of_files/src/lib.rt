//! Tests of devices, of the texts of faults, of guards in trees, and of the canonical form of
//! client files. Which tokens and files there are, and how monitors are printed, is said by the
//! rows of the crate `rows`.
//!
//! There are only tests. What they ask for was taken by hand from the rules of the two languages.
#![tactic(auto)]

#[cfg(test)]
mod devices;
#[cfg(test)]
mod faults;
#[cfg(test)]
mod printing;
#[cfg(test)]
mod standard_output;
#[cfg(test)]
mod trees;
