//! Tests of paths and queries of monitors, of which monitors are told to be small and which blocks
//! keep 64 bits, and of a report that is made and not read. What the checker makes of a text, and
//! which plans and certificates a monitor has, is said by the rows of the crate `rows`.
//!
//! There are only tests. Every answer was worked out by hand from the rules of the language and of
//! plans.
#![tactic(auto)]

#[cfg(test)]
mod asking;
#[cfg(test)]
mod fits;
#[cfg(test)]
mod pathing;
#[cfg(test)]
mod rechecking;
#[cfg(test)]
mod small;
