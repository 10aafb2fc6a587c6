//! Tests of single events and sections, which no command makes alone, of scripts that are put
//! together by hand, and of the large input. What the runs of whole schedules are is said by the
//! rows of the crate `rows`.
//!
//! There are only tests. The answers were worked out by hand from the rules of the machines.
#![tactic(auto)]

#[cfg(test)]
mod events;
#[cfg(test)]
mod large;
#[cfg(test)]
mod reading;
#[cfg(test)]
mod scripts;
#[cfg(test)]
mod sections;
