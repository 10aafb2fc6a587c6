//! Tests of what threads share: tickets of the ready queue, two passes of a monitor in turn, the
//! log's length as it is observed while another thread makes sections, and a pool of as many
//! workers as there may be. Other runs of many threads are rows of the crate `rows`, and tests of
//! commands.
//!
//! There are only tests.
#![tactic(auto)]

#[cfg(test)]
mod meeting;
#[cfg(test)]
mod observing;
#[cfg(test)]
mod opening;
#[cfg(test)]
mod pools;
#[cfg(test)]
mod sharing;
#[cfg(test)]
mod tickets;
