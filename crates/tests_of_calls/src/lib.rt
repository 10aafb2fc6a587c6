//! Tests of calls that block: how the calls of one caller end, one after the other, callers that
//! wait for the last of them, and several callers for one client, each in a thread of its own.
//!
//! There are only tests.
#![tactic(auto)]

#[cfg(test)]
mod barrier;
#[cfg(test)]
mod commits;
#[cfg(test)]
mod opening;
#[cfg(test)]
mod several;
