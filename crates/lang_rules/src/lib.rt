//! The rules of monitor files.
//!
//! [`fault_in_monitor`] finds the first rule that the tree of a monitor file breaks, or that it
//! breaks none. `specs/Judgements` has the rules one by one, `specs/Rules` lists the faults of a
//! tree as the code goes over it, and [`faults_are_broken_rules`] is the law that these are the
//! same.
#![tactic(auto)]

mod blocks;
mod declarations;
mod laws;
mod limits;
mod methods;
mod monitor;
mod names;
mod numbers;
mod starts;
mod statements;

pub use laws::faults_are_broken_rules;
pub use monitor::fault_in_monitor;
pub use starts::is_source;
