//! The scripts that the tree of a client file stands for, and the rules of client files.
//!
//! [`clients`] answers the scripts with each `repeat` written out (`specs/Scripts`), or the first
//! rule that is broken. `specs/ScriptRules` has the rules one by one, `specs/Faults` lists the
//! faults of a tree, and [`faults_are_broken_rules`] is the law that these are the same.
#![tactic(auto)]

mod arguments;
mod calls;
mod counting;
mod laws;
mod making;
mod names;
mod scripts;

pub use laws::faults_are_broken_rules;
pub use scripts::clients;
