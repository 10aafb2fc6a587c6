//! The checker: from the tree of a monitor file to a monitor.
//!
//! [`check`] answers the monitor that a tree stands for, or the first rule that the tree breaks and
//! where. [`forms_keep_meaning`] and [`bodies_keep_meaning`] are the laws that its expressions and
//! its blocks mean what the tree says, [`limits_are_conditions`] that the limits of its parameters
//! do. Definitions: `specs/Typed` (the monitor of a tree), `specs/PlainRuns` (what a tree's
//! statements do); monitors and what their bodies do are those of `lang_monitor`, the rules of trees
//! are `lang_rules/specs/Rules`, and forms and formulas those of `lang_forms`.
#![tactic(auto)]

mod checker;
mod laws;
mod making;

pub use checker::check;
pub use lang_base::{Counted, Kind, Refusal, SourceError, SourceFault, Value};
pub use lang_monitor::{
    Block, Candidate, Condition, Field, Limit, Method, Monitor, Origin, Ret, Stmt,
};
pub use laws::{bodies_keep_meaning, forms_keep_meaning, limits_are_conditions};
