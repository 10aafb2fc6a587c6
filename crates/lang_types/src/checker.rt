//! From the tree of a monitor file to a monitor.

ghost use Rattle.std.specs.Prelude.{◌≡◌, [], IfOk, IfErr};
ghost use Rattle.lang_base.specs.SourceFaults.{IsFirstOf};
ghost use Rattle.lang_syntax.specs.Grammar.{IsParsed};
ghost use Rattle.lang_rules.specs.Rules.{faults_of};
ghost use Rattle.lang_types.specs.Typed.{IsTyped};

use crate::making::monitor_of;
use lang_base::SourceError;
use lang_monitor::Monitor;
use lang_rules::fault_in_monitor;
use lang_syntax::names_are_identifiers;
use lang_tree::MonitorTree;
use std::alloc::Global;

/// The monitor that a tree stands for, where the tree keeps all the rules of
/// `lang_rules/specs/Rules`.
///
/// # Errors
///
/// The first rule that is broken: the one at the least place, and at one place the first in the
/// order of [`Refusal`](lang_base::Refusal); or out of memory.
pub fn check(alloc: Global, tree: &MonitorTree) -> Result<Monitor, SourceError>
    requires { IsParsed tree.now }
    // The monitor is the one that the tree stands for.
    ensures typed { IfOk result (λ monitor. IsTyped tree.now monitor) }
    // No rule is broken where there is a monitor,
    ensures unbroken { IfOk result (λ _. faults_of tree.now ≡ []) }
    // and a fault is the first of those that are.
    ensures fault { IfErr result (λ error. IsFirstOf (faults_of tree.now) error) }
{
    names_are_identifiers(); // those of a tree that was read, as the rule of a monitor asks
    match fault_in_monitor(alloc, tree)? {
        Some(fault) => Err(SourceError::Fault(fault)),
        None => Ok(monitor_of(alloc, tree)?),
    }
}
