//! From the tree of a client file to its scripts.

ghost use Rattle.std.specs.Prelude.{◌≡◌, [], All, IfErr, IfOk};
ghost use Rattle.lang_base.specs.Identifiers.{IsIdentifier};
ghost use Rattle.lang_base.specs.SourceFaults.{IsFirstOf, least};
ghost use Rattle.lang_tree.specs.Names.{names_in_clients};
ghost use Rattle.machine_implicit.specs.Scripted.{FitsScripts};
ghost use Rattle.lang_script.specs.Faults.{faults_of};
ghost use Rattle.lang_script.specs.Scripts.{IsScripted};

use crate::calls::fault_in_clients;
use crate::counting::over_calls;
use crate::making::make_clients;
use crate::names::{doubled_client, over_clients};
use lang_base::{SourceError, SourceFault, earlier_of};
use lang_monitor::Monitor;
use lang_tree::ClientsTree;
use machine_implicit::Scripts;
use std::alloc::Global;

/// The scripts that a client file's tree stands for, each `repeat` written out, where the tree
/// keeps all the rules of `specs/ScriptRules`. Every tree that the grammar derives meets what is
/// asked of its names.
///
/// # Errors
///
/// The first rule that is broken: the one at the least place, and at one place the first in the
/// order of [`Refusal`](lang_base::Refusal); or out of memory.
pub fn clients(alloc: Global, tree: &ClientsTree, monitor: &Monitor) -> Result<Scripts, SourceError>
    requires named { All IsIdentifier (names_in_clients tree.now) }
    // The scripts are those that the tree stands for,
    ensures scripted { IfOk result (λ scripts. IsScripted tree.now monitor.now scripts) }
    // each call of which is one of the monitor's.
    ensures fits { IfOk result (λ scripts. FitsScripts monitor.now scripts) }
    // No rule is broken where there are scripts,
    ensures unbroken { IfOk result (λ _. faults_of monitor.now tree.now ≡ []) }
    // and a fault is the first of those that are.
    ensures fault { IfErr result (λ error. IsFirstOf (faults_of monitor.now tree.now) error) }
{
    match first_fault(tree, monitor) {
        Some(fault) => Err(SourceError::Fault(fault)),
        None => Ok(Scripts::of(make_clients(alloc, monitor, tree.clients.items())?)),
    }
}

/// The first rule that the tree breaks.
fn first_fault(tree: &ClientsTree, monitor: &Monitor) -> Option<SourceFault>
    ensures { result ≡ least (faults_of monitor.now tree.now) }
{
    let clients = tree.clients.items();
    let first = earlier_of(fault_in_clients(monitor, clients), doubled_client(clients));
    let first = earlier_of(first, over_clients(clients));
    earlier_of(first, over_calls(clients))
}
