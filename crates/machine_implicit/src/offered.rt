//! Whether what a caller put together meets the rules of scripts.

ghost use Rattle.std.specs.Prelude.{◌≡◌, ◌≢◌, ◌≤◌, ◌↔◌, IsTrue, All, AllPairs, length, sum_by};
ghost use Rattle.std.specs.List.{zip};
ghost use Rattle.lang_base.specs.Identifiers.{IsIdentifier};
ghost use Rattle.lang_monitor.specs.MonitorParts.{IsOfKind, AreOfKinds};
ghost use Rattle.machine_implicit.specs.Scripted.{AreClients, FitsCall, FitsScripts};

use super::script::{Call, Client};
use lang_base::limits::{CALLS, CLIENTS};
use lang_base::{Kind, Value, first_repeat, is_identifier};
use lang_monitor::Monitor;

/// Whether these clients may be scripts: at most 32, whose names are distinct identifiers and no
/// keywords, with at most 16,384 calls in all. It is what [`Scripts::of`](crate::Scripts::of) asks
/// for.
pub fn are_clients(clients: &[Client]) -> bool
    ensures { IsTrue result ↔ AreClients clients.now }
{
    clients.len() <= CLIENTS
        && are_named(clients)
        && are_distinct(clients)
        && have_few_calls(clients)
}

/// Whether each client's name is an identifier and no keyword.
fn are_named(clients: &[Client]) -> bool
    ensures { IsTrue result ↔ All (λ client. IsIdentifier client.name) clients.now }
{
    clients
        .iter()
        .all(|client| is_identifier(client.name.bytes()))
}

/// Whether no two clients have the same name.
fn are_distinct(clients: &[Client]) -> bool
    ensures { IsTrue result ↔ AllPairs (λ client other. client.name ≢ other.name) clients.now }
{
    first_repeat(clients).is_none()
}

/// Whether there are at most 16,384 calls in all.
fn have_few_calls(clients: &[Client]) -> bool
    ensures { IsTrue result ↔ (sum_by (λ client. length client.calls) clients.now ≤ CALLS) }
{
    let mut room = CALLS;
    for client in clients {
        let calls = client.calls.items().len();
        if calls > room {
            return false;
        }
        room -= calls;
    }
    true
}

/// Whether each call of each client fits the monitor: its method is one of the monitor's, its
/// inputs are a value of the kind of each parameter, and where the method asserts it tries. It is
/// what [`turns`](crate::turns) asks for.
pub fn scripts_fit(monitor: &Monitor, clients: &[Client]) -> bool
    ensures { IsTrue result ↔ FitsScripts monitor.now clients.now }
{
    clients
        .iter()
        .all(|client| calls_fit(monitor, client.calls.items()))
}

/// Whether each call fits the monitor.
fn calls_fit(monitor: &Monitor, calls: &[Call]) -> bool
    ensures { IsTrue result ↔ All (FitsCall monitor.now) calls.now }
{
    calls.iter().all(|call| call_fits(monitor, call))
}

/// Whether a call is of a method of the monitor, with a value for each parameter, and tries where
/// that method asserts.
pub fn call_fits(monitor: &Monitor, call: &Call) -> bool
    ensures { IsTrue result ↔ FitsCall monitor.now call.now }
{
    match monitor.methods().get(call.method as usize) {
        Some(method) => {
            (call.tries || !method.asserts)
                && are_of_kinds(method.inputs.items(), call.inputs.items())
        }
        None => false,
    }
}

/// Whether there is one value for each kind, in order.
#[tactic(auto, using(crate::proofs::ScriptTests::of_kinds_as_long))]
fn are_of_kinds(kinds: &[Kind], values: &[Value]) -> bool
    ensures { IsTrue result ↔ AreOfKinds kinds.now values.now }
{
    kinds.len() == values.len() && are_pairs_of_kinds(kinds, values)
}

/// Whether each value is of the kind beside it.
fn are_pairs_of_kinds(kinds: &[Kind], values: &[Value]) -> bool
    ensures { IsTrue result ↔ All (λ pair. IsOfKind pair.0 pair.1) (zip kinds.now values.now) }
{
    kinds
        .iter()
        .zip(values)
        .all(|(kind, value)| is_of_kind(*kind, *value))
}

fn is_of_kind(kind: Kind, value: Value) -> bool
    ensures { IsTrue result ↔ IsOfKind kind value }
{
    matches!(
        (kind, value),
        (Kind::Int, Value::Int(_)) | (Kind::Bool, Value::Bool(_))
    )
}
