//! The rules of calls.

ghost use Rattle.std.specs.Prelude.{◌≡◌, ◌<◌, IfSome, length, position};
ghost use Rattle.std.specs.List.{flat_map};
ghost use Rattle.std.specs.Str.{bytes_eq};
ghost use Rattle.lang_base.specs.SourceFaults.{least};
ghost use Rattle.lang_script.specs.Faults.{PlacedCall, call_faults, item_faults, items_in};
ghost use Rattle.lang_script.specs.Faults.{method_faults};
ghost use Rattle.lang_script.specs.Scripts.{method_named};

use crate::arguments::{argument_fault, large_number};
use lang_base::{Name, Refusal, SourceFault, earlier_of};
use lang_monitor::{Method, Monitor};
use lang_tree::{Arg, ClientTree, Item};

/// The first fault in the calls of clients.
pub(crate) fn fault_in_clients(monitor: &Monitor, clients: &[ClientTree]) -> Option<SourceFault>
    ensures { result ≡ least (flat_map (item_faults monitor.now) (items_in clients.now)) }
{
    let mut fault = None;
    for client in clients {
        fault = earlier_of(fault, fault_in_items(monitor, client.items.items()));
    }
    fault
}

#[cycle(fault_in_item)]
fn fault_in_items(monitor: &Monitor, items: &[Item]) -> Option<SourceFault>
    ensures { result ≡ least (flat_map (item_faults monitor.now) items.now) }
{
    let mut fault = None;
    for item in items {
        fault = earlier_of(fault, fault_in_item(monitor, item));
    }
    fault
}

/// The first fault in a call, or in the calls of a `repeat`.
#[cycle(fault_in_item)]
fn fault_in_item(monitor: &Monitor, item: &Item) -> Option<SourceFault>
    ensures { result ≡ least (item_faults monitor.now item.now) }
{
    match item {
        Item::Call {
            name_at,
            name,
            args,
            ..
        } => fault_in_call(monitor, *name_at, name, args.items()),
        Item::Repeat { items, .. } => fault_in_items(monitor, items.items()),
    }
}

fn fault_in_call(
    monitor: &Monitor,
    name_at: u32,
    name: &Name,
    arguments: &[Arg],
) -> Option<SourceFault>
    ensures { result ≡ least (call_faults monitor.now
        (record { name_at = name_at; name = name.now; arguments = arguments.now })) }
{
    let method = method_named(monitor, name);
    earlier_of(
        method_fault(monitor, name_at, arguments, method),
        large_number(arguments),
    )
}

/// A name that is no method's, or arguments that are not for the method's inputs.
fn method_fault(
    monitor: &Monitor,
    at: u32,
    arguments: &[Arg],
    method: Option<u32>,
) -> Option<SourceFault>
    requires { IfSome method (λ number. number < length monitor.now.methods) }
    ensures { result ≡ least (method_faults monitor.now at arguments.now method) }
{
    match method {
        Some(number) => argument_fault(
            monitor.methods()[number as usize].inputs.items(),
            at,
            arguments,
        ),
        None => Some(SourceFault {
            at,
            what: Refusal::UnknownMethod,
        }),
    }
}

/// The number of the method of this name.
pub(crate) fn method_named(monitor: &Monitor, name: &Name) -> Option<u32>
    ensures number { result ≡ method_named monitor.now name.now }
    ensures within { IfSome result (λ number. number < length monitor.now.methods) }
{
    let place = method_place(monitor.methods(), name)?;
    Some(place as u32)
}

/// The place of the first method of this name.
fn method_place(methods: &[Method], name: &Name) -> Option<usize>
    ensures place { result ≡ position (λ method. bytes_eq method.name name.now) methods.now }
    ensures within { IfSome result (λ place. place < length methods.now) }
{
    methods
        .iter()
        .position(|method| method.name.bytes() == name.bytes())
}
