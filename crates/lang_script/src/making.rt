//! The scripts of a tree that breaks no rule.

ghost use Rattle.std.specs.Prelude.{◌≡◌, [], ◌∷◌, ◌++◌, ◌||◌, All, IfOk, map, replicate, slice_get};
ghost use Rattle.std.specs.List.{flat_map};
ghost use Rattle.lang_monitor.specs.MonitorParts.{asserts_in};
ghost use Rattle.lang_script.specs.Scripts.{call_of, calls_of_item, client_of, joined, value_of};
ghost use Rattle.lang_script.specs.inner.Making.{AreSmallItems, IsSmallArgument, IsSmallItem};

use crate::arguments::value_of;
use crate::calls::method_named;
use base_list::Seq;
use lang_base::{Name, Value};
use lang_monitor::Monitor;
use lang_tree::{Arg, ClientTree, Item};
use machine_implicit::{Call, Client};
use std::alloc::{AllocError, Global};

/// The clients of these trees.
pub(crate) fn make_clients(
    alloc: Global,
    monitor: &Monitor,
    trees: &[ClientTree],
) -> Result<Vec<Client>, AllocError>
    requires { All (λ tree. AreSmallItems tree.items) trees.now }
    ensures { IfOk result (λ made. made.items ≡ map (client_of monitor.now) trees.now) }
{
    let mut made = Vec::new(alloc);
    for tree in trees {
        made.push(Client {
            name: tree.name.clone()?,
            calls: Seq::of(make_calls(alloc, monitor, tree.items.items())?),
        })?;
    }
    Ok(made)
}

/// The calls of these items, with each `repeat` written out.
#[cycle(make_calls)]
fn make_calls(alloc: Global, monitor: &Monitor, items: &[Item]) -> Result<Vec<Call>, AllocError>
    requires { AreSmallItems items.now }
    ensures { IfOk result (λ made. made.items ≡ flat_map (calls_of_item monitor.now) items.now) }
{
    let mut made = Vec::new(alloc);
    for item in items {
        let mut calls = calls_of_item(alloc, monitor, item)?;
        made.append(&mut calls)?;
    }
    Ok(made)
}

#[cycle(make_calls)]
fn calls_of_item(alloc: Global, monitor: &Monitor, item: &Item) -> Result<Vec<Call>, AllocError>
    requires { IsSmallItem item.now }
    ensures { IfOk result (λ made. made.items ≡ calls_of_item monitor.now item.now) }
{
    match item {
        Item::Call {
            tries,
            name,
            args,
            ..
        } => one_call(alloc, monitor, *tries, name, args.items()),
        Item::Repeat { times, items, .. } => {
            if *times == 0 {
                return Ok(Vec::new(alloc));
            }
            copies(alloc, *times, make_calls(alloc, monitor, items.items())?)
        }
    }
}

/// The call of the method of this name.
fn one_call(
    alloc: Global,
    monitor: &Monitor,
    tries: bool,
    name: &Name,
    arguments: &[Arg],
) -> Result<Vec<Call>, AllocError>
    requires { All IsSmallArgument arguments.now }
    ensures { IfOk result (λ made.
        made.items ≡ call_of monitor.now tries name.now arguments.now ∷ []) }
{
    let mut made = Vec::new(alloc);
    let method = method_named(monitor, name).unwrap_or(0);
    made.push(Call {
        method,
        inputs: Seq::of(values_of(alloc, arguments)?),
        tries: tries_at(monitor, tries, method),
    })?;
    Ok(made)
}

/// Whether a call of the method of this number tries: where its file says so, and where the method
/// asserts.
fn tries_at(monitor: &Monitor, tries: bool, method: u32) -> bool
    ensures { result ≡ (tries || asserts_in (slice_get monitor.now.methods method)) }
{
    tries || asserts(monitor, method)
}

/// Whether the method of this number asserts.
fn asserts(monitor: &Monitor, method: u32) -> bool
    ensures { result ≡ asserts_in (slice_get monitor.now.methods method) }
{
    match monitor.methods().get(method as usize) {
        Some(method) => method.asserts,
        None => false,
    }
}

fn values_of(alloc: Global, arguments: &[Arg]) -> Result<Vec<Value>, AllocError>
    requires { All IsSmallArgument arguments.now }
    ensures { IfOk result (λ values. values.items ≡ map value_of arguments.now) }
{
    let mut values = Vec::new(alloc);
    for argument in arguments {
        values.push(value_of(argument))?;
    }
    Ok(values)
}

/// So many copies of these calls. Of none, however many copies are none.
fn copies(alloc: Global, times: u128, calls: Vec<Call>) -> Result<Vec<Call>, AllocError>
    ensures { IfOk result (λ made. made.items ≡ joined (replicate times calls.items)) }
{
    let mut made = Vec::new(alloc);
    if calls.as_slice().is_empty() {
        return Ok(made);
    }
    for _copy in 0..times {
        push_copy(alloc, &mut made, &calls)?;
    }
    Ok(made)
}

/// Adds a copy of these calls.
fn push_copy(alloc: Global, made: &mut Vec<Call>, calls: &[Call]) -> Result<(), AllocError>
    ensures { IfOk result (λ _. made.new.items ≡ made.old.items ++ calls.now) }
{
    for call in calls {
        made.push(Call {
            method: call.method,
            inputs: Seq::of(Vec::from_slice(alloc, call.inputs.items())?),
            tries: call.tries,
        })?;
    }
    Ok(())
}
