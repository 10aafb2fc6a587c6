//! The clients: those that put, and those that get.

ghost use Rattle.std.specs.Prelude.{◌≡◌, ◌≤◌, ◌++◌, IfOk, OnOk, replicate};
ghost use Rattle.lang_base.specs.Limits.{CLIENTS};
ghost use Rattle.machine_stress.specs.LargeInput.{caller, callers, clients_of, plain_call};
ghost use Rattle.machine_stress.specs.LargeInput.{producers_and_consumers};

use crate::buffer::{GET_METHOD, PUT_METHOD};
use base_list::Seq;
use lang_base::Name;
use machine_implicit::{Call, Client, Scripts};
use std::alloc::{AllocError, Global};

/// How many clients put.
pub const PRODUCERS: u32 = 16;

/// How many clients get.
pub const CONSUMERS: u32 = 16;

/// How often each client calls.
pub const CALLS_EACH: usize = 512;

/// The scripts of all clients. It fails only for want of memory.
pub(crate) fn producers_and_consumers(alloc: Global) -> Result<Scripts, AllocError>
    ensures { IfOk result (λ scripts. scripts ≡ producers_and_consumers) }
{
    let clients = clients_of(alloc, PRODUCERS, CONSUMERS, CALLS_EACH)?;
    Ok(Scripts::of(clients))
}

/// Those that put, and then those that get.
fn clients_of(
    alloc: Global,
    producers: u32,
    consumers: u32,
    calls: usize,
) -> Result<Vec<Client>, AllocError>
    requires producers { producers ≤ CLIENTS }
    requires consumers { consumers ≤ CLIENTS }
    ensures { IfOk result (λ clients. clients.items ≡ clients_of producers consumers calls) }
{
    let mut clients = Vec::new(alloc);
    push_callers(alloc, &mut clients, "P", PUT_METHOD, calls, producers)?;
    push_callers(alloc, &mut clients, "G", GET_METHOD, calls, consumers)?;
    Ok(clients)
}

/// Adds so many clients, numbered from 1, that make so many calls of the method.
fn push_callers(
    alloc: Global,
    clients: &mut Vec<Client>,
    letter: &str,
    method: u32,
    calls: usize,
    count: u32,
) -> Result<(), AllocError>
    requires { count ≤ CLIENTS }
    ensures { OnOk result (clients.new.items
        ≡ clients.old.items ++ callers letter.now method calls count) }
{
    for number in 0..count {
        clients.push(caller(alloc, letter, method, calls, number + 1)?)?;
    }
    Ok(())
}

/// A client with a letter and a number for its name, and so many calls of the method.
fn caller(
    alloc: Global,
    letter: &str,
    method: u32,
    calls: usize,
    number: u32,
) -> Result<Client, AllocError>
    ensures { IfOk result (λ client. client ≡ caller letter.now method calls number) }
{
    let name = format!(in alloc; "{letter}{number}")?;
    Ok(Client {
        name: Name::of(name.into_bytes()),
        calls: Seq::of(plain_calls(alloc, method, calls)?),
    })
}

/// So many calls of a method of no inputs.
fn plain_calls(alloc: Global, method: u32, count: usize) -> Result<Vec<Call>, AllocError>
    ensures { IfOk result (λ calls. calls.items ≡ replicate count (plain_call method)) }
{
    let mut calls = Vec::new(alloc);
    for _call in 0..count {
        calls.push(Call {
            method,
            inputs: Seq::of(Vec::new(alloc)),
            tries: false,
        })?;
    }
    Ok(calls)
}
