//! Scripts that are put together by hand.

use super::reading::monitor_of;
use base_list::Seq;
use lang_base::Name;
use lang_monitor::Monitor;
use machine_implicit::{Call, Client, Scripts, are_clients, scripts_fit, turns};
use std::alloc::{AllocError, Global};
use std::test::Fail;

/// So many calls of the first method, without inputs.
fn calls_of(alloc: Global, count: usize) -> Result<Vec<Call>, AllocError> {
    let mut calls = Vec::new(alloc);
    for _ in 0..count {
        calls.push(Call {
            method: 0,
            inputs: Seq::of(Vec::new(alloc)),
            tries: false,
        })?;
    }
    Ok(calls)
}

/// A client of this name, with so many calls.
fn client_of(alloc: Global, name: &[u8], count: usize) -> Result<Client, AllocError> {
    let name = Name::of(Vec::from_slice(alloc, name)?);
    Ok(Client {
        name,
        calls: Seq::of(calls_of(alloc, count)?),
    })
}

/// 32 clients, each of so many calls of the first method.
fn many_clients(alloc: Global, count: usize) -> Result<Vec<Client>, AllocError> {
    let mut clients = Vec::new(alloc);
    for client in 0..32u8 {
        let letters = [b'c', b'0' + client / 10, b'0' + client % 10];
        clients.push(client_of(alloc, letters.as_slice(), count)?)?;
    }
    Ok(clients)
}

/// What comes of clients that are offered.
#[derive(Clone, Copy, Debug, PartialEq)]
enum Outcome {
    /// They are no scripts.
    NoScripts,
    /// They are scripts, and don't fit the monitor.
    Misfits,
    /// Calls are left at the end of their run.
    Stalls,
    /// All calls are made, so many in all.
    Makes(usize),
}

/// What comes of scripts by rounds.
fn run_of(alloc: Global, monitor: &Monitor, scripts: &Scripts) -> Result<Outcome, AllocError> {
    if !scripts_fit(monitor, scripts.clients()) {
        return Ok(Outcome::Misfits);
    }
    let run = turns(alloc, monitor, scripts)?;
    if run.finished {
        Ok(Outcome::Makes(run.history.items().len()))
    } else {
        Ok(Outcome::Stalls)
    }
}

/// What comes of 32 clients of so many calls each.
fn outcome_of(alloc: Global, monitor: &Monitor, count: usize) -> Result<Outcome, AllocError> {
    let clients = many_clients(alloc, count)?;
    if !are_clients(clients.as_slice()) {
        return Ok(Outcome::NoScripts);
    }
    run_of(alloc, monitor, &Scripts::of(clients))
}

#[test]
fn scripts_made_by_hand_have_16384_calls_at_most(rt: HostRuntime) -> Result<(), Fail> {
    let text = b"monitor M { int x = 0; method p() waituntil (x >= 0) { x = x + 1; } }";
    let monitor = monitor_of(rt.alloc(), text)?;
    let most = outcome_of(rt.alloc(), &monitor, 512)?;
    assert_eq!(rt; most, Outcome::Makes(16384));
    let more = outcome_of(rt.alloc(), &monitor, 513)?;
    assert_eq!(rt; more, Outcome::NoScripts);
    Ok(())
}

/// A client without calls for each letter, which is its name.
fn clients_named(alloc: Global, letters: &[u8]) -> Result<Vec<Client>, AllocError> {
    let mut clients = Vec::new(alloc);
    for letter in letters {
        clients.push(client_of(alloc, &[*letter], 0)?)?;
    }
    Ok(clients)
}

/// Whether these clients may be scripts.
fn may_be_scripts(alloc: Global, letters: &[u8]) -> Result<bool, AllocError> {
    let clients = clients_named(alloc, letters)?;
    Ok(are_clients(clients.as_slice()))
}

/// The names of the clients that scripts hold, one after the other.
fn names_in(alloc: Global, scripts: &Scripts) -> Result<Vec<u8>, AllocError> {
    let mut names = Vec::new(alloc);
    for client in scripts.clients() {
        names.extend_from_slice(client.name.bytes())?;
    }
    Ok(names)
}

/// The names that scripts of these clients hold, where the clients may be scripts.
fn names_held(alloc: Global, letters: &[u8]) -> Result<Vec<u8>, Fail> {
    let clients = clients_named(alloc, letters)?;
    if !are_clients(clients.as_slice()) {
        return Err("clients".into());
    }
    Ok(names_in(alloc, &Scripts::of(clients))?)
}

#[test]
fn scripts_hold_their_clients_in_order(rt: HostRuntime) -> Result<(), Fail> {
    let names = names_held(rt.alloc(), b"AB")?;
    assert_eq!(rt; names.as_slice(), b"AB".as_slice());
    Ok(())
}

#[test]
fn clients_have_distinct_names(rt: HostRuntime) -> Result<(), Fail> {
    assert!(rt; may_be_scripts(rt.alloc(), b"AB")?);
    assert!(rt; !may_be_scripts(rt.alloc(), b"ABA")?);
    Ok(())
}
