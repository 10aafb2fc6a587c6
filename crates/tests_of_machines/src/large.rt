//! The large input against the texts that it stands for.

use super::reading::{clients_of, monitor_of};
use lang_monitor::Monitor;
use machine_implicit::Client;
use machine_stress::{LargeInput, large_input};
use samples::monitors::BUFFER;
use std::alloc::{AllocError, Global};
use std::test::Fail;

const BUFFER_OF_FOUR: &[u8] = b"monitor Buffer {
  const CAP = 4;
  int count = 0;
  method put() waituntil (count < CAP) {
    count = count + 1;
  }
  method get() waituntil (count > 0) {
    count = count - 1;
  }
}
";

/// So many clients that put, and as many that get.
const ON_A_SIDE: u32 = 16;

/// Adds a client for each number of a side, with 512 calls of a method.
fn add_side(alloc: Global, text: &mut String, name: &str, method: &str) -> Result<(), AllocError> {
    for number in 1..=ON_A_SIDE {
        let client = format!(in alloc;
            "client {name}{number} {{ repeat 512 {{ {method}(); }} }}\n"
        )?;
        text.push_str(client.as_str())?;
    }
    Ok(())
}

/// The clients as a text: those that put, and then those that get.
fn clients_text(alloc: Global) -> Result<String, AllocError> {
    let mut text = String::new(alloc);
    add_side(alloc, &mut text, "P", "put")?;
    add_side(alloc, &mut text, "G", "get")?;
    Ok(text)
}

/// Every part of a monitor.
fn parts_of(alloc: Global, monitor: &Monitor) -> Result<String, AllocError> {
    format!(in alloc; "{monitor:?}")
}

/// Whether every part of two monitors is the same.
fn is_same_monitor(alloc: Global, one: &Monitor, other: &Monitor) -> Result<bool, AllocError> {
    let parts = parts_of(alloc, one)?;
    let others = parts_of(alloc, other)?;
    Ok(parts.as_bytes() == others.as_bytes())
}

/// Whether two clients have the same name and the same calls.
fn is_same_client(one: &Client, other: &Client) -> bool {
    let calls = one.calls.items();
    let others = other.calls.items();
    if one.name.bytes() != other.name.bytes() || calls.len() != others.len() {
        return false;
    }
    for (call, also) in calls.iter().zip(others) {
        if call.method != also.method || call.inputs.items() != also.inputs.items() {
            return false;
        }
    }
    true
}

/// The large input of a number. What is promised of it is left out, since the tests compare it with
/// texts.
fn made(alloc: Global, number: u64) -> Result<LargeInput, AllocError> {
    large_input(alloc, number)
}

/// Whether the number's buffer is what this text says.
fn is_buffer(alloc: Global, number: u64, text: &[u8]) -> Result<bool, Fail> {
    let monitor = monitor_of(alloc, text)?;
    let input = made(alloc, number)?;
    Ok(is_same_monitor(alloc, &input.monitor, &monitor)?)
}

/// Whether these are the same clients, in the same order.
fn are_same_clients(clients: &[Client], others: &[Client]) -> bool {
    if clients.len() != others.len() {
        return false;
    }
    for (client, other) in clients.iter().zip(others) {
        if !is_same_client(client, other) {
            return false;
        }
    }
    true
}

#[test]
fn the_number_gives_the_room(rt: HostRuntime) -> Result<(), Fail> {
    assert!(rt; is_buffer(rt.alloc(), 3, BUFFER_OF_FOUR)?);
    assert!(rt; is_buffer(rt.alloc(), 7, BUFFER)?);
    assert!(rt; !is_buffer(rt.alloc(), 8, BUFFER)?);
    Ok(())
}

/// Whether the clients of a large input are those of this text.
fn has_clients(alloc: Global, input: &LargeInput, text: &[u8]) -> Result<bool, Fail> {
    let scripts = clients_of(alloc, text, &input.monitor)?;
    Ok(are_same_clients(input.scripts.clients(), scripts.clients()))
}

#[test]
fn the_clients_are_those_of_their_text(rt: HostRuntime) -> Result<(), Fail> {
    let text = clients_text(rt.alloc())?;
    let input = made(rt.alloc(), 3)?;
    let same = has_clients(rt.alloc(), &input, text.as_bytes())?;
    assert!(rt; same);
    Ok(())
}
