//! The text of a log.

ghost use Rattle.std.specs.Prelude.{◌≡◌, ◌<◌, ◌≤◌, ℕ, false, length, true};
ghost use Rattle.std.specs.List.{flat_map};
ghost use Rattle.lang_base.specs.Limits.{CLIENTS};
ghost use Rattle.base_io.specs.Writing.{Wrote};
ghost use Rattle.machine_events.specs.Configurations.{situation_of};
ghost use Rattle.report_text.specs.LogText.{are_done, closing_text, entry_text, is_woken, log_text};
ghost use Rattle.report_text.specs.LogText.{replied_text, wakes_text, woken_names};

use crate::ending::{Left, has_done, write_end};
use crate::turns::{name_of, write_call, write_state};
use crate::values::reply_bytes;
use base_io::{Sink, SinkFailed, write_piece, write_pieces};
use itoa::Buffer;
use lang_monitor::Monitor;
use machine_events::{Entry, Outcome};
use machine_explicit::FreeMonitor;
use machine_implicit::{Client, Reply};

/// Writes the log of a monitor that ran by sections: a line for each entry, then how the log ended,
/// then the state. It takes no memory.
///
/// After `SinkFailed` the first bytes of the text were taken, fewer than all and maybe none.
pub fn write_log<S: Sink>(free: &FreeMonitor, out: &mut S) -> Result<(), SinkFailed>
    ensures { Wrote (S.seen out.old) (S.seen out.new) result
        (log_text free.now.system free.now.log free.now.now) }
{
    write_entries(free.monitor(), free.scripts().clients(), free.log(), out)?;
    write_closing(free, out)
}

/// How a log ended, then the state.
pub(crate) fn write_closing<S: Sink>(free: &FreeMonitor, out: &mut S) -> Result<(), SinkFailed>
    ensures { Wrote (S.seen out.old) (S.seen out.new) result
        (closing_text free.now.system.monitor free.now.system.clients (situation_of free.now.now)) }
{
    let clients = free.scripts().clients();
    write_end(
        free.monitor(),
        clients,
        &Left::Free(free),
        are_done(free),
        out,
    )?;
    write_state(free.monitor(), free.state(), out)
}

/// Whether no client has a call left: whether the log ends by `done`.
pub fn are_done(free: &FreeMonitor) -> bool
    ensures { result ≡ are_done free.now.system.clients (situation_of free.now.now).places }
{
    let clients = free.scripts().clients();
    let left = Left::Free(free);
    for client in 0..left.count() {
        if !has_done(clients, client, left.place(client)) {
            return false;
        }
    }
    true
}

// ---- entries

// A line for each entry.
fn write_entries<S: Sink>(
    monitor: &Monitor,
    clients: &[Client],
    log: &[Entry],
    out: &mut S,
) -> Result<(), SinkFailed>
    requires { length clients.now ≤ CLIENTS }
    ensures { Wrote (S.seen out.old) (S.seen out.new) result
        (flat_map (entry_text monitor.now clients.now) log.now) }
{
    for entry in log {
        write_entry(monitor, clients, *entry, out)?;
    }
    Ok(())
}

// `A.1 put(3) waits`, `A.1 put(3) = - wakes B` or `spurious A`, and a line feed.
fn write_entry<S: Sink>(
    monitor: &Monitor,
    clients: &[Client],
    entry: Entry,
    out: &mut S,
) -> Result<(), SinkFailed>
    requires { length clients.now ≤ CLIENTS }
    ensures { Wrote (S.seen out.old) (S.seen out.new) result
        (entry_text monitor.now clients.now entry) }
{
    let (client, call) = (entry.client as usize, entry.call as usize);
    let block = entry.block as usize;
    match entry.outcome {
        Outcome::Waits => {
            write_call(monitor, clients, client, call, block, out)?;
            write_piece(b" waits\n", out)
        }
        Outcome::Replies { reply, woken } => {
            write_call(monitor, clients, client, call, block, out)?;
            write_reply(clients, reply, woken, out)
        }
        Outcome::Spurious => write_pieces(&[b"spurious ", name_of(clients, client), b"\n"], out),
    }
}

// ` = - wakes B` and a line feed.
fn write_reply<S: Sink>(
    clients: &[Client],
    reply: Reply,
    woken: u32,
    out: &mut S,
) -> Result<(), SinkFailed>
    requires { length clients.now ≤ CLIENTS }
    ensures { Wrote (S.seen out.old) (S.seen out.new) result
        (replied_text clients.now reply woken) }
{
    let mut digits = Buffer::new();
    write_pieces(&[b" = ", reply_bytes(reply, &mut digits)], out)?;
    write_wakes(clients, woken, out)?;
    write_piece(b"\n", out)
}

// ---- who was woken

// ` wakes B C`, or nothing where no client was woken.
fn write_wakes<S: Sink>(clients: &[Client], woken: u32, out: &mut S) -> Result<(), SinkFailed>
    requires { length clients.now ≤ CLIENTS }
    ensures { Wrote (S.seen out.old) (S.seen out.new) result (wakes_text clients.now woken) }
{
    if woken == 0 {
        return Ok(());
    }
    write_piece(b" wakes", out)?;
    write_woken(clients, woken, out)
}

// A blank and a name for each client that was woken, in file order. Mostly one was, of many: so it
// goes from one of them to the next.
fn write_woken<S: Sink>(clients: &[Client], woken: u32, out: &mut S) -> Result<(), SinkFailed>
    requires { length clients.now ≤ CLIENTS }
    ensures { Wrote (S.seen out.old) (S.seen out.new) result (woken_names woken clients.now) }
{
    let mut passed = 0;
    while passed < clients.len() {
        let number = next_woken(woken, passed);
        if number >= clients.len() {
            return Ok(());
        }
        write_pieces(&[b" ", clients[number].name.bytes()], out)?;
        passed = number + 1;
    }
    Ok(())
}

// The first client from this one on whose bit is set, or a number that no client has.
fn next_woken(woken: u32, from: usize) -> usize
    requires { from < CLIENTS }
    ensures from { from ≤ result }
    ensures none { (number : ℕ) → from ≤ number → number < result
        → is_woken woken number ≡ false }
    ensures woken { result < CLIENTS → is_woken woken result ≡ true }
{
    let rest = woken >> from;
    from + rest.trailing_zeros() as usize
}
