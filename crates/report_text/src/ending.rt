//! How a run or a log ends.

ghost use Rattle.std.specs.Prelude.{◌≡◌, ◌<◌, get_or, length};
ghost use Rattle.base_io.specs.Writing.{Wrote};
ghost use Rattle.machine_events.specs.Configurations.{situation_of};
ghost use Rattle.report_text.specs.TurnsText.{blocked_text, blocked_texts, end_text, has_done};
ghost use Rattle.report_text.specs.inner.Ends.{places_listed};

use crate::turns::{calls, write_call};
use base_io::{Sink, SinkFailed, write_piece};
use lang_monitor::Monitor;
use machine_explicit::FreeMonitor;
use machine_implicit::{Client, Place};

/// Where a run, or a monitor that ran by sections, has left its clients.
#[derive(Clone, Copy)]
pub(crate) enum Left<'a> {
    Run(&'a [Place]),
    Free(&'a FreeMonitor),
}

impl<'a> Left<'a> {
    /// How many clients there are.
    pub(crate) fn count(&self) -> usize
        ensures { result ≡ length (places_listed self.now) }
    {
        match *self {
            Left::Run(places) => places.len(),
            Left::Free(free) => free.scripts().clients().len(),
        }
    }

    /// The place of a client.
    pub(crate) fn place(&self, client: usize) -> &'a Place
        requires { client < length (places_listed self.now) }
        ensures { result.now ≡ get_or (places_listed self.now) client result.now }
    {
        match *self {
            Left::Run(places) => place_in(places, client),
            Left::Free(free) => place_of(free, client),
        }
    }
}

fn place_in(places: &[Place], client: usize) -> &Place
    requires { client < length places.now }
    ensures { result.now ≡ get_or places.now client result.now }
{
    &places[client]
}

fn place_of(free: &FreeMonitor, client: usize) -> &Place
    requires { client < length (situation_of free.now.now).places }
    ensures { result.now ≡ get_or (situation_of free.now.now).places client result.now }
{
    // A reading call says what the rule of the monitor gives.
    let _log = free.log();
    free.place(client as u32)
}

/// `done`, or `stalled` and who is blocked.
pub(crate) fn write_end<S: Sink>(
    monitor: &Monitor,
    clients: &[Client],
    left: &Left<'_>,
    finished: bool,
    out: &mut S,
) -> Result<(), SinkFailed>
    ensures { Wrote (S.seen out.old) (S.seen out.new) result
        (end_text monitor.now clients.now (places_listed left.now) finished) }
{
    if finished {
        return write_piece(b"done\n", out);
    }
    write_piece(b"stalled\n", out)?;
    write_blocked(monitor, clients, left, out)
}

// A line for each client that has a call left, in file order.
fn write_blocked<S: Sink>(
    monitor: &Monitor,
    clients: &[Client],
    left: &Left<'_>,
    out: &mut S,
) -> Result<(), SinkFailed>
    ensures { Wrote (S.seen out.old) (S.seen out.new) result
        (blocked_texts monitor.now clients.now (places_listed left.now)) }
{
    for client in 0..left.count() {
        write_if_blocked(monitor, clients, client, left.place(client), out)?;
    }
    Ok(())
}

// `A.1 put(3, true) blocked` and a line feed, where the client has a call left at its place.
fn write_if_blocked<S: Sink>(
    monitor: &Monitor,
    clients: &[Client],
    client: usize,
    place: &Place,
    out: &mut S,
) -> Result<(), SinkFailed>
    ensures { Wrote (S.seen out.old) (S.seen out.new) result
        (blocked_text monitor.now clients.now client place.now) }
{
    if has_done(clients, client, place) {
        return Ok(());
    }
    let (call, block) = (place.past as usize + 1, place.block as usize + 1);
    write_call(monitor, clients, client, call, block, out)?;
    write_piece(b" blocked\n", out)
}

/// Whether a client has no call left at a place.
pub(crate) fn has_done(clients: &[Client], client: usize, place: &Place) -> bool
    ensures { result ≡ has_done clients.now client place.now }
{
    calls(clients, client).len() <= place.past as usize
}
