//! What a section and a spurious wake-up answer, of a client of the lock that waits.

ghost use Rattle.std.specs.Prelude.{◌≡◌, length};

use super::reading::{clients_of, monitor_of};
use machine_events::{Entry, Outcome, Plan};
use machine_explicit::{FreeMonitor, NotReady, Section, SpuriousFault};
use samples::monitors::LOCK;
use std::alloc::Global;
use std::process::Abort;
use std::test::Fail;

/// A monitor, and how many clients it has.
#[derive(Drop)]
struct Running {
    free: FreeMonitor,
    clients: u32,
    ghost counted: { clients ≡ length free.system.clients },
}

impl Running {
    /// Makes a section, where there is a client of this number.
    fn section(&mut self, client: u32) -> Option<Result<Section, NotReady>> {
        if client < self.clients {
            Some(self.free.section(client))
        } else {
            None
        }
    }

    /// Wakes a client by nothing, where there is one of this number.
    fn spurious(&mut self, client: u32) -> Option<Result<(), SpuriousFault>> {
        if client < self.clients {
            Some(self.free.spurious(client))
        } else {
            None
        }
    }
}

/// The lock at the start, with these clients and one spurious entry to come.
fn started(alloc: Global, clients: &[u8]) -> Result<Running, Fail> {
    let monitor = monitor_of(alloc, LOCK)?;
    let scripts = clients_of(alloc, clients, &monitor)?;
    let plan = Plan::everyone(alloc, &monitor)?;
    let clients = scripts.clients().len() as u32;
    let free = FreeMonitor::open(alloc, monitor, plan, scripts, 1)?;
    Ok(Running { free, clients })
}

/// What is asked of a monitor after what came before.
#[derive(Clone, Copy)]
enum Check {
    /// What a section of a client answers.
    Section(u32, Result<Section, NotReady>),
    /// What waking a client by nothing answers.
    Spurious(u32, Result<(), SpuriousFault>),
    /// Whether it is closed.
    Closed(bool),
    /// How long its log is.
    Length(usize),
    /// How long its log may become, and how many of its entries may be spurious.
    Room(usize, u64),
}

impl Running {
    /// Whether it is as is asked.
    fn is_as(&mut self, check: Check) -> bool {
        match check {
            Check::Section(client, answer) => self.section(client) == Some(answer),
            Check::Spurious(client, answer) => self.spurious(client) == Some(answer),
            Check::Closed(closed) => self.free.closed() == closed,
            Check::Length(length) => self.free.log().len() == length,
            Check::Room(room, extra) => self.free.room() == room && self.free.extra() == extra,
        }
    }

    /// The place from 0 of the first check that it is not as.
    fn first_wrong(&mut self, checks: &[Check]) -> Option<usize> {
        for (place, check) in checks.iter().enumerate() {
            if !self.is_as(*check) {
                return Some(place);
            }
        }
        None
    }
}

/// Demands of the lock with these clients that it is as each check asks.
fn meets(rt: &(impl Abort + AllocGlobal), clients: &[u8], checks: &[Check]) -> Result<(), Fail> {
    let mut running = started(rt.alloc(), clients)?;
    let wrong = running.first_wrong(checks);
    assert_eq!(rt; wrong, None);
    Ok(())
}

/// The answer of a section in which the only client waits again, by its place in the log.
fn waits_at(place: u64) -> Result<Section, NotReady> {
    Ok(Section {
        place,
        entry: Entry {
            client: 0,
            call: 1,
            block: 1,
            outcome: Outcome::Waits,
        },
    })
}

#[test]
fn a_client_that_waits_is_woken_by_nothing_once(rt: HostRuntime) -> Result<(), Fail> {
    let checks = [
        // One call of one client, and two entries for the spurious wake-up.
        Check::Room(3, 1),
        Check::Section(0, waits_at(0)),
        Check::Spurious(0, Ok(())),
        Check::Closed(false),
        Check::Section(0, waits_at(2)),
        Check::Spurious(0, Err(SpuriousFault::Spent)),
        Check::Section(0, Err(NotReady { entries: 3 })),
        Check::Closed(true),
        Check::Length(3),
    ];
    meets(&rt, b"client A { release(); }", &checks)
}
