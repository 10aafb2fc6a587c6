//! A monitor that two passes share.

ghost use Rattle.std.specs.Prelude.{◌≡◌, ◌<◌, ◌↔◌, IsTrue, length};
ghost use Rattle.threads_lock.specs.Loans.{lock_of};

use super::opening::opened;
use machine_events::{Entry, Outcome};
use machine_explicit::{FreeMonitor, NotReady, SpuriousFault};
use machine_implicit::Reply;
use samples::monitors::BUFFER;
use std::alloc::Global;
use std::sync::Wait;
use std::test::Fail;
use threads_lock::{Berth, LoanEnd, Pass, Receipt, Rest, SharedMonitor};

const PUT_GET: &[u8] = b"client A { put(); get(); }";

fn has_client(free: &FreeMonitor) -> bool
    ensures { IsTrue result ↔ (0 < length free.now.system.clients) }
{
    0 < free.scripts().clients().len()
}

/// A monitor that two passes share.
#[derive(Drop)]
struct Two {
    shared: SharedMonitor,
    first: Pass,
    second: Pass,
    ghost passes: { shared.passes ≡ 2 },
    ghost first_own: { first.lock ≡ shared.lock },
    ghost second_own: { second.lock ≡ shared.lock },
    ghost first_client: { 0 < length first.known.front.system.clients },
    ghost second_client: { 0 < length second.known.front.system.clients },
}

impl Two {
    fn of(alloc: Global, free: FreeMonitor) -> Result<Two, Fail> {
        if !has_client(&free) {
            return Err("a client".into());
        }
        let (shared, mut passes) = SharedMonitor::open(alloc, free, 2)?;
        let second = passes.pop().unwrap();
        let first = passes.pop().unwrap();
        Ok(Two {
            shared,
            first,
            second,
        })
    }

    /// A section of the only client, by the first pass.
    fn first_section<R: Wait>(&mut self, rt: &R) -> Result<Receipt, NotReady> {
        self.shared.section(rt, &mut self.first, 0)
    }

    /// A section of the only client, by the second pass.
    fn second_section<R: Wait>(&mut self, rt: &R) -> Result<Receipt, NotReady> {
        self.shared.section(rt, &mut self.second, 0)
    }

    fn first_observes(&mut self) -> u64 {
        self.shared.observe(&mut self.first)
    }

    fn second_observes(&mut self) -> u64 {
        self.shared.observe(&mut self.second)
    }

    /// Whether the monitor is closed, as the second pass finds it.
    fn is_closed<R: Wait>(&mut self, rt: &R) -> bool {
        self.shared.is_closed(rt, &mut self.second)
    }

    fn close(self, alloc: Global) -> Result<FreeMonitor, Fail> {
        let Two {
            shared,
            first,
            second,
        } = self;
        let mut passes = Vec::with_capacity(alloc, 2)?;
        passes.push_reserved(first);
        passes.push_reserved(second);
        Ok(shared.close(passes))
    }
}

/// The receipt of a reply without a value of the only client.
fn replied(place: u64, call: u32, ticket: u64) -> Result<Receipt, NotReady> {
    Ok(Receipt {
        place,
        entry: Entry {
            client: 0,
            call,
            block: 1,
            outcome: Outcome::Replies {
                reply: Reply::Unit,
                woken: 0,
            },
        },
        ticket,
    })
}

#[test]
fn two_passes_make_sections_in_turn(rt: HostRuntime) -> Result<(), Fail> {
    let mut two = Two::of(rt.alloc(), opened(rt.alloc(), BUFFER, PUT_GET)?)?;
    assert_eq!(rt; two.first_observes(), 0);
    assert_eq!(rt; two.first_section(&rt), replied(0, 1, 0));
    assert_eq!(rt; two.first_observes(), 1);
    assert_eq!(rt; two.second_observes(), 1);
    assert_eq!(rt; two.second_section(&rt), replied(1, 2, 1));
    assert_eq!(rt; two.first_section(&rt), Err(NotReady { entries: 2 }));
    assert!(rt; two.is_closed(&rt));
    assert_eq!(rt; two.first.seen(), 2);
    let mut free = two.close(rt.alloc())?;
    assert_eq!(rt; free.log().len(), 2);
    if !has_client(&free) {
        return Err("a client".into());
    }
    assert_eq!(rt;
        free.spurious(0),
        Err(SpuriousFault::NotReady { entries: 2 })
    );
    Ok(())
}

/// A monitor, and a berth of its own.
#[derive(Drop)]
struct Inn {
    shared: SharedMonitor,
    berth: Berth,
    ghost own: { lock_of berth ≡ shared.lock },
}

impl Rest for Inn {
    /// It makes the section for which a pass lies in the berth.
    fn rest<R: Wait>(&self, rt: &R) {
        let _made = self.shared.section_for(rt, &self.berth).is_ok();
    }
}

#[test]
fn a_pass_that_is_lent_comes_back_with_its_section(rt: HostRuntime) -> Result<(), Fail> {
    let two = Two::of(rt.alloc(), opened(rt.alloc(), BUFFER, PUT_GET)?)?;
    let Two {
        shared,
        mut first,
        second: _,
    } = two;
    let berth = shared.berth(rt.alloc())?;
    let inn = Inn { shared, berth };
    let lent = inn.shared.lend(&rt, &mut first, 0, &inn.berth, &inn);
    let LoanEnd::Made(receipt) = lent else {
        return Err("a section".into());
    };
    assert_eq!(rt; Ok(receipt), replied(0, 1, 0));
    let none = inn.shared.section_for(&rt, &inn.berth).is_err();
    assert!(rt; none);
    Ok(())
}
