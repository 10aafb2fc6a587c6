//! Tickets of a ready queue.

ghost use Rattle.std.specs.Prelude.{◌≡◌};

use std::sync::Wait;
use std::test::Fail;
use threads_queue::{QueuePass, ReadyQueue};

/// Takes a ticket and puts it back, and answers its client.
#[tactic(auto, using(threads_queue::proofs::Sums::contains_first))]
fn turn<R: Wait>(rt: &R, queue: &ReadyQueue, pass: &mut QueuePass) -> Option<u32>
    requires own { pass.old.queue ≡ queue.now }
    ensures own { pass.new.queue ≡ queue.now }
{
    let ticket = queue.take(rt, pass)?;
    let client = ticket.client();
    queue.put(rt, pass, ticket);
    Some(client)
}

#[test]
fn tickets_come_in_order_and_go_round(rt: HostRuntime) -> Result<(), Fail> {
    let (queue, mut passes) = ReadyQueue::open(rt.alloc(), 3, 1)?;
    let Some(mut pass) = passes.pop() else {
        return Ok(());
    };
    assert!(rt; turn(&rt, &queue, &mut pass) == Some(0));
    assert!(rt; turn(&rt, &queue, &mut pass) == Some(1));
    assert!(rt; turn(&rt, &queue, &mut pass) == Some(2));
    assert!(rt; turn(&rt, &queue, &mut pass) == Some(0));
    Ok(())
}

/// Takes a ticket for good, and answers its client.
fn taken<R: Wait>(rt: &R, queue: &ReadyQueue, pass: &mut QueuePass) -> Option<u32>
    requires own { pass.old.queue ≡ queue.now }
    ensures own { pass.new.queue ≡ queue.now }
{
    let ticket = queue.take(rt, pass)?;
    Some(ticket.client())
}

/// The clients of the tickets that two passes got.
#[derive(Clone, Copy)]
struct Handing {
    /// That of the first, which it puts back.
    first: u32,
    /// Those of the other, before the first put its ticket back, and after.
    before: Option<u32>,
    after: Option<u32>,
}

/// A pass takes a ticket and puts it back. The other tries to take one before that, and after.
#[tactic(auto, using(threads_queue::proofs::Sums::contains_first))]
fn hand_over<R: Wait>(
    rt: &R,
    queue: &ReadyQueue,
    one: &mut QueuePass,
    other: &mut QueuePass,
) -> Option<Handing>
    requires one { one.old.queue ≡ queue.now }
    requires other { other.old.queue ≡ queue.now }
{
    let ticket = queue.take(rt, one)?;
    let first = ticket.client();
    let before = taken(rt, queue, other);
    queue.put(rt, one, ticket);
    let after = taken(rt, queue, other);
    Some(Handing {
        first,
        before,
        after,
    })
}

#[test]
fn a_ticket_goes_to_another_pass_when_it_is_put_back(rt: HostRuntime) -> Result<(), Fail> {
    let (queue, mut passes) = ReadyQueue::open(rt.alloc(), 1, 2)?;
    let (Some(mut one), Some(mut other)) = (passes.pop(), passes.pop()) else {
        return Err("two passes".into());
    };
    assert!(rt; one.clients() == 1);
    let Some(handing) = hand_over(&rt, &queue, &mut one, &mut other) else {
        return Err("a ticket".into());
    };
    assert_eq!(rt; handing.first, 0);
    assert!(rt; handing.before.is_none());
    assert!(rt; handing.after == Some(0));
    Ok(())
}
