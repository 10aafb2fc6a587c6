//! How many calls there are with each `repeat` written out, counted and not made.

ghost use Rattle.std.specs.Prelude.{◌≡◌, ◌≤◌, ◌+◌, ◌*◌, min, sum_by};
ghost use Rattle.lang_base.specs.Limits.{CALLS};
ghost use Rattle.lang_base.specs.SourceFaults.{least};
ghost use Rattle.lang_script.specs.Faults.{items_in, over_calls, place_of};
ghost use Rattle.lang_script.specs.Scripts.{call_count};
ghost use Rattle.lang_script.specs.inner.Counting.{ABOVE, counted};

use lang_base::limits::CALLS;
use lang_base::{Refusal, SourceFault};
use lang_tree::{ClientTree, Item};

/// One more than the limit stands for every greater count.
const ABOVE: usize = CALLS + 1;

/// The first item with which there are too many calls.
pub(crate) fn over_calls(clients: &[ClientTree]) -> Option<SourceFault>
    ensures { result ≡ least (over_calls 0 (items_in clients.now)) }
{
    match calls_of_clients(clients) {
        Ok(_) => None,
        Err(at) => Some(SourceFault {
            at,
            what: Refusal::TooManyCalls,
        }),
    }
}

/// How many calls there are, or where the first item stands with which they are above the limit.
fn calls_of_clients(clients: &[ClientTree]) -> Result<usize, u32>
    ensures { result ≡ counted 0 (items_in clients.now) }
{
    let mut count = 0;
    for client in clients {
        count = calls_of_items(count, client.items.items())?;
    }
    Ok(count)
}

/// The same after so many calls.
fn calls_of_items(before: usize, items: &[Item]) -> Result<usize, u32>
    requires { before ≤ CALLS }
    ensures { result ≡ counted before items.now }
{
    let mut count = before;
    for item in items {
        let calls = count_calls(item);
        if calls > CALLS - count {
            return Err(place_of(item));
        }
        count += calls;
    }
    Ok(count)
}

/// The offset of an item's first token.
fn place_of(item: &Item) -> u32
    ensures { result ≡ place_of item.now }
{
    match item {
        Item::Call { at, .. } => *at,
        Item::Repeat { at, .. } => *at,
    }
}

/// How many calls an item is, up to one more than the limit.
#[cycle(count_calls)]
fn count_calls(item: &Item) -> usize
    ensures { result ≡ min (call_count item.now) ABOVE }
{
    match item {
        Item::Call { .. } => 1,
        Item::Repeat { times, items, .. } => product(*times, count_each(items.items())),
    }
}

#[cycle(count_calls)]
fn count_each(items: &[Item]) -> usize
    ensures { result ≡ min (sum_by call_count items.now) ABOVE }
{
    let mut count = 0;
    for item in items {
        count = sum(count, count_calls(item));
    }
    count
}

fn sum(a: usize, b: usize) -> usize
    requires one { a ≤ ABOVE }
    requires other { b ≤ ABOVE }
    ensures { result ≡ min (a + b) ABOVE }
{
    (a + b).min(ABOVE)
}

/// So many times a count, up to one more than the limit.
fn product(times: u128, count: usize) -> usize
    requires { count ≤ ABOVE }
    ensures { result ≡ min (times * count) ABOVE }
{
    let calls = times.saturating_mul(count as u128);
    calls.min(ABOVE as u128) as usize
}
