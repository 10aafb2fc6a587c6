//! The queries of the lock under a plan that keeps nothing, and their negations.

ghost use Rattle.std.specs.Prelude.{◌<◌, ◌≤◌, IsTrue, length};
ghost use Rattle.logic_linear.specs.Negation.{can_negate};

use lang_monitor::{Candidate, Monitor, Query};
use logic_linear::{Formula, cubes, nodes};
use logic_wp::{keeps, negated, no_test, none_needed, one_enough};
use samples::checked;
use samples::monitors::LOCK;
use std::alloc::{AllocError, Global};
use std::test::Fail;

/// Whether there are a block and a condition of these numbers.
fn are_there(monitor: &Monitor, block: u32, condition: u32) -> bool
    ensures { IsTrue result → (block < length monitor.now.blocks)
        × (1 ≤ condition) × (condition ≤ length monitor.now.conditions) }
{
    (block as usize) < monitor.blocks().len()
        && 1 <= condition
        && condition as usize <= monitor.conditions().len()
}

/// What a negation says: how many times that the lock is free, and then whether the body's end
/// leaves all of nothing, in place of any of nothing.
type Said = (usize, bool);

/// What a negation says whose body has one path.
fn said(negation: &Formula) -> Option<Said> {
    let Formula::All(parts) = negation else {
        return None;
    };
    match parts.items() {
        [
            Formula::Flag {
                place: 0,
                is: false,
            },
            Formula::Any(ways),
        ] => said_last(1, ways.items()),
        [
            Formula::Flag {
                place: 0,
                is: false,
            },
            Formula::Flag {
                place: 0,
                is: false,
            },
            Formula::Any(ways),
        ] => said_last(2, ways.items()),
        _ => None,
    }
}

/// The same, of what stands last.
fn said_last(free: usize, ways: &[Formula]) -> Option<Said> {
    match ways {
        [Formula::All(parts)] if parts.items().is_empty() => Some((free, true)),
        [Formula::Any(parts)] if parts.items().is_empty() => Some((free, false)),
        _ => None,
    }
}

/// What the negation of a query says, with its cubes and its nodes.
type Told = Option<(Option<Said>, u64, u64)>;

fn told(alloc: Global, monitor: &Monitor, query: &Query) -> Result<Told, AllocError>
    requires block { query.now.block < length monitor.now.blocks }
    requires post { IsTrue (can_negate query.now.post) }
{
    match negated(alloc, monitor, query)? {
        Some(negation) => Ok(Some((said(&negation), cubes(&negation), nodes(&negation)))),
        None => Ok(None),
    }
}

/// Of the query whether a block needs no note on a condition.
fn no_note_told(
    alloc: Global,
    monitor: &Monitor,
    block: u32,
    condition: u32,
) -> Result<Told, AllocError> {
    if !are_there(monitor, block, condition) {
        return Ok(None);
    }
    let query = none_needed(alloc, monitor, &[], block, condition)?;
    told(alloc, monitor, &query)
}

/// Of the query whether one waiter is enough.
fn one_told(
    alloc: Global,
    monitor: &Monitor,
    condition: u32,
    block: u32,
) -> Result<Told, AllocError> {
    if !are_there(monitor, block, condition) {
        return Ok(None);
    }
    let query = one_enough(alloc, monitor, &[], condition, block)?;
    told(alloc, monitor, &query)
}

/// Of the query whether a note needs no test.
fn no_test_told(
    alloc: Global,
    monitor: &Monitor,
    block: u32,
    condition: u32,
) -> Result<Told, AllocError> {
    if !are_there(monitor, block, condition) {
        return Ok(None);
    }
    let query = no_test(alloc, monitor, &[], block, condition)?;
    told(alloc, monitor, &query)
}

/// Of the query whether a block keeps the lock free.
fn free_told(alloc: Global, monitor: &Monitor, block: u32) -> Result<Told, AllocError> {
    if !are_there(monitor, block, 1) {
        return Ok(None);
    }
    let free = Candidate::Flag {
        field: 0,
        is: false,
    };
    let query = keeps(alloc, monitor, &[], free, block)?;
    told(alloc, monitor, &query)
}

// Block 0 acquires. Condition 1 is that the lock is free, and condition 2 that it is held.
#[test]
fn each_query_of_the_lock_has_its_negation(rt: HostRuntime) -> Result<(), Fail> {
    let lock = checked(rt.alloc(), LOCK).ok_or("a monitor")?;
    // True where the lock is free: who acquires makes others able to release.
    let no_note = no_note_told(rt.alloc(), &lock, 0, 2)?;
    assert_eq!(rt; no_note, Some((Some((2, true)), 1, 5)));
    let one = one_told(rt.alloc(), &lock, 1, 0)?;
    assert_eq!(rt; one, Some((Some((1, false)), 1, 4)));
    let no_test = no_test_told(rt.alloc(), &lock, 0, 2)?;
    assert_eq!(rt; no_test, Some((Some((2, false)), 1, 5)));
    let free = free_told(rt.alloc(), &lock, 0)?;
    assert_eq!(rt; free, Some((Some((1, true)), 1, 4)));
    Ok(())
}
