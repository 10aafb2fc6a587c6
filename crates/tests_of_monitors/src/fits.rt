//! Which blocks keep 64 bits under what the placed plan keeps.

use plan_fits::{fits_of, overflow_of, whole_blocks};
use plan_place::place;
use samples::checked;
use samples::monitors::{ACCUMULATOR, BUFFER, GATE, MEETING, READERS_AND_WRITERS, TWICE, UP};
use std::alloc::Global;
use std::test::Fail;

/// Whether just these blocks of the monitor of a text fit.
fn fit(alloc: Global, text: &[u8], blocks: &[bool]) -> Option<bool> {
    let monitor = checked(alloc, text)?;
    let placed = place(alloc, &monitor).ok()?;
    let whole = whole_blocks(alloc, &monitor, placed.plan.kept.items()).ok()?;
    Some(whole.as_slice() == blocks)
}

/// Whether they do where nothing is kept.
fn fit_alone(alloc: Global, text: &[u8], blocks: &[bool]) -> Option<bool> {
    let monitor = checked(alloc, text)?;
    let whole = whole_blocks(alloc, &monitor, &[]).ok()?;
    Some(whole.as_slice() == blocks)
}

#[test]
fn a_guard_keeps_64_bits(rt: HostRuntime) {
    assert_eq!(rt; fit_alone(rt.alloc(), BUFFER, &[true, true]), Some(true));
    assert_eq!(rt; fit(rt.alloc(), UP, &[false]), Some(true));
}

#[test]
fn a_block_without_numbers_fits(rt: HostRuntime) {
    assert_eq!(rt; fit(rt.alloc(), GATE, &[false, true]), Some(true));
}

#[test]
fn each_block_is_asked_by_itself(rt: HostRuntime) {
    assert_eq!(rt;
        fit(rt.alloc(), READERS_AND_WRITERS, &[false, true, true, true]),
        Some(true)
    );
    assert_eq!(rt;
        fit(rt.alloc(), ACCUMULATOR, &[false, true, true]),
        Some(true)
    );
}

#[test]
fn locals_are_within_64_bits(rt: HostRuntime) {
    assert_eq!(rt; fit(rt.alloc(), MEETING, &[false, true]), Some(true));
    assert_eq!(rt; fit(rt.alloc(), TWICE, &[false, true]), Some(true));
}

// That the answer fits follows from what is kept.
const STOCK: &[u8] = b"monitor Stock {
  int count = 0;
  method put() waituntil (count < 4) {
    count = count + 1;
  }
  method next() waituntil (true) {
    return count + 1;
  }
}
";

#[test]
fn what_is_kept_is_used(rt: HostRuntime) {
    assert_eq!(rt; fit(rt.alloc(), STOCK, &[true, true]), Some(true));
    assert_eq!(rt; fit_alone(rt.alloc(), STOCK, &[true, false]), Some(true));
}

// On the way the number may leave 64 bits, and comes back to them; but what is kept says that it
// is 0.
const WAY: &[u8] = b"monitor Way {
  int count = 0;
  method turn() waituntil (true) {
    count = count + 1;
    count = count - 1;
  }
}
";

#[test]
fn numbers_on_the_way_count(rt: HostRuntime) {
    assert_eq!(rt; fit_alone(rt.alloc(), WAY, &[false]), Some(true));
    assert_eq!(rt; fit(rt.alloc(), WAY, &[true]), Some(true));
}

/// How many blocks of the monitor of a text have a certificate.
fn certificates(alloc: Global, text: &[u8]) -> Option<usize> {
    let monitor = checked(alloc, text)?;
    let fits = fits_of(alloc, &monitor, &[]).ok()?;
    Some(fits.iter().filter(|fit| fit.is_some()).count())
}

/// The number of the first field with which the only block of the monitor of a text leaves 64 bits.
fn number_of(alloc: Global, text: &[u8]) -> Option<i128> {
    let monitor = checked(alloc, text)?;
    if monitor.blocks().is_empty() {
        return None;
    }
    let found = overflow_of(alloc, &monitor, &[], 0).ok()??;
    Some(found.number(0))
}

#[test]
fn a_state_is_found_that_leaves_64_bits(rt: HostRuntime) {
    assert_eq!(rt; number_of(rt.alloc(), UP), Some(9_223_372_036_854_775_807));
    assert_eq!(rt; number_of(rt.alloc(), WAY), Some(9_223_372_036_854_775_807));
}

#[test]
fn a_block_that_fits_has_a_certificate(rt: HostRuntime) {
    assert_eq!(rt; certificates(rt.alloc(), BUFFER), Some(2));
    assert_eq!(rt; certificates(rt.alloc(), GATE), Some(1));
}
