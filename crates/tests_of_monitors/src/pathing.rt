//! The paths of bodies.

use lang_monitor::{Monitor, paths};
use logic_linear::{Formula, Lin, Put, Term};
use logic_wp::{Path, Step, paths_of};
use samples::checked;
use samples::monitors::ACCUMULATOR;
use std::alloc::{AllocError, Global};
use std::test::Fail;

/// The monitor of a text.
fn monitor_of(alloc: Global, text: &[u8]) -> Result<Monitor, Fail> {
    match checked(alloc, text) {
        Some(monitor) => Ok(monitor),
        None => Err(Fail::from("a monitor")),
    }
}

/// How many paths a block has, and how many are listed, if any are.
type Counted = (u64, Option<usize>);

/// What is counted of a block, where there is one of this number.
fn counted(alloc: Global, monitor: &Monitor, block: u32) -> Result<Option<Counted>, AllocError> {
    if block as usize >= monitor.blocks().len() {
        return Ok(None);
    }
    let listed = match paths_of(alloc, monitor, block)? {
        Some(listed) => Some(listed.items().len()),
        None => None,
    };
    Ok(Some((paths(monitor, block), listed)))
}

/// What is counted of a block of the monitor of a text.
fn counted_of(alloc: Global, text: &[u8], block: u32) -> Result<Option<Counted>, Fail> {
    let monitor = monitor_of(alloc, text)?;
    Ok(counted(alloc, &monitor, block)?)
}

const SIX: &[u8] = b"monitor Six { int x = 0; method m() waituntil (true) {
    if (x > 0) { x = 0; } if (x > 1) { x = 1; } if (x > 2) { x = 2; }
    if (x > 3) { x = 3; } if (x > 4) { x = 4; } if (x > 5) { x = 5; } } }";

const SEVEN: &[u8] = b"monitor Seven { int x = 0; method m() waituntil (true) {
    if (x > 0) { x = 0; } if (x > 1) { x = 1; } if (x > 2) { x = 2; }
    if (x > 3) { x = 3; } if (x > 4) { x = 4; } if (x > 5) { x = 5; } if (x > 6) { x = 6; } } }";

#[test]
fn at_most_64_paths_are_listed(rt: HostRuntime) -> Result<(), Fail> {
    assert_eq!(rt; counted_of(rt.alloc(), SIX, 0)?, Some((64, Some(64))));
    assert_eq!(rt; counted_of(rt.alloc(), SEVEN, 0)?, Some((65, None)));
    Ok(())
}

/// A form told by its terms and its constant.
type Told<'a> = (&'a [Term], i128);

fn is_form(form: &Lin, told: Told<'_>) -> bool {
    form.terms() == told.0 && form.constant() == told.1
}

/// Whether a path assumes this row, and then puts this form for the variable of place 0.
fn goes(path: &Path, assumed: Told<'_>, put: Told<'_>) -> bool {
    match path.steps() {
        [
            Step::Assume(Formula::Row(row)),
            Step::Put(Put::Number { place: 0, form }),
        ] => is_form(row, assumed) && is_form(form, put),
        _ => false,
    }
}

/// Whether there are two paths: where an input is 10 or more a 9 is put, and the input where it is
/// 9 or less.
fn are_capped(paths: &[Path]) -> bool {
    let less = [Term {
        place: 16,
        times: -1,
    }];
    let more = [Term {
        place: 16,
        times: 1,
    }];
    match paths {
        [one, other] => { goes(one, (&less, 10), (&[], 9)) && goes(other, (&more, -9), (&more, 0)) }
        _ => false,
    }
}

/// Whether these are the paths of a block, where there is one of this number.
fn is_cap(alloc: Global, monitor: &Monitor, block: u32) -> Result<bool, AllocError> {
    if block as usize >= monitor.blocks().len() {
        return Ok(false);
    }
    match paths_of(alloc, monitor, block)? {
        Some(listed) => Ok(are_capped(listed.items())),
        None => Ok(false),
    }
}

#[test]
fn both_sides_of_an_if_are_paths(rt: HostRuntime) -> Result<(), Fail> {
    assert_eq!(rt; counted_of(rt.alloc(), ACCUMULATOR, 2)?, Some((2, Some(2))));
    let monitor = monitor_of(rt.alloc(), ACCUMULATOR)?;
    assert!(rt; is_cap(rt.alloc(), &monitor, 2)?);
    assert!(rt; !is_cap(rt.alloc(), &monitor, 0)?);
    Ok(())
}
