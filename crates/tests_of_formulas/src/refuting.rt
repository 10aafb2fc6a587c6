//! What the prover refutes that no monitor file says: many levels, and rows in many places.

use super::shapes::{Shape, all_of, made};
use base_list::Seq;
use logic_cert::{Cert, accepts};
use logic_linear::{Formula, MOST_NODES, nodes};
use logic_solve::refute;
use std::alloc::{AllocError, Global};
use std::test::Fail;

/// Whether `refute` finds a certificate that is accepted.
fn is_refuted(alloc: Global, formula: &Formula) -> Result<bool, AllocError> {
    if nodes(formula) > MOST_NODES {
        return Ok(false);
    }
    match refute(alloc, formula)? {
        None => Ok(false),
        Some(cert) => Ok(accepts(alloc, formula, &cert)?),
    }
}

/// How many sums the chain has that refutes the formula, and none where no chain does.
fn sums_made(alloc: Global, formula: &Formula) -> Result<Option<usize>, AllocError> {
    if nodes(formula) > MOST_NODES {
        return Ok(None);
    }
    match refute(alloc, formula)? {
        Some(Cert::Chain(combines)) => Ok(Some(combines.items().len())),
        _ => Ok(None),
    }
}

/// The same of all of these parts.
fn sums_of(alloc: Global, parts: &[Shape]) -> Result<Option<usize>, Fail> {
    let formula = all_of(alloc, parts)?;
    Ok(sums_made(alloc, &formula)?)
}

/// Three rows that add up to 1, among others and a flag.
const SIX: [Shape; 6] = [
    Shape::Row(&[(0, 2), (1, -3)], 0),
    Shape::Row(&[(0, 1), (1, 1)], -100),
    Shape::Row(&[(0, -1), (1, -2)], -100),
    Shape::Flag(0, true),
    Shape::Row(&[(1, 3), (2, -2)], 0),
    Shape::Row(&[(0, -2), (2, 2)], 1),
];

#[test]
fn only_sums_that_are_needed_are_kept(rt: HostRuntime) -> Result<(), Fail> {
    assert_eq!(rt; sums_of(rt.alloc(), &SIX)?, Some(2));
    Ok(())
}

/// All, or any, of one part.
fn level(alloc: Global, part: Formula, of_all: bool) -> Result<Formula, AllocError> {
    let parts = Seq::of(Vec::from_array(alloc, [part])?);
    if of_all {
        Ok(Formula::All(parts))
    } else {
        Ok(Formula::Any(parts))
    }
}

/// A formula in so many alls, or anys, of one part.
fn levels(alloc: Global, part: Formula, count: u32, of_all: bool) -> Result<Formula, AllocError> {
    let mut formula = part;
    for _ in 0..count {
        formula = level(alloc, formula, of_all)?;
    }
    Ok(formula)
}

/// Whether a false row is refuted in so many levels of anys, and these in so many of alls.
fn is_level_refuted(alloc: Global, anys: u32, alls: u32) -> Result<bool, Fail> {
    let row = made(alloc, &Shape::Row(&[], 1))?;
    let choices = levels(alloc, row, anys, false)?;
    let formula = levels(alloc, choices, alls, true)?;
    Ok(is_refuted(alloc, &formula)?)
}

#[test]
fn a_thousand_levels_are_answered(rt: HostRuntime) -> Result<(), Fail> {
    assert!(rt; is_level_refuted(rt.alloc(), 1_000, 0)?);
    assert!(rt; is_level_refuted(rt.alloc(), 1_000, 1_000)?);
    Ok(())
}

/// The rows by which the place's variable and that of each place before are at most one another.
fn push_pairs(alloc: Global, rows: &mut Vec<Formula>, place: u32, first: i128) -> Result<(), Fail> {
    for other in 0..place {
        rows.push(made(alloc, &Shape::Row(&[(other, 1), (place, -1)], first))?)?;
        rows.push(made(alloc, &Shape::Row(&[(other, -1), (place, 1)], 0))?)?;
    }
    Ok(())
}

/// By each row the variable of one of so many places is at most another's, and in a pair's first
/// row this much less.
fn of_all_pairs(alloc: Global, places: u32, first: i128) -> Result<Formula, Fail> {
    let mut rows = Vec::new(alloc);
    for place in 0..places {
        push_pairs(alloc, &mut rows, place, first)?;
    }
    Ok(Formula::All(Seq::of(rows)))
}

/// Whether rows of 66 places are refuted, which are this much less in a pair's first row.
fn are_pairs_refuted(alloc: Global, first: i128) -> Result<bool, Fail> {
    let formula = of_all_pairs(alloc, 66, first)?;
    Ok(is_refuted(alloc, &formula)?)
}

#[test]
fn many_places_and_rows_are_decided(rt: HostRuntime) -> Result<(), Fail> {
    assert!(rt; !are_pairs_refuted(rt.alloc(), 0)?);
    assert!(rt; are_pairs_refuted(rt.alloc(), 1)?);
    Ok(())
}
