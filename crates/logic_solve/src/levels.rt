//! The levels of an elimination: each variable that goes, and the rows that bound it.

use super::elimination::MOST_ROWS;
use super::work::Work;
use logic_elim::{Elimination, Numbered, Progress, eliminate};
use logic_linear::Term;
use std::alloc::{AllocError, Global};

/// A row `form <= 0` of a level.
#[derive(Debug, Drop)]
pub(crate) struct Bound {
    pub terms: Vec<Term>,
    pub constant: i128,
}

/// A variable, and the rows that bound it by those of later levels.
#[derive(Debug, Drop)]
pub(crate) struct Level {
    pub place: u32,
    pub bounds: Vec<Bound>,
}

/// What rows say of a variable.
#[derive(Clone, Copy)]
struct Tally {
    place: u32,
    uppers: usize,
    lowers: usize,
    /// Each upper one has it once.
    unit_uppers: bool,
    /// Each lower one has it -1 times.
    unit_lowers: bool,
}

/// The tally with one more row, which has the variable so many times.
fn tallied(tally: Tally, times: i128) -> Tally {
    let mut tally = tally;
    if times > 0 {
        tally.uppers = tally.uppers.saturating_add(1);
        tally.unit_uppers = tally.unit_uppers && times == 1;
    } else {
        tally.lowers = tally.lowers.saturating_add(1);
        tally.unit_lowers = tally.unit_lowers && times == -1;
    }
    tally
}

/// No row has the variable yet.
fn no_tally(place: u32) -> Tally {
    Tally {
        place,
        uppers: 0,
        lowers: 0,
        unit_uppers: true,
        unit_lowers: true,
    }
}

/// Tallies a term.
fn tally_term(tallies: &mut Vec<Tally>, term: Term) -> Result<(), AllocError> {
    match tallies.iter().position(|one| one.place == term.place) {
        Some(at) => {
            tallies[at] = tallied(tallies[at], term.times);
            Ok(())
        }
        None => {
            tallies.push(tallied(no_tally(term.place), term.times))?;
            Ok(())
        }
    }
}

/// Tallies the terms of a row.
fn tally_terms(tallies: &mut Vec<Tally>, terms: &[Term]) -> Result<(), AllocError> {
    for term in terms {
        tally_term(tallies, *term)?;
    }
    Ok(())
}

/// What the rows say of each variable.
fn tallies_of(alloc: Global, rows: &[Numbered]) -> Result<Vec<Tally>, AllocError> {
    let mut tallies = Vec::new(alloc);
    for numbered in rows {
        tally_terms(&mut tallies, numbered.row.terms())?;
    }
    Ok(tallies)
}

/// How many sums take the variable out.
fn sums_of(tally: Tally) -> usize {
    tally.uppers.saturating_mul(tally.lowers)
}

/// Whether wherever the others are whole numbers within the rows that are left, some whole number
/// of this variable is within its bounds.
fn is_exact(tally: Tally) -> bool {
    tally.unit_uppers || tally.unit_lowers
}

/// Whether the first variable goes before the other: an exact one, and of two such the one with
/// fewer sums.
fn goes_before(first: Tally, other: Tally) -> bool {
    if is_exact(first) != is_exact(other) {
        return is_exact(first);
    }
    sums_of(first) < sums_of(other)
}

/// The one of the two that goes first.
fn earlier(first: Option<Tally>, other: Tally) -> Tally {
    match first {
        None => other,
        Some(first) => {
            if goes_before(other, first) {
                other
            } else {
                first
            }
        }
    }
}

/// The variable that goes next, where the rows have one.
fn next_tally(alloc: Global, rows: &[Numbered]) -> Result<Option<Tally>, AllocError> {
    let tallies = tallies_of(alloc, rows)?;
    let mut next = None;
    for tally in tallies.as_slice() {
        next = Some(earlier(next, *tally));
    }
    Ok(next)
}

/// Whether the variable at the place is one of the terms.
fn has_place(place: u32, terms: &[Term]) -> bool {
    terms.iter().any(|term| term.place == place)
}

/// Puts the row among the bounds, where it has the variable.
fn note_bound(
    alloc: Global,
    place: u32,
    numbered: &Numbered,
    bounds: &mut Vec<Bound>,
) -> Result<(), AllocError> {
    let terms = numbered.row.terms();
    if !has_place(place, terms) {
        return Ok(());
    }
    bounds.push(Bound {
        terms: Vec::from_slice(alloc, terms)?,
        constant: numbered.row.constant(),
    })?;
    Ok(())
}

/// The rows that bound the variable.
fn level_of(alloc: Global, place: u32, rows: &[Numbered]) -> Result<Level, AllocError> {
    let mut bounds = Vec::new(alloc);
    for numbered in rows {
        note_bound(alloc, place, numbered, &mut bounds)?;
    }
    Ok(Level { place, bounds })
}

/// Adds a level without bounds for each of the places that has none.
fn add_free(alloc: Global, places: &[u32], levels: &mut Vec<Level>) -> Result<(), AllocError> {
    for place in places {
        if !levels.iter().any(|level| level.place == *place) {
            levels.push(Level {
                place: *place,
                bounds: Vec::new(alloc),
            })?;
        }
    }
    Ok(())
}

/// The levels of the rows' elimination, in which a variable that leaves no gap between whole
/// numbers goes first, and of such the one with the fewest sums. The variables at the places that
/// are bounded by no row then come last. There are none where the rows are refuted, or that is too
/// much work.
pub(crate) fn levels_of(
    alloc: Global,
    places: &[u32],
    left: &mut Elimination,
    work: &mut Work,
) -> Result<Option<Vec<Level>>, AllocError> {
    let mut levels = Vec::new(alloc);
    for _ in 0..=places.len() {
        let Some(next) = next_tally(alloc, left.kept.rows())? else {
            add_free(alloc, places, &mut levels)?;
            return Ok(Some(levels));
        };
        if !work.takes(sums_of(next)) {
            return Ok(None);
        }
        levels.push(level_of(alloc, next.place, left.kept.rows())?)?;
        match eliminate(alloc, MOST_ROWS, next.place, left)? {
            Progress::Left => {}
            Progress::Closed => return Ok(None),
            Progress::Stopped => return Ok(None),
        }
    }
    Ok(None)
}
