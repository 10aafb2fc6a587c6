//! The elimination of variables.

ghost use Rattle.std.specs.Prelude.{◌≡◌, ◌++◌, ◌∷◌, [], IfOk, OnOk};
ghost use Rattle.std.specs.List.{filter};
ghost use Rattle.logic_elim.specs.Chains.{KeepsSound, state_of};
ghost use Rattle.logic_elim.specs.Steps.{is_free_row, is_lower_row, is_upper_row, AddsLowers};
ghost use Rattle.logic_elim.specs.Steps.{AddsSides, Cancels, Eliminates, IsAdded, Pushes, SumAdded};

use super::rows::{Numbered, Rows, says_nothing, side_for, times_at};
use logic_cert::{Combine, WideRow, sum_of_rows};
use std::alloc::{AllocError, Global};
use std::mem::replace;

/// What an elimination has come to.
#[derive(Debug, Drop)]
pub struct Elimination {
    /// The rows that are left.
    pub kept: Rows,
    /// The number modulo which their places differ.
    pub side: u32,
    /// The sums that were made.
    pub combines: Vec<Combine>,
    /// The number of the next sum.
    pub next: u32,
}

/// How a step of an elimination ends.
#[derive(Clone, Copy, Debug, PartialEq, Eq)]
pub enum Progress {
    /// Rows are left.
    Left,
    /// The last sum is a positive number.
    Closed,
    /// There are too many rows, or a number has more than 128 bits.
    Stopped,
}

/// Adds a row, unless it holds everywhere or a kept one says as much.
fn add_row(
    most: usize,
    left: &mut Elimination,
    combine: Combine,
    row: WideRow,
) -> Result<Progress, AllocError>
    ensures { IfOk result (IsAdded most combine row (state_of left.old) (state_of left.new)) }
{
    if says_nothing(&row) || left.kept.is_known(&row) {
        return Ok(Progress::Left);
    }
    if left.next == u32::MAX {
        return Ok(Progress::Stopped);
    }
    left.combines.push(combine)?;
    if row.is_absurd() {
        return Ok(Progress::Closed);
    }
    let number = left.next;
    left.next += 1;
    left.kept.put(Numbered { number, row })?;
    if left.kept.len() > most {
        return Ok(Progress::Stopped);
    }
    Ok(Progress::Left)
}

/// The sum of the two rows in which the variable goes, where its factor fits.
fn cancelling(place: u32, upper: &Numbered, lower: &Numbered) -> Option<Combine>
    ensures { Cancels place upper.now lower.now result }
{
    let left_times = times_at(place, &lower.row).checked_neg()?;
    Some(Combine {
        left: upper.number,
        left_times,
        right: lower.number,
        right_times: times_at(place, &upper.row),
    })
}

/// Adds the sum of the two rows.
fn add_sum(
    alloc: Global,
    most: usize,
    place: u32,
    upper: &Numbered,
    lower: &Numbered,
    left: &mut Elimination,
) -> Result<Progress, AllocError>
    ensures { IfOk result (SumAdded most place upper.now lower.now left.old left.new) }
{
    let Some(combine) = cancelling(place, upper, lower) else {
        return Ok(Progress::Stopped);
    };
    match sum_of_rows(alloc, combine, &upper.row, &lower.row)? {
        None => Ok(Progress::Stopped),
        Some(row) => Ok(add_row(most, left, combine, row)?),
    }
}

/// Adds the sums of one upper row and each lower one.
fn add_sums_of(
    alloc: Global,
    most: usize,
    place: u32,
    upper: &Numbered,
    lowers: &[Numbered],
    left: &mut Elimination,
) -> Result<Progress, AllocError>
    ensures sound { IfOk result (KeepsSound (upper.now ∷ lowers.now)
        (state_of left.old) (state_of left.new)) }
    ensures adds { IfOk result (AddsLowers most place upper.now lowers.now
        (state_of left.old) (state_of left.new)) }
{
    for lower in lowers {
        match add_sum(alloc, most, place, upper, lower, left)? {
            Progress::Left => {}
            Progress::Closed => return Ok(Progress::Closed),
            Progress::Stopped => return Ok(Progress::Stopped),
        }
    }
    Ok(Progress::Left)
}

/// Adds the sum of each upper row and each lower one.
fn add_sums(
    alloc: Global,
    most: usize,
    place: u32,
    uppers: &[Numbered],
    lowers: &[Numbered],
    left: &mut Elimination,
) -> Result<Progress, AllocError>
    ensures sound { IfOk result (KeepsSound (uppers.now ++ lowers.now)
        (state_of left.old) (state_of left.new)) }
    ensures adds { IfOk result (AddsSides most place uppers.now lowers.now
        (state_of left.old) (state_of left.new)) }
{
    for upper in uppers {
        match add_sums_of(alloc, most, place, upper, lowers, left)? {
            Progress::Left => {}
            Progress::Closed => return Ok(Progress::Closed),
            Progress::Stopped => return Ok(Progress::Stopped),
        }
    }
    Ok(Progress::Left)
}

/// Rows by what they say of a variable.
#[derive(Debug, Drop)]
struct Sides {
    /// Those that bound it above.
    uppers: Vec<Numbered>,
    /// Those that bound it below.
    lowers: Vec<Numbered>,
    /// Those without it.
    free: Vec<Numbered>,
}

/// Puts a row on its side.
fn push_side(place: u32, numbered: Numbered, sides: &mut Sides) -> Result<(), AllocError>
    ensures up { OnOk result (Pushes (is_upper_row place) numbered
        sides.old.uppers sides.new.uppers) }
    ensures low { OnOk result (Pushes (is_lower_row place) numbered
        sides.old.lowers sides.new.lowers) }
    ensures free { OnOk result (Pushes (is_free_row place) numbered sides.old.free sides.new.free) }
{
    let times = times_at(place, &numbered.row);
    if times > 0 {
        sides.uppers.push(numbered)?;
        return Ok(());
    }
    if times < 0 {
        sides.lowers.push(numbered)?;
        return Ok(());
    }
    sides.free.push(numbered)?;
    Ok(())
}

/// The rows by what they say of the variable.
fn sides_of(alloc: Global, place: u32, rows: Vec<Numbered>) -> Result<Sides, AllocError>
    ensures uppers { IfOk result (λ to. to.uppers.items ≡ filter (is_upper_row place) rows.items) }
    ensures lowers { IfOk result (λ to. to.lowers.items ≡ filter (is_lower_row place) rows.items) }
    ensures free { IfOk result (λ to. to.free.items ≡ filter (is_free_row place) rows.items) }
{
    let mut sides = Sides {
        uppers: Vec::new(alloc),
        lowers: Vec::new(alloc),
        free: Vec::new(alloc),
    };
    for numbered in rows {
        push_side(place, numbered, &mut sides)?;
    }
    Ok(sides)
}

/// Eliminates a variable, and keeps at most so many rows: the rows without it, and the sum of each
/// upper and each lower one with factors that cancel it (Fourier's and Motzkin's elimination:
/// Alexander Schrijver, "Theory of Linear and Integer Programming", section 12.2). It fails only
/// for want of memory.
pub fn eliminate(
    alloc: Global,
    most: usize,
    place: u32,
    left: &mut Elimination,
) -> Result<Progress, AllocError>
    ensures sound { IfOk result (KeepsSound [] (state_of left.old) (state_of left.new)) }
    ensures eliminates { IfOk result (Eliminates most place
        (state_of left.old) (state_of left.new)) }
{
    let none = Rows::new(alloc, 1)?;
    let rows = replace(&mut left.kept, none);
    let sides = sides_of(alloc, place, rows.into_rows())?;
    let pairs = sides.uppers.len().saturating_mul(sides.lowers.len());
    let side = side_for(left.side, sides.free.len().saturating_add(pairs));
    let kept = Rows::of(alloc, side, sides.free)?;
    left.kept = kept;
    let progress = add_sums(alloc, most, place, &sides.uppers, &sides.lowers, left)?;
    Ok(progress)
}
