//! The decision of a light cube.

ghost use Rattle.std.specs.Prelude.{◌≡◌, ◌∷◌, [], ◌≤◌, ◌↔◌, IfOk, IfSome, None, Some, length, map};
ghost use Rattle.std.specs.Prelude.{true};
ghost use Rattle.logic_linear.specs.Linear.{IsLinear};
ghost use Rattle.logic_cert.specs.Refutes.{chain_closes, is_absurd};
ghost use Rattle.logic_linear.specs.Fractions.{HasFractionalSolution};
ghost use Rattle.logic_linear.specs.LightCubes.{IsLightCube};
ghost use Rattle.logic_elim.specs.Begins.{AreNumbered, HasAbsurd, IsBegin, IsEnd, IsPlaceOf};
ghost use Rattle.logic_elim.specs.Chains.{rows_in, state_of};
ghost use Rattle.logic_elim.specs.LeanChains.{IsLean};

use super::elimination::{Elimination, Progress, eliminate};
use super::lean::lean_chain;
use super::light::MOST_PLACES;
use super::rows::{Numbered, Rows};
use logic_cert::{Combine, WideRow};
use logic_linear::Lin;
use std::alloc::{AllocError, Global};

/// Whether the row has no variable and a constant above 0.
fn is_absurd(form: &Lin) -> bool
    ensures exact { result ≡ is_absurd form.now }
    ensures rule { IsLinear form.now }
{
    match form.terms() {
        [] => form.constant() > 0,
        _ => false,
    }
}

/// A sum that is the first row with no variable and a constant above 0, where there is one.
fn absurd_sum(rows: &[Lin]) -> Option<Combine>
    requires { length rows.now ≤ 12 }
    ensures { HasAbsurd rows.now result }
{
    for i in 0..rows.len() {
        if is_absurd(&rows[i]) {
            return Some(Combine {
                left: i as u32,
                left_times: 1,
                right: i as u32,
                right_times: 0,
            });
        }
    }
    None
}

/// A row under its number.
fn numbered(alloc: Global, number: u32, form: &Lin) -> Result<Numbered, AllocError>
    ensures number { IfOk result (λ one. one.number ≡ number) }
    ensures row { IfOk result (λ one. one.row ≡ form.now) }
    ensures rule { IsLinear form.now }
{
    let _constant = form.constant();
    let row = WideRow::of_form(alloc, form)?;
    Ok(Numbered { number, row })
}

/// The rows under their numbers.
fn numbered_rows(alloc: Global, rows: &[Lin]) -> Result<Rows, AllocError>
    requires { length rows.now ≤ 12 }
    ensures { IfOk result (λ kept. AreNumbered rows.now rows.now kept) }
{
    let mut kept = Vec::new(alloc);
    for i in 0..rows.len() {
        kept.push(numbered(alloc, i as u32, &rows[i])?)?;
    }
    Rows::of(alloc, 1, kept)
}

/// The number of the first sum: there are as many rows before it.
fn first_sum(rows: &[Lin]) -> u32
    requires { length rows.now ≤ 12 }
    ensures { result ≡ length rows.now }
{
    rows.len() as u32
}

/// The place of the row's first variable, where it has one.
fn place_in(row: &WideRow) -> Option<u32>
    ensures { IsPlaceOf (row.now ∷ []) result }
{
    match row.terms() {
        [] => None,
        [first, ..] => Some(first.place),
    }
}

/// The place of some variable, where there is one.
fn some_place(rows: &Rows) -> Option<u32>
    ensures { IsPlaceOf (rows_in rows.now) result }
{
    for numbered in rows.rows() {
        if let Some(place) = place_in(&numbered.row) {
            return Some(place);
        }
    }
    None
}

/// The elimination of a light cube has always fewer rows.
const MOST_ROWS: usize = 65_536;

/// Eliminates the variables of a light cube, and tells whether the last sum is a positive number:
/// if not, the rows have a solution in fractions. It fails only for want of memory.
pub fn eliminate_light(alloc: Global, left: &mut Elimination) -> Result<bool, AllocError>
    requires { IsBegin (state_of left.now) }
    ensures { IfOk result (IsEnd (state_of left.old) (state_of left.new)) }
{
    for round in 0..MOST_PLACES {
        let Some(place) = some_place(&left.kept) else {
            return Ok(false);
        };
        match eliminate(alloc, MOST_ROWS, place, left)? {
            Progress::Left => {}
            Progress::Closed => return Ok(true),
            Progress::Stopped => unreachable!(),
        }
    }
    Ok(false)
}

/// A chain that refutes the rows of a light cube, in which each made row is needed, and none
/// exactly where the rows have a solution in fractions. It fails only for want of memory.
///
/// The variables are eliminated one after the other (Fourier's and Motzkin's elimination: Alexander
/// Schrijver, "Theory of Linear and Integer Programming", section 12.2), and of the sums those stay
/// of which the last one is made.
pub fn decide(alloc: Global, rows: &[Lin]) -> Result<Option<Vec<Combine>>, AllocError>
    requires { IsLightCube rows.now }
    ensures chain { IfOk result (λ found. IfSome found (λ combines.
        chain_closes combines.items (map Some rows.now) ≡ true)) }
    ensures lean { IfOk result (λ found. IfSome found (λ combines.
        IsLean (length rows.now) combines.items)) }
    ensures none { IfOk result (λ found. (found ≡ None) ↔ HasFractionalSolution rows.now) }
{
    if let Some(combine) = absurd_sum(rows) {
        return Ok(Some(Vec::from_array(alloc, [combine])?));
    }
    let mut left = Elimination {
        kept: numbered_rows(alloc, rows)?,
        side: 1,
        combines: Vec::new(alloc),
        next: first_sum(rows),
    };
    if !eliminate_light(alloc, &mut left)? {
        return Ok(None);
    }
    Ok(Some(lean_chain(alloc, first_sum(rows), left.combines)?))
}
