//! Bodies that run at a solution, in 128 bits.

ghost use Rattle.std.specs.Prelude.{◌≡◌, ◌++◌, ◌∷◌, [], IfOk, if◌then◌else◌};
ghost use Rattle.std.specs.List.{filter};
ghost use Rattle.logic_solve.specs.Solutions.{valuation_of};
ghost use Rattle.plan_why.specs.inner.Running.{flags_with, is_other, with_number};
ghost use Rattle.plan_why.specs.inner.Running.{with_truth, IsAssigned, IsRun};

use base_list::Seq;
use lang_monitor::Stmt;
use logic_linear::Put;
use logic_solve::{NumberAt, Solution, form_value, formula_truth};
use std::alloc::{AllocError, Global};

/// The number first, and then the others.
fn numbers_with(
    alloc: Global,
    first: NumberAt,
    numbers: &[NumberAt],
) -> Result<Vec<NumberAt>, AllocError>
    ensures { IfOk result (λ all. all.items ≡ first ∷ numbers.now) }
{
    let mut all = Vec::new(alloc);
    all.push(first)?;
    for one in numbers {
        all.push(*one)?;
    }
    Ok(all)
}

/// Puts the place after those that there are, where the test is true.
fn push_if(places: &mut Vec<u32>, place: u32, test: bool) -> Result<(), AllocError>
    ensures { IfOk result (λ done.
        places.new.items ≡ places.old.items ++ (if test then place ∷ [] else [])) }
{
    if test {
        places.push(place)?;
    }
    Ok(())
}

/// Whether the place is another one.
fn is_other(place: u32, other: u32) -> bool
    ensures { result ≡ is_other place other }
{
    other != place
}

/// The other places.
fn others_of(alloc: Global, place: u32, flags: &[u32]) -> Result<Vec<u32>, AllocError>
    ensures { IfOk result (λ others. others.items ≡ filter (is_other place) flags.now) }
{
    let mut others = Vec::new(alloc);
    for other in flags {
        push_if(&mut others, *other, is_other(place, *other))?;
    }
    Ok(others)
}

/// The flags, with this one as it is told.
fn flags_with(alloc: Global, place: u32, truth: bool, flags: &[u32]) -> Result<Vec<u32>, AllocError>
    ensures { IfOk result (λ all. all.items ≡ flags_with place truth flags.now) }
{
    let mut all = others_of(alloc, place, flags)?;
    push_if(&mut all, place, truth)?;
    Ok(all)
}

/// A copy of the solution.
fn copy_of(alloc: Global, at: &Solution) -> Result<Solution, AllocError>
    ensures { IfOk result (λ copy. valuation_of copy ≡ valuation_of at.now) }
{
    let numbers = Vec::from_slice(alloc, at.numbers.items())?;
    let flags = Vec::from_slice(alloc, at.flags.items())?;
    Ok(Solution {
        numbers: Seq::of(numbers),
        flags: Seq::of(flags),
    })
}

/// The solution with this number at the place.
pub(crate) fn with_number(
    alloc: Global,
    place: u32,
    number: i128,
    at: &Solution,
) -> Result<Solution, AllocError>
    ensures { IfOk result (λ next.
        valuation_of next ≡ with_number place number (valuation_of at.now)) }
{
    let numbers = numbers_with(alloc, NumberAt { place, number }, at.numbers.items())?;
    let flags = Vec::from_slice(alloc, at.flags.items())?;
    Ok(Solution {
        numbers: Seq::of(numbers),
        flags: Seq::of(flags),
    })
}

/// The solution with this truth value at the place.
fn with_truth(alloc: Global, place: u32, truth: bool, at: &Solution) -> Result<Solution, AllocError>
    ensures { IfOk result (λ next.
        valuation_of next ≡ with_truth place truth (valuation_of at.now)) }
{
    let numbers = Vec::from_slice(alloc, at.numbers.items())?;
    let flags = flags_with(alloc, place, truth, at.flags.items())?;
    Ok(Solution {
        numbers: Seq::of(numbers),
        flags: Seq::of(flags),
    })
}

/// The solution after an assignment, where each number on the way fits.
fn after_put(alloc: Global, at: &Solution, put: &Put) -> Result<Option<Solution>, AllocError>
    ensures { IfOk result (IsAssigned put.now (valuation_of at.now)) }
{
    match put {
        Put::Number { place, form } => match form_value(at, form) {
            None => Ok(None),
            Some(number) => Ok(Some(with_number(alloc, *place, number, at)?)),
        },
        Put::Truth { place, is } => match formula_truth(at, is) {
            None => Ok(None),
            Some(truth) => Ok(Some(with_truth(alloc, *place, truth, at)?)),
        },
    }
}

/// The solution after a statement, where each number on the way fits.
#[cycle(run)]
fn after_statement(
    alloc: Global,
    at: &Solution,
    statement: &Stmt,
) -> Result<Option<Solution>, AllocError>
    ensures { IfOk result (IsRun (statement.now ∷ []) (valuation_of at.now)) }
{
    match statement {
        Stmt::Put(put) => Ok(after_put(alloc, at, put)?),
        Stmt::If { when, then, other } => match formula_truth(at, when) {
            None => Ok(None),
            Some(true) => Ok(after_body(alloc, at, then.items())?),
            Some(false) => Ok(after_body(alloc, at, other.items())?),
        },
    }
}

/// The solution after statements, where each number on the way fits.
#[cycle(run)]
pub(crate) fn after_body(
    alloc: Global,
    at: &Solution,
    body: &[Stmt],
) -> Result<Option<Solution>, AllocError>
    ensures { IfOk result (IsRun body.now (valuation_of at.now)) }
{
    let mut now = copy_of(alloc, at)?;
    for statement in body {
        match after_statement(alloc, &now, statement)? {
            None => return Ok(None),
            Some(next) => now = next,
        }
    }
    Ok(Some(now))
}
