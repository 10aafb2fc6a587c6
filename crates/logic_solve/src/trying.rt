//! Solutions of cubes with general rows, by the levels of their elimination.

ghost use Rattle.std.specs.Prelude.{◌≡◌, ◌≤◌, IfOk, IfSome, length, true};
ghost use Rattle.logic_linear.specs.Measures.{MOST_NODES};
ghost use Rattle.logic_linear.specs.Truth.{truth_of};
ghost use Rattle.logic_solve.specs.Solutions.{valuation_of};
ghost use Rattle.logic_solve.specs.inner.Solving.{Solves};

use super::closing::{gathered_rows, places_of};
use super::cube::gather;
use super::evaluate::formula_truth;
use super::flags::clash;
use super::levels::{Level, levels_of};
use super::places::side_of;
use super::rounding::whole_numbers;
use super::solving::true_flags;
use super::valuation::{NumberAt, Solution};
use super::work::Work;
use base_list::Seq;
use logic_cert::Literal;
use logic_elim::Elimination;
use logic_linear::{Formula, MOST_NODES, cubes};
use std::alloc::{AllocError, Global};

/// The levels of the literals' rows, where they are not refuted.
fn levels_over(
    alloc: Global,
    literals: &[Literal],
    work: &mut Work,
) -> Result<Option<Vec<Level>>, AllocError>
    requires { length literals.now ≤ MOST_NODES }
{
    let places = places_of(alloc, literals)?;
    let side = side_of(&places);
    let mut left = Elimination {
        kept: gathered_rows(alloc, side, literals)?,
        side,
        combines: Vec::new(alloc),
        next: 0,
    };
    levels_of(alloc, &places, &mut left, work)
}

/// Whole numbers of the literals' variables, where some are found.
fn numbers_of(alloc: Global, literals: &[Literal]) -> Result<Option<Vec<NumberAt>>, AllocError>
    requires { length literals.now ≤ MOST_NODES }
{
    let mut work = Work::all();
    match levels_over(alloc, literals, &mut work)? {
        None => Ok(None),
        Some(levels) => whole_numbers(alloc, &levels, &mut work),
    }
}

/// The solution of these numbers and of the flags that the literals say to be true, where the
/// formula is true at it.
fn tested(
    alloc: Global,
    formula: &Formula,
    literals: &[Literal],
    numbers: Vec<NumberAt>,
) -> Result<Option<Solution>, AllocError>
    ensures { IfOk result (λ found. IfSome found (Solves formula.now)) }
{
    let solution = Solution {
        numbers: Seq::of(numbers),
        flags: Seq::of(true_flags(alloc, literals)?),
    };
    match formula_truth(&solution, formula) {
        None => Ok(None),
        Some(false) => Ok(None),
        Some(true) => Ok(Some(solution)),
    }
}

/// A solution of a cube's literals at which the formula is true, where one is found.
fn tried(
    alloc: Global,
    formula: &Formula,
    literals: &[Literal],
) -> Result<Option<Solution>, AllocError>
    requires { length literals.now ≤ MOST_NODES }
    ensures { IfOk result (λ found. IfSome found (Solves formula.now)) }
{
    match numbers_of(alloc, literals)? {
        None => Ok(None),
        Some(numbers) => tested(alloc, formula, literals, numbers),
    }
}

/// The literals of the formula's cube of this number, where no flag stands with opposite truths.
fn cube_at(
    alloc: Global,
    formula: &Formula,
    number: u64,
) -> Result<Option<Vec<Literal>>, AllocError>
    ensures { IfOk result (λ found. IfSome found (λ cube. length cube.items ≤ MOST_NODES)) }
{
    let mut literals = Vec::new(alloc);
    gather(formula, number, &mut literals)?;
    if literals.len() as u64 > MOST_NODES {
        return Ok(None);
    }
    if let Some(_cert) = clash(alloc, literals.as_slice())? {
        return Ok(None);
    }
    Ok(Some(literals))
}

/// Of a formula at most so many cubes are tried after the first.
const MOST_TRIED: u32 = 16;

/// A solution of one of the first cubes in which no flag stands with opposite truths, where one is
/// found.
fn solution_of_cubes(alloc: Global, formula: &Formula) -> Result<Option<Solution>, AllocError>
    ensures { IfOk result (λ found. IfSome found (Solves formula.now)) }
{
    let mut left = MOST_TRIED;
    for number in 0..cubes(formula) {
        if left == 0 {
            return Ok(None);
        }
        if let Some(literals) = cube_at(alloc, formula, number)? {
            left -= 1;
            if let Some(solution) = tried(alloc, formula, &literals)? {
                return Ok(Some(solution));
            }
        }
    }
    Ok(None)
}

/// A solution of the formula in whole numbers, where one is found of this cube or another.
///
/// The variables of the rows are eliminated, and their numbers chosen from the last one that went
/// to the first, within the rows by which those without a number are bounded: the nearest to 0, and
/// where that leads no further some others. What is found is tried on the formula.
pub(crate) fn general_solution(
    alloc: Global,
    formula: &Formula,
    literals: &[Literal],
) -> Result<Option<Solution>, AllocError>
    requires { length literals.now ≤ MOST_NODES }
    ensures { IfOk result (λ found. IfSome found (Solves formula.now)) }
{
    if let Some(solution) = tried(alloc, formula, literals)? {
        return Ok(Some(solution));
    }
    solution_of_cubes(alloc, formula)
}
