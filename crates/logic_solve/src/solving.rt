//! Solutions of formulas.

ghost use Rattle.std.specs.Prelude.{◌≡◌, ◌≤◌, ◌++◌, ◌^◌, ◌-ℤ◌, IfOk, length, map};
ghost use Rattle.std.specs.List.{flat_map};
ghost use Rattle.logic_linear.specs.LightCubes.{IsWithin};
ghost use Rattle.logic_linear.specs.Measures.{nodes_of, MOST_NODES};
ghost use Rattle.logic_solve.specs.Cubes.{HasNoClash};
ghost use Rattle.logic_solve.specs.Solutions.{IsSolution};
ghost use Rattle.logic_solve.specs.inner.Paths.{height_at};
ghost use Rattle.logic_solve.specs.inner.Solving.{number_in, true_places, AreNear, IsSolved};
ghost use Rattle.logic_solve.specs.inner.Solving.{StandsSo};

use super::closing::{absurd_sum, has_general_row, places_of};
use super::differences::edges_of;
use super::facts::Facts;
use super::paths::{Reached, height_of, positive_cycle};
use super::search::search;
use super::trying::general_solution;
use super::valuation::{NumberAt, Solution};
use base_list::Seq;
use logic_cert::Literal;
use logic_linear::{Formula, MOST_CUBES, cubes};
use std::alloc::{AllocError, Global};

/// How high a vertex stands above another.
fn height_above(height: i128, ground: i128) -> i128
    requires height { IsWithin (2 ^ 111) height }
    requires ground { IsWithin (2 ^ 111) ground }
    ensures { result ≡ height -ℤ ground }
{
    height - ground
}

/// The number of the variable at the place, given how high the vertex 0 stands.
fn number_in(reached: &[Reached], ground: i128, place: u32) -> NumberAt
    requires near { AreNear reached.now }
    requires ground { ground ≡ height_at reached.now 0 }
    ensures { result ≡ number_in reached.now place }
{
    let height = height_of(reached, u64::from(place) + 1);
    NumberAt {
        place,
        number: height_above(height, ground),
    }
}

/// The numbers of the variables at the places.
fn numbers_in(
    alloc: Global,
    reached: &[Reached],
    places: &[u32],
) -> Result<Vec<NumberAt>, AllocError>
    requires { AreNear reached.now }
    ensures { IfOk result (λ numbers. numbers.items ≡ map (number_in reached.now) places.now) }
{
    let ground = height_of(reached, 0);
    let mut numbers = Vec::new(alloc);
    for place in places {
        numbers.push(number_in(reached, ground, *place))?;
    }
    Ok(numbers)
}

/// Notes the flag that the literal says to be true, where it says so.
fn note_flag(flags: &mut Vec<u32>, literal: &Literal) -> Result<(), AllocError>
    ensures { IfOk result (λ done. flags.new.items ≡ flags.old.items ++ true_places literal.now) }
{
    match literal {
        Literal::Row(_) => Ok(()),
        Literal::Flag { place, is } => {
            if !*is {
                return Ok(());
            }
            flags.push(*place)?;
            Ok(())
        }
    }
}

/// The flags that the literals say to be true.
pub(crate) fn true_flags(alloc: Global, literals: &[Literal]) -> Result<Vec<u32>, AllocError>
    ensures { IfOk result (λ flags. flags.items ≡ flat_map true_places literals.now) }
{
    let mut flags = Vec::new(alloc);
    for literal in literals {
        note_flag(&mut flags, literal)?;
    }
    Ok(flags)
}

/// The numbers of the literals' variables, and the flags that they say to be true.
fn standing(
    alloc: Global,
    literals: &[Literal],
    reached: &[Reached],
) -> Result<Solution, AllocError>
    requires { AreNear reached.now }
    ensures { IfOk result (StandsSo literals.now reached.now) }
{
    let places = places_of(alloc, literals)?;
    let numbers = numbers_in(alloc, reached, &places)?;
    let flags = true_flags(alloc, literals)?;
    Ok(Solution {
        numbers: Seq::of(numbers),
        flags: Seq::of(flags),
    })
}

/// A solution of the literals, where their rows are difference rows that hold somewhere.
fn solved(alloc: Global, literals: &[Literal]) -> Result<Option<Solution>, AllocError>
    requires size { length literals.now ≤ MOST_NODES }
    requires clear { HasNoClash literals.now }
    ensures { IfOk result (IsSolved literals.now) }
{
    if has_general_row(literals) {
        return Ok(None);
    }
    if let Some(_sum) = absurd_sum(literals) {
        return Ok(None);
    }
    let edges = edges_of(alloc, literals)?;
    let mut reached = Vec::new(alloc);
    if let Some(_cycle) = positive_cycle(alloc, &edges, &mut reached)? {
        return Ok(None);
    }
    Ok(Some(standing(alloc, literals, &reached)?))
}

/// A valuation in whole numbers at which the formula is true, where one is found.
///
/// There is none only where the formula is true at no valuation, or has more than 1,024 cubes, or a
/// row that is no difference row. So one is found of a formula of difference rows with no more
/// cubes just where [`refute`](super::prover::refute) finds no certificate. It fails only for want
/// of memory.
///
/// The search of a certificate ends at the first cube that it can't refute. Where the rows of this
/// cube are difference rows, the heights to which longest paths raise their vertices are the
/// numbers, each less that of the vertex 0. Else whole numbers are chosen within the rows that the
/// elimination of one variable after the other leaves, of this cube and of some others, and what is
/// found is tried on the formula.
pub fn solution(alloc: Global, formula: &Formula) -> Result<Option<Solution>, AllocError>
    requires { nodes_of formula.now ≤ MOST_NODES }
    ensures { IfOk result (IsSolution formula.now) }
{
    if cubes(formula) > MOST_CUBES {
        return Ok(None);
    }
    let mut literals = Vec::new(alloc);
    let mut facts = Facts::new(alloc);
    if let Some(_cert) = search(alloc, formula, &[], &mut literals, &mut facts)? {
        return Ok(None);
    }
    let cube = literals.as_slice();
    if has_general_row(cube) {
        return Ok(general_solution(alloc, formula, cube)?);
    }
    Ok(solved(alloc, cube)?)
}
