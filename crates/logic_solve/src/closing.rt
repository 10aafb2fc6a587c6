//! Clashes and chains over the literals of a cube.

ghost use Rattle.std.specs.Prelude.{◌≡◌, ◌≤◌, [], IfOk, OnOk, false, length, map, true};
ghost use Rattle.std.specs.List.{list_any};
ghost use Rattle.logic_cert.specs.Refutes.{chain_closes, row_of};
ghost use Rattle.logic_elim.specs.Begins.{IsBegin};
ghost use Rattle.logic_elim.specs.Chains.{state_of};
ghost use Rattle.logic_linear.specs.Measures.{MOST_NODES};
ghost use Rattle.logic_solve.specs.Cubes.{is_general, HasGeneral};
ghost use Rattle.logic_solve.specs.inner.Literals.{is_absurd_literal, noted, terms_in_literal};
ghost use Rattle.logic_solve.specs.inner.Literals.{terms_in_literals, Closes, EndsLight, HasAbsurd};
ghost use Rattle.logic_solve.specs.inner.Literals.{IsClosing, IsGathered, FitsLiteral, FindsChain};
ghost use Rattle.logic_solve.specs.inner.Literals.{HaveNoAbsurd, IsStart, LeavesLight};

use super::differences::{chain_of, edges_of};
use super::elimination::{MOST_ROWS, eliminate_all};
use super::flags::clash;
use super::paths::positive_cycle;
use super::places::side_of;
use base_list::Seq;
use logic_cert::{Cert, Combine, Literal, WideRow};
use logic_elim::{
    Elimination, Numbered, Rows, eliminate_light, is_light, lean_chain, note_places, side_for,
};
use logic_linear::is_difference;
use std::alloc::{AllocError, Global};

/// Whether the literal is a row with no variable and a constant above 0.
fn is_absurd_literal(literal: &Literal) -> bool
    ensures exact { result ≡ is_absurd_literal literal.now }
    ensures rule { FitsLiteral literal.now }
{
    match literal {
        Literal::Row(form) => match form.terms() {
            [] => form.constant() > 0,
            _ => false,
        },
        Literal::Flag { .. } => false,
    }
}

/// A sum that is the first row with no variable and a constant above 0, where there is one.
pub(crate) fn absurd_sum(literals: &[Literal]) -> Option<Combine>
    requires { length literals.now ≤ MOST_NODES }
    ensures { HasAbsurd literals.now result }
{
    for i in 0..literals.len() {
        if is_absurd_literal(&literals[i]) {
            return Some(Combine {
                left: i as u32,
                left_times: 1,
                right: i as u32,
                right_times: 0,
            });
        }
    }
    None
}

/// Puts a literal's row among the kept ones, unless one of them says as much.
fn gather_row(
    alloc: Global,
    number: u32,
    literal: &Literal,
    kept: &mut Rows,
) -> Result<(), AllocError>
    ensures { IfOk result (λ done. IsGathered number literal.now kept.old kept.new) }
{
    match literal {
        Literal::Row(form) => {
            let _constant = form.constant();
            let row = WideRow::of_form(alloc, form)?;
            if kept.is_known(&row) {
                return Ok(());
            }
            kept.put(Numbered { number, row })?;
            Ok(())
        }
        Literal::Flag { .. } => Ok(()),
    }
}

/// The rows of the literals under their numbers, of those with the same terms the tightest.
pub(crate) fn gathered_rows(
    alloc: Global,
    side: u32,
    literals: &[Literal],
) -> Result<Rows, AllocError>
    requires { length literals.now ≤ MOST_NODES }
    ensures { IfOk result (λ kept. IsStart literals.now kept) }
{
    let mut kept = Rows::new(alloc, side_for(side, literals.len()))?;
    for i in 0..literals.len() {
        gather_row(alloc, i as u32, &literals[i], &mut kept)?;
    }
    Ok(kept)
}

/// Notes the places of the literal's row, where it is a row.
fn note_literal(found: &mut Vec<u32>, literal: &Literal) -> Result<(), AllocError>
    ensures { OnOk result (found.new.items ≡ noted found.old.items (terms_in_literal literal.now)) }
{
    match literal {
        Literal::Row(form) => note_places(found, form.terms()),
        Literal::Flag { .. } => Ok(()),
    }
}

/// The places of the variables of the literals' rows, each once.
pub(crate) fn places_of(alloc: Global, literals: &[Literal]) -> Result<Vec<u32>, AllocError>
    ensures { IfOk result (λ places. places.items ≡ noted [] (terms_in_literals literals.now)) }
{
    let mut places = Vec::new(alloc);
    for literal in literals {
        note_literal(&mut places, literal)?;
    }
    Ok(places)
}

/// The number of the first sum: there are as many rows as literals before it.
fn first_sum(literals: &[Literal]) -> u32
    requires { length literals.now ≤ MOST_NODES }
    ensures { result ≡ length literals.now }
{
    literals.len() as u32
}

/// Whether the literal is a row that is no difference row.
fn is_general(literal: &Literal) -> bool
    ensures { result ≡ is_general literal.now }
{
    match literal {
        Literal::Row(form) => !is_difference(form),
        Literal::Flag { .. } => false,
    }
}

/// Whether some row is no difference row.
pub(crate) fn has_general_row(literals: &[Literal]) -> bool
    ensures { result ≡ list_any is_general literals.now }
{
    for literal in literals {
        if is_general(literal) {
            return true;
        }
    }
    false
}

/// A chain that refutes a light cube, or its rows have a solution in fractions.
fn light_chain(alloc: Global, left: Elimination) -> Result<Option<Vec<Combine>>, AllocError>
    requires { IsBegin (state_of left) }
    ensures { IfOk result (EndsLight (state_of left)) }
{
    let mut left = left;
    if !eliminate_light(alloc, &mut left)? {
        return Ok(None);
    }
    Ok(Some(left.combines))
}

/// A chain that refutes the rows of the literals, where the elimination of their variables finds
/// one. A light cube is refuted, or has a solution in fractions.
fn general_chain(alloc: Global, literals: &[Literal]) -> Result<Option<Vec<Combine>>, AllocError>
    requires size { length literals.now ≤ MOST_NODES }
    requires general { HasGeneral literals.now }
    requires sane { HaveNoAbsurd literals.now }
    ensures finds { IfOk result (FindsChain literals.now) }
    ensures light { IfOk result (LeavesLight literals.now) }
{
    let places = places_of(alloc, literals)?;
    let side = side_of(&places);
    let kept = gathered_rows(alloc, side, literals)?;
    if kept.len() > MOST_ROWS {
        return Ok(None);
    }
    let mut left = Elimination {
        kept,
        side,
        combines: Vec::new(alloc),
        next: first_sum(literals),
    };
    if is_light(alloc, &left.kept)? {
        return Ok(light_chain(alloc, left)?);
    }
    if !eliminate_all(alloc, &places, &mut left)? {
        return Ok(None);
    }
    Ok(Some(left.combines))
}

/// A chain of the rows on a cycle of positive weight, or the rows of the literals, difference rows
/// all, hold somewhere.
fn difference_chain(alloc: Global, literals: &[Literal]) -> Result<Option<Vec<Combine>>, AllocError>
    requires size { length literals.now ≤ MOST_NODES }
    requires differences { list_any is_general literals.now ≡ false }
    requires sane { HaveNoAbsurd literals.now }
    ensures { IfOk result (FindsChain literals.now) }
{
    let edges = edges_of(alloc, literals)?;
    let mut reached = Vec::new(alloc);
    let Some(cycle) = positive_cycle(alloc, &edges, &mut reached)? else {
        return Ok(None);
    };
    Ok(Some(chain_of(alloc, first_sum(literals), &cycle)?))
}

/// A chain that refutes the rows of the literals, where one is found.
fn refuting_chain(alloc: Global, literals: &[Literal]) -> Result<Option<Vec<Combine>>, AllocError>
    requires { length literals.now ≤ MOST_NODES }
    ensures finds { IfOk result (FindsChain literals.now) }
    ensures light { IfOk result (LeavesLight literals.now) }
{
    if let Some(combine) = absurd_sum(literals) {
        return Ok(Some(Vec::from_array(alloc, [combine])?));
    }
    if has_general_row(literals) {
        return Ok(general_chain(alloc, literals)?);
    }
    Ok(difference_chain(alloc, literals)?)
}

/// The certificate of a chain over the literals, with the sums that are needed.
fn chain_over(
    alloc: Global,
    literals: &[Literal],
    combines: Vec<Combine>,
) -> Result<Cert, AllocError>
    requires length { length literals.now ≤ MOST_NODES }
    requires closes { chain_closes combines.items (map row_of literals.now) ≡ true }
    ensures { IfOk result (Closes literals.now) }
{
    let combines = lean_chain(alloc, first_sum(literals), combines)?;
    Ok(Cert::Chain(Seq::of(combines)))
}

/// A clash or a chain that refutes the literals, where one is found. Literals whose rows are
/// difference rows are refuted, or have a solution.
pub(crate) fn closing_over(alloc: Global, literals: &[Literal]) -> Result<Option<Cert>, AllocError>
    requires { length literals.now ≤ MOST_NODES }
    ensures { IfOk result (IsClosing literals.now) }
{
    if let Some(cert) = clash(alloc, literals)? {
        return Ok(Some(cert));
    }
    match refuting_chain(alloc, literals)? {
        None => Ok(None),
        Some(combines) => Ok(Some(chain_over(alloc, literals, combines)?)),
    }
}
