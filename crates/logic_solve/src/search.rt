//! The search of a certificate.

ghost use Rattle.std.specs.Prelude.{◌≡◌, ◌∷◌, ◌+◌, ◌≤◌, IfOk, length};
ghost use Rattle.logic_linear.specs.Measures.{MOST_NODES};
ghost use Rattle.logic_solve.specs.inner.Different.{IsGrown};
ghost use Rattle.logic_solve.specs.inner.Facts.{AreFactsOf, AreMore};
ghost use Rattle.logic_solve.specs.inner.Searches.{in_order, weight, IsFound, IsFoundAt, IsTaken};

use super::facts::{Facts, closing};
use super::todo::next;
use base_list::Seq;
use logic_cert::{Cert, Literal};
use logic_linear::Formula;
use std::alloc::{AllocError, Global};

/// Takes a formula: a literal is gathered, and the parts of an all are put on the list. It answers
/// the parts of an any.
fn take<'a>(
    formula: &'a Formula,
    todo: &mut Vec<&'a [Formula]>,
    literals: &mut Vec<Literal>,
) -> Result<Option<&'a [Formula]>, AllocError>
    ensures { IfOk result (IsTaken formula.now todo.old todo.new literals.old literals.new) }
{
    match formula {
        Formula::Row(form) => {
            literals.push(Literal::Row(form.clone()?))?;
            Ok(None)
        }
        Formula::Flag { place, is } => {
            literals.push(Literal::Flag {
                place: *place,
                is: *is,
            })?;
            Ok(None)
        }
        Formula::All(parts) => {
            todo.push(parts.items())?;
            Ok(None)
        }
        Formula::Any(parts) => Ok(Some(parts.items())),
    }
}

/// A certificate that refutes the formula and the rest with the literals gathered before, where one
/// is found. It leaves the literals that it gathered at their end: where it finds no certificate,
/// those of a cube that is open.
#[cycle(search)]
pub(crate) fn search<'a>(
    alloc: Global,
    formula: &'a Formula,
    rest: &[&'a [Formula]],
    literals: &mut Vec<Literal>,
    facts: &mut Facts,
) -> Result<Option<Cert>, AllocError>
    requires size { weight (formula.now ∷ in_order rest.now) + length literals.now.items
        ≤ MOST_NODES }
    requires facts { AreFactsOf literals.now.items facts.now }
    ensures found { IfOk result
        (IsFound (formula.now ∷ in_order rest.now) literals.old.items literals.new.items) }
    ensures grown { IfOk result (λ found. IsGrown literals.old.items literals.new.items) }
    ensures more { IfOk result (λ found. AreMore facts.old facts.new) }
{
    let mut todo = Vec::from_slice(alloc, rest)?;
    let mut formula = formula;
    loop {
        if let Some(parts) = take(formula, &mut todo, literals)? {
            return Ok(search_any(alloc, parts, todo.as_slice(), literals, facts)?);
        }
        match next(&mut todo)? {
            None => return Ok(closing(alloc, literals.as_slice(), facts)?),
            Some(following) => formula = following,
        }
    }
}

/// The same where an any is next: the literals so far are refuted, or each part with the rest.
#[cycle(search)]
fn search_any<'a>(
    alloc: Global,
    parts: &'a [Formula],
    rest: &[&'a [Formula]],
    literals: &mut Vec<Literal>,
    facts: &mut Facts,
) -> Result<Option<Cert>, AllocError>
    requires size { 1 + weight parts.now + weight (in_order rest.now) + length literals.now.items
        ≤ MOST_NODES }
    requires facts { AreFactsOf literals.now.items facts.now }
    ensures found { IfOk result
        (IsFoundAt parts.now (in_order rest.now) literals.old.items literals.new.items) }
    ensures grown { IfOk result (λ found. IsGrown literals.old.items literals.new.items) }
    ensures more { IfOk result (λ found. AreMore facts.old facts.new) }
{
    if let Some(cert) = closing(alloc, literals.as_slice(), facts)? {
        return Ok(Some(cert));
    }
    let gathered = literals.len();
    let noted = facts.mark();
    let mut certs = Vec::new(alloc);
    for i in 0..parts.len() {
        let found = search(alloc, &parts[i], rest, literals, facts)?;
        let Some(cert) = found else {
            return Ok(None);
        };
        literals.truncate(gathered);
        facts.cut_back(noted);
        certs.push(cert)?;
    }
    Ok(Some(Cert::Split(Seq::of(certs))))
}
