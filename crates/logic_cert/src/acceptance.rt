//! The check of a certificate.

ghost use Rattle.std.specs.Prelude.{◌≡◌, ◌+◌, ◌↔◌, IfOk, OnOk, IsTrue, MatchOption, Some, None};
ghost use Rattle.std.specs.Prelude.{false, true};
ghost use Rattle.logic_linear.specs.Truth.{Valuation, truth_of};
ghost use Rattle.logic_cert.specs.declared.cert.Cert.TheVariants as certificates;
ghost use Rattle.logic_cert.specs.Refutes.{Refutes};
ghost use Rattle.logic_cert.specs.inner.Branches.{any_parts, branch_refutes, branches_size};
ghost use Rattle.logic_cert.specs.inner.Branches.{is_paused, put_before, size_of, sizes_of};
ghost use Rattle.logic_cert.specs.inner.Branches.{stack_of};
ghost use Rattle.logic_cert.specs.inner.Branches.{Gathers, MakesCases, Outweighs, PutsFirst};
ghost use Rattle.logic_cert.specs.inner.Branches.{Replaces, Shrinks, Splits, TakesRow};
ghost use Rattle.logic_cert.specs.inner.Deciding.{refutes};

use super::cert::{Cert, Literal};
use super::closing::closes;
use super::rows::upper_row;
use logic_linear::{Formula, Lin};
use std::alloc::{AllocError, Global};

/// What is left to refute at a part of an any that was split, or of the formula.
#[derive(Debug, Drop)]
struct Branch<'a> {
    /// The formulas to do, the last one first.
    todo: Vec<&'a Formula>,
    /// The literals that were gathered before.
    literals: Vec<Literal>,
    cert: &'a Cert,
}

/// Whether the certificate refutes the formula, which is then true at no valuation.
///
/// It follows one branch after the other from a list of its own and calls itself nowhere, so the
/// depth of its calls is the same for every formula and certificate, and none is too deep for it.
/// Making, copying and dropping a formula recurse as deep as it is: a stack of 8 MB bore 20,000
/// levels. It fails only for want of memory.
pub fn accepts(alloc: Global, formula: &Formula, cert: &Cert) -> Result<bool, AllocError>
    ensures exact { IfOk result (λ accepted. IsTrue accepted ↔ Refutes formula.now cert.now) }
    ensures sound { IfOk result (λ accepted. IsTrue accepted
        → (valuation : Valuation) → truth_of valuation formula.now ≡ false) }
{
    follow_all(alloc, formula, cert)
}

/// Whether the certificate refutes the formula.
fn follow_all(alloc: Global, formula: &Formula, cert: &Cert) -> Result<bool, AllocError>
    ensures { IfOk result (λ accepted. accepted ≡ refutes formula.now cert.now) }
{
    let mut branches = Vec::new(alloc);
    branches.push(branch_of(alloc, &[], formula, &[], cert)?)?;
    while let Some(branch) = branches.pop() {
        if !follow(alloc, branch, &mut branches)? {
            return Ok(false);
        }
    }
    Ok(true)
}

/// Follows a branch until it is closed, or is split into branches that are put on the list. It
/// answers false where its certificate does not refute it.
fn follow<'a>(
    alloc: Global,
    branch: Branch<'a>,
    branches: &mut Vec<Branch<'a>>,
) -> Result<bool, AllocError>
    ensures held { IfOk result (Replaces (branch_refutes branch.entry) branches.old branches.new) }
    ensures less { IfOk result (Shrinks branch.entry branches.old branches.new) }
{
    let mut branch = branch;
    gather(&mut branch)?;
    match branch.cert {
        Cert::Split(certs) => split_any(alloc, branch, certs.items(), branches),
        Cert::Clash { .. } => closes(alloc, &branch.literals, branch.cert),
        Cert::Chain(_) => closes(alloc, &branch.literals, branch.cert),
        Cert::Cases { form, below, above } => {
            make_cases(alloc, &branch, form, below.get(), above.get(), branches)
        }
    }
}

/// Takes formulas to do up to an any, which stays: a literal is gathered, and of an all the parts
/// are put first.
fn gather(branch: &mut Branch<'_>) -> Result<(), AllocError>
    ensures { OnOk result (Gathers branch.old branch.new) }
{
    while let Some(formula) = branch.todo.pop() {
        match formula {
            Formula::Row(form) => branch.literals.push(Literal::Row(form.clone()?))?,
            Formula::Flag { place, is } => branch.literals.push(Literal::Flag {
                place: *place,
                is: *is,
            })?,
            Formula::All(parts) => put_first(parts.items(), &mut branch.todo)?,
            Formula::Any(_) => {
                branch.todo.push(formula)?;
                return Ok(());
            }
        }
    }
    Ok(())
}

/// Puts the parts on the formulas to do, so that the first part comes first.
fn put_first<'a>(parts: &'a [Formula], todo: &mut Vec<&'a Formula>) -> Result<(), AllocError>
    ensures order { OnOk result (stack_of todo.new.items ≡ put_before parts.now todo.old.items) }
    ensures weight { OnOk result (Outweighs parts.now todo.old.items todo.new.items) }
{
    let mut left = parts.len();
    while left > 0 {
        left -= 1;
        todo.push(&parts[left])?;
    }
    Ok(())
}

/// Splits the any that is next. It answers false where none is, or has not as many parts.
fn split_any<'a>(
    alloc: Global,
    branch: Branch<'a>,
    certs: &'a [Cert],
    branches: &mut Vec<Branch<'a>>,
) -> Result<bool, AllocError>
    requires { is_paused branch.todo.items ≡ true }
    ensures answer { IfOk result (Replaces
        (stack_of branch.entry.todo.items branch.entry.literals.items
        (certificates.Split certs.now)) branches.old branches.new) }
    ensures size { IfOk result (λ even. IsTrue even
        → branches_size branches.new.items
        ≡ sizes_of certs.now + branches_size branches.old.items) }
{
    let mut at = branch;
    match at.todo.pop() {
        None => Ok(false),
        Some(any) => match parts_of(any) {
            None => Ok(false),
            Some(parts) => split(alloc, &at, parts, certs, branches),
        },
    }
}

/// The parts of an any.
fn parts_of<'a>(formula: &'a Formula) -> Option<&'a [Formula]>
    ensures { MatchOption result (any_parts formula.now ≡ None)
        (λ parts. any_parts formula.now ≡ Some parts.now) }
{
    match formula {
        Formula::Row(_) => None,
        Formula::Flag { .. } => None,
        Formula::All(_) => None,
        Formula::Any(parts) => Some(parts.items()),
    }
}

/// Puts a branch on the list for each part with its certificate. It answers false where there are
/// not as many.
fn split<'a>(
    alloc: Global,
    at: &Branch<'a>,
    parts: &'a [Formula],
    certs: &'a [Cert],
    branches: &mut Vec<Branch<'a>>,
) -> Result<bool, AllocError>
    ensures answer { IfOk result (Splits at.now parts.now certs.now branches.old branches.new) }
    ensures size { IfOk result (λ even. IsTrue even
        → branches_size branches.new.items
        ≡ sizes_of certs.now + branches_size branches.old.items) }
{
    if parts.len() != certs.len() {
        return Ok(false);
    }
    for i in 0..certs.len() {
        branches.push(branch_of(alloc, &at.todo, &parts[i], &at.literals, &certs[i])?)?;
    }
    Ok(true)
}

/// The branch in which a formula is put before the others.
fn branch_of<'a>(
    alloc: Global,
    todo: &[&'a Formula],
    first: &'a Formula,
    literals: &[Literal],
    cert: &'a Cert,
) -> Result<Branch<'a>, AllocError>
    ensures answer { IfOk result (PutsFirst todo.now first.now literals.now cert.now) }
    ensures cert { IfOk result (λ branch. branch.cert.now ≡ cert.now) }
{
    let mut formulas = Vec::from_slice(alloc, todo)?;
    formulas.push(first)?;
    let literals = copied_literals(alloc, literals)?;
    Ok(Branch {
        todo: formulas,
        literals,
        cert,
    })
}

/// Puts a branch on the list for each side of a form. It answers false where the row of the upper
/// side cannot be made.
fn make_cases<'a>(
    alloc: Global,
    at: &Branch<'a>,
    form: &Lin,
    below: &'a Cert,
    above: &'a Cert,
    branches: &mut Vec<Branch<'a>>,
) -> Result<bool, AllocError>
    ensures answer { IfOk result
        (MakesCases at.now form.now below.now above.now branches.old branches.new) }
    ensures size { IfOk result (λ made. IsTrue made
        → branches_size branches.new.items
        ≡ size_of below.now + size_of above.now + branches_size branches.old.items) }
{
    let Some(upper) = upper_row(alloc, form)? else {
        return Ok(false);
    };
    branches.push(side_of(alloc, at, upper, above)?)?;
    branches.push(side_of(alloc, at, form.clone()?, below)?)?;
    Ok(true)
}

/// The branch in which a row is gathered too.
fn side_of<'a>(
    alloc: Global,
    at: &Branch<'a>,
    row: Lin,
    cert: &'a Cert,
) -> Result<Branch<'a>, AllocError>
    ensures answer { IfOk result (TakesRow at.now row cert.now) }
    ensures cert { IfOk result (λ branch. branch.cert.now ≡ cert.now) }
{
    let todo = Vec::from_slice(alloc, &at.todo)?;
    let mut literals = copied_literals(alloc, &at.literals)?;
    literals.push(Literal::Row(row))?;
    Ok(Branch {
        todo,
        literals,
        cert,
    })
}

fn copied_literals(alloc: Global, literals: &[Literal]) -> Result<Vec<Literal>, AllocError>
    ensures { IfOk result (λ copies. copies.items ≡ literals.now) }
{
    let mut copies = Vec::new(alloc);
    for literal in literals {
        copies.push(copied_literal(literal)?)?;
    }
    Ok(copies)
}

fn copied_literal(literal: &Literal) -> Result<Literal, AllocError>
    ensures { IfOk result (λ copy. copy ≡ literal.now) }
{
    match literal {
        Literal::Row(form) => Ok(Literal::Row(form.clone()?)),
        Literal::Flag { place, is } => Ok(Literal::Flag {
            place: *place,
            is: *is,
        }),
    }
}
