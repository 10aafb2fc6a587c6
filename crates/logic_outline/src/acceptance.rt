//! The check of an outline.

ghost use Rattle.std.specs.Prelude.{◌≡◌, ◌↔◌, IfOk, IsTrue, MatchOption, OnOk, Some, None};
ghost use Rattle.std.specs.Prelude.{map, true};
ghost use Rattle.logic_cert.specs.declared.cert.Cert.{Cert};
ghost use Rattle.logic_cert.specs.declared.cert.Cert.TheVariants as certificates;
ghost use Rattle.logic_cert.specs.Refutes.{Refutes};
ghost use Rattle.logic_cert.specs.inner.Branches.{any_parts, is_paused, put_before, stack_of};
ghost use Rattle.logic_cert.specs.inner.Branches.{Outweighs};
ghost use Rattle.logic_cert.specs.inner.Deciding.{done, refutes};
ghost use Rattle.logic_outline.specs.Outlines.{outline_of};
ghost use Rattle.logic_outline.specs.inner.Branches.{both_rows, branch_refutes, formula_of};
ghost use Rattle.logic_outline.specs.inner.Branches.{met_literals, rows_of, Gathers, IsFirst};
ghost use Rattle.logic_outline.specs.inner.Branches.{IsFollowed, IsSplit, PutsFirst};
ghost use Rattle.logic_outline.specs.inner.Branches.{ReplacesOrNot};

use super::outline::{Node, Outline};
use base_list::Seq;
use logic_cert::{Cert, accepts, upper_row};
use logic_linear::{Formula, Lin};
use std::alloc::{AllocError, Global};

/// What is left to refute at a part of an any that was split, at a side of cases, or of the
/// formula.
#[derive(Drop)]
struct Branch<'a> {
    /// The formulas to do, the last one first.
    todo: Vec<&'a Formula>,
    /// The rows and flags that were met before.
    met: Vec<&'a Formula>,
}

/// Whether the certificate refutes the formula, which is then true at no valuation.
///
/// It goes over the nodes once and follows one branch after the other from a list of its own, so
/// the depth of its calls is the same for every formula and certificate, and none is too deep for
/// it. A clash or a chain is checked by [`accepts`], over the rows and flags that were met. It
/// fails only for want of memory.
pub fn is_refuted(alloc: Global, formula: &Formula, outline: &Outline) -> Result<bool, AllocError>
    ensures { IfOk result (λ refuted. IsTrue refuted ↔ Refutes formula.now outline.now) }
{
    follow_all(alloc, formula, outline.nodes())
}

/// Whether the certificate of the nodes refutes the formula.
fn follow_all(alloc: Global, formula: &Formula, nodes: &[Node]) -> Result<bool, AllocError>
    ensures { (cert : Cert) → nodes.now ≡ outline_of cert
        → IfOk result (λ refuted. refuted ≡ refutes formula.now cert) }
{
    let rows = side_rows(alloc, nodes)?;
    follow_each(alloc, formula, nodes, &rows)
}

/// The rows of both sides of each node that makes cases, where they can be made.
fn side_rows(alloc: Global, nodes: &[Node]) -> Result<Vec<Seq<Formula>>, AllocError>
    ensures { IfOk result (λ rows. rows.items ≡ map rows_of nodes.now) }
{
    let mut rows = Vec::new(alloc);
    for node in nodes {
        rows.push(rows_of(alloc, node)?)?;
    }
    Ok(rows)
}

fn rows_of(alloc: Global, node: &Node) -> Result<Seq<Formula>, AllocError>
    ensures { IfOk result (λ rows. rows ≡ rows_of node.now) }
{
    match node {
        Node::Parts(_) => Ok(Seq::of(Vec::new(alloc))),
        Node::End(_) => Ok(Seq::of(Vec::new(alloc))),
        Node::Sides(form) => both_rows(alloc, form),
    }
}

/// The rows of both sides of a form, and none where that of the upper side cannot be made.
fn both_rows(alloc: Global, form: &Lin) -> Result<Seq<Formula>, AllocError>
    ensures { IfOk result (λ rows. rows ≡ both_rows form.now) }
{
    let mut rows = Vec::new(alloc);
    if let Some(upper) = upper_row(alloc, form)? {
        rows.push(Formula::Row(form.clone()?))?;
        rows.push(Formula::Row(upper))?;
    }
    Ok(Seq::of(rows))
}

/// Whether the certificate of the nodes refutes the formula, where the rows of each are given.
fn follow_each<'a>(
    alloc: Global,
    formula: &'a Formula,
    nodes: &[Node],
    rows: &'a [Seq<Formula>],
) -> Result<bool, AllocError>
    requires { rows.now ≡ map rows_of nodes.now }
    ensures { (cert : Cert) → nodes.now ≡ outline_of cert
        → IfOk result (λ refuted. refuted ≡ refutes formula.now cert) }
{
    let mut branches = Vec::new(alloc);
    branches.push(first_branch(alloc, formula)?)?;
    for i in 0..nodes.len() {
        let Some(branch) = branches.pop() else {
            return Ok(false);
        };
        if !follow(alloc, branch, &nodes[i], rows[i].items(), &mut branches)? {
            return Ok(false);
        }
    }
    Ok(true)
}

/// The branch of the formula alone.
fn first_branch<'a>(alloc: Global, formula: &'a Formula) -> Result<Branch<'a>, AllocError>
    ensures { IfOk result (IsFirst formula.now) }
{
    let mut todo = Vec::new(alloc);
    todo.push(formula)?;
    Ok(Branch {
        todo,
        met: Vec::new(alloc),
    })
}

/// Follows a branch until it is closed, or is split into branches that are put on the list. It
/// answers false where its certificate, whose first node this is, does not refute it.
fn follow<'a>(
    alloc: Global,
    branch: Branch<'a>,
    node: &Node,
    rows: &'a [Formula],
    branches: &mut Vec<Branch<'a>>,
) -> Result<bool, AllocError>
    requires { rows.now ≡ rows_of node.now }
    ensures { IfOk result
        (IsFollowed branch.entry node.now branches.old.items branches.new.items) }
{
    let mut branch = branch;
    gather(&mut branch)?;
    match node {
        Node::End(cert) => closes(alloc, &branch.met, cert),
        Node::Parts(count) => split_any(alloc, branch, *count, branches),
        Node::Sides(_) => split(alloc, &branch, rows, 2, branches),
    }
}

/// Takes formulas to do up to an any, which stays: rows and flags are met, and of an all the parts
/// are put first.
fn gather(branch: &mut Branch<'_>) -> Result<(), AllocError>
    ensures { OnOk result (Gathers branch.old branch.new) }
{
    while let Some(formula) = branch.todo.pop() {
        match formula {
            Formula::Row(_) => branch.met.push(formula)?,
            Formula::Flag { .. } => branch.met.push(formula)?,
            Formula::All(parts) => put_first(parts.items(), &mut branch.todo)?,
            Formula::Any(_) => {
                branch.todo.push(formula)?;
                return Ok(());
            }
        }
    }
    Ok(())
}

/// Puts the parts on the formulas to do, so that the first part comes first.
fn put_first<'a>(parts: &'a [Formula], todo: &mut Vec<&'a Formula>) -> Result<(), AllocError>
    ensures order { OnOk result (stack_of todo.new.items ≡ put_before parts.now todo.old.items) }
    ensures weight { OnOk result (Outweighs parts.now todo.old.items todo.new.items) }
{
    let mut left = parts.len();
    while left > 0 {
        left -= 1;
        todo.push(&parts[left])?;
    }
    Ok(())
}

/// Whether the certificate ends the work over what was met, as a clash or a chain does.
fn closes(alloc: Global, met: &[&Formula], cert: &Cert) -> Result<bool, AllocError>
    ensures { IfOk result (λ closed. closed ≡ done (met_literals met.now) cert.now) }
{
    let parts = copies(alloc, met)?;
    accepts(alloc, &Formula::All(Seq::of(parts)), cert)
}

/// Copies of the rows and flags.
fn copies(alloc: Global, met: &[&Formula]) -> Result<Vec<Formula>, AllocError>
    ensures { IfOk result (λ parts. parts.items ≡ map formula_of (met_literals met.now)) }
{
    let mut parts = Vec::new(alloc);
    for formula in met {
        match formula {
            Formula::Row(form) => parts.push(Formula::Row(form.clone()?))?,
            Formula::Flag { place, is } => parts.push(Formula::Flag {
                place: *place,
                is: *is,
            })?,
            Formula::All(_) => {}
            Formula::Any(_) => {}
        }
    }
    Ok(parts)
}

/// Splits the any that is next. It answers false where none is, or has not as many parts.
fn split_any<'a>(
    alloc: Global,
    branch: Branch<'a>,
    count: u64,
    branches: &mut Vec<Branch<'a>>,
) -> Result<bool, AllocError>
    requires { is_paused branch.todo.items ≡ true }
    ensures { IfOk result (ReplacesOrNot
        (λ certs. branch_refutes branch.entry (certificates.Split certs))
        count branches.old.items branches.new.items) }
{
    let mut at = branch;
    match at.todo.pop() {
        None => Ok(false),
        Some(any) => match parts_of(any) {
            None => Ok(false),
            Some(parts) => split(alloc, &at, parts, count, branches),
        },
    }
}

/// The parts of an any.
fn parts_of<'a>(formula: &'a Formula) -> Option<&'a [Formula]>
    ensures { MatchOption result (any_parts formula.now ≡ None)
        (λ parts. any_parts formula.now ≡ Some parts.now) }
{
    match formula {
        Formula::Row(_) => None,
        Formula::Flag { .. } => None,
        Formula::All(_) => None,
        Formula::Any(parts) => Some(parts.items()),
    }
}

/// Puts a branch on the list for each part, so that the first part comes first. It answers false
/// where there are not as many.
fn split<'a>(
    alloc: Global,
    at: &Branch<'a>,
    parts: &'a [Formula],
    count: u64,
    branches: &mut Vec<Branch<'a>>,
) -> Result<bool, AllocError>
    ensures { IfOk result
        (IsSplit at.now parts.now count branches.old.items branches.new.items) }
{
    if parts.len() as u64 != count {
        return Ok(false);
    }
    let mut left = parts.len();
    while left > 0 {
        left -= 1;
        branches.push(branch_of(alloc, at, &parts[left])?)?;
    }
    Ok(true)
}

/// The branch in which a formula is put before the others.
fn branch_of<'a>(
    alloc: Global,
    at: &Branch<'a>,
    first: &'a Formula,
) -> Result<Branch<'a>, AllocError>
    ensures { IfOk result (PutsFirst at.now first.now) }
{
    let mut todo = Vec::from_slice(alloc, &at.todo)?;
    todo.push(first)?;
    Ok(Branch {
        todo,
        met: Vec::from_slice(alloc, &at.met)?,
    })
}
