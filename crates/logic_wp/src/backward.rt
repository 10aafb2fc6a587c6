//! The parts of the paths of a body, made from its end: a statement is put before all parts that
//! come after it at once, so no path is listed.

ghost use Rattle.std.specs.Prelude.{◌≡◌, ◌++◌, IfOk, IsTrue, List, true, [], ◌∷◌};
ghost use Rattle.logic_linear.specs.declared.formula.Formula.{Formula};
ghost use Rattle.logic_linear.specs.Negation.{can_negate};
ghost use Rattle.logic_wp.specs.declared.step.Step.{Step};
ghost use Rattle.logic_wp.specs.Paths.{assuming, body_paths, branch_paths, statement_paths};
ghost use Rattle.logic_wp.specs.inner.Backward.{AreBefore, AreMade, IsStepped};
ghost use Rattle.logic_wp.specs.inner.Negatable.{negates_body, negates_statement};

use super::ranges::where_within;
use super::step::{Step, copy_put};
use super::triples::stepped;
use base_list::Seq;
use lang_monitor::Stmt;
use logic_linear::{Formula, MOST_NODES, copy_formula, negate, nodes};
use std::alloc::{AllocError, Global};

/// What the step makes of each of the parts. It ends where a part leaves the limits, or all have
/// too many nodes: no later step leaves fewer.
fn before_step(
    alloc: Global,
    step: &Step,
    parts: &[Formula],
) -> Result<Option<Seq<Formula>>, AllocError>
    ensures { IfOk result (IsStepped step.now parts.now) }
{
    let mut made = Vec::new(alloc);
    let mut room = MOST_NODES;
    for part in parts {
        let Some(next) = stepped(alloc, step, part)? else {
            return Ok(None);
        };
        let size = nodes(&next);
        if size > room {
            return Ok(None);
        }
        room -= size;
        made.push(next)?;
    }
    Ok(Some(Seq::of(made)))
}

/// What an assumption makes of the parts of one side of an `if`.
fn assumed(
    alloc: Global,
    when: Formula,
    side: Option<Seq<Formula>>,
) -> Result<Option<Seq<Formula>>, AllocError>
    ensures { IfOk result (λ made. (post : Formula) (paths : List (List Step))
        → AreMade post paths side → AreMade post (assuming when paths) made) }
{
    match side {
        None => Ok(None),
        Some(parts) => {
            let step = Step::Assume(when);
            Ok(before_step(alloc, &step, parts.items())?)
        }
    }
}

/// The parts of both sides, where both are there.
fn both_sides(
    firsts: Option<Seq<Formula>>,
    seconds: Option<Seq<Formula>>,
) -> Result<Option<Seq<Formula>>, AllocError>
    ensures { IfOk result (λ made. (post : Formula) (paths more : List (List Step))
        → AreMade post paths firsts → AreMade post more seconds
        → AreMade post (paths ++ more) made) }
{
    let Some(firsts) = firsts else {
        return Ok(None);
    };
    let Some(seconds) = seconds else {
        return Ok(None);
    };
    let mut all = firsts.into_items();
    let mut others = seconds.into_items();
    all.append(&mut others)?;
    Ok(Some(Seq::of(all)))
}

/// The parts of an `if` whose sides have these.
fn before_branches(
    alloc: Global,
    when: &Formula,
    bodies: Option<Seq<Formula>>,
    others: Option<Seq<Formula>>,
) -> Result<Option<Seq<Formula>>, AllocError>
    requires { IsTrue (can_negate when.now) }
    ensures { IfOk result (λ made. (post : Formula) (paths more : List (List Step))
        → AreMade post paths bodies → AreMade post more others
        → AreMade post (branch_paths when.now paths more) made) }
{
    let negated = negate(alloc, when)?;
    let whens = copy_formula(alloc, when)?;
    let firsts = assumed(alloc, whens, bodies)?;
    let seconds = assumed(alloc, negated, others)?;
    Ok(both_sides(firsts, seconds)?)
}

fn copy_parts(alloc: Global, parts: &[Formula]) -> Result<Vec<Formula>, AllocError>
    ensures { IfOk result (λ copies. copies.items ≡ parts.now) }
{
    let mut copies = Vec::new(alloc);
    for part in parts {
        copies.push(copy_formula(alloc, part)?)?;
    }
    Ok(copies)
}

/// What a statement makes of the parts after it.
#[cycle(before)]
fn before_statement(
    alloc: Global,
    statement: &Stmt,
    parts: &[Formula],
) -> Result<Option<Seq<Formula>>, AllocError>
    requires { negates_statement statement.now ≡ true }
    ensures { IfOk result (AreBefore (statement_paths statement.now) parts.now) }
{
    match statement {
        Stmt::Put(put) => {
            let copy = copy_put(alloc, put)?;
            let step = Step::Put(copy);
            Ok(before_step(alloc, &step, parts)?)
        }
        Stmt::If { when, then, other } => {
            let bodies = before_body(alloc, then.items(), parts)?;
            let others = before_body(alloc, other.items(), parts)?;
            Ok(before_branches(alloc, when, bodies, others)?)
        }
    }
}

/// What a body makes of the parts after it.
#[cycle(before)]
fn before_body(
    alloc: Global,
    body: &[Stmt],
    parts: &[Formula],
) -> Result<Option<Seq<Formula>>, AllocError>
    requires { negates_body body.now ≡ true }
    ensures { IfOk result (AreBefore (body_paths body.now) parts.now) }
{
    let mut made = copy_parts(alloc, parts)?;
    let mut left = body.len();
    while left > 0 {
        left -= 1;
        let Some(next) = before_statement(alloc, &body[left], &made)? else {
            return Ok(None);
        };
        made = next.into_items();
    }
    Ok(Some(Seq::of(made)))
}

/// The parts of the paths of a body, in the order of the paths.
pub(crate) fn parts_of_body(
    alloc: Global,
    post: &Formula,
    body: &[Stmt],
) -> Result<Option<Seq<Formula>>, AllocError>
    requires post { IsTrue (can_negate post.now) }
    requires body { negates_body body.now ≡ true }
    ensures { IfOk result (AreMade post.now (body_paths body.now)) }
{
    let negated = negate(alloc, post)?;
    let Some(end) = where_within(negated) else {
        return Ok(None);
    };
    let mut ends = Vec::new(alloc);
    ends.push(end)?;
    Ok(before_body(alloc, body, &ends)?)
}
