//! The paths of a body, made.

ghost use Rattle.std.specs.Prelude.{◌≡◌, ◌++◌, IfOk, IsTrue, true, [], ◌∷◌};
ghost use Rattle.std.specs.List.{flat_map};
ghost use Rattle.logic_linear.specs.Negation.{can_negate};
ghost use Rattle.logic_wp.specs.Paths.{assuming, body_paths, branch_paths, continued};
ghost use Rattle.logic_wp.specs.Paths.{statement_paths};
ghost use Rattle.logic_wp.specs.inner.Negatable.{negates_body, negates_statement};

use super::path::Path;
use super::step::{Step, copy_put};
use lang_monitor::Stmt;
use logic_linear::{Formula, copy_formula, negate};
use std::alloc::{AllocError, Global};

fn copy_step(alloc: Global, step: &Step) -> Result<Step, AllocError>
    ensures { IfOk result (λ copy. copy ≡ step.now) }
{
    match step {
        Step::Put(put) => Ok(Step::Put(copy_put(alloc, put)?)),
        Step::Assume(formula) => Ok(Step::Assume(copy_formula(alloc, formula)?)),
    }
}

/// Appends copies of the steps.
fn push_steps(alloc: Global, steps: &mut Vec<Step>, more: &[Step]) -> Result<(), AllocError>
    ensures { IfOk result (λ done. steps.new.items ≡ steps.old.items ++ more.now) }
{
    for step in more {
        steps.push(copy_step(alloc, step)?)?;
    }
    Ok(())
}

/// The one path after the other.
fn path_of(alloc: Global, path: &[Step], rest: &[Step]) -> Result<Path, AllocError>
    ensures { IfOk result (λ made. made ≡ path.now ++ rest.now) }
{
    let mut steps = Vec::new(alloc);
    push_steps(alloc, &mut steps, path)?;
    push_steps(alloc, &mut steps, rest)?;
    Ok(Path::of(steps))
}

/// Appends the path, continued by each of the rests.
fn push_continued(
    alloc: Global,
    paths: &mut Vec<Path>,
    path: &[Step],
    rests: &[Path],
) -> Result<(), AllocError>
    ensures { IfOk result (λ _. paths.new.items ≡ paths.old.items ++ continued rests.now path.now) }
{
    for rest in rests {
        paths.push(path_of(alloc, path, rest.steps())?)?;
    }
    Ok(())
}

/// Each of the paths, continued by each of the rests.
fn joined(alloc: Global, firsts: &[Path], rests: &[Path]) -> Result<Vec<Path>, AllocError>
    ensures { IfOk result (λ paths. paths.items ≡ flat_map (continued rests.now) firsts.now) }
{
    let mut paths = Vec::new(alloc);
    for first in firsts {
        push_continued(alloc, &mut paths, first.steps(), rests)?;
    }
    Ok(paths)
}

/// The path of one step.
fn one_path(alloc: Global, step: Step) -> Result<Vec<Path>, AllocError>
    ensures { IfOk result (λ paths. paths.items ≡ (step ∷ []) ∷ []) }
{
    let mut steps = Vec::new(alloc);
    steps.push(step)?;
    let mut paths = Vec::new(alloc);
    paths.push(Path::of(steps))?;
    Ok(paths)
}

/// The one path of no steps.
fn no_steps(alloc: Global) -> Result<Vec<Path>, AllocError>
    ensures { IfOk result (λ paths. paths.items ≡ [] ∷ []) }
{
    let mut paths = Vec::new(alloc);
    paths.push(Path::of(Vec::new(alloc)))?;
    Ok(paths)
}

fn assumed(alloc: Global, when: &Formula, path: &[Step]) -> Result<Path, AllocError>
    ensures { IfOk result (λ made. made ≡ Step.Assume when.now ∷ path.now) }
{
    let mut steps = Vec::new(alloc);
    steps.push(Step::Assume(copy_formula(alloc, when)?))?;
    push_steps(alloc, &mut steps, path)?;
    Ok(Path::of(steps))
}

/// Appends the paths, with an assumption before each.
fn push_assuming(
    alloc: Global,
    into: &mut Vec<Path>,
    when: &Formula,
    paths: &[Path],
) -> Result<(), AllocError>
    ensures { IfOk result (λ done. into.new.items ≡ into.old.items ++ assuming when.now paths.now) }
{
    for path in paths {
        into.push(assumed(alloc, when, path.steps())?)?;
    }
    Ok(())
}

/// The paths of an `if` whose sides have these.
fn branches(
    alloc: Global,
    when: &Formula,
    bodies: &[Path],
    others: &[Path],
) -> Result<Vec<Path>, AllocError>
    requires { IsTrue (can_negate when.now) }
    ensures { IfOk result (λ made. made.items ≡ branch_paths when.now bodies.now others.now) }
{
    let negated = negate(alloc, when)?;
    let mut paths = Vec::new(alloc);
    push_assuming(alloc, &mut paths, when, bodies)?;
    push_assuming(alloc, &mut paths, &negated, others)?;
    Ok(paths)
}

/// The paths of a statement, whose conditions can be negated.
#[cycle(paths)]
fn paths_of_statement(alloc: Global, statement: &Stmt) -> Result<Vec<Path>, AllocError>
    requires { negates_statement statement.now ≡ true }
    ensures { IfOk result (λ paths. paths.items ≡ statement_paths statement.now) }
{
    match statement {
        Stmt::Put(put) => one_path(alloc, Step::Put(copy_put(alloc, put)?)),
        Stmt::If { when, then, other } => {
            let bodies = paths_of_body(alloc, then.items())?;
            let others = paths_of_body(alloc, other.items())?;
            branches(alloc, when, &bodies, &others)
        }
    }
}

/// The paths of a body, whose conditions can be negated.
#[cycle(paths)]
pub(crate) fn paths_of_body(alloc: Global, body: &[Stmt]) -> Result<Vec<Path>, AllocError>
    requires { negates_body body.now ≡ true }
    ensures { IfOk result (λ paths. paths.items ≡ body_paths body.now) }
{
    let mut paths = no_steps(alloc)?;
    let mut left = body.len();
    while left > 0 {
        left -= 1;
        let firsts = paths_of_statement(alloc, &body[left])?;
        paths = joined(alloc, &firsts, &paths)?;
    }
    Ok(paths)
}
