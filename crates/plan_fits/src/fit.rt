//! Which blocks fit, with certificates.

ghost use Rattle.std.specs.Prelude.{◌<◌, IfOk, length};
ghost use Rattle.lang_monitor.specs.Candidates.{AreSomeOf, candidates_of};
ghost use Rattle.plan_fits.specs.Answers.{AreFitAnswers, AreWhole, IsFitAnswer};

use super::question::outside_question;
use lang_monitor::{Candidate, Monitor};
use logic_cert::{Cert, refuted_formula_is_false};
use logic_solve::refute;
use std::alloc::{AllocError, Global};

/// A certificate that refutes the question of a block, which is a number from 0; the block then
/// fits. There is none only where the block does not fit, or its question is beyond the limits of
/// [`outside_question`], has more than 1,024 cubes, or has a cube with a row that is no difference
/// row and with no flag of opposite truths. Such a cube is never light, since its variables have
/// bounds of 2^63: the prover tries it all the same (`specs/Answers`). It fails only for want of
/// memory.
pub fn fit_of(
    alloc: Global,
    monitor: &Monitor,
    kept: &[Candidate],
    block: u32,
) -> Result<Option<Cert>, AllocError>
    requires kept { AreSomeOf kept.now (candidates_of monitor.now) }
    requires block { block < length monitor.now.blocks }
    ensures { IfOk result (IsFitAnswer monitor.now kept.now block) }
{
    refuted_formula_is_false(); // so a block fits whose question is refuted
    monitor.blocks();
    match outside_question(alloc, monitor, kept, block)? {
        None => Ok(None),
        Some(question) => Ok(refute(alloc, &question)?),
    }
}

/// For each block in order a certificate that it fits, where one is found, as [`fit_of`] does. It
/// fails only for want of memory.
pub fn fits_of(
    alloc: Global,
    monitor: &Monitor,
    kept: &[Candidate],
) -> Result<Vec<Option<Cert>>, AllocError>
    requires { AreSomeOf kept.now (candidates_of monitor.now) }
    ensures { IfOk result (λ fits. AreFitAnswers monitor.now kept.now fits.items) }
{
    let count = monitor.blocks().len();
    let mut fits = Vec::new(alloc);
    for block in 0..count {
        fits.push(fit_of(alloc, monitor, kept, block as u32)?)?;
    }
    Ok(fits)
}

/// For each block in order whether a certificate is found that it fits. It fails only for want of
/// memory.
pub fn whole_blocks(
    alloc: Global,
    monitor: &Monitor,
    kept: &[Candidate],
) -> Result<Vec<bool>, AllocError>
    requires { AreSomeOf kept.now (candidates_of monitor.now) }
    ensures { IfOk result (λ whole. AreWhole monitor.now kept.now whole.items) }
{
    let count = monitor.blocks().len();
    let mut whole = Vec::new(alloc);
    for block in 0..count {
        let fit = fit_of(alloc, monitor, kept, block as u32)?;
        whole.push(fit.is_some())?;
    }
    Ok(whole)
}
