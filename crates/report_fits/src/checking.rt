//! The check of the certificates of blocks that fit.

ghost use Rattle.std.specs.Prelude.{◌<◌, IfOk, IfSome, length};
ghost use Rattle.lang_monitor.specs.Candidates.{AreSomeOf, candidates_of};
ghost use Rattle.report_fits.specs.FitTexts.{AreFits};
ghost use Rattle.report_fits.specs.FitVerdicts.{IsFirstOpenFit};
ghost use Rattle.report_fits.specs.inner.Reading.{IsFitCheck};

use super::fit::Fit;
use lang_monitor::{Candidate, Monitor};
use logic_outline::is_refuted;
use plan_fits::{certified_blocks_fit, outside_question};
use std::alloc::{AllocError, Global};

/// The place of the first block whose certificate doesn't refute its question, or whose question
/// isn't made within the limits of [`outside_question`]; or none: then each of them fits. It asks
/// no prover, and fails only for want of memory.
pub fn first_open_fit(
    alloc: Global,
    monitor: &Monitor,
    kept: &[Candidate],
    fits: &[Fit],
) -> Result<Option<usize>, AllocError>
    requires kept { AreSomeOf kept.now (candidates_of monitor.now) }
    requires blocks { AreFits monitor.now fits.now }
    ensures first { IfOk result (IsFirstOpenFit monitor.now kept.now fits.now) }
    ensures near { IfOk result (λ found. IfSome found (λ place. place < length fits.now)) }
{
    for place in 0..fits.len() {
        let fitting = is_fit(alloc, monitor, kept, &fits[place])?;
        if !fitting {
            return Ok(Some(place));
        }
    }
    Ok(None)
}

/// Whether the certificate refutes the question of the block, which is made within the limits.
fn is_fit(
    alloc: Global,
    monitor: &Monitor,
    kept: &[Candidate],
    fit: &Fit,
) -> Result<bool, AllocError>
    requires kept { AreSomeOf kept.now (candidates_of monitor.now) }
    requires block { fit.now.block < length monitor.now.blocks }
    ensures { IfOk result (IsFitCheck monitor.now kept.now fit.now) }
{
    certified_blocks_fit();
    match outside_question(alloc, monitor, kept, fit.block)? {
        Some(question) => is_refuted(alloc, &question, &fit.cert),
        None => Ok(false),
    }
}
