//! Why blocks may leave 64 bits.

ghost use Rattle.std.specs.Prelude.{◌<◌, IfOk, None, length};
ghost use Rattle.lang_monitor.specs.Candidates.{AreSomeOf, candidates_of};
ghost use Rattle.plan_fits.specs.Answers.{IsFitAnswer};
ghost use Rattle.report_fits.specs.FitReasons.{AreFitReasons, IsFitReason};

use lang_monitor::{Candidate, Monitor};
use logic_solve::Solution;
use plan_fits::{fit_of, overflow_of};
use std::alloc::{AllocError, Global};

/// What is found of a block.
#[derive(Debug, Drop)]
pub enum FitReason {
    /// It keeps 64 bits.
    Fits,
    /// With these values it may run within 64 bits, and leaves them.
    Leaves { at: Solution },
    /// There is neither a certificate that it keeps 64 bits, nor such values.
    Undecided,
}

/// Of each block in order whether it fits, or values with which it doesn't, where they are found.
/// It fails only for want of memory.
pub fn fit_reasons(
    alloc: Global,
    monitor: &Monitor,
    kept: &[Candidate],
) -> Result<Vec<FitReason>, AllocError>
    requires { AreSomeOf kept.now (candidates_of monitor.now) }
    ensures { IfOk result (λ found. AreFitReasons monitor.now kept.now found.items) }
{
    let count = monitor.blocks().len();
    let mut found = Vec::new(alloc);
    for block in 0..count {
        found.push(fit_reason(alloc, monitor, kept, block as u32)?)?;
    }
    Ok(found)
}

/// That of a block.
fn fit_reason(
    alloc: Global,
    monitor: &Monitor,
    kept: &[Candidate],
    block: u32,
) -> Result<FitReason, AllocError>
    requires kept { AreSomeOf kept.now (candidates_of monitor.now) }
    requires block { block < length monitor.now.blocks }
    ensures { IfOk result (IsFitReason monitor.now kept.now block) }
{
    match fit_of(alloc, monitor, kept, block)? {
        Some(_cert) => Ok(FitReason::Fits),
        None => unfit_reason(alloc, monitor, kept, block),
    }
}

/// That of a block without a certificate.
fn unfit_reason(
    alloc: Global,
    monitor: &Monitor,
    kept: &[Candidate],
    block: u32,
) -> Result<FitReason, AllocError>
    requires kept { AreSomeOf kept.now (candidates_of monitor.now) }
    requires block { block < length monitor.now.blocks }
    requires unfit { IsFitAnswer monitor.now kept.now block None }
    ensures { IfOk result (IsFitReason monitor.now kept.now block) }
{
    match overflow_of(alloc, monitor, kept, block)? {
        Some(at) => Ok(FitReason::Leaves { at }),
        None => Ok(FitReason::Undecided),
    }
}
