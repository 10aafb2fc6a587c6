//! Where a block leaves 64 bits.

ghost use Rattle.std.specs.Prelude.{◌<◌, IfOk, length};
ghost use Rattle.lang_monitor.specs.Candidates.{AreSomeOf, candidates_of};
ghost use Rattle.plan_fits.specs.States.{IsOverflow};

use super::question::outside_question;
use lang_monitor::{Candidate, Monitor};
use logic_solve::{Solution, solution};
use std::alloc::{AllocError, Global};

/// Fields, arguments and locals within 64 bits with which the block, a number from 0, may run and
/// leaves 64 bits. Of a question within the limits of [`outside_question`], with at most 1,024
/// cubes and difference rows alone, there are none only where the block fits. It fails only for
/// want of memory.
pub fn overflow_of(
    alloc: Global,
    monitor: &Monitor,
    kept: &[Candidate],
    block: u32,
) -> Result<Option<Solution>, AllocError>
    requires kept { AreSomeOf kept.now (candidates_of monitor.now) }
    requires block { block < length monitor.now.blocks }
    ensures { IfOk result (IsOverflow monitor.now kept.now block) }
{
    monitor.blocks();
    match outside_question(alloc, monitor, kept, block)? {
        None => Ok(None),
        Some(question) => Ok(solution(alloc, &question)?),
    }
}
