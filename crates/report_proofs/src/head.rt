//! The heads of lines in memory, as they are written.

ghost use Rattle.std.specs.Prelude.{◌≡◌, ◌++◌, IfOk, codes};
ghost use Rattle.base_pen.specs.Putting.{Adds};
ghost use Rattle.machine_events.specs.PlanText.{block_name};
ghost use Rattle.report_proofs.specs.ReportTexts.{claim_text};

use super::writing::{put_block_name, put_claim_head};
use base_io::{GrowingSink, Sink};
use base_pen::Pen;
use lang_monitor::{Claim, Monitor};
use std::alloc::{AllocError, Global};

/// What stands in a block's line before its notes: `block put: `.
pub(crate) fn block_head(
    alloc: Global,
    monitor: &Monitor,
    block: usize,
) -> Result<Vec<u8>, AllocError>
    ensures { IfOk result (λ text. text.items
        ≡ codes "block " ++ block_name monitor.now block ++ codes ": ") }
{
    let mut out = GrowingSink::new(alloc);
    let mut pen = Pen::new(&mut out);
    put_block_head(monitor, block, &mut pen);
    pen.outcome.map_err(|_| AllocError)?;
    Ok(out.into_bytes())
}

/// `block put: `
#[tactic(auto, using(base_pen::proofs::Putting::adds_three))]
fn put_block_head<S: Sink>(monitor: &Monitor, block: usize, pen: &mut Pen<'_, S>)
    ensures { Adds S.seen pen.old pen.new
        (codes "block " ++ block_name monitor.now block ++ codes ": ") }
{
    pen.put(b"block ");
    put_block_name(monitor, block, pen);
    pen.put(b": ");
}

/// What stands in a proof's line before the certificate: `proof none put 2: `.
pub(crate) fn claim_head(
    alloc: Global,
    monitor: &Monitor,
    claim: Claim,
) -> Result<Vec<u8>, AllocError>
    ensures { IfOk result (λ text. text.items
        ≡ codes "proof " ++ claim_text monitor.now claim ++ codes ": ") }
{
    let mut out = GrowingSink::new(alloc);
    let mut pen = Pen::new(&mut out);
    put_claim_head(monitor, claim, &mut pen);
    pen.outcome.map_err(|_| AllocError)?;
    Ok(out.into_bytes())
}
