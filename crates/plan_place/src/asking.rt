//! The prover is asked for a claim.

ghost use Rattle.std.specs.Prelude.{IfOk};
ghost use Rattle.logic_wp.specs.PlainClaims.{MayAsk};
ghost use Rattle.plan_place.specs.inner.Answers.{AreAskable, IsAnswerTo};

use lang_monitor::{Candidate, Claim, Monitor};
use logic_wp::claim_query;
use plan_claims::Proof;
use plan_prune::certificate_of;
use std::alloc::{AllocError, Global};

/// A proof of a claim, where the prover finds one.
pub(crate) fn proof_of(
    alloc: Global,
    monitor: &Monitor,
    kept: &[Candidate],
    claim: Claim,
) -> Result<Option<Proof>, AllocError>
    requires kept { AreAskable kept.now }
    requires claim { MayAsk monitor.now claim }
    ensures { IfOk result (IsAnswerTo monitor.now kept.now claim) }
{
    let query = claim_query(alloc, monitor, kept, claim)?;
    let _blocks = monitor.blocks();
    match certificate_of(alloc, monitor, &query)? {
        Some(cert) => Ok(Some(Proof { claim, cert })),
        None => Ok(None),
    }
}
