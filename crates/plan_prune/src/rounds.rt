//! Rounds, each of which drops the candidates that some block may not keep.

ghost use Rattle.std.specs.Prelude.{◌≡◌, ◌<◌, ◌++◌, ◌∷◌, [], IfOk, OnOk, length};
ghost use Rattle.plan_prune.specs.inner.Asking.{AreAskable, AreFound, IsAskable, IsFoundAt};
ghost use Rattle.plan_prune.specs.inner.Pruning.{IsRound, IsTurn};

use super::certificate::certificate_of;
use super::kept::Kept;
use base_list::Seq;
use lang_monitor::{Candidate, Monitor};
use logic_wp::keeps;
use std::alloc::{AllocError, Global};

/// What a round keeps: candidates, and the proofs that each block keeps them under those that were
/// there before.
#[derive(Debug, Drop)]
pub(crate) struct Round {
    pub(crate) kept: Vec<Candidate>,
    pub(crate) proofs: Vec<Kept>,
}

/// The proof that the block keeps the candidate under the others, where it is found.
pub(crate) fn proof_of(
    alloc: Global,
    monitor: &Monitor,
    hyps: &[Candidate],
    candidate: Candidate,
    block: u32,
) -> Result<Option<Kept>, AllocError>
    requires hyps { AreAskable hyps.now }
    requires candidate { IsAskable candidate }
    requires block { block < length monitor.now.blocks }
    ensures { IfOk result (IsFoundAt monitor.now hyps.now candidate block) }
{
    monitor.blocks();
    let query = keeps(alloc, monitor, hyps, candidate, block)?;
    match certificate_of(alloc, monitor, &query)? {
        None => Ok(None),
        Some(cert) => Ok(Some(Kept {
            candidate,
            block,
            cert,
        })),
    }
}

/// The proofs that each block keeps the candidate, where all are found.
fn proofs_of(
    alloc: Global,
    monitor: &Monitor,
    hyps: &[Candidate],
    candidate: Candidate,
) -> Result<Option<Seq<Kept>>, AllocError>
    requires hyps { AreAskable hyps.now }
    requires candidate { IsAskable candidate }
    ensures { IfOk result (AreFound monitor.now hyps.now candidate) }
{
    let mut proofs = Vec::new(alloc);
    for block in 0..monitor.blocks().len() {
        let Some(proof) = proof_of(alloc, monitor, hyps, candidate, block as u32)? else {
            return Ok(None);
        };
        proofs.push(proof)?;
    }
    Ok(Some(Seq::of(proofs)))
}

/// Keeps the candidate, with its proofs.
fn keep(round: &mut Round, candidate: Candidate, found: Seq<Kept>) -> Result<(), AllocError>
    ensures kept { OnOk result (round.new.kept.items ≡ round.old.kept.items ++ candidate ∷ []) }
    ensures proofs { OnOk result (round.new.proofs.items ≡ round.old.proofs.items ++ found) }
{
    round.kept.push(candidate)?;
    for proof in found.into_items() {
        round.proofs.push(proof)?;
    }
    Ok(())
}

/// Keeps the candidate, where each block is found to keep it.
fn keep_if_found(
    alloc: Global,
    monitor: &Monitor,
    hyps: &[Candidate],
    candidate: Candidate,
    round: &mut Round,
) -> Result<(), AllocError>
    requires hyps { AreAskable hyps.now }
    requires candidate { IsAskable candidate }
    ensures { OnOk result (IsTurn monitor.now hyps.now candidate round.old round.new) }
{
    match proofs_of(alloc, monitor, hyps, candidate)? {
        None => Ok(()),
        Some(found) => Ok(keep(round, candidate, found)?),
    }
}

/// Those of the candidates that each block is found to keep under all of them.
pub(crate) fn next_round(
    alloc: Global,
    monitor: &Monitor,
    kept: &[Candidate],
) -> Result<Round, AllocError>
    requires { AreAskable kept.now }
    ensures { IfOk result (IsRound monitor.now kept.now kept.now) }
{
    let mut round = Round {
        kept: Vec::new(alloc),
        proofs: Vec::new(alloc),
    };
    for candidate in kept {
        keep_if_found(alloc, monitor, kept, *candidate, &mut round)?;
    }
    Ok(round)
}
