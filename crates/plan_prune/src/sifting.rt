//! Candidates sifted before the rounds: a claim is asked again only where its certificate may have
//! lost a hypothesis.

ghost use Rattle.std.specs.Prelude.{◌≡◌, ◌<◌, ◌≤◌, IfOk, length};
ghost use Rattle.lang_monitor.specs.Candidates.{candidates_of};
ghost use Rattle.plan_prune.specs.inner.Asking.{AreAskable, IsAskable, Stands, StandsAt};
ghost use Rattle.plan_prune.specs.inner.Pruning.{IsLeft, IsSieve};

use super::certificate::certificate_of;
use super::grounds::{Ground, has_ground, note_alone, note_ground};
use super::rounds::proof_of;
use base_list::Seq;
use lang_monitor::{Candidate, Monitor, Query};
use logic_wp::keeps;
use std::alloc::{AllocError, Global};

/// Candidates that are left, what the claims of each rest on, and the candidates that were dropped,
/// in this order.
#[derive(Debug, Drop)]
struct Sieve {
    kept: Vec<Candidate>,
    grounds: Vec<Vec<Ground>>,
    dropped: Vec<Candidate>,
}

/// The query without its last hypothesis, which is the guard of the block.
fn without_guard(query: Query) -> Query
    ensures block { result.block ≡ query.block }
    ensures post { result.post ≡ query.post }
{
    let Query { hyps, block, post } = query;
    let mut hyps = hyps.into_items();
    let _guard = hyps.pop();
    Query {
        hyps: Seq::of(hyps),
        block,
        post,
    }
}

/// Whether the block is found to keep the candidate under it alone, whatever its guard is. This is
/// a small query of few cubes, and most are refuted: a block leaves most fields as they are.
fn stands_alone(
    alloc: Global,
    monitor: &Monitor,
    candidate: Candidate,
    block: u32,
) -> Result<bool, AllocError>
    requires candidate { IsAskable candidate }
    requires block { block < length monitor.now.blocks }
{
    let alone = Vec::from_array(alloc, [candidate])?;
    let query = without_guard(keeps(alloc, monitor, &alone, candidate, block)?);
    match certificate_of(alloc, monitor, &query)? {
        None => Ok(false),
        Some(_) => Ok(true),
    }
}

/// Whether the block keeps the candidate under the others, as far as is found. It is asked, unless
/// what an earlier certificate used is left, or it stands alone.
fn stands_at(
    alloc: Global,
    monitor: &Monitor,
    kept: &[Candidate],
    dropped: &[Candidate],
    candidate: Candidate,
    block: u32,
    grounds: &mut Vec<Ground>,
) -> Result<bool, AllocError>
    requires kept { AreAskable kept.now }
    requires candidate { IsAskable candidate }
    requires block { block < length monitor.now.blocks }
    ensures { IfOk result (StandsAt monitor.now kept.now candidate block) }
{
    if has_ground(grounds, block, dropped) {
        return Ok(true);
    }
    if stands_alone(alloc, monitor, candidate, block)? {
        note_alone(alloc, grounds, block)?;
        return Ok(true);
    }
    match proof_of(alloc, monitor, kept, candidate, block)? {
        None => Ok(false),
        Some(proof) => {
            note_ground(alloc, grounds, block, &proof.cert, kept, dropped)?;
            Ok(true)
        }
    }
}

/// Whether each block keeps the candidate under the others, as far as is found.
fn stands(
    alloc: Global,
    monitor: &Monitor,
    kept: &[Candidate],
    dropped: &[Candidate],
    candidate: Candidate,
    grounds: &mut Vec<Ground>,
) -> Result<bool, AllocError>
    requires kept { AreAskable kept.now }
    requires candidate { IsAskable candidate }
    ensures { IfOk result (Stands monitor.now kept.now candidate) }
{
    for block in 0..monitor.blocks().len() {
        if !stands_at(
            alloc,
            monitor,
            kept,
            dropped,
            candidate,
            block as u32,
            grounds,
        )? {
            return Ok(false);
        }
    }
    Ok(true)
}

/// Drops candidates that do not stand, each at once, so that those after it are asked under those
/// that are left.
fn sweep(alloc: Global, monitor: &Monitor, sieve: Sieve) -> Result<Sieve, AllocError>
    requires askable { AreAskable (candidates_of monitor.now) }
    requires sieve { IsSieve monitor.now sieve.kept.items sieve.grounds.items }
    ensures sieve { IfOk result (λ left. IsSieve monitor.now left.kept.items left.grounds.items) }
    ensures fewer { IfOk result (λ left. length left.kept.items ≤ length sieve.kept.items) }
{
    let Sieve {
        kept,
        grounds,
        dropped,
    } = sieve;
    let mut kept = kept;
    let mut grounds = grounds;
    let mut dropped = dropped;
    let mut at = 0;
    while at < kept.len() {
        let candidate = kept[at];
        if stands(alloc, monitor, &kept, &dropped, candidate, &mut grounds[at])? {
            at += 1;
        } else {
            kept.remove(at);
            grounds.remove(at);
            dropped.push(candidate)?;
        }
    }
    Ok(Sieve {
        kept,
        grounds,
        dropped,
    })
}

/// No grounds for each of so many candidates.
fn no_grounds(alloc: Global, count: usize) -> Result<Vec<Vec<Ground>>, AllocError>
    ensures { IfOk result (λ grounds. length grounds.items ≡ count) }
{
    let mut grounds = Vec::new(alloc);
    for _ in 0..count {
        grounds.push(Vec::new(alloc))?;
    }
    Ok(grounds)
}

/// What is left of the candidates where no claim is found to fail any more.
pub(crate) fn sifted(
    alloc: Global,
    monitor: &Monitor,
    first: Vec<Candidate>,
) -> Result<Vec<Candidate>, AllocError>
    requires askable { AreAskable (candidates_of monitor.now) }
    requires first { IsLeft monitor.now first.items }
    ensures { IfOk result (λ left. IsLeft monitor.now left.items) }
{
    let grounds = no_grounds(alloc, first.len())?;
    let mut sieve = Sieve {
        kept: first,
        grounds,
        dropped: Vec::new(alloc),
    };
    loop {
        let before = sieve.kept.len();
        sieve = sweep(alloc, monitor, sieve)?;
        if sieve.kept.len() == before {
            return Ok(sieve.kept);
        }
    }
}
