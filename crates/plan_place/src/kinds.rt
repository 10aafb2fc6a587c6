//! The kinds of conditions.

ghost use Rattle.std.specs.Prelude.{◌≡◌, ◌<◌, ◌≤◌, IfOk, length, option_map};
ghost use Rattle.std.specs.List.{enumerate_from, flat_map};
ghost use Rattle.plan_claims.specs.Backing.{AreProofs, kind_claims};
ghost use Rattle.plan_place.specs.inner.Answers.{Adds, AreAskable, AreKinds, AreOfClass, IsKindOf};

use super::asking::proof_of;
use lang_monitor::{Candidate, Claim, Monitor};
use machine_events::CondKind;
use plan_claims::Proof;
use std::alloc::{AllocError, Global};

/// The kinds of conditions, and the proofs that they rest on.
#[derive(Debug, Drop)]
pub(crate) struct Kinds {
    pub(crate) kinds: Vec<CondKind>,
    pub(crate) proofs: Vec<Proof>,
}

/// Proofs that one waiter is enough after each block that waits at the condition, or none where one
/// isn't found.
fn proofs_of_class(
    alloc: Global,
    monitor: &Monitor,
    kept: &[Candidate],
    condition: u32,
) -> Result<Option<Vec<Proof>>, AllocError>
    requires kept { AreAskable kept.now }
    requires first { 1 ≤ condition }
    requires last { condition ≤ length monitor.now.conditions }
    ensures { IfOk result (λ found. AreOfClass monitor.now kept.now condition
        (option_map (λ proofs. proofs.items) found)) }
{
    let blocks = monitor.blocks();
    let mut proofs = Vec::new(alloc);
    for index in 0..blocks.len() {
        if blocks[index].condition == condition {
            let block = index as u32;
            let claim = Claim::One { condition, block };
            let Some(proof) = proof_of(alloc, monitor, kept, claim)? else {
                return Ok(None);
            };
            proofs.push(proof)?;
        }
    }
    Ok(Some(proofs))
}

/// The kind of a condition: signal where it reads no inputs and one waiter is enough after each
/// block that waits at it, and the proofs of this are added; else broadcast.
fn kind_of(
    alloc: Global,
    monitor: &Monitor,
    kept: &[Candidate],
    condition: u32,
    proofs: &mut Vec<Proof>,
) -> Result<CondKind, AllocError>
    requires kept { AreAskable kept.now }
    requires first { 1 ≤ condition }
    requires last { condition ≤ length monitor.now.conditions }
    ensures kind { IfOk result (IsKindOf monitor.now kept.now condition) }
    ensures proofs { IfOk result (λ kind. Adds monitor.now kept.now
        (kind_claims monitor.now condition kind) proofs.old.items proofs.new.items) }
{
    if monitor.conditions()[condition as usize - 1].reads_inputs {
        return Ok(CondKind::Broadcast);
    }
    match proofs_of_class(alloc, monitor, kept, condition)? {
        Some(found) => {
            let mut found = found;
            proofs.append(&mut found)?;
            Ok(CondKind::Signal)
        }
        None => Ok(CondKind::Broadcast),
    }
}

/// The kind of each condition.
pub(crate) fn kinds_of_all(
    alloc: Global,
    monitor: &Monitor,
    kept: &[Candidate],
) -> Result<Kinds, AllocError>
    requires { AreAskable kept.now }
    ensures many { IfOk result (λ made. length made.kinds.items ≡ length monitor.now.conditions) }
    ensures kinds { IfOk result (λ made. AreKinds monitor.now kept.now made.kinds.items) }
    ensures proofs { IfOk result (λ made. AreProofs monitor.now kept.now
        (flat_map (λ one. kind_claims monitor.now one.0 one.1) (enumerate_from 1 made.kinds.items))
        made.proofs.items) }
{
    let mut kinds = Vec::new(alloc);
    let mut proofs = Vec::new(alloc);
    for index in 0..monitor.conditions().len() {
        let condition = index as u32 + 1;
        kinds.push(kind_of(alloc, monitor, kept, condition, &mut proofs)?)?;
    }
    Ok(Kinds { kinds, proofs })
}
