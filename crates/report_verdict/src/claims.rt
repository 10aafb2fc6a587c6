//! The claims that a plan rests on.

ghost use Rattle.std.specs.Prelude.{◌≡◌, ◌++◌, ◌∷◌, ◌≤◌, [], IfOk, OnOk, length, map};
ghost use Rattle.std.specs.Prelude.{if◌then◌else◌};
ghost use Rattle.std.specs.List.{enumerate_from, flat_map};
ghost use Rattle.lang_base.specs.Limits.{BLOCKS, CONDITIONS};
ghost use Rattle.machine_events.specs.Plans.{has_note};
ghost use Rattle.plan_candidates.specs.Claims.{keeps_claims};
ghost use Rattle.lang_monitor.specs.declared.claim.Claim.TheVariants.{Keeps};
ghost use Rattle.plan_claims.specs.Backing.{backed_claims, block_numbers, kind_claims};
ghost use Rattle.plan_claims.specs.Backing.{unnoted_claims, untested_claims};
ghost use Rattle.report_verdict.specs.Reports.{IsPlanOf};

use lang_monitor::{Candidate, Claim, Monitor};
use machine_events::{CondKind, Note, NoteList, Plan};
use plan_claims::{reads_none, waits_at};
use std::alloc::{AllocError, Global};

/// The claims that a plan rests on, in their order. It fails only for want of memory.
pub fn claims_of(alloc: Global, monitor: &Monitor, plan: &Plan) -> Result<Vec<Claim>, AllocError>
    requires { IsPlanOf monitor.now plan.now }
    ensures { IfOk result (λ claims. claims.items ≡ backed_claims monitor.now plan.now) }
{
    let _blocks = monitor.blocks();
    let mut claims = Vec::new(alloc);
    push_kept(&mut claims, monitor, plan.kept.items())?;
    push_unnoted(&mut claims, monitor, plan.notes.items())?;
    push_enough(&mut claims, monitor, plan.kinds.items())?;
    push_untested(&mut claims, monitor, plan.notes.items())?;
    Ok(claims)
}

fn push_if(claims: &mut Vec<Claim>, claim: Claim, test: bool) -> Result<(), AllocError>
    ensures { OnOk result
        (claims.new.items ≡ claims.old.items ++ (if test then claim ∷ [] else [])) }
{
    if test {
        claims.push(claim)?;
    }
    Ok(())
}

// ---- that blocks keep candidates

/// Appends that each block keeps each of the candidates.
fn push_kept(
    claims: &mut Vec<Claim>,
    monitor: &Monitor,
    kept: &[Candidate],
) -> Result<(), AllocError>
    ensures { OnOk result
        (claims.new.items ≡ claims.old.items ++ keeps_claims monitor.now kept.now) }
{
    for candidate in kept {
        push_keeps(claims, monitor, *candidate)?;
    }
    Ok(())
}

/// Appends that each block keeps the candidate.
fn push_keeps(
    claims: &mut Vec<Claim>,
    monitor: &Monitor,
    candidate: Candidate,
) -> Result<(), AllocError>
    ensures { OnOk result (claims.new.items
        ≡ claims.old.items ++ map (Keeps candidate) (block_numbers monitor.now)) }
{
    for index in 0..monitor.blocks().len() {
        let block = index as u32;
        claims.push(Claim::Keeps { candidate, block })?;
    }
    Ok(())
}

// ---- that no note is needed

/// Appends for each block that it needs no note on each condition on which it has none.
fn push_unnoted(
    claims: &mut Vec<Claim>,
    monitor: &Monitor,
    lists: &[NoteList],
) -> Result<(), AllocError>
    requires { length lists.now ≤ BLOCKS }
    ensures { OnOk result (claims.new.items ≡ claims.old.items
        ++ flat_map (λ one. unnoted_claims monitor.now one.0 one.1) (enumerate_from 0 lists.now)) }
{
    for index in 0..lists.len() {
        push_unnoted_of(claims, monitor, index as u32, lists[index].notes())?;
    }
    Ok(())
}

/// Appends that the block, which has these notes, needs none on each other condition.
fn push_unnoted_of(
    claims: &mut Vec<Claim>,
    monitor: &Monitor,
    block: u32,
    notes: &[Note],
) -> Result<(), AllocError>
    ensures { OnOk result (claims.new.items
        ≡ claims.old.items ++ unnoted_claims monitor.now block notes.now) }
{
    for index in 0..monitor.conditions().len() {
        let condition = index as u32 + 1;
        let claim = Claim::NoNote { block, condition };
        push_if(claims, claim, !has_note(notes, condition))?;
    }
    Ok(())
}

/// Whether some note is on the condition.
pub fn has_note(notes: &[Note], condition: u32) -> bool
    ensures { result ≡ has_note notes.now condition }
{
    notes.iter().any(|note| note.condition == condition)
}

// ---- that one waiter is enough

/// Appends for each condition of kind signal that after each block that waits at it one waiter is
/// enough.
fn push_enough(
    claims: &mut Vec<Claim>,
    monitor: &Monitor,
    kinds: &[CondKind],
) -> Result<(), AllocError>
    requires { length kinds.now ≤ CONDITIONS }
    ensures { OnOk result (claims.new.items ≡ claims.old.items
        ++ flat_map (λ one. kind_claims monitor.now one.0 one.1) (enumerate_from 1 kinds.now)) }
{
    for index in 0..kinds.len() {
        push_enough_of(claims, monitor, index as u32 + 1, kinds[index])?;
    }
    Ok(())
}

/// Appends that one waiter is enough at the condition, where it is of kind signal.
fn push_enough_of(
    claims: &mut Vec<Claim>,
    monitor: &Monitor,
    condition: u32,
    kind: CondKind,
) -> Result<(), AllocError>
    ensures { OnOk result (claims.new.items
        ≡ claims.old.items ++ kind_claims monitor.now condition kind) }
{
    match kind {
        CondKind::Signal => push_class(claims, monitor, condition),
        CondKind::Broadcast => Ok(()),
    }
}

/// Appends that one waiter is enough after each block that waits at the condition.
fn push_class(claims: &mut Vec<Claim>, monitor: &Monitor, condition: u32) -> Result<(), AllocError>
    ensures { OnOk result (claims.new.items
        ≡ claims.old.items ++ kind_claims monitor.now condition CondKind.Signal) }
{
    for index in 0..monitor.blocks().len() {
        let block = index as u32;
        let claim = Claim::One { condition, block };
        push_if(claims, claim, waits_at(monitor, condition, block))?;
    }
    Ok(())
}

// ---- that no test is needed

/// Appends for each block that each untested note on a condition that reads no inputs needs no
/// test.
fn push_untested(
    claims: &mut Vec<Claim>,
    monitor: &Monitor,
    lists: &[NoteList],
) -> Result<(), AllocError>
    requires { length lists.now ≤ BLOCKS }
    ensures { OnOk result (claims.new.items ≡ claims.old.items
        ++ flat_map (λ one. untested_claims monitor.now one.0 one.1) (enumerate_from 0 lists.now)) }
{
    for index in 0..lists.len() {
        push_untested_of(claims, monitor, index as u32, lists[index].notes())?;
    }
    Ok(())
}

/// Appends that each of the block's notes that is untested, on a condition that reads no inputs,
/// needs no test.
fn push_untested_of(
    claims: &mut Vec<Claim>,
    monitor: &Monitor,
    block: u32,
    notes: &[Note],
) -> Result<(), AllocError>
    ensures { OnOk result (claims.new.items
        ≡ claims.old.items ++ untested_claims monitor.now block notes.now) }
{
    for note in notes {
        let condition = note.condition;
        let claim = Claim::NoTest { block, condition };
        push_if(
            claims,
            claim,
            !note.tested && reads_none(monitor, condition),
        )?;
    }
    Ok(())
}
