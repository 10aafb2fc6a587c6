//! Which conditions are counted, as the lines of a report show.

ghost use Rattle.std.specs.Prelude.{◌≡◌, ◌≤◌, ◌++◌, ◌∷◌, [], ℕ, List, IfOk, All, length};
ghost use Rattle.std.specs.List.{list_any};
ghost use Rattle.lang_base.specs.Limits.{CONDITIONS};
ghost use Rattle.lang_monitor.specs.declared.monitor.Condition.{Condition};
ghost use Rattle.logic_wp.specs.PlainClaims.{MayAsk};
ghost use Rattle.report_tally.specs.inner.Lines.{AreFound, IsLineTurn, is_left_out, is_one_at};
ghost use Rattle.report_tally.specs.inner.Lines.{first_row_if, is_signal, left_out};

use lang_monitor::{Claim, Monitor};
use machine_events::CondKind;
use report_proofs::read_proof;
use std::alloc::{AllocError, Global};

/// The claims whose lines stand at the front of the bytes, in this order, where those of some
/// conditions are left out that one waiter is enough.
pub(crate) fn found_claims(
    alloc: Global,
    monitor: &Monitor,
    claims: &[Claim],
    bytes: &[u8],
) -> Result<Vec<Claim>, AllocError>
    requires { All (MayAsk monitor.now) claims.now }
    ensures { IfOk result (λ found. AreFound monitor.now claims.now bytes.now found.items) }
{
    let _conditions = monitor.conditions();
    let mut found = Vec::new(alloc);
    let mut rest = bytes;
    for index in 0..claims.len() {
        rest = take_line(alloc, monitor, claims[index], &mut found, rest)?;
    }
    Ok(found)
}

/// Takes the claim, where its line stands at the front of the bytes, and answers what is left.
fn take_line<'a>(
    alloc: Global,
    monitor: &Monitor,
    claim: Claim,
    found: &mut Vec<Claim>,
    bytes: &'a [u8],
) -> Result<&'a [u8], AllocError>
    ensures { IfOk result (λ rest. IsLineTurn monitor.now claim bytes.now rest.now
        found.old.items found.new.items) }
{
    match read_proof(alloc, monitor, claim, bytes)? {
        Some((_cert, rest)) => {
            found.push(claim)?;
            Ok(rest)
        }
        None => Ok(bytes),
    }
}

/// Of each condition its first row, where it is of kind signal, and none of the claims is that one
/// waiter is enough at it.
pub(crate) fn left_out(
    alloc: Global,
    found: &[Claim],
    kinds: &[CondKind],
) -> Result<Vec<Option<u32>>, AllocError>
    requires { length kinds.now ≤ CONDITIONS }
    ensures { IfOk result (λ counted. counted.items ≡ left_out found.now kinds.now) }
{
    let mut counted = Vec::new(alloc);
    for index in 0..kinds.len() {
        counted.push(first_row_if(is_left_out(found, index as u32 + 1, kinds[index])))?;
    }
    Ok(counted)
}

fn first_row_if(counted: bool) -> Option<u32>
    ensures { result ≡ first_row_if counted }
{
    if counted { Some(1) } else { None }
}

fn is_left_out(found: &[Claim], number: u32, kind: CondKind) -> bool
    ensures { result ≡ is_left_out found.now number kind }
{
    let has_one = has_one(found, number);
    is_signal(kind) && !has_one
}

fn is_signal(kind: CondKind) -> bool
    ensures { result ≡ is_signal kind }
{
    match kind {
        CondKind::Signal => true,
        CondKind::Broadcast => false,
    }
}

/// Whether some claim is that one waiter is enough at the condition.
fn has_one(found: &[Claim], number: u32) -> bool
    ensures { result ≡ list_any (is_one_at number) found.now }
{
    found.iter().any(|claim| is_one_at(number, *claim))
}

fn is_one_at(number: u32, claim: Claim) -> bool
    ensures { result ≡ is_one_at number claim }
{
    match claim {
        Claim::Keeps { .. } => false,
        Claim::NoNote { .. } => false,
        Claim::One { condition, .. } => condition == number,
        Claim::NoTest { .. } => false,
    }
}
