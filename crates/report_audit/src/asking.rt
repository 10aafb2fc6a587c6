//! The claims that are asked of a plan.

ghost use Rattle.std.specs.Prelude.{◌≡◌, ◌++◌, ◌∷◌, [], IfOk, OnOk, All, true, if◌then◌else◌};
ghost use Rattle.std.specs.List.{filter, list_all};
ghost use Rattle.machine_events.specs.Plans.{has_note, notes_at};
ghost use Rattle.logic_wp.specs.Expressible.{is_expressible};
ghost use Rattle.logic_wp.specs.PlainClaims.{MayAsk};
ghost use Rattle.report_verdict.specs.Reports.{IsPlanOf};
ghost use Rattle.report_audit.specs.CountedFindings.{is_common, is_passing};
ghost use Rattle.report_audit.specs.Findings.{asked_claims, is_asked};
ghost use Rattle.report_audit.specs.inner.Asked.{IsAnswer, IsFirstOpen};

use lang_monitor::{Candidate, Claim, Monitor};
use logic_wp::claim_query;
use machine_events::Plan;
use plan_prune::certificate_of;
use report_verdict::{claims_of, has_note};
use std::alloc::{AllocError, Global};

// ---- which claims are asked

/// The claims that are asked of the plan, in their order.
pub(crate) fn asked_claims(
    alloc: Global,
    monitor: &Monitor,
    plan: &Plan,
) -> Result<Vec<Claim>, AllocError>
    requires { IsPlanOf monitor.now plan.now }
    ensures { IfOk result (λ asked. asked.items ≡ asked_claims monitor.now plan.now) }
{
    let all = claims_of(alloc, monitor, plan)?;
    let asked = asked_of(alloc, plan, &all)?;
    Ok(asked)
}

/// Those of the claims that are asked.
fn asked_of(alloc: Global, plan: &Plan, claims: &[Claim]) -> Result<Vec<Claim>, AllocError>
    ensures { IfOk result (λ asked. asked.items ≡ filter (is_asked plan.now) claims.now) }
{
    let mut asked = Vec::new(alloc);
    for claim in claims {
        let test = is_asked(plan, *claim);
        push_if(&mut asked, *claim, test)?;
    }
    Ok(asked)
}

fn push_if(claims: &mut Vec<Claim>, claim: Claim, test: bool) -> Result<(), AllocError>
    ensures { OnOk result
        (claims.new.items ≡ claims.old.items ++ (if test then claim ∷ [] else [])) }
{
    if test {
        claims.push(claim)?;
    }
    Ok(())
}

fn is_asked(plan: &Plan, claim: Claim) -> bool
    ensures { result ≡ is_asked plan.now claim }
{
    match claim {
        Claim::Keeps { .. } => true,
        Claim::NoNote { .. } => true,
        Claim::One { condition, block } => !has_note_at(plan, block, condition),
        Claim::NoTest { .. } => false,
    }
}

/// Those of the claims that are asked of any plan.
pub(crate) fn common_of(alloc: Global, claims: &[Claim]) -> Result<Vec<Claim>, AllocError>
    ensures { IfOk result (λ some. some.items ≡ filter is_common claims.now) }
{
    let mut some = Vec::new(alloc);
    for claim in claims {
        let test = is_common(*claim);
        push_if(&mut some, *claim, test)?;
    }
    Ok(some)
}

fn is_common(claim: Claim) -> bool
    ensures { result ≡ is_common claim }
{
    match claim {
        Claim::Keeps { .. } => true,
        Claim::NoNote { .. } => true,
        Claim::One { .. } => false,
        Claim::NoTest { .. } => false,
    }
}

/// Those of the claims by which the condition is passed on.
pub(crate) fn passing_of(
    alloc: Global,
    plan: &Plan,
    condition: u32,
    claims: &[Claim],
) -> Result<Vec<Claim>, AllocError>
    ensures { IfOk result (λ some.
        some.items ≡ filter (is_passing plan.now condition) claims.now) }
{
    let mut some = Vec::new(alloc);
    for claim in claims {
        let test = is_passing(plan, condition, *claim);
        push_if(&mut some, *claim, test)?;
    }
    Ok(some)
}

fn is_passing(plan: &Plan, wanted: u32, claim: Claim) -> bool
    ensures { result ≡ is_passing plan.now wanted claim }
{
    match claim {
        Claim::Keeps { .. } => false,
        Claim::NoNote { .. } => false,
        Claim::One { condition, block } => {
            condition == wanted && !has_note_at(plan, block, wanted)
        }
        Claim::NoTest { .. } => false,
    }
}

/// Whether the block has a note on the condition.
pub(crate) fn has_note_at(plan: &Plan, block: u32, condition: u32) -> bool
    ensures { result ≡ has_note (notes_at plan.now block) condition }
{
    match plan.notes.items().get(block as usize) {
        Some(list) => has_note(list.notes(), condition),
        None => false,
    }
}

// ---- which has no certificate

/// The first of the claims for which no certificate is found, or none.
pub(crate) fn first_unproved(
    alloc: Global,
    monitor: &Monitor,
    kept: &[Candidate],
    claims: &[Claim],
) -> Result<Option<Claim>, AllocError>
    requires kept { list_all is_expressible kept.now ≡ true }
    requires claims { All (MayAsk monitor.now) claims.now }
    ensures { IfOk result (IsFirstOpen monitor.now kept.now claims.now) }
{
    for place in 0..claims.len() {
        let claim = claims[place];
        let proved = is_proved(alloc, monitor, kept, claim)?;
        if !proved {
            return Ok(Some(claim));
        }
    }
    Ok(None)
}

/// Whether a certificate of the claim is found.
fn is_proved(
    alloc: Global,
    monitor: &Monitor,
    kept: &[Candidate],
    claim: Claim,
) -> Result<bool, AllocError>
    requires kept { list_all is_expressible kept.now ≡ true }
    requires claim { MayAsk monitor.now claim }
    ensures { IfOk result (IsAnswer monitor.now kept.now claim) }
{
    let query = claim_query(alloc, monitor, kept, claim)?;
    match certificate_of(alloc, monitor, &query)? {
        Some(_) => Ok(true),
        None => Ok(false),
    }
}
