//! The audit of a plan.

ghost use Rattle.std.specs.Prelude.{◌≡◌, ◌↔◌, IfOk, All};
ghost use Rattle.plan_counted.specs.Exact.{HasNoOpenQuestion};
ghost use Rattle.machine_events.specs.Plans.{IsLawful};
ghost use Rattle.lang_monitor.specs.Triples.{HoldAtStart};
ghost use Rattle.plan_claims.specs.Backing.{HasCertificate, backed_claims};
ghost use Rattle.plan_prune.specs.Hardness.{HasNoHardClaim, HasNoOpenClaim};
ghost use Rattle.report_verdict.specs.Reports.{IsPlanOf};
ghost use Rattle.report_verdict.specs.Verdicts.{IsLawfulAtSight};
ghost use Rattle.report_audit.specs.declared.finding.Finding.TheVariants.{Lawful};
ghost use Rattle.report_audit.specs.CountedFindings.{IsCountedFinding, IsFindingBy};
ghost use Rattle.report_audit.specs.CountedFindings.{IsLawfulByRows, common_claims};
ghost use Rattle.report_audit.specs.Findings.{IsFinding};

use super::asking::{asked_claims, common_of, first_unproved};
use super::counting::first_uncounted;
use super::finding::Finding;
use super::laws::{counted_plans_are_found, lawful_plans_are_found};
use super::sight::{first_false, first_unsuited};
use lang_monitor::{Claim, Monitor};
use logic_cert::refuted_formula_is_false;
use logic_wp::refuted_query_is_valid;
use machine_events::{Plan, counting_applies};
use plan_candidates::candidates_have_formulas;
use plan_count::answers_count;
use report_verdict::claims_of;
use std::alloc::{AllocError, Global};

/// Says whether a plan of the monitor is lawful, or what it lacks. It fails only for want of
/// memory.
///
/// It is found lawful only where it is. What is found is the start exactly where a kept candidate
/// is false there, and then the first such one; a condition exactly where all kept ones are true at
/// the start and the kind of a condition or a note on it doesn't suit it, and then the first such
/// condition. A claim is found unproved only where neither is so. It is the first for which no
/// certificate is found: it doesn't hold, or its query may stay open under what the plan keeps. So
/// where none may, as where no claim of the monitor is hard, a plan is found lawful exactly where
/// it is.
///
/// A claim is asked for each kept candidate with each block, for each block with each condition on
/// which it has no note, and for each condition of kind signal with each block that waits at it and
/// has no note on it.
pub fn audit(alloc: Global, monitor: &Monitor, plan: &Plan) -> Result<Finding, AllocError>
    requires { IsPlanOf monitor.now plan.now }
    ensures finding { IfOk result (IsFinding monitor.now plan.now) }
    ensures exact { IfOk result (λ finding. HasNoHardClaim monitor.now
        → (finding ≡ Lawful) ↔ IsLawful monitor.now plan.now) }
    ensures none_open { IfOk result (λ finding. HasNoOpenClaim monitor.now plan.now.kept
        → (finding ≡ Lawful) ↔ IsLawful monitor.now plan.now) }
{
    let _blocks = monitor.blocks();
    lawful_plans_are_found();
    let finding = found(alloc, monitor, plan, false)?;
    Ok(finding)
}

/// Says whether a plan of the monitor is lawful by counting, or what it lacks. It fails only for
/// want of memory.
///
/// What is kept, kinds and notes are looked at as [`audit`] does, and a claim is asked for each
/// kept candidate with each block, and for each block with each condition on which it has no note.
/// Then comes each condition of kind signal in order. It is passed on where a certificate is found
/// of each block that waits at it and has no note on it that one waiter is enough. Else each row of
/// its guard is tried in order, [`ROWS_TRIED`] at most, and it is asked of each block in order
/// whether it leaves the condition counted by the row: of one with a broadcast on it nothing, of
/// one with a signal whether this is enough, of any other whether it needs none. Where by no row
/// all have certificates, the first question by the first row for which none is found is what is
/// found of the plan: what it asks is not so, or its query may stay open. Of a guard without a row
/// it is that of the first block that doesn't pass on.
///
/// It is found lawful only where it is lawful by counting; and where no query may stay open,
/// exactly where it is so by the rows that are tried (`specs/CountedFindings`). A lawful plan is
/// found lawful where no query of a claim may stay open.
///
/// [`ROWS_TRIED`]: plan_counted::ROWS_TRIED
pub fn audit_by_counting(
    alloc: Global,
    monitor: &Monitor,
    plan: &Plan,
) -> Result<Finding, AllocError>
    requires { IsPlanOf monitor.now plan.now }
    ensures finding { IfOk result (IsCountedFinding monitor.now plan.now) }
    ensures exact { IfOk result (λ finding. HasNoOpenClaim monitor.now plan.now.kept
        → HasNoOpenQuestion monitor.now plan.now.kept
        → (finding ≡ Lawful) ↔ IsLawfulByRows monitor.now plan.now) }
    ensures lawful { IfOk result (λ finding. HasNoOpenClaim monitor.now plan.now.kept
        → IsLawful monitor.now plan.now → finding ≡ Lawful) }
{
    let _blocks = monitor.blocks();
    counted_plans_are_found();
    let finding = found(alloc, monitor, plan, true)?;
    Ok(finding)
}

/// What is found of the plan, whose signals may be counted or not.
fn found(alloc: Global, monitor: &Monitor, plan: &Plan, count: bool) -> Result<Finding, AllocError>
    requires { IsPlanOf monitor.now plan.now }
    ensures { IfOk result (IsFindingBy count monitor.now plan.now) }
{
    let _blocks = monitor.blocks();
    match first_false(monitor, plan.kept.items()) {
        Some(kept) => Ok(Finding::Start { kept }),
        None => suited(alloc, monitor, plan, count),
    }
}

/// What is found of a plan whose kept candidates are true at the start.
fn suited(alloc: Global, monitor: &Monitor, plan: &Plan, count: bool) -> Result<Finding, AllocError>
    requires plan { IsPlanOf monitor.now plan.now }
    requires starts { HoldAtStart monitor.now plan.now.kept }
    ensures { IfOk result (IsFindingBy count monitor.now plan.now) }
{
    match first_unsuited(monitor, plan) {
        Some(condition) => Ok(Finding::Kind { condition }),
        None => asked_by(alloc, monitor, plan, count),
    }
}

/// What is found of a plan with which nothing is wrong at sight.
fn asked_by(
    alloc: Global,
    monitor: &Monitor,
    plan: &Plan,
    count: bool,
) -> Result<Finding, AllocError>
    requires plan { IsPlanOf monitor.now plan.now }
    requires sight { IsLawfulAtSight monitor.now plan.now }
    ensures { IfOk result (IsFindingBy count monitor.now plan.now) }
{
    if count {
        counted(alloc, monitor, plan)
    } else {
        asked(alloc, monitor, plan)
    }
}

/// What is found of such a plan whose signals aren't counted.
fn asked(alloc: Global, monitor: &Monitor, plan: &Plan) -> Result<Finding, AllocError>
    requires plan { IsPlanOf monitor.now plan.now }
    requires sight { IsLawfulAtSight monitor.now plan.now }
    ensures { IfOk result (IsFinding monitor.now plan.now) }
{
    let _blocks = monitor.blocks();
    refuted_formula_is_false();
    refuted_query_is_valid();
    candidates_have_formulas(monitor);
    let claims = asked_claims(alloc, monitor, plan)?;
    match first_unproved(alloc, monitor, plan.kept.items(), &claims)? {
        Some(claim) => Ok(Finding::Unproved { claim }),
        None => Ok(Finding::Lawful),
    }
}

/// What is found of such a plan whose signals may be counted.
fn counted(alloc: Global, monitor: &Monitor, plan: &Plan) -> Result<Finding, AllocError>
    requires plan { IsPlanOf monitor.now plan.now }
    requires sight { IsLawfulAtSight monitor.now plan.now }
    ensures { IfOk result (IsCountedFinding monitor.now plan.now) }
{
    candidates_have_formulas(monitor);
    let claims = claims_of(alloc, monitor, plan)?;
    let common = common_of(alloc, &claims)?;
    match first_unproved(alloc, monitor, plan.kept.items(), &common)? {
        Some(claim) => Ok(Finding::Unproved { claim }),
        None => signals(alloc, monitor, plan, &claims),
    }
}

/// What is found of such a plan that rests on these claims, where the common ones have
/// certificates.
fn signals(
    alloc: Global,
    monitor: &Monitor,
    plan: &Plan,
    claims: &[Claim],
) -> Result<Finding, AllocError>
    requires plan { IsPlanOf monitor.now plan.now }
    requires sight { IsLawfulAtSight monitor.now plan.now }
    requires claims { claims.now ≡ backed_claims monitor.now plan.now }
    requires common { All (HasCertificate monitor.now plan.now.kept)
        (common_claims monitor.now plan.now) }
    ensures { IfOk result (IsCountedFinding monitor.now plan.now) }
{
    let _blocks = monitor.blocks();
    refuted_formula_is_false();
    refuted_query_is_valid();
    answers_count();
    counting_applies();
    candidates_have_formulas(monitor);
    match first_uncounted(alloc, monitor, plan, claims)? {
        Some(question) => Ok(Finding::Uncounted { question }),
        None => Ok(Finding::Lawful),
    }
}
