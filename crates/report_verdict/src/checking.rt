//! The check of a report.

ghost use Rattle.std.specs.Prelude.{◌≡◌, ◌+◌, ◌^◌, ◌<◌, IfOk, IfSome, All, true, length};
ghost use Rattle.std.specs.List.{list_all, zip};
ghost use Rattle.lang_monitor.specs.Candidates.{AreSomeOf, candidates_of};
ghost use Rattle.logic_wp.specs.Expressible.{is_expressible};
ghost use Rattle.logic_wp.specs.PlainClaims.{MayAsk};
ghost use Rattle.report_verdict.specs.Reports.{IsReport};
ghost use Rattle.report_verdict.specs.Verdicts.{IsFirstOpen, IsVerdict, plan_lines};
ghost use Rattle.report_verdict.specs.inner.Checks.{IsAnswer};

use super::claims::claims_of;
use super::report::{Report, Verdict};
use super::sight::is_lawful_at_sight;
use lang_monitor::{Candidate, Claim, Monitor};
use logic_cert::refuted_formula_is_false;
use logic_outline::{Outline, is_refuted};
use logic_wp::{claim_query, negated, refuted_query_is_valid};
use machine_events::Plan;
use plan_candidates::candidates_have_formulas;
use std::alloc::{AllocError, Global};

/// Checks a report, which has one certificate for each claim that its plan rests on, and asks no
/// prover.
///
/// It is accepted only where its plan is lawful and each certificate refutes the negated query of
/// its claim. It is unlawful exactly where a candidate that the plan keeps is false at the start,
/// or its kinds and notes don't suit the conditions. It is unproved at a line only where it isn't
/// unlawful, the certificates on the lines before are accepted, and the one on this line doesn't
/// refute the negated query of its claim, or this query isn't negated within the limits of
/// [`negated`]. It fails only for want of memory.
pub fn recheck(alloc: Global, monitor: &Monitor, report: &Report) -> Result<Verdict, AllocError>
    requires { IsReport monitor.now report.now }
    ensures { IfOk result (IsVerdict monitor.now report.now) }
{
    let _blocks = monitor.blocks();
    refuted_formula_is_false();
    refuted_query_is_valid();
    candidates_have_formulas(monitor);
    if !is_lawful_at_sight(monitor, &report.plan) {
        return Ok(Verdict::Unlawful);
    }
    let claims = claims_of(alloc, monitor, &report.plan)?;
    let kept = report.plan.kept.items();
    match first_open(alloc, monitor, kept, &claims, report.proofs.items())? {
        Some(place) => Ok(Verdict::Unproved {
            line: line_of(monitor, &report.plan, place),
        }),
        None => Ok(Verdict::Accepted {
            claims: report.proofs.items().len() as u64,
        }),
    }
}

/// The line of a report's text on which the claim of this place stands. Lines are counted from 1,
/// places from 0.
pub fn line_of(monitor: &Monitor, plan: &Plan, place: usize) -> u64
    requires kept { AreSomeOf plan.now.kept (candidates_of monitor.now) }
    requires near { place < 2 ^ 63 }
    ensures { result ≡ plan_lines monitor.now plan.now + (place + 1) }
{
    let kept = plan.kept.items().len() as u64;
    let conditions = monitor.conditions().len() as u64;
    let blocks = monitor.blocks().len() as u64;
    1 + kept + conditions + blocks + (place as u64 + 1)
}

/// The place of the first claim whose certificate doesn't refute its negated query, or whose query
/// isn't negated within the limits of [`negated`]; or none. It fails only for want of memory.
pub fn first_open(
    alloc: Global,
    monitor: &Monitor,
    kept: &[Candidate],
    claims: &[Claim],
    certs: &[Outline],
) -> Result<Option<usize>, AllocError>
    requires kept { list_all is_expressible kept.now ≡ true }
    requires claims { All (MayAsk monitor.now) claims.now }
    requires each { length certs.now ≡ length claims.now }
    ensures first { IfOk result (IsFirstOpen monitor.now kept.now (zip claims.now certs.now)) }
    ensures near { IfOk result (λ found. IfSome found (λ place. place < 2 ^ 63)) }
{
    for place in 0..claims.len() {
        let proved = is_proved(alloc, monitor, kept, claims[place], &certs[place])?;
        if !proved {
            return Ok(Some(place));
        }
    }
    Ok(None)
}

/// Whether the certificate refutes the negated query of the claim, which is negated within the
/// limits.
fn is_proved(
    alloc: Global,
    monitor: &Monitor,
    kept: &[Candidate],
    claim: Claim,
    cert: &Outline,
) -> Result<bool, AllocError>
    requires kept { list_all is_expressible kept.now ≡ true }
    requires claim { MayAsk monitor.now claim }
    ensures { IfOk result (IsAnswer monitor.now kept.now claim cert.now) }
{
    let query = claim_query(alloc, monitor, kept, claim)?;
    match negated(alloc, monitor, &query)? {
        Some(formula) => is_refuted(alloc, &formula, cert),
        None => Ok(false),
    }
}
