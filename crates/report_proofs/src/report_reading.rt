//! The text of a report, read.

ghost use Rattle.std.specs.Prelude.{◌≡◌, ◌++◌, [], ℕ, IfOk, List, MatchOption, codes};
ghost use Rattle.logic_cert.specs.declared.cert.Cert.{Cert};
ghost use Rattle.logic_cert.specs.CertText.{cert_text};
ghost use Rattle.plan_claims.specs.Backing.{backed_claims};
ghost use Rattle.report_proofs.specs.Readings.{IsReadable, IsReportRead};
ghost use Rattle.report_proofs.specs.ReportTexts.{claim_text, proof_text, proofs_text};
ghost use Rattle.report_verdict.specs.Reports.{IsPlanOf};
ghost use Rattle.report_proofs.specs.Fronts.{Anything, AreFor, IsAfter, IsFront, IsNoFront};
ghost use Rattle.report_proofs.specs.inner.Reading.{IsWithProofs};

use super::after::after_piece;
use super::head::claim_head;
use super::plan_reading::plan_front;
use base_list::Seq;
use lang_monitor::{Claim, Monitor};
use logic_outline::{Outline, read_outline};
use machine_events::Plan;
use report_verdict::{Report, claims_of};
use std::alloc::{AllocError, Global};

/// The report whose text the bytes are, or none where they are no report's text. It fails only for
/// want of memory, however deep certificates nest.
pub fn read_report(
    alloc: Global,
    monitor: &Monitor,
    bytes: &[u8],
) -> Result<Option<Report>, AllocError>
    ensures { IfOk result (IsReportRead monitor.now bytes.now) }
{
    match plan_front(alloc, monitor, bytes)? {
        Some((plan, rest)) => with_proofs(alloc, monitor, plan, rest),
        None => Ok(None),
    }
}

/// The report of a plan, where the bytes are the lines of its proofs.
fn with_proofs(
    alloc: Global,
    monitor: &Monitor,
    plan: Plan,
    bytes: &[u8],
) -> Result<Option<Report>, AllocError>
    requires { IsPlanOf monitor.now plan }
    ensures { IfOk result (IsWithProofs monitor.now plan bytes.now) }
{
    let claims = claims_of(alloc, monitor, &plan)?;
    match read_proofs(alloc, monitor, &claims, bytes)? {
        Some((proofs, rest)) => Ok(whole_report(plan, proofs, rest)),
        None => Ok(None),
    }
}

/// The report, where nothing is left after it.
fn whole_report(plan: Plan, proofs: Vec<Outline>, rest: &[u8]) -> Option<Report>
    ensures { MatchOption result (rest.now ≡ [] → ⊥)
        (λ report. (report.plan ≡ plan) × (report.proofs ≡ proofs.items) × (rest.now ≡ [])) }
{
    if rest.is_empty() {
        Some(Report {
            plan,
            proofs: Seq::of(proofs),
        })
    } else {
        None
    }
}

/// The certificates of the claims whose lines stand at the front of the bytes, and what is left. It
/// fails only for want of memory.
pub fn read_proofs<'a>(
    alloc: Global,
    monitor: &Monitor,
    claims: &[Claim],
    bytes: &'a [u8],
) -> Result<Option<(Vec<Outline>, &'a [u8])>, AllocError>
    ensures { IfOk result (λ found. MatchOption found
        (IsNoFront (List Cert) (AreFor claims.now IsReadable) Anything
        (proofs_text monitor.now claims.now) bytes.now)
        (λ read. IsFront (List Cert) (AreFor claims.now IsReadable) Anything
        (proofs_text monitor.now claims.now) bytes.now read.0.items read.1.now)) }
{
    let mut proofs = Vec::new(alloc);
    let mut rest = bytes;
    for index in 0..claims.len() {
        match read_proof(alloc, monitor, claims[index], rest)? {
            Some((cert, left)) => {
                proofs.push(cert)?;
                rest = left;
            }
            None => return Ok(None),
        }
    }
    Ok(Some((proofs, rest)))
}

/// The certificate of the claim whose line stands at the front of the bytes, and what is left. It
/// fails only for want of memory.
pub fn read_proof<'a>(
    alloc: Global,
    monitor: &Monitor,
    claim: Claim,
    bytes: &'a [u8],
) -> Result<Option<(Outline, &'a [u8])>, AllocError>
    ensures { IfOk result (λ found. MatchOption found
        (IsNoFront Cert IsReadable Anything (proof_text monitor.now claim) bytes.now)
        (λ read. IsFront Cert IsReadable Anything (proof_text monitor.now claim)
        bytes.now read.0 read.1.now)) }
{
    match after_claim(alloc, monitor, claim, bytes)? {
        Some(rest) => read_cert_line(alloc, rest),
        None => Ok(None),
    }
}

/// What is left after `proof none put 2: `.
fn after_claim<'a>(
    alloc: Global,
    monitor: &Monitor,
    claim: Claim,
    bytes: &'a [u8],
) -> Result<Option<&'a [u8]>, AllocError>
    ensures { IfOk result (IsAfter bytes.now
        (codes "proof " ++ claim_text monitor.now claim ++ codes ": ")) }
{
    let head = claim_head(alloc, monitor, claim)?;
    Ok(after_piece(bytes, head.as_slice()))
}

/// The certificate that stands at the front of the bytes, and what is left after it and a line
/// feed. It fails only for want of memory.
pub fn read_cert_line<'a>(
    alloc: Global,
    bytes: &'a [u8],
) -> Result<Option<(Outline, &'a [u8])>, AllocError>
    ensures { IfOk result (λ found. MatchOption found
        (IsNoFront Cert IsReadable Anything (λ cert. cert_text cert ++ codes "\n")
        bytes.now)
        (λ read. IsFront Cert IsReadable Anything
        (λ cert. cert_text cert ++ codes "\n") bytes.now read.0 read.1.now)) }
{
    match read_outline(alloc, bytes)? {
        Some((cert, rest)) => Ok(ended(cert, rest)),
        None => Ok(None),
    }
}

/// The certificate, where a line feed stands after it, and what is left.
fn ended<'a>(cert: Outline, bytes: &'a [u8]) -> Option<(Outline, &'a [u8])>
    ensures { MatchOption result ((rest : List ℕ) → codes "\n" ++ rest ≡ bytes.now → ⊥)
        (λ read. (read.0 ≡ cert) × (codes "\n" ++ read.1.now ≡ bytes.now)) }
{
    match after_piece(bytes, b"\n") {
        Some(rest) => Some((cert, rest)),
        None => None,
    }
}
