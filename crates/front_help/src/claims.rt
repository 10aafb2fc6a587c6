//! Where the lines of claims of a report stop being those of its plan.

ghost use Rattle.report_verdict.specs.Reports.{IsPlanOf};

use crate::certificates::certificate_slip;
use crate::lines::{from, is_ended, line_from, next_line, same_front, same_until};
use crate::slip::{Slip, expecting, saying};
use base_io::{GrowingSink, write_piece};
use lang_monitor::{Claim, Monitor};
use machine_events::Plan;
use report_proofs::{plan_front, write_claim};
use report_verdict::claims_of;
use std::alloc::{AllocError, Global};

/// What is wrong of the lines of claims, which begin here, and of what follows them.
pub(crate) fn claims_slip(
    alloc: Global,
    monitor: &Monitor,
    bytes: &[u8],
    start: usize,
) -> Result<Option<Slip>, AllocError> {
    match plan_front(alloc, monitor, bytes)? {
        Some((plan, rest)) => {
            let at = bytes.len().saturating_sub(rest.len()).max(start);
            slip_under(alloc, monitor, plan, bytes, at)
        }
        None => Ok(None),
    }
}

/// What is wrong of the lines of the claims of this plan.
fn slip_under(
    alloc: Global,
    monitor: &Monitor,
    plan: Plan,
    bytes: &[u8],
    start: usize,
) -> Result<Option<Slip>, AllocError>
    requires { IsPlanOf monitor.now plan }
{
    let claims = claims_of(alloc, monitor, &plan)?;
    let counted = has_questions(bytes, start);
    let (slip, at) = lines_slip(alloc, monitor, &claims, counted, bytes, start)?;
    if slip.is_some() {
        return Ok(slip);
    }
    if counted {
        return questions_slip(alloc, bytes, at);
    }
    if at < bytes.len() {
        return Ok(Some(saying(alloc, at, b"the report is to end here")));
    }
    Ok(None)
}

/// What is wrong of the lines of these claims, and where what follows them begins. A report of a
/// counted plan may leave out that one waiter is enough.
fn lines_slip(
    alloc: Global,
    monitor: &Monitor,
    claims: &[Claim],
    counted: bool,
    bytes: &[u8],
    start: usize,
) -> Result<(Option<Slip>, usize), AllocError> {
    let mut at = start;
    for claim in claims {
        let head = head_of(alloc, monitor, *claim)?;
        let line = line_from(bytes, at);
        if line.starts_with(head.as_slice()) {
            let slip = proof_slip(alloc, bytes, at, head.len());
            if slip.is_some() {
                return Ok((slip, at));
            }
            at = next_line(bytes, at);
        } else if !(counted && is_one(*claim)) {
            let slip = head_slip(alloc, at, line, head.as_slice())?;
            return Ok((Some(slip), at));
        }
    }
    Ok((None, at))
}

/// Whether the claim is that one waiter is enough.
fn is_one(claim: Claim) -> bool {
    matches!(claim, Claim::One { .. })
}

/// `proof none put 2: `
fn head_of(alloc: Global, monitor: &Monitor, claim: Claim) -> Result<Vec<u8>, AllocError> {
    let mut text = GrowingSink::new(alloc);
    if write_piece(b"proof ", &mut text).is_err()
        || write_claim(monitor, claim, &mut text).is_err()
        || write_piece(b": ", &mut text).is_err()
    {
        return Err(AllocError);
    }
    Ok(text.into_bytes())
}

/// Where a line stops being one with this head.
fn head_slip(alloc: Global, start: usize, line: &[u8], head: &[u8]) -> Result<Slip, AllocError> {
    let same = same_front(line, head);
    expecting(alloc, start.saturating_add(same), from(head, same))
}

/// What is wrong of a line behind its head, which is so long.
fn proof_slip(alloc: Global, bytes: &[u8], start: usize, head: usize) -> Option<Slip> {
    let line = line_from(bytes, start);
    if let Some((at, said)) = certificate_slip(from(line, head)) {
        let place = start.saturating_add(head).saturating_add(at);
        return Some(saying(alloc, place, said));
    }
    if !is_ended(bytes, start) {
        return Some(saying(alloc, bytes.len(), b"a line feed is missing at the end"));
    }
    None
}

/// Whether the line is of a question, as in a report of a counted plan.
fn is_question(line: &[u8]) -> bool {
    line.starts_with(b"proof counts ")
        || line.starts_with(b"proof gives ")
        || line.starts_with(b"proof first ")
}

/// Whether some line from here on is of a question.
fn has_questions(bytes: &[u8], start: usize) -> bool {
    let mut at = start;
    for _line in 0..bytes.len() {
        if at >= bytes.len() {
            return false;
        }
        if is_question(line_from(bytes, at)) {
            return true;
        }
        at = next_line(bytes, at);
    }
    false
}

/// What is wrong of the lines of questions.
fn questions_slip(alloc: Global, bytes: &[u8], start: usize) -> Result<Option<Slip>, AllocError> {
    let mut at = start;
    for _line in 0..bytes.len() {
        if at >= bytes.len() {
            return Ok(None);
        }
        let line = line_from(bytes, at);
        if !is_question(line) {
            return Ok(Some(saying(alloc, at, b"expected a question, as `proof counts 2 put: `")));
        }
        let head = same_until(line, b": ").saturating_add(2);
        let slip = proof_slip(alloc, bytes, at, head);
        if slip.is_some() {
            return Ok(slip);
        }
        at = next_line(bytes, at);
    }
    Ok(None)
}
