//! The lines of kept candidates, read.

ghost use Rattle.std.specs.Prelude.{◌++◌, IfOk, List, codes};
ghost use Rattle.std.specs.List.{flat_map};
ghost use Rattle.lang_monitor.specs.declared.candidate.Candidate.{Candidate};
ghost use Rattle.lang_monitor.specs.Candidates.{AreSomeOf, candidates_of};
ghost use Rattle.machine_events.specs.PlanText.{kept_text};
ghost use Rattle.report_proofs.specs.Fronts.{IsAfter, IsAfterKept, IsFront};
ghost use Rattle.report_proofs.specs.inner.Reading.{IsTurn};

use super::after::after;
use super::writing::{field_bytes, flag_bytes};
use itoa::Buffer;
use lang_monitor::{Candidate, Field, Monitor};
use plan_candidates::candidates;
use std::alloc::{AllocError, Global};

/// The candidates whose lines stand at the front of the bytes, in the order of the monitor's, and
/// what is left.
pub(crate) fn read_kept<'a>(
    alloc: Global,
    monitor: &Monitor,
    bytes: &'a [u8],
) -> Result<(Vec<Candidate>, &'a [u8]), AllocError>
    ensures { IfOk result (λ read. IsFront (List Candidate)
        (λ kept. AreSomeOf kept (candidates_of monitor.now)) IsAfterKept
        (λ kept. flat_map (kept_text monitor.now.fields) kept) bytes.now read.0.items read.1.now) }
{
    let _blocks = monitor.blocks();
    let all = candidates(alloc, monitor)?;
    let mut kept = Vec::new(alloc);
    let mut rest = bytes;
    for index in 0..all.len() {
        rest = take_kept(monitor, all[index], &mut kept, rest)?;
    }
    Ok((kept, rest))
}

/// Takes the candidate, where its line stands at the front of the bytes, and answers what is left.
fn take_kept<'a>(
    monitor: &Monitor,
    candidate: Candidate,
    kept: &mut Vec<Candidate>,
    bytes: &'a [u8],
) -> Result<&'a [u8], AllocError>
    ensures { IfOk result (λ rest. IsTurn (kept_text monitor.now.fields candidate) candidate
        bytes.now rest.now kept.old.items kept.new.items) }
{
    match after_kept(monitor.fields(), candidate, bytes) {
        Some(rest) => {
            kept.push(candidate)?;
            Ok(rest)
        }
        None => Ok(bytes),
    }
}

/// What is left after `keep x <= 4` and a line feed.
fn after_kept<'a>(fields: &[Field], candidate: Candidate, bytes: &'a [u8]) -> Option<&'a [u8]>
    ensures { IsAfter bytes.now (kept_text fields.now candidate) result }
{
    let mut digits = Buffer::new();
    match candidate {
        Candidate::AtMost { field, bound } => {
            let bound = digits.format(bound).as_bytes();
            after_keep(bytes, field_bytes(fields, field), b" <= ", bound)
        }
        Candidate::AtLeast { field, bound } => {
            let bound = digits.format(bound).as_bytes();
            after_keep(bytes, field_bytes(fields, field), b" >= ", bound)
        }
        Candidate::Flag { field, is } => {
            after_keep(bytes, flag_bytes(is), field_bytes(fields, field), b"")
        }
        Candidate::Below { left, right } => after_keep(
            bytes,
            field_bytes(fields, left),
            b" <= ",
            field_bytes(fields, right),
        ),
    }
}

/// What is left after `keep `, these three and a line feed.
fn after_keep<'a, 'b>(
    bytes: &'a [u8],
    left: &'b [u8],
    sign: &'b [u8],
    right: &'b [u8],
) -> Option<&'a [u8]>
    ensures { IsAfter bytes.now
        (codes "keep " ++ (left.now ++ sign.now ++ right.now) ++ codes "\n") result }
{
    after(bytes, &[b"keep ", left, sign, right, b"\n"])
}
