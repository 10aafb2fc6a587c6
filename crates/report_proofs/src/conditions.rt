//! The lines of conditions, read.

ghost use Rattle.std.specs.Prelude.{◌≡◌, ◌≤◌, ◌++◌, IfOk, List, MatchOption, codes, length};
ghost use Rattle.lang_base.specs.Limits.{CONDITIONS};
ghost use Rattle.machine_events.specs.declared.plan.CondKind.{CondKind};
ghost use Rattle.machine_events.specs.PlanText.{condition_text, conditions_text, kind_text};
ghost use Rattle.report_proofs.specs.Fronts.{Anything, AreFor, IsAfter, IsFront, IsNoFront};
ghost use Rattle.report_proofs.specs.inner.Reading.{line_of_kind};

use super::after::after;
use itoa::Buffer;
use lang_monitor::Condition;
use machine_events::CondKind;
use std::alloc::{AllocError, Global};

/// The kinds of the conditions whose lines stand at the front of the bytes, and what is left.
pub(crate) fn read_kinds<'a>(
    alloc: Global,
    conditions: &[Condition],
    bytes: &'a [u8],
) -> Result<Option<(Vec<CondKind>, &'a [u8])>, AllocError>
    requires { length conditions.now ≤ CONDITIONS }
    ensures { IfOk result (λ found. MatchOption found
        (IsNoFront (List CondKind) (AreFor conditions.now Anything) Anything
        (conditions_text conditions.now) bytes.now)
        (λ read. IsFront (List CondKind) (AreFor conditions.now Anything) Anything
        (conditions_text conditions.now) bytes.now read.0.items read.1.now)) }
{
    let mut kinds = Vec::new(alloc);
    let mut rest = bytes;
    for index in 0..conditions.len() {
        match read_condition(index as u32 + 1, &conditions[index], rest) {
            Some((kind, left)) => {
                kinds.push(kind)?;
                rest = left;
            }
            None => return Ok(None),
        }
    }
    Ok(Some((kinds, rest)))
}

/// The kind of the condition whose line stands at the front of the bytes, and what is left.
fn read_condition<'a>(
    number: u32,
    condition: &Condition,
    bytes: &'a [u8],
) -> Option<(CondKind, &'a [u8])>
    ensures { MatchOption result
        (IsNoFront CondKind Anything Anything (condition_text number condition.now) bytes.now)
        (λ read. IsFront CondKind Anything Anything (condition_text number condition.now) bytes.now
        read.0 read.1.now) }
{
    read_kind(number, condition.shown.items(), bytes)
}

/// The kind in a condition's line, which shows its guard so, and what is left.
fn read_kind<'a>(number: u32, shown: &[u8], bytes: &'a [u8]) -> Option<(CondKind, &'a [u8])>
    ensures { MatchOption result
        (IsNoFront CondKind Anything Anything (line_of_kind number shown.now) bytes.now)
        (λ read. IsFront CondKind Anything Anything (line_of_kind number shown.now) bytes.now
        read.0 read.1.now) }
{
    match after_condition(number, CondKind::Signal, shown, bytes) {
        Some(rest) => Some((CondKind::Signal, rest)),
        None => match after_condition(number, CondKind::Broadcast, shown, bytes) {
            Some(rest) => Some((CondKind::Broadcast, rest)),
            None => None,
        },
    }
}

/// What is left after `condition 1 signal: x < 4` and a line feed.
fn after_condition<'a>(
    number: u32,
    kind: CondKind,
    shown: &[u8],
    bytes: &'a [u8],
) -> Option<&'a [u8]>
    ensures { IsAfter bytes.now (line_of_kind number shown.now kind) result }
{
    let mut digits = Buffer::new();
    let number = digits.format(number).as_bytes();
    after_parts(number, kind_bytes(kind), shown, bytes)
}

fn after_parts<'a, 'b>(
    number: &'b [u8],
    kind: &'b [u8],
    shown: &'b [u8],
    bytes: &'a [u8],
) -> Option<&'a [u8]>
    ensures { IsAfter bytes.now (codes "condition " ++ number.now ++ codes " " ++ kind.now
        ++ codes ": " ++ shown.now ++ codes "\n") result }
{
    after(
        bytes,
        &[b"condition ", number, b" ", kind, b": ", shown, b"\n"],
    )
}

pub(crate) fn kind_bytes(kind: CondKind) -> &'static [u8]
    ensures { result.now ≡ kind_text kind }
{
    match kind {
        CondKind::Signal => b"signal",
        CondKind::Broadcast => b"broadcast",
    }
}
