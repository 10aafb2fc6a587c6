//! The text of a plan, read.

ghost use Rattle.std.specs.Prelude.{◌≡◌, [], IfOk, MatchOption};
ghost use Rattle.machine_events.specs.declared.plan.Plan.{Plan};
ghost use Rattle.machine_events.specs.PlanText.{plan_text};
ghost use Rattle.report_proofs.specs.Readings.{IsPlanRead};
ghost use Rattle.report_verdict.specs.Reports.{IsPlanOf};
ghost use Rattle.report_proofs.specs.Fronts.{IsAfterKept, IsFront, IsNoFront};
ghost use Rattle.report_proofs.specs.inner.Reading.{parts_text};

use super::after::after;
use super::conditions::read_kinds;
use super::kept::read_kept;
use super::notes::read_lists;
use base_list::Seq;
use lang_monitor::Monitor;
use machine_events::Plan;
use std::alloc::{AllocError, Global};

/// The plan whose text the bytes are, or none where they are no plan's text. It fails only for want
/// of memory.
pub fn read_plan(alloc: Global, monitor: &Monitor, bytes: &[u8]) -> Result<Option<Plan>, AllocError>
    ensures { IfOk result (IsPlanRead monitor.now bytes.now) }
{
    match plan_front(alloc, monitor, bytes)? {
        Some((plan, rest)) => Ok(whole(plan, rest)),
        None => Ok(None),
    }
}

/// The plan, where nothing is left after it.
fn whole(plan: Plan, rest: &[u8]) -> Option<Plan>
    ensures { MatchOption result
        (rest.now ≡ [] → ⊥)
        (λ read. (read ≡ plan) × (rest.now ≡ [])) }
{
    if rest.is_empty() { Some(plan) } else { None }
}

/// The plan whose text stands at the front of the bytes, where no line of a kept candidate follows,
/// and what is left. It fails only for want of memory.
pub fn plan_front<'a>(
    alloc: Global,
    monitor: &Monitor,
    bytes: &'a [u8],
) -> Result<Option<(Plan, &'a [u8])>, AllocError>
    ensures { IfOk result (λ found. MatchOption found
        (IsNoFront Plan (IsPlanOf monitor.now) IsAfterKept (plan_text monitor.now) bytes.now)
        (λ read. IsFront Plan (IsPlanOf monitor.now) IsAfterKept (plan_text monitor.now) bytes.now
        read.0 read.1.now)) }
{
    match after(bytes, &[b"plan ", monitor.name().bytes(), b"\n"]) {
        Some(rest) => parts_front(alloc, monitor, rest),
        None => Ok(None),
    }
}

/// The plan whose lines, but for the first one, stand at the front of the bytes, and what is left.
fn parts_front<'a>(
    alloc: Global,
    monitor: &Monitor,
    bytes: &'a [u8],
) -> Result<Option<(Plan, &'a [u8])>, AllocError>
    ensures { IfOk result (λ found. MatchOption found
        (IsNoFront Plan (IsPlanOf monitor.now) IsAfterKept (parts_text monitor.now) bytes.now)
        (λ read. IsFront Plan (IsPlanOf monitor.now) IsAfterKept (parts_text monitor.now) bytes.now
        read.0 read.1.now)) }
{
    let _blocks = monitor.blocks();
    let (kept, bytes) = read_kept(alloc, monitor, bytes)?;
    let Some((kinds, bytes)) = read_kinds(alloc, monitor.conditions(), bytes)? else {
        return Ok(None);
    };
    let Some((notes, bytes)) = read_lists(alloc, monitor, bytes)? else {
        return Ok(None);
    };
    let plan = Plan {
        kept: Seq::of(kept),
        kinds: Seq::of(kinds),
        notes: Seq::of(notes),
    };
    Ok(Some((plan, bytes)))
}
