//! Where a text stops being that of a plan or a report.

use crate::claims::claims_slip;
use crate::lines::{from, is_ended, line_from, next_line, same_front, same_until};
use crate::notes::notes_slip;
use crate::slip::{Slip, expecting, saying};
use base_io::{GrowingSink, write_piece};
use lang_monitor::Monitor;
use machine_events::Plan;
use plan_candidates::candidates;
use report_text::{write_candidate, write_plan};
use std::alloc::{AllocError, Global};

/// The lines of the plan that wakes everyone, all lines of facts that a plan may keep, in order,
/// and how many conditions there are.
#[derive(Debug, Drop)]
pub(crate) struct Model {
    plan: Vec<u8>,
    kept: Vec<u8>,
    conditions: usize,
}

/// Where a text stops being a plan's, or, where a report is asked for, a report's; nothing where
/// its lines look as they should.
pub(crate) fn slip_in(
    alloc: Global,
    monitor: &Monitor,
    bytes: &[u8],
    report: bool,
) -> Result<Option<Slip>, AllocError> {
    let model = model_of(alloc, monitor)?;
    let header = line_from(&model.plan, 0);
    if let Some(slip) = line_slip(alloc, bytes, 0, header)? {
        return Ok(Some(slip));
    }
    let first = next_line(&model.plan, 0);
    let (slip, at) = kept_slip(alloc, &model.kept, bytes, next_line(bytes, 0))?;
    if slip.is_some() {
        return Ok(slip);
    }
    let (slip, at) = parts_slip(alloc, &model, first, bytes, at)?;
    if slip.is_some() {
        return Ok(slip);
    }
    if report {
        return claims_slip(alloc, monitor, bytes, at);
    }
    Ok(last_slip(alloc, bytes, at))
}

/// The lines that plans of a monitor have.
fn model_of(alloc: Global, monitor: &Monitor) -> Result<Model, AllocError> {
    let plan = Plan::everyone(alloc, monitor)?;
    let mut text = GrowingSink::new(alloc);
    if write_plan(monitor, &plan, &mut text).is_err() {
        return Err(AllocError);
    }
    let kept = kept_of(alloc, monitor)?;
    Ok(Model {
        plan: text.into_bytes(),
        kept,
        conditions: monitor.conditions().len(),
    })
}

/// The lines of all facts that a plan may keep, in order.
fn kept_of(alloc: Global, monitor: &Monitor) -> Result<Vec<u8>, AllocError> {
    let mut text = GrowingSink::new(alloc);
    let all = candidates(alloc, monitor)?;
    for candidate in &all {
        if write_piece(b"keep ", &mut text).is_err()
            || write_candidate(monitor.fields(), *candidate, &mut text).is_err()
            || write_piece(b"\n", &mut text).is_err()
        {
            return Err(AllocError);
        }
    }
    Ok(text.into_bytes())
}

/// What is wrong of a line that is to be this one.
fn line_slip(
    alloc: Global,
    bytes: &[u8],
    start: usize,
    expected: &[u8],
) -> Result<Option<Slip>, AllocError> {
    let line = line_from(bytes, start);
    if line != expected {
        let same = same_front(line, expected);
        let at = start.saturating_add(same);
        if same >= expected.len() {
            return Ok(Some(saying(alloc, at, said_beyond(from(line, same)))));
        }
        return Ok(Some(expecting(alloc, at, from(expected, same))?));
    }
    if !is_ended(bytes, start) {
        return Ok(Some(saying(alloc, bytes.len(), b"a line feed is missing at the end")));
    }
    Ok(None)
}

/// What is said of bytes that stand behind a line.
fn said_beyond(rest: &[u8]) -> &'static [u8] {
    if rest.ends_with(b"\r") {
        b"a line ends in a line feed alone, with no carriage return"
    } else if rest.iter().all(|byte| *byte == b' ') {
        b"no blank stands at the end of a line"
    } else {
        b"the line is to end here"
    }
}

/// What is wrong of the lines of kept facts, and where what follows them begins.
fn kept_slip(
    alloc: Global,
    kept: &[u8],
    bytes: &[u8],
    start: usize,
) -> Result<(Option<Slip>, usize), AllocError> {
    let mut at = start;
    let mut next = 0;
    for _line in 0..bytes.len() {
        let line = line_from(bytes, at);
        if !line.starts_with(b"keep ") {
            return Ok((None, at));
        }
        match line_among(kept, next, line) {
            Some(found) => next = next_line(kept, found),
            None => return Ok((Some(kept_fault(alloc, kept, at, line)), at)),
        }
        at = next_line(bytes, at);
    }
    Ok((None, at))
}

/// What is said of a line of a kept fact that may not stand there.
fn kept_fault(alloc: Global, kept: &[u8], at: usize, line: &[u8]) -> Slip {
    if line_among(kept, 0, line).is_some() {
        saying(
            alloc,
            at,
            b"this `keep` stands too late, or twice: they have the order of `compile`",
        )
    } else {
        saying(
            alloc,
            at,
            b"no plan of this monitor keeps this, or not with these blanks",
        )
    }
}

/// Where a line stands among these, from a place on.
fn line_among(lines: &[u8], start: usize, line: &[u8]) -> Option<usize> {
    let mut at = start;
    for _line in 0..lines.len() {
        if at >= lines.len() {
            return None;
        }
        if line_from(lines, at) == line {
            return Some(at);
        }
        at = next_line(lines, at);
    }
    None
}

/// What is wrong of the lines of conditions and blocks, and where what follows them begins.
fn parts_slip(
    alloc: Global,
    model: &Model,
    first: usize,
    bytes: &[u8],
    start: usize,
) -> Result<(Option<Slip>, usize), AllocError> {
    let lines = model.plan.as_slice();
    let mut at = start;
    let mut shown = first;
    for _line in 0..lines.len() {
        if shown >= lines.len() {
            return Ok((None, at));
        }
        let slip = part_slip(alloc, line_from(lines, shown), model.conditions, bytes, at)?;
        if slip.is_some() {
            return Ok((slip, at));
        }
        shown = next_line(lines, shown);
        at = next_line(bytes, at);
    }
    Ok((None, at))
}

/// What is wrong of the line of a condition or a block, where the model has this one.
fn part_slip(
    alloc: Global,
    model: &[u8],
    conditions: usize,
    bytes: &[u8],
    start: usize,
) -> Result<Option<Slip>, AllocError> {
    if model.starts_with(b"condition ") {
        condition_slip(alloc, model, bytes, start)
    } else {
        block_slip(alloc, model, conditions, bytes, start)
    }
}

/// What is wrong of the line of a condition: of kind broadcast it is the model.
fn condition_slip(
    alloc: Global,
    model: &[u8],
    bytes: &[u8],
    start: usize,
) -> Result<Option<Slip>, AllocError> {
    let head = same_until(model, b" broadcast: ");
    let line = line_from(bytes, start);
    let number = model.get(..head).unwrap_or(model);
    let shown = from(model, head.saturating_add(b" broadcast".len()));
    let mut signal = Vec::from_slice(alloc, number)?;
    signal.extend_from_slice(b" signal")?;
    signal.extend_from_slice(shown)?;
    if line.starts_with(number) && from(line, head).starts_with(b" broadcast") {
        return line_slip(alloc, bytes, start, model);
    }
    line_slip(alloc, bytes, start, signal.as_slice())
}

/// What is wrong of the line of a block, whose name is that of the model.
fn block_slip(
    alloc: Global,
    model: &[u8],
    conditions: usize,
    bytes: &[u8],
    start: usize,
) -> Result<Option<Slip>, AllocError> {
    let length = same_until(model, b": ").saturating_add(2);
    let head = model.get(..length).unwrap_or(model);
    let line = line_from(bytes, start);
    if !line.starts_with(head) {
        let same = same_front(line, head);
        return Ok(Some(expecting(alloc, start.saturating_add(same), from(head, same))?));
    }
    if let Some((place, said)) = notes_slip(from(line, length), conditions) {
        let at = start.saturating_add(length).saturating_add(place);
        return Ok(Some(saying(alloc, at, said)));
    }
    line_slip(alloc, bytes, start, line)
}

/// What is wrong of what follows the lines of a plan.
fn last_slip(alloc: Global, bytes: &[u8], start: usize) -> Option<Slip> {
    if start < bytes.len() {
        Some(saying(alloc, start, said_after(from(bytes, start))))
    } else {
        None
    }
}

/// What is said of bytes that stand behind a plan.
fn said_after(rest: &[u8]) -> &'static [u8] {
    if rest.starts_with(b"proof ") {
        b"the plan is to end here: a report is for `recheck`"
    } else if rest.starts_with(b"why ") {
        b"the plan is to end here: take it from `compile`, not from `explain`"
    } else {
        b"the plan is to end here"
    }
}
