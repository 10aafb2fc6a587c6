//! What differs from what is wanted of a call: over sound devices, and where they fail.

use crate::calls::{Call, Devices, File, Outcome, SOUND, Wanted, outcome_of};
use expresso::Status;
use std::alloc::{AllocError, Global};
use std::sync::Wait;
use std::thread::Threads;

/// What differs first from what is wanted of a call, if anything does. What it prints becomes a
/// file where the call says so.
///
/// Where the whole text is wanted, the call is made again with each write failing, with less room
/// than the text wants, and with each read failing.
pub(crate) fn difference(
    rt: &(impl Threads + Wait + Sync + AllocGlobal),
    call: &Call,
    files: &mut Vec<File>,
) -> Result<Option<String>, AllocError> {
    let outcome = outcome_of(rt, &call.words, files.as_slice(), SOUND)?;
    let mut found = unlike(rt.alloc(), call, &outcome)?;
    if let (Wanted::Whole(text), None) = (&call.wanted, &found) {
        found = fault_difference(rt, call, files.as_slice(), text.as_slice())?;
    }
    if let Some(name) = &call.into {
        let name = String::from_str(rt.alloc(), name.as_str())?;
        let bytes = outcome.text;
        files.insert(0, File { name, bytes })?;
    }
    Ok(found)
}

/// How an outcome differs from what is wanted.
fn unlike(alloc: Global, call: &Call, outcome: &Outcome) -> Result<Option<String>, AllocError> {
    if outcome.status != call.status {
        let (found, wanted) = (outcome.status, call.status);
        return Ok(Some(format!(in alloc; "status {found:?}, wanted {wanted:?}")?));
    }
    let text = outcome.text.as_slice();
    match &call.wanted {
        Wanted::Whole(wanted) => unlike_text(alloc, text, wanted.as_slice()),
        Wanted::Ends {
            first,
            between,
            last,
        } => unlike_ends(alloc, text, first.as_slice(), *between, last.as_slice()),
    }
}

/// The first line in which a text differs from the one that is wanted.
fn unlike_text(alloc: Global, text: &[u8], wanted: &[u8]) -> Result<Option<String>, AllocError> {
    if text == wanted {
        return Ok(None);
    }
    let mut number: u64 = 1;
    let mut lines = wanted.split(|byte| *byte == b'\n');
    for line in text.split(|byte| *byte == b'\n') {
        let other = lines.next().unwrap_or(b"");
        if line != other {
            let line = String::from_utf8_lossy(alloc, line)?;
            let other = String::from_utf8_lossy(alloc, other)?;
            return Ok(Some(format!(in alloc; "line {number} is \"{line}\", wanted \"{other}\"")?));
        }
        number = number.saturating_add(1);
    }
    Ok(Some(format!(in alloc; "the text ends in line {number}")?))
}

/// How a text differs from one that begins and ends so, with so many lines between.
fn unlike_ends(
    alloc: Global,
    text: &[u8],
    first: &[u8],
    between: Option<u64>,
    last: &[u8],
) -> Result<Option<String>, AllocError> {
    let Some(rest) = text.strip_prefix(first) else {
        return Ok(Some(String::from_str(alloc, "another beginning")?));
    };
    let Some(middle) = rest.strip_suffix(last) else {
        return Ok(Some(String::from_str(alloc, "another end")?));
    };
    let lines = middle.iter().filter(|byte| **byte == b'\n').count() as u64;
    if !middle.is_empty() && middle.last() != Some(&b'\n') {
        return Ok(Some(String::from_str(alloc, "another last line")?));
    }
    if let Some(wanted) = between
        && lines != wanted
    {
        return Ok(Some(format!(in alloc; "{lines} lines between, wanted {wanted}")?));
    }
    Ok(None)
}

/// What differs where devices fail.
fn fault_difference(
    rt: &(impl Threads + Wait + Sync + AllocGlobal),
    call: &Call,
    files: &[File],
    text: &[u8],
) -> Result<Option<String>, AllocError> {
    if let Some(found) = write_difference(rt, call, files, text)? {
        return Ok(Some(found));
    }
    if let Some(found) = room_difference(rt, call, files, text)? {
        return Ok(Some(found));
    }
    read_difference(rt, call, files, text)
}

/// Whether this is what is wanted of a call.
fn is_wanted(call: &Call, outcome: &Outcome, text: &[u8]) -> bool {
    outcome.status == call.status && outcome.text.as_slice() == text
}

/// Makes the call with its first write failing, then with its second, and so on to the first number
/// at which none fails. Each fault must leave some of the first bytes of the text, and not all.
fn write_difference(
    rt: &(impl Threads + Wait + Sync + AllocGlobal),
    call: &Call,
    files: &[File],
    text: &[u8],
) -> Result<Option<String>, AllocError> {
    for number in 1..=(text.len() as u64).saturating_add(1) {
        let devices = Devices {
            failing_write: Some(number),
            ..SOUND
        };
        let outcome = outcome_of(rt, &call.words, files, devices)?;
        if is_wanted(call, &outcome, text) {
            return Ok(None);
        }
        if !is_front(&outcome, text) {
            return Ok(Some(format!(in rt.alloc();
                "where write {number} fails: no front of the text"
            )?));
        }
    }
    Ok(Some(String::from_str(rt.alloc(), "more writes than bytes")?))
}

/// Whether a write fault left some of the first bytes of a text, and not all.
fn is_front(outcome: &Outcome, text: &[u8]) -> bool {
    let front = outcome.text.as_slice();
    outcome.status == Status::WriteFault && text.starts_with(front) && front.len() < text.len()
}

/// Makes the call with room for half of the text, and with room for all but its last byte.
fn room_difference(
    rt: &(impl Threads + Wait + Sync + AllocGlobal),
    call: &Call,
    files: &[File],
    text: &[u8],
) -> Result<Option<String>, AllocError> {
    for front in [text.len() / 2, text.len().saturating_sub(1)] {
        let devices = Devices {
            room: front as u64,
            ..SOUND
        };
        let outcome = outcome_of(rt, &call.words, files, devices)?;
        if !is_front(&outcome, text) || outcome.text.len() != front {
            return Ok(Some(format!(in rt.alloc(); "with room for {front} bytes: other bytes")?));
        }
    }
    Ok(None)
}

/// Makes the call with the read of each file failing that its words name, in their order, and then
/// with one more.
fn read_difference(
    rt: &(impl Threads + Wait + Sync + AllocGlobal),
    call: &Call,
    files: &[File],
    text: &[u8],
) -> Result<Option<String>, AllocError> {
    let mut number: u64 = 1;
    for word in &call.words {
        let read = reads(call) && is_held(files, word.as_str());
        if read && !names_fault(rt, call, files, number, word.as_str())? {
            return Ok(Some(format!(in rt.alloc();
                "where the read of {word} fails: no read fault"
            )?));
        }
        if read {
            number = number.saturating_add(1);
        }
    }
    let outcome = outcome_of(rt, &call.words, files, failing_read(number))?;
    if is_wanted(call, &outcome, text) {
        return Ok(None);
    }
    Ok(Some(format!(in rt.alloc(); "where read {number} fails: one read too many")?))
}

/// Whether a call reads the files that are there.
fn reads(call: &Call) -> bool {
    call.status != Status::Usage && call.status != Status::ReadFault
}

fn failing_read(number: u64) -> Devices {
    Devices {
        failing_read: Some(number),
        ..SOUND
    }
}

fn is_held(files: &[File], name: &str) -> bool {
    files.iter().any(|file| file.name.as_str() == name)
}

/// Whether a call is a read fault of this name where the read of this number fails.
fn names_fault(
    rt: &(impl Threads + Wait + Sync + AllocGlobal),
    call: &Call,
    files: &[File],
    number: u64,
    name: &str,
) -> Result<bool, AllocError> {
    let outcome = outcome_of(rt, &call.words, files, failing_read(number))?;
    let line = format!(in rt.alloc(); "read fault: {name}\n")?;
    Ok(outcome.status == Status::ReadFault && outcome.text.as_slice() == line.as_bytes())
}
