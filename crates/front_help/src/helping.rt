//! What is written of words and files that are refused.

ghost use Rattle.std.specs.Prelude.{◌≤◌, IfSome, length};
ghost use Rattle.lang_base.specs.Limits.{FILE_BYTES};

use crate::finding::{monitor_in, scripts_in};
use crate::kept_files::KeptFiles;
use crate::names::{NameKind, Names};
use crate::plans::slip_in;
use crate::slip::Slip;
use base_io::{Sink, SinkFailed};
use front_hint::{Hint, write_caret, write_hint};
use front_source::{write_clients_hint, write_monitor_hint};
use lang_base::limits::FILE_BYTES;
use lang_base::{SourceError, SourceFault, is_in_line};
use lang_monitor::Monitor;
use std::alloc::{AllocError, Global};

/// The second file of a command.
#[derive(Clone, Copy, Debug)]
pub enum Other<'a> {
    None,
    Clients { name: &'a str },
    Plan { name: &'a str },
    Report { name: &'a str },
}

/// The files of a command.
#[derive(Clone, Copy, Debug)]
pub struct Named<'a> {
    pub monitor: &'a str,
    pub other: Other<'a>,
}

/// Writes what is wrong of the first of these files that is refused, as far as it was kept.
pub fn help_with_refusal<'a, F, H: Sink>(
    alloc: Global,
    named: Named<'a>,
    files: &KeptFiles<F>,
    hints: &mut H,
) {
    let written = write_refusal(alloc, named, files, hints);
    hand_on(written, hints);
}

/// Writes why the first of these files that wasn't read may be unreadable.
pub fn help_with_reading<'a, F, N: Names, H: Sink>(
    named: Named<'a>,
    files: &KeptFiles<F>,
    names: &N,
    hints: &mut H,
) {
    let name = unread_of(named, files);
    let written = write_kind(name, names.kind_of(name), hints);
    hand_on(written, hints);
}

/// Writes a hint and hands it on.
pub fn help<H: Sink>(hint: &Hint, hints: &mut H) {
    let written = write_hint(hint, hints);
    hand_on(written, hints);
}

/// Hands on what was written.
fn hand_on<H: Sink>(written: Result<(), SinkFailed>, hints: &mut H) {
    if written.is_ok() {
        let _handed_on = hints.flush().is_ok();
    }
}

/// The name of the first of these files that wasn't kept.
fn unread_of<'a, F>(named: Named<'a>, files: &KeptFiles<F>) -> &'a str {
    if files.bytes_of(named.monitor).is_none() {
        return named.monitor;
    }
    match named.other {
        Other::None => named.monitor,
        Other::Clients { name } => name,
        Other::Plan { name } => name,
        Other::Report { name } => name,
    }
}

/// Writes what a name stands for that is no file.
fn write_kind<H: Sink>(name: &str, kind: NameKind, hints: &mut H) -> Result<(), SinkFailed> {
    match kind {
        NameKind::Missing => write_hint(
            &Hint::quoting(b"", name.as_bytes(), b" isn't there"),
            hints,
        ),
        NameKind::Folder => write_hint(
            &Hint::quoting(b"", name.as_bytes(), b" is a folder, and no file"),
            hints,
        ),
        NameKind::Other => Ok(()),
    }
}

/// Writes what is wrong of the first of these files that is refused.
fn write_refusal<'a, F, H: Sink>(
    alloc: Global,
    named: Named<'a>,
    files: &KeptFiles<F>,
    hints: &mut H,
) -> Result<(), SinkFailed> {
    let Some(bytes) = short_bytes(named.monitor, files) else {
        return Ok(());
    };
    match monitor_in(alloc, bytes) {
        Ok(monitor) => write_other(alloc, &monitor, bytes, named.other, files, hints),
        Err(SourceError::Fault(fault)) => write_monitor_hint(alloc, bytes, fault, hints),
        Err(SourceError::OutOfMemory) => Ok(()),
    }
}

/// What was kept of a source file that isn't too long.
fn short_bytes<'a, F>(name: &str, files: &'a KeptFiles<F>) -> Option<&'a [u8]>
    ensures { IfSome result (λ bytes. length bytes.now ≤ FILE_BYTES) }
{
    match files.bytes_of(name) {
        Some(bytes) => {
            if bytes.len() > FILE_BYTES {
                None
            } else {
                Some(bytes)
            }
        }
        None => None,
    }
}

/// Writes what is wrong of the second file of a command.
fn write_other<'a, F, H: Sink>(
    alloc: Global,
    monitor: &Monitor,
    monitor_bytes: &[u8],
    other: Other<'a>,
    files: &KeptFiles<F>,
    hints: &mut H,
) -> Result<(), SinkFailed> {
    match other {
        Other::None => Ok(()),
        Other::Clients { name } => match short_bytes(name, files) {
            Some(bytes) => match fault_in(alloc, bytes, monitor) {
                Some(fault) => write_clients_hint(alloc, bytes, monitor_bytes, fault, hints),
                None => Ok(()),
            },
            None => Ok(()),
        },
        Other::Plan { name } => write_slip_in(alloc, monitor, files.bytes_of(name), false, hints),
        Other::Report { name } => write_slip_in(alloc, monitor, files.bytes_of(name), true, hints),
    }
}

/// The fault of the bytes of clients, where they have one.
fn fault_in(alloc: Global, bytes: &[u8], monitor: &Monitor) -> Option<SourceFault>
    requires { length bytes.now ≤ FILE_BYTES }
{
    match scripts_in(alloc, bytes, monitor) {
        Err(SourceError::Fault(fault)) => Some(fault),
        _ => None,
    }
}

/// Writes where a text stops being that of a plan or a report.
fn write_slip_in<H: Sink>(
    alloc: Global,
    monitor: &Monitor,
    bytes: Option<&[u8]>,
    report: bool,
    hints: &mut H,
) -> Result<(), SinkFailed> {
    let Some(bytes) = bytes else {
        return Ok(());
    };
    match slip_in(alloc, monitor, bytes, report) {
        Ok(Some(slip)) => write_slip(alloc, bytes, &slip, hints),
        _ => Ok(()),
    }
}

/// Writes a slip, with its line and its column.
fn write_slip<H: Sink>(
    alloc: Global,
    bytes: &[u8],
    slip: &Slip,
    hints: &mut H,
) -> Result<(), SinkFailed> {
    let Ok(at) = u32::try_from(slip.at) else {
        return Ok(());
    };
    write_caret(bytes, at, hints)?;
    match place_of(alloc, bytes, slip.at) {
        Ok(place) => write_expected(place.as_bytes(), slip.expected.as_slice(), slip.said, hints),
        Err(AllocError) => Ok(()),
    }
}

/// The line and the column of a place, as words.
fn place_of(alloc: Global, bytes: &[u8], at: usize) -> Result<String, AllocError> {
    let front = bytes.get(..at).unwrap_or(bytes);
    let feeds = front.iter().filter(|byte| !is_in_line(**byte)).count();
    let in_line = front
        .iter()
        .rev()
        .take_while(|byte| is_in_line(**byte))
        .count();
    let line = feeds.saturating_add(1);
    let column = in_line.saturating_add(1);
    format!(in alloc; "line {line}, column {column}: ")
}

/// Writes what may stand at a place.
fn write_expected<'a, H: Sink>(
    place: &'a [u8],
    expected: &'a [u8],
    said: &'a [u8],
    hints: &mut H,
) -> Result<(), SinkFailed> {
    if expected.is_empty() {
        write_hint(&Hint::of_two(place, said, b"", b"", b""), hints)
    } else {
        write_hint(
            &Hint::of_two(place, b"expected `", expected, b"`", b""),
            hints,
        )
    }
}
