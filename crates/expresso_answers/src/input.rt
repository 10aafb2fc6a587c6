//! A monitor, alone or with another file, from the files that a command names.

ghost use Rattle.std.specs.Prelude.{◌≡◌, ◌<◌, ◌≤◌, [], ◌∷◌, All, IfErr, IfOk, OnOk, length};
ghost use Rattle.lang_base.specs.Limits.{FILE_BYTES};
ghost use Rattle.machine_implicit.specs.Scripted.{FitsScripts};
ghost use Rattle.front_command.specs.CommandLine.{Other, as_clients, one_file, two_files};
ghost use Rattle.expresso_answers.specs.FirstFaults.{IsRefusalLine};
ghost use Rattle.expresso_answers.specs.MonitorFiles.{IsAccepted, IsFirstOfMonitor};
ghost use Rattle.expresso_answers.specs.ClientFiles.{AreAccepted, IsFirstOfClients};
ghost use Rattle.expresso_answers.specs.Answers.{HoldRun, HoldsBytes, HoldsMonitor};
ghost use Rattle.report_text.specs.Faults.{fault_text};
ghost use Rattle.expresso_answers.specs.Ending.{IsQuiet, IsTurnedAway, IsWritten, KeepsFiles};
ghost use Rattle.expresso_answers.specs.Ending.{fault_status};
ghost use Rattle.expresso_answers.specs.Input.{HoldsText, IsLimit, ReadersEnd};

use crate::client_file::read_clients;
use crate::monitor_file::{MonitorFile, read_monitor};
use crate::reading::bytes_of;
use crate::status::Status;
use crate::text::show_fault;
use base_io::{Files, Sink};
use lang_base::SourceError;
use lang_base::limits::FILE_BYTES;
use lang_monitor::Monitor;
use lang_syntax::derives_one_tree;
use lang_tokens::one_spelling;
use machine_implicit::Scripts;
use report_text::Fault;
use std::alloc::Global;

/// The tree and the monitor that the bytes of a file stand for. Where there is no monitor, the
/// status of the command: the line of the first fault is written then.
fn monitor_in<S: Sink>(
    alloc: Global,
    file: &str,
    bytes: &[u8],
    out: &mut S,
) -> Result<MonitorFile, Status>
    ensures accepted { IfOk result (λ found. IsAccepted bytes.now found.tree found.monitor) }
    ensures silent { OnOk result (S.seen out.new ≡ S.seen out.old) }
    ensures refused { IfErr result (λ status. IsTurnedAway
        (IsRefusalLine (IsFirstOfMonitor bytes.now) file.now bytes.now)
        status (S.seen out.old) (S.seen out.new)) }
{
    if bytes.len() > FILE_BYTES {
        return Err(show_fault(&Fault::TooLong { file }, out));
    }
    match read_monitor(alloc, bytes) {
        Ok(found) => Ok(found),
        Err(SourceError::Fault(fault)) => Err(show_fault(
            &Fault::Place { file, bytes, fault },
            out,
        )),
        Err(SourceError::OutOfMemory) => Err(Status::OutOfMemory),
    }
}

/// The scripts that the bytes of a file stand for, of clients of this monitor. Where there are
/// none, the status of the command: the line of the first fault is written then.
fn scripts_in<S: Sink>(
    alloc: Global,
    file: &str,
    bytes: &[u8],
    monitor: &Monitor,
    out: &mut S,
) -> Result<Scripts, Status>
    requires { length bytes.now ≤ FILE_BYTES }
    ensures accepted { IfOk result (λ scripts. AreAccepted bytes.now monitor.now scripts) }
    ensures fits { IfOk result (λ scripts. FitsScripts monitor.now scripts) }
    ensures silent { OnOk result (S.seen out.new ≡ S.seen out.old) }
    ensures refused { IfErr result (λ status. IsTurnedAway
        (IsRefusalLine (IsFirstOfClients bytes.now monitor.now) file.now bytes.now)
        status (S.seen out.old) (S.seen out.new)) }
{
    match read_clients(alloc, bytes, monitor) {
        Ok(scripts) => Ok(scripts),
        Err(SourceError::Fault(fault)) => Err(show_fault(
            &Fault::Place { file, bytes, fault },
            out,
        )),
        Err(SourceError::OutOfMemory) => Err(Status::OutOfMemory),
    }
}

/// Reads a monitor file. Where there is no monitor, the status of its command: the line of the
/// first fault is written then.
pub fn monitor_of<F: Files, S: Sink>(
    alloc: Global,
    file: &str,
    files: &mut F,
    out: &mut S,
) -> Result<MonitorFile, Status>
    requires { F.may_read files.old file.now }
    ensures holds { IfOk result (λ found. HoldsMonitor (F.seen files.old).held
        file.now found.tree found.monitor) }
    ensures quiet { OnOk result (IsQuiet (F.seen files.old) (F.seen files.new)
        (S.seen out.old) (S.seen out.new)) }
    ensures ended { IfErr result (λ status. ReadersEnd (one_file file.now)
        (F.seen files.old) (F.seen files.new) status (S.seen out.old) (S.seen out.new)) }
    ensures files { KeepsFiles (F.seen files.old) (F.seen files.new)
        (F.may_read files.old) (F.may_read files.new) }
{
    one_spelling();
    derives_one_tree();
    let bytes = bytes_of(alloc, file, FILE_BYTES as u64, files, out)?;
    monitor_in(alloc, file, &bytes, out)
}

/// A monitor, and the bytes of its file.
#[derive(Debug, Drop)]
pub struct MonitorText {
    pub found: MonitorFile,
    pub bytes: Vec<u8>,
}

/// Reads a monitor file, and keeps its bytes. Where there is no monitor, the status of its command:
/// the line of the first fault is written then.
pub fn text_of<F: Files, S: Sink>(
    alloc: Global,
    file: &str,
    files: &mut F,
    out: &mut S,
) -> Result<MonitorText, Status>
    requires { F.may_read files.old file.now }
    ensures holds { IfOk result (λ text. HoldsText (F.seen files.old).held
        file.now text.bytes.items text.found.tree text.found.monitor) }
    ensures quiet { OnOk result (IsQuiet (F.seen files.old) (F.seen files.new)
        (S.seen out.old) (S.seen out.new)) }
    ensures ended { IfErr result (λ status. ReadersEnd (one_file file.now)
        (F.seen files.old) (F.seen files.new) status (S.seen out.old) (S.seen out.new)) }
    ensures files { KeepsFiles (F.seen files.old) (F.seen files.new)
        (F.may_read files.old) (F.may_read files.new) }
{
    one_spelling();
    derives_one_tree();
    let bytes = bytes_of(alloc, file, FILE_BYTES as u64, files, out)?;
    let found = monitor_in(alloc, file, &bytes, out)?;
    Ok(MonitorText { found, bytes })
}

/// Writes the line of a fault where bytes are more than there may be. Then the status of that line.
fn check_length<S: Sink>(
    bytes: &[u8],
    most: usize,
    too_long: &Fault,
    out: &mut S,
) -> Result<(), Status>
    ensures short { IfOk result (λ done. length bytes.now ≤ most) }
    ensures silent { OnOk result (S.seen out.new ≡ S.seen out.old) }
    ensures long { IfErr result (λ status. most < length bytes.now) }
    ensures written { IfErr result (λ status.
        IsWritten (fault_status too_long.now) (fault_text too_long.now) status
        (S.seen out.old) (S.seen out.new)) }
{
    if bytes.len() > most {
        return Err(show_fault(too_long, out));
    }
    Ok(())
}

/// A monitor, and the bytes of the other file of its command.
#[derive(Debug, Drop)]
pub struct Opened {
    pub found: MonitorFile,
    pub bytes: Vec<u8>,
}

/// Reads both files, the monitor first. Where there is no monitor, one of them couldn't be read, or
/// the other one has more bytes than it may have, the status of their command: the line of the
/// first fault is written then, of a long file that of `too_long`.
pub fn open_both<F: Files, S: Sink>(
    alloc: Global,
    monitor: &str,
    other: &str,
    most: usize,
    too_long: &Fault,
    files: &mut F,
    out: &mut S,
) -> Result<Opened, Status>
    requires files { All (F.may_read files.old) (monitor.now ∷ other.now ∷ []) }
    ensures holds { IfOk result (λ opened. HoldsMonitor (F.seen files.old).held
        monitor.now opened.found.tree opened.found.monitor) }
    ensures told { IfOk result (λ opened.
        HoldsBytes (F.seen files.old).held other.now opened.bytes.items) }
    ensures short { IfOk result (λ opened. length opened.bytes.items ≤ most) }
    ensures quiet { OnOk result (IsQuiet (F.seen files.old) (F.seen files.new)
        (S.seen out.old) (S.seen out.new)) }
    ensures ended { IfErr result (λ status. (kind : Other)
        → IsLimit kind other.now most too_long.now
        → ReadersEnd (two_files kind monitor.now other.now)
        (F.seen files.old) (F.seen files.new) status (S.seen out.old) (S.seen out.new)) }
    ensures files { KeepsFiles (F.seen files.old) (F.seen files.new)
        (F.may_read files.old) (F.may_read files.new) }
{
    one_spelling();
    derives_one_tree();
    let monitor_bytes = bytes_of(alloc, monitor, FILE_BYTES as u64, files, out)?;
    let bytes = bytes_of(alloc, other, most as u64, files, out)?;
    let found = monitor_in(alloc, monitor, &monitor_bytes, out)?;
    check_length(&bytes, most, too_long, out)?;
    Ok(Opened { found, bytes })
}

/// A monitor, and what its clients call.
#[derive(Debug, Drop)]
pub struct Input {
    pub monitor: Monitor,
    pub scripts: Scripts,
}

/// Reads both files, the monitor first. Where there are no monitor and clients, the status of their
/// command: the line of the first fault is written then.
pub fn input_of<F: Files, S: Sink>(
    alloc: Global,
    monitor: &str,
    clients: &str,
    files: &mut F,
    out: &mut S,
) -> Result<Input, Status>
    requires files { All (F.may_read files.old) (monitor.now ∷ clients.now ∷ []) }
    ensures input { IfOk result (λ input. HoldRun (F.seen files.old).held
        monitor.now clients.now input.monitor input.scripts) }
    ensures fits { IfOk result (λ input. FitsScripts input.monitor input.scripts) }
    ensures quiet { OnOk result (IsQuiet (F.seen files.old) (F.seen files.new)
        (S.seen out.old) (S.seen out.new)) }
    ensures ended { IfErr result (λ status.
        ReadersEnd (two_files as_clients monitor.now clients.now)
        (F.seen files.old) (F.seen files.new) status (S.seen out.old) (S.seen out.new)) }
    ensures files { KeepsFiles (F.seen files.old) (F.seen files.new)
        (F.may_read files.old) (F.may_read files.new) }
{
    one_spelling();
    derives_one_tree();
    let opened = open_both(
        alloc,
        monitor,
        clients,
        FILE_BYTES,
        &Fault::TooLong { file: clients },
        files,
        out,
    )?;
    let Opened { found, bytes } = opened;
    let scripts = scripts_in(alloc, clients, &bytes, &found.monitor, out)?;
    Ok(Input {
        monitor: found.monitor,
        scripts,
    })
}
