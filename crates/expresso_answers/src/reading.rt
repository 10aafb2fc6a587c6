//! The bytes of the files that a command names.

ghost use Rattle.std.specs.Prelude.{IfErr, IfOk, OnOk};
ghost use Rattle.base_io.specs.Outside.{IsRead};
ghost use Rattle.expresso_answers.specs.Ending.{IsQuiet, IsUnread, KeepsFiles};

use crate::status::Status;
use crate::text::show_fault;
use base_io::{FileFault, Files, Sink};
use report_text::Fault;
use std::alloc::Global;

/// The most bytes of a file that is no monitor and no clients. Definitions give it the same name
/// and number (`specs/ReportFiles`).
pub const OTHER_BYTES: usize = 16_777_216;

/// The bytes of a file, one more than it may have at most. Where it has none, the status of its
/// command: the line of a file that couldn't be read is written then.
pub(crate) fn bytes_of<F: Files, S: Sink>(
    alloc: Global,
    file: &str,
    most: u64,
    files: &mut F,
    out: &mut S,
) -> Result<Vec<u8>, Status>
    requires { F.may_read files.old file.now }
    ensures told { IfOk result (λ bytes.
        IsRead ((F.seen files.old).held file.now) most bytes.items) }
    ensures quiet { OnOk result (IsQuiet (F.seen files.old) (F.seen files.new)
        (S.seen out.old) (S.seen out.new)) }
    ensures unread { IfErr result (λ status. IsUnread file.now
        (F.seen files.old) (F.seen files.new) status (S.seen out.old) (S.seen out.new)) }
    ensures files { KeepsFiles (F.seen files.old) (F.seen files.new)
        (F.may_read files.old) (F.may_read files.new) }
{
    match files.read_up_to(alloc, file, most) {
        Ok(bytes) => Ok(bytes),
        Err(FileFault::Failed) => Err(show_fault(&Fault::Unread { file }, out)),
        Err(FileFault::OutOfMemory) => Err(Status::OutOfMemory),
    }
}
