//! The status of a text, and the lines of faults of files. No writer takes memory.

ghost use Rattle.std.specs.Prelude.{◌≡◌, ℕ, List};
ghost use Rattle.base_io.specs.Outside.{SinkSeen};
ghost use Rattle.base_io.specs.Writing.{Wrote};
ghost use Rattle.report_text.specs.Faults.{fault_text};
ghost use Rattle.expresso_answers.specs.Ending.{IsWritten, fault_status};

use crate::status::Status;
use base_io::{Sink, SinkFailed};
use report_text::{Fault, write_fault};

/// Hands on what was written of a text, and gives the status that the text comes to.
#[tactic(auto, using(crate::proofs::Outcomes::text_handed_on, crate::proofs::Outcomes::flush_failed, crate::proofs::Outcomes::write_failed))]
pub fn finish<S: Sink>(status: Status, outcome: Result<(), SinkFailed>, out: &mut S) -> Status
    ensures { (before : SinkSeen) (text : List ℕ) → Wrote before (S.seen out.old) outcome text
        → IsWritten status text result before (S.seen out.new) }
{
    match outcome {
        Ok(()) => match out.flush() {
            Ok(()) => status,
            Err(SinkFailed) => Status::WriteFault,
        },
        Err(SinkFailed) => Status::WriteFault,
    }
}

/// The status of a fault of a file.
fn fault_status(fault: &Fault) -> Status
    ensures { result ≡ fault_status fault.now }
{
    match fault {
        Fault::Unread { .. } => Status::ReadFault,
        Fault::TooLong { .. } => Status::Refused,
        Fault::OtherTooLong { .. } => Status::Refused,
        Fault::NotReport { .. } => Status::Refused,
        Fault::NotPlan { .. } => Status::Refused,
        Fault::Place { .. } => Status::Refused,
    }
}

/// Writes the line of a fault of a file.
pub fn show_fault<S: Sink>(fault: &Fault, out: &mut S) -> Status
    ensures { IsWritten (fault_status fault.now) (fault_text fault.now) result
        (S.seen out.old) (S.seen out.new) }
{
    let outcome = write_fault(fault, out);
    finish(fault_status(fault), outcome, out)
}
