//! The line that is printed of a fault of a file.

ghost use Rattle.std.specs.Prelude.{◌≡◌};
ghost use Rattle.base_io.specs.Writing.{Wrote};
ghost use Rattle.report_text.specs.FaultText.{counted_text, place_text, refusal_text};
ghost use Rattle.report_text.specs.Faults.{fault_text};

use crate::position::{column_at, line_at};
use base_io::{Sink, SinkFailed, write_pieces};
use itoa::Buffer;
use lang_base::{Counted, Refusal, SourceFault};

/// Why a file isn't accepted. `file` is the word that names it.
#[derive(Clone, Copy, Debug)]
pub enum Fault<'a> {
    /// It has more than 65,536 bytes.
    TooLong {
        file: &'a str,
    },
    /// It is no monitor and no clients, and has more than 16,777,216 bytes.
    OtherTooLong {
        file: &'a str,
    },
    /// It couldn't be read.
    Unread {
        file: &'a str,
    },
    /// It is no report of the monitor.
    NotReport {
        file: &'a str,
    },
    /// It is no plan of the monitor.
    NotPlan {
        file: &'a str,
    },
    /// It breaks a rule at an offset of its bytes.
    Place {
        file: &'a str,
        bytes: &'a [u8],
        fault: SourceFault,
    },
}

/// Writes the line of a fault, with the line and the column of its place, and takes no memory.
///
/// After `SinkFailed` the first bytes of the line were taken, fewer than all and maybe none.
pub fn write_fault<S: Sink>(fault: &Fault, out: &mut S) -> Result<(), SinkFailed>
    ensures { Wrote (S.seen out.old) (S.seen out.new) result (fault_text fault.now) }
{
    match fault {
        Fault::TooLong { file } => write_pieces(
            &[b"refused: ", file.as_bytes(), b": more than 65536 bytes\n"],
            out,
        ),
        Fault::OtherTooLong { file } => write_pieces(
            &[
                b"refused: ",
                file.as_bytes(),
                b": more than 16777216 bytes\n",
            ],
            out,
        ),
        Fault::Unread { file } => write_pieces(&[b"read fault: ", file.as_bytes(), b"\n"], out),
        Fault::NotReport { file } => write_pieces(
            &[b"refused: ", file.as_bytes(), b": not a report\n"],
            out,
        ),
        Fault::NotPlan { file } => write_pieces(
            &[b"refused: ", file.as_bytes(), b": not a plan\n"],
            out,
        ),
        Fault::Place { file, bytes, fault } => write_place(file, bytes, *fault, out),
    }
}

// `refused: m.mon:1:59: syntax` and a line feed.
fn write_place<S: Sink>(
    file: &str,
    bytes: &[u8],
    fault: SourceFault,
    out: &mut S,
) -> Result<(), SinkFailed>
    ensures { Wrote (S.seen out.old) (S.seen out.new) result
        (place_text file.now bytes.now fault) }
{
    let mut digits = Buffer::new();
    let line = digits.format(line_at(bytes, fault.at)).as_bytes();
    write_pieces(&[b"refused: ", file.as_bytes(), b":", line], out)?;
    let column = digits.format(column_at(bytes, fault.at)).as_bytes();
    write_pieces(
        &[b":", column, b": ", refusal_bytes(fault.what), b"\n"],
        out,
    )
}

/// What is wrong, as bytes.
pub fn refusal_bytes(what: Refusal) -> &'static [u8]
    ensures { result.now ≡ refusal_text what }
{
    match what {
        Refusal::Lex => b"no token starts here",
        Refusal::Syntax => b"syntax",
        Refusal::Unknown => b"unknown name",
        Refusal::Duplicate => b"name used twice",
        Refusal::WrongType => b"wrong type",
        Refusal::NotLinear => b"product of two variables",
        Refusal::TooLarge => b"number too large",
        Refusal::TooMany(counted) => counted_bytes(counted),
        Refusal::ReadOnly => b"not a field",
        Refusal::Misplaced => b"misplaced return",
        Refusal::WrongStart => b"wrong start",
        Refusal::UnknownMethod => b"unknown method",
        Refusal::WrongCount => b"wrong number of arguments",
        Refusal::DuplicateClient => b"client used twice",
        Refusal::TooManyClients => b"too many clients",
        Refusal::TooManyCalls => b"too many calls",
    }
}

// What there is too much of, as bytes.
fn counted_bytes(counted: Counted) -> &'static [u8]
    ensures { result.now ≡ counted_text counted }
{
    match counted {
        Counted::Constants => b"too many constants",
        Counted::Fields => b"too many fields",
        Counted::Methods => b"too many methods",
        Counted::Parameters => b"too many parameters",
        Counted::Locals => b"too many locals",
        Counted::Blocks => b"too many blocks",
        Counted::Statements => b"too many statements",
    }
}
