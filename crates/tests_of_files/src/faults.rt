//! The faults of source files as texts: the words that the program prints of them.

use base_io::MemSink;
use lang_base::{Counted, Refusal, SourceError, SourceFault};
use report_text::{Fault, write_fault};
use std::alloc::{AllocError, Global};
use std::test::Fail;

/// Every rule that a source file may break.
const ALL: [Refusal; 22] = [
    Refusal::Lex,
    Refusal::Syntax,
    Refusal::Unknown,
    Refusal::Duplicate,
    Refusal::UnknownMethod,
    Refusal::WrongCount,
    Refusal::WrongType,
    Refusal::NotLinear,
    Refusal::TooLarge,
    Refusal::TooMany(Counted::Constants),
    Refusal::TooMany(Counted::Fields),
    Refusal::TooMany(Counted::Methods),
    Refusal::TooMany(Counted::Parameters),
    Refusal::TooMany(Counted::Locals),
    Refusal::TooMany(Counted::Blocks),
    Refusal::TooMany(Counted::Statements),
    Refusal::ReadOnly,
    Refusal::Misplaced,
    Refusal::WrongStart,
    Refusal::DuplicateClient,
    Refusal::TooManyClients,
    Refusal::TooManyCalls,
];

/// The line that is printed of this fault at the beginning of a file.
fn line_of(alloc: Global, what: Refusal) -> Result<MemSink, Fail> {
    let mut out = MemSink::open(alloc, 100, Vec::new(alloc))?;
    let fault = Fault::Place {
        file: "m.mon",
        bytes: b"",
        fault: SourceFault { at: 0, what },
    };
    write_fault(&fault, &mut out)?;
    Ok(out)
}

/// Whether the fault's text is what the line has behind its place.
fn is_printed(alloc: Global, what: Refusal) -> Result<bool, Fail> {
    let line = format!(in alloc; "refused: m.mon:1:1: {what}\n")?;
    let out = line_of(alloc, what)?;
    Ok(out.bytes() == line.as_bytes())
}

#[test]
fn each_fault_has_the_words_that_are_printed(rt: HostRuntime) -> Result<(), Fail> {
    for what in ALL {
        assert!(rt; is_printed(rt.alloc(), what)?, "{what}");
    }
    Ok(())
}

fn text_of(alloc: Global, error: &SourceError) -> Result<String, AllocError> {
    format!(in alloc; "{error}")
}

#[test]
fn an_error_says_what_is_wrong_and_where(rt: HostRuntime) -> Result<(), Fail> {
    let fault = SourceFault {
        at: 7,
        what: Refusal::TooMany(Counted::Locals),
    };
    let text = text_of(rt.alloc(), &SourceError::Fault(fault))?;
    assert_eq!(rt; text.as_str(), "too many locals at byte 7");
    let text = text_of(rt.alloc(), &SourceError::OutOfMemory)?;
    assert_eq!(rt; text.as_str(), "out of memory");
    Ok(())
}
