//! The program over a standard output that takes three bytes at a time, and over one that takes
//! none.

ghost use Rattle.std.specs.Prelude.{◌≤◌, IfOk, length};

use super::asking::{Call, ROOM, asked, texts_of, two_files};
use base_io::{MemSink, StdSink};
use expresso::{Status, expresso, without_threads};
use samples::clients::TWO;
use samples::monitors::BUFFER;
use std::alloc::{AllocError, Global};
use std::cell::RefCell;
use std::fmt::Display;
use std::io;
use std::io::Print;
use std::process::Abort;
use std::sync::Wait;
use std::test::Fail;
use std::thread::Threads;
use threads_pool::OpenGate;

const ALONE: &[&str] = &["expresso"];

const CHECK: &[&str] = &["expresso", "check", "m.mon"];

const COMPILE: &[&str] = &["expresso", "compile", "m.mon"];

const TURNS: &[&str] = &["expresso", "turns", "m.mon", "c.cl"];

const SIMULATE: &[&str] = &["expresso", "simulate", "m.mon", "c.cl"];

const RUN: &[&str] = &["expresso", "run", "m.mon", "c.cl"];

const BLOCK: &[&str] = &["expresso", "block", "m.mon", "c.cl"];

const STRESS: &[&str] = &["expresso", "stress", "3"];

const USAGE: &[u8] = b"usage:
expresso check FILE
expresso turns FILE CLIENTS
expresso compile FILE [--count] [--relay]
expresso simulate FILE CLIENTS [--seed N] [--spurious K] [--count] [--relay]
expresso run FILE CLIENTS [--workers N] [--count] [--relay]
expresso stress N [--workers N]
expresso report FILE [--count] [--fits]
expresso recheck FILE REPORT
expresso block FILE CLIENTS [--count]
expresso audit FILE PLAN [--count]
expresso explain FILE [--count] [--fits]
expresso emit FILE
expresso --version
";

const TWO_RUN: &[u8] = b"A.1 put() = -
B.1 get() = -
A.2 put() = -
B.2 get() = -
done
state count=0
";

/// A standard output that keeps what it is given, three bytes at a time.
#[derive(Drop)]
struct Slow {
    taken: RefCell<Vec<u8>>,
}

impl Slow {
    fn open(alloc: Global) -> Slow {
        Slow {
            taken: RefCell::new(Vec::new(alloc)),
        }
    }

    fn holds(&self, bytes: &[u8]) -> bool {
        match self.taken.try_borrow() {
            Ok(taken) => taken.as_slice() == bytes,
            Err(_) => false,
        }
    }
}

impl Print for Slow {
    fn print<D: Display + Drop>(&self, _value: D) -> io::Result<()> {
        Ok(())
    }

    fn println<D: Display + Drop>(&self, _value: D) -> io::Result<()> {
        Ok(())
    }

    fn write_all(&self, _bytes: &[u8]) -> io::Result<()> {
        Ok(())
    }

    fn write_some(&self, bytes: &[u8]) -> io::Result<usize>
        ensures bound { IfOk result (λ n. n ≤ length bytes.now) }
    {
        let count = bytes.len().min(3);
        match self.taken.try_borrow_mut() {
            Ok(mut taken) => taken.extend_from_slice(&bytes[..count])?,
            Err(_) => return Ok(0),
        }
        Ok(count)
    }
}

/// Demands of a call that it has this status, and that all of this text has reached standard
/// output.
fn hands_on(
    rt: &(impl Abort + Threads + Wait + Sync + AllocGlobal),
    call: Call<'_>,
    status: Status,
    text: &[u8],
) -> Result<(), AllocError> {
    let words = texts_of(rt.alloc(), call.words)?;
    let mut files = two_files(rt.alloc(), &call)?;
    let output = Slow::open(rt.alloc());
    let mut out = StdSink::new(&output);
    let found = expresso(rt, rt.alloc(), &words, &mut files, &mut out, &OpenGate);
    assert_eq!(rt; found, status);
    assert!(rt; output.holds(text));
    Ok(())
}

#[test]
fn the_text_of_each_status_reaches_standard_output(rt: HostRuntime) -> Result<(), Fail> {
    let unread = Call {
        failing_read: Some(1),
        ..asked(TURNS, BUFFER, TWO)
    };
    let table: [(Call<'_>, Status, &[u8]); 5] = [
        (asked(TURNS, BUFFER, TWO), Status::Done, TWO_RUN),
        (
            asked(TURNS, BUFFER, b"client A { get(); }"),
            Status::Stalled,
            b"stalled\nA.1 get() blocked\nstate count=0\n",
        ),
        (unread, Status::ReadFault, b"read fault: m.mon\n"),
        (
            asked(CHECK, b"@", b""),
            Status::Refused,
            b"refused: m.mon:1:1: no token starts here\n",
        ),
        (asked(ALONE, b"", TWO), Status::Usage, USAGE),
    ];
    for (call, status, text) in table {
        hands_on(&rt, call, status, text)?;
    }
    Ok(())
}

/// The status of a call that is given no runtime, or none where it runs clients in threads.
fn status_alone(alloc: Global, call: &Call<'_>) -> Result<Option<Status>, AllocError> {
    let words = texts_of(alloc, call.words)?;
    let mut files = two_files(alloc, call)?;
    let mut out = MemSink::open(alloc, ROOM, Vec::new(alloc))?;
    Ok(without_threads(alloc, &words, &mut files, &mut out).ok())
}

#[test]
fn only_run_stress_and_block_want_a_runtime(rt: HostRuntime) -> Result<(), Fail> {
    let table = [
        (asked(CHECK, BUFFER, TWO), Some(Status::Done)),
        (asked(TURNS, BUFFER, TWO), Some(Status::Done)),
        (asked(COMPILE, BUFFER, TWO), Some(Status::Done)),
        (asked(SIMULATE, BUFFER, TWO), Some(Status::Done)),
        (asked(ALONE, BUFFER, TWO), Some(Status::Usage)),
        (asked(RUN, BUFFER, TWO), None),
        (asked(STRESS, BUFFER, TWO), None),
        (asked(BLOCK, BUFFER, TWO), None),
    ];
    for (call, status) in table {
        assert_eq!(rt; status_alone(rt.alloc(), &call)?, status);
    }
    Ok(())
}

/// A standard output that takes nothing.
#[derive(Drop)]
struct Closed;

impl Print for Closed {
    fn print<D: Display + Drop>(&self, _value: D) -> io::Result<()> {
        Ok(())
    }

    fn println<D: Display + Drop>(&self, _value: D) -> io::Result<()> {
        Ok(())
    }

    fn write_all(&self, _bytes: &[u8]) -> io::Result<()> {
        Err(io::Error::from(io::ErrorKind::BrokenPipe))
    }
}

/// Demands of a call over this output that it is a write fault, counted once.
fn fails_to_hand_on(
    rt: &(impl Abort + Threads + Wait + Sync + AllocGlobal),
    call: &Call<'_>,
) -> Result<(), AllocError> {
    let words = texts_of(rt.alloc(), call.words)?;
    let mut files = two_files(rt.alloc(), call)?;
    let mut out = StdSink::new(&Closed);
    let status = expresso(rt, rt.alloc(), &words, &mut files, &mut out, &OpenGate);
    assert_eq!(rt; status, Status::WriteFault);
    assert_eq!(rt; out.faults(), 1);
    Ok(())
}

#[test]
fn a_text_that_is_gathered_and_not_handed_on_is_a_write_fault(rt: HostRuntime) -> Result<(), Fail> {
    for call in [
        asked(TURNS, BUFFER, TWO),
        asked(CHECK, BUFFER, TWO),
        asked(CHECK, b"@", b""),
        asked(ALONE, b"", TWO),
    ] {
        fails_to_hand_on(&rt, &call)?;
    }
    Ok(())
}
