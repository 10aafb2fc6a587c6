//! Standard output, over an output that takes little at a time.

ghost use Rattle.std.specs.Prelude.{◌≤◌, IfOk, length};

use base_io::{Sink, SinkFailed, StdSink, write_whole};
use std::alloc::Global;
use std::cell::{Cell, RefCell};
use std::fmt::Display;
use std::io;
use std::io::Print;
use std::test::Fail;

/// A write of a whole text, of whose clauses tests need none.
fn whole<S: Sink>(sink: &mut S, bytes: &[u8]) -> Result<(), SinkFailed> {
    write_whole(sink, bytes)
}

/// A write.
fn part<S: Sink>(sink: &mut S, bytes: &[u8]) -> Result<usize, SinkFailed> {
    sink.write(bytes)
}

/// A flush.
fn flushed<S: Sink>(sink: &mut S) -> Result<(), SinkFailed> {
    sink.flush()
}

/// A standard output that keeps what it is given, three bytes at a time, and fails at one write.
#[derive(Drop)]
struct Slow {
    taken: RefCell<Vec<u8>>,
    writes: Cell<u64>,
    failing: u64,
}

impl Slow {
    fn open(alloc: Global, failing: u64) -> Slow {
        Slow {
            taken: RefCell::new(Vec::new(alloc)),
            writes: Cell::new(0),
            failing,
        }
    }

    fn holds(&self, bytes: &[u8]) -> bool {
        match self.taken.try_borrow() {
            Ok(taken) => taken.as_slice() == bytes,
            Err(_) => false,
        }
    }
}

impl Print for Slow {
    fn print<D: Display + Drop>(&self, _value: D) -> io::Result<()> {
        Ok(())
    }

    fn println<D: Display + Drop>(&self, _value: D) -> io::Result<()> {
        Ok(())
    }

    fn write_all(&self, _bytes: &[u8]) -> io::Result<()> {
        Ok(())
    }

    fn write_some(&self, bytes: &[u8]) -> io::Result<usize>
        ensures bound { IfOk result (λ n. n ≤ length bytes.now) }
    {
        let write = self.writes.get().wrapping_add(1);
        self.writes.set(write);
        if write == self.failing {
            return Err(io::Error::from(io::ErrorKind::BrokenPipe));
        }
        let count = bytes.len().min(3);
        match self.taken.try_borrow_mut() {
            Ok(mut taken) => taken.extend_from_slice(&bytes[..count])?,
            Err(_) => return Ok(0),
        }
        Ok(count)
    }
}

#[test]
fn standard_output_hands_on_what_it_took_in_order(rt: HostRuntime) -> Result<(), Fail> {
    let output = Slow::open(rt.alloc(), 0);
    let mut sink = StdSink::new(&output);
    let mut all = Vec::new(rt.alloc());
    for round in 0..1000u16 {
        let piece = [
            b'a' + (round % 26) as u8,
            b'\n',
            (round / 4) as u8,
            b'z',
            b'0',
        ];
        all.extend_from_slice(&piece)?;
        assert_eq!(rt; whole(&mut sink, &piece), Ok(()));
    }
    let front = all.get(..4096).ok_or("more than 4,096 bytes")?;
    assert!(rt; output.holds(front), "4,096 bytes are handed on together");
    assert_eq!(rt; flushed(&mut sink), Ok(()));
    assert!(rt; output.holds(&all));
    assert_eq!(rt; flushed(&mut sink), Ok(()), "nothing is left");
    assert!(rt; output.holds(&all));
    assert_eq!(rt; sink.faults(), 0);
    Ok(())
}

#[test]
fn a_failed_write_to_standard_output_is_told_at_the_flush(rt: HostRuntime) -> Result<(), Fail> {
    let output = Slow::open(rt.alloc(), 2);
    let mut sink = StdSink::new(&output);
    assert_eq!(rt; whole(&mut sink, b"01234567"), Ok(()));
    assert!(rt; output.holds(b""));
    assert_eq!(rt; flushed(&mut sink), Err(SinkFailed));
    assert_eq!(rt; sink.faults(), 1);
    assert!(rt; output.holds(b"012"));
    assert_eq!(rt; flushed(&mut sink), Ok(()), "what was left is kept");
    assert!(rt; output.holds(b"01234567"));
    Ok(())
}

#[test]
fn a_full_buffer_that_is_not_handed_on_takes_nothing(rt: HostRuntime) -> Result<(), Fail> {
    let output = Slow::open(rt.alloc(), 1);
    let mut sink = StdSink::new(&output);
    let long = vec![in rt.alloc(); 7u8; 4096]?;
    assert_eq!(rt; whole(&mut sink, &long), Ok(()));
    assert_eq!(rt; part(&mut sink, b"x"), Err(SinkFailed));
    assert_eq!(rt; part(&mut sink, b"y"), Ok(1));
    assert_eq!(rt; flushed(&mut sink), Ok(()));
    let mut all = long;
    all.push(b'y')?;
    assert!(rt; output.holds(&all));
    Ok(())
}

#[test]
fn standard_output_of_the_system_takes_bytes(rt: HostRuntime) {
    let mut sink = StdSink::new(&rt);
    assert_eq!(rt; whole(&mut sink, b"a line\n"), Ok(()));
    assert_eq!(rt; part(&mut sink, b""), Ok(0));
    assert_eq!(rt; flushed(&mut sink), Ok(()));
    assert_eq!(rt; sink.faults(), 0);
}
