//! Standard error, and what the names of the system stand for.

use base_io::{Sink, SinkFailed};
use front_help::{NameKind, Names};
use std::alloc::Global;
use std::io::{ErrorKind, Write};
use std::rt::Files;

/// An output that is handed its bytes where it is flushed. It tells none.
#[derive(Drop)]
pub(crate) struct ErrorSink<W> {
    out: W,
    bytes: Vec<u8>,
    faults: u64,
}

impl<W> ErrorSink<W> {
    /// This output, with no byte taken and no fault yet.
    pub(crate) fn new(alloc: Global, out: W) -> ErrorSink<W> {
        ErrorSink {
            out,
            bytes: Vec::new(alloc),
            faults: 0,
        }
    }
}

impl<W: Write> Sink for ErrorSink<W> {
    ghost use Rattle.std.specs.Prelude.{None, length};

    ghost seen = { λ sink. record {
      written = None;
      buffered = length sink.bytes.items;
      faults = sink.faults;
    } };

    fn write(&mut self, bytes: &[u8]) -> Result<usize, SinkFailed> {
        let _count_in_range = self.faults;
        if self.bytes.extend_from_slice(bytes).is_err() {
            self.faults = self.faults.saturating_add(1);
            return Err(SinkFailed);
        }
        Ok(bytes.len())
    }

    fn flush(&mut self) -> Result<(), SinkFailed> {
        let _count_in_range = self.faults;
        if self.bytes.as_slice().is_empty() {
            return Ok(());
        }
        if self.out.write_all(&self.bytes).is_err() {
            self.faults = self.faults.saturating_add(1);
            return Err(SinkFailed);
        }
        self.bytes.clear();
        Ok(())
    }
}

/// What the names of the system stand for.
#[derive(Drop)]
pub(crate) struct RealNames<'a, R> {
    rt: &'a R,
}

impl<'a, R> RealNames<'a, R> {
    /// The names of this runtime.
    pub(crate) fn new(rt: &'a R) -> RealNames<'a, R> {
        RealNames { rt }
    }
}

impl<'a, R: Files> Names for RealNames<'a, R> {
    fn kind_of(&self, name: &str) -> NameKind {
        match self.rt.metadata(name) {
            Ok(found) => {
                if found.is_dir() {
                    NameKind::Folder
                } else {
                    NameKind::Other
                }
            }
            Err(error) => {
                if error.kind() == ErrorKind::NotFound {
                    NameKind::Missing
                } else {
                    NameKind::Other
                }
            }
        }
    }
}
