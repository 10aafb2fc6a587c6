ghost use Rattle.std.specs.Prelude.{◌≡◌, []};

use crate::sink::{Sink, SinkFailed};
use std::alloc::Global;
use std::marker::Model;

/// A sink in memory that grows with what it takes, and fails only for want of memory.
///
/// Contracts see the bytes taken so far, and how many calls failed.
#[derive(Debug, Drop)]
pub struct GrowingSink {
    bytes: Vec<u8>,
    faults: u64,
}

impl Model for GrowingSink {
    ghost use Rattle.base_io.specs.SinkInMemory.{GrowingText};

    ghost Value = { GrowingText };

    ghost view = { λ s. record { bytes = s.bytes.items; faults = s.faults } };
}

impl GrowingSink {
    /// An empty sink.
    pub fn new(alloc: Global) -> GrowingSink
        ensures { result ≡ record { bytes = []; faults = 0 } }
    {
        GrowingSink {
            bytes: Vec::new(alloc),
            faults: 0,
        }
    }

    /// The bytes taken.
    pub fn into_bytes(self) -> Vec<u8>
        ensures { result.items ≡ self.bytes }
    {
        self.bytes
    }
}

impl Sink for GrowingSink {
    ghost use Rattle.std.specs.Prelude.{Some};

    ghost seen = { λ s. record { written = Some s.bytes; buffered = 0; faults = s.faults } };

    fn write(&mut self, bytes: &[u8]) -> Result<usize, SinkFailed> {
        let _count_in_range = self.faults;
        if self.bytes.extend_from_slice(bytes).is_err() {
            self.faults = self.faults.saturating_add(1);
            return Err(SinkFailed);
        }
        Ok(bytes.len())
    }

    fn flush(&mut self) -> Result<(), SinkFailed> {
        let _count_in_range = self.faults;
        Ok(())
    }
}
