ghost use Rattle.std.specs.Prelude.{◌≡◌, ◌<◌, ◌≤◌, ◌-◌, ◌↔◌, min, [], Some, IfOk, IsErr, IsOk};
ghost use Rattle.std.specs.Prelude.{OnOk, OnErr, length, take};
ghost use Rattle.std.specs.Io.KnownBytes.{Appends, Keeps};
ghost use Rattle.base_io.specs.Outside.{Rises, most_faults, next_count};
ghost use Rattle.base_io.specs.SinkInMemory.{IsRefusing};

use crate::sink::{Sink, SinkFailed};
use std::alloc::{AllocError, Global};
use std::marker::Model;

/// A sink in memory, of a fixed room, whose calls may be made to fail.
///
/// Contracts see the bytes taken so far, the room for bytes in all, the numbers of the calls that
/// fail, and how many calls were made and failed.
#[derive(Debug, Drop)]
pub struct MemSink {
    bytes: Vec<u8>,
    room: u64,
    failing: Vec<u64>,
    calls: u64,
    faults: u64,
}

impl Model for MemSink {
    ghost use Rattle.std.specs.Prelude.{◌≤◌, vec_len, vec_capacity};
    ghost use Rattle.base_io.specs.Outside.{most_faults};
    ghost use Rattle.base_io.specs.SinkInMemory.{SinkInMemory};

    ghost Value = { SinkInMemory };

    ghost view = { λ s. record {
      bytes = s.bytes.items;
      room = s.room;
      failing = s.failing.items;
      calls = s.calls;
      faults = s.faults;
    } };

    ghost invariant = { λ s.
        (vec_len s.bytes ≤ s.room) × (s.room ≤ vec_capacity s.bytes) × (s.faults ≤ most_faults) };
}

impl MemSink {
    /// An empty sink that takes `room` bytes in all, for which it reserves memory. Call number `k`,
    /// from 1, fails where `k` is in `failing`.
    pub fn open(alloc: Global, room: u64, failing: Vec<u64>) -> Result<MemSink, AllocError>
        ensures { IfOk result (λ sink. sink ≡ record {
          bytes = [];
          room = room;
          failing = failing.items;
          calls = 0;
          faults = 0;
        }) }
    {
        let Ok(capacity) = usize::try_from(room) else {
            return Err(AllocError);
        };
        Ok(MemSink {
            bytes: Vec::with_capacity(alloc, capacity)?,
            room,
            failing,
            calls: 0,
            faults: 0,
        })
    }

    /// The bytes taken so far.
    pub fn bytes(&self) -> &[u8]
        ensures value { result.now ≡ self.now.bytes }
        ensures within { length result.now ≤ self.now.room }
    {
        self.bytes.as_slice()
    }

    /// How many calls failed.
    pub fn faults(&self) -> u64
        ensures { result ≡ self.now.faults }
    {
        self.faults
    }
}

impl Sink for MemSink {
    ghost use Rattle.std.specs.Prelude.{Some};

    ghost seen = { λ s. record { written = Some s.bytes; buffered = 0; faults = s.faults } };

    fn write(&mut self, bytes: &[u8]) -> Result<usize, SinkFailed>
        ensures within { IfOk result (λ n. n ≤ length bytes.now) }
        ensures some { IfOk result (λ n. 0 < length bytes.now → 0 < n) }
        ensures appended { IfOk result (λ n.
            Appends (Some self.old.bytes) (Some self.new.bytes) (take n bytes.now)) }
        ensures kept { OnErr result (Keeps (Some self.old.bytes) (Some self.new.bytes)) }
        ensures cause { OnErr result (Rises self.old.faults self.new.faults) }
        ensures steady { OnOk result (self.new.faults ≡ self.old.faults) }
        ensures later { self.old.faults ≤ self.new.faults }
        ensures counted { self.new.faults ≤ most_faults }

        // The call fails exactly where it was asked to or no room is left, and is counted then.
        ensures failed { IsErr result ↔ IsRefusing self.old self.new.calls bytes.now }
        ensures fits { IfOk result (λ n.
            n ≡ min (length bytes.now) (self.old.room - length self.old.bytes)) }
        ensures next { OnErr result (self.new.faults ≡ next_count self.old.faults) }

        ensures calls { self.new.calls ≡ next_count self.old.calls }
        ensures room { self.new.room ≡ self.old.room }
        ensures failing { self.new.failing ≡ self.old.failing }
    {
        self.calls = self.calls.saturating_add(1);
        let left = self.room as usize - self.bytes.len();
        if self.failing.contains(&self.calls) || (left == 0 && !bytes.is_empty()) {
            self.faults = self.faults.saturating_add(1);
            return Err(SinkFailed);
        }
        let count = bytes.len().min(left);
        self.bytes.extend_from_slice(&bytes[..count]).unwrap();
        Ok(count)
    }

    fn flush(&mut self) -> Result<(), SinkFailed>
        ensures counted { self.new.faults ≤ most_faults }
        // Nothing is buffered, so nothing is done.
        ensures done { IsOk result }
        ensures unchanged { self.new ≡ self.old }
    {
        let _count_in_range = self.faults;
        Ok(())
    }
}
