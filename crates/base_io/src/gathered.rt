//! Bytes on their way to an output.

ghost use Rattle.std.specs.Prelude.{◌≡◌, ◌<◌, ◌≤◌, ◌+◌, ◌-◌, ◌++◌, ◌↔◌, IsTrue, OnErr, OnOk};
ghost use Rattle.std.specs.Prelude.{length, min, slice_range, take};
ghost use Rattle.std.specs.Io.KnownBytes.{Keeps, append_known};
ghost use Rattle.base_io.specs.Outside.{Rises, most_faults};
ghost use Rattle.base_io.specs.inner.Gathering.{GATHERED_BYTES};

use crate::sink::SinkFailed;
use std::io::Write;

/// How many bytes are gathered at most.
pub(crate) const GATHERED_BYTES: usize = 4096;

/// Bytes that were taken, and of those the first that were handed on.
#[derive(Drop)]
pub(crate) struct Gathered {
    pub(crate) bytes: [u8; GATHERED_BYTES],
    pub(crate) handed: usize,
    pub(crate) filled: usize,
    ghost ordered: { handed ≤ filled },
    ghost within: { filled ≤ GATHERED_BYTES },
}

impl Gathered {
    /// No bytes.
    pub(crate) fn new() -> Gathered
        ensures handed { result.handed ≡ 0 }
        ensures filled { result.filled ≡ 0 }
    {
        Gathered {
            bytes: [0; GATHERED_BYTES],
            handed: 0,
            filled: 0,
        }
    }

    /// Whether there is room for so many bytes more.
    pub(crate) fn has_room(&self, count: usize) -> bool
        ensures { IsTrue result ↔ (self.now.filled + count ≤ GATHERED_BYTES) }
    {
        count <= GATHERED_BYTES - self.filled
    }

    /// Takes all of these bytes, for which there is room.
    pub(crate) fn add(&mut self, bytes: &[u8])
        requires { self.old.filled + length bytes.now ≤ GATHERED_BYTES }
        ensures taken { slice_range self.new.bytes self.new.handed self.new.filled
            ≡ slice_range self.old.bytes self.old.handed self.old.filled ++ bytes.now }
        ensures counted { self.new.filled - self.new.handed
            ≡ self.old.filled - self.old.handed + length bytes.now }
    {
        let end = self.filled + bytes.len();
        self.bytes[self.filled..end].copy_from_slice(bytes);
        self.filled = end;
    }

    /// Takes as many of the first of these bytes as there is room for, and says how many.
    pub(crate) fn gather(&mut self, bytes: &[u8]) -> usize
        ensures fits { result ≡ min (length bytes.now) (GATHERED_BYTES - self.old.filled) }
        ensures taken { slice_range self.new.bytes self.new.handed self.new.filled
            ≡ slice_range self.old.bytes self.old.handed self.old.filled ++ take result bytes.now }
        ensures counted { self.new.filled - self.new.handed
            ≡ self.old.filled - self.old.handed + result }
    {
        let count = bytes.len().min(GATHERED_BYTES - self.filled);
        self.add(&bytes[..count]);
        count
    }

    /// Hands on to an output what wasn't handed on, until none is left or a write fails. What is
    /// left then is kept. An error of the output is counted.
    #[tactic(auto, using(crate::proofs::HandedBytes::kept_none, crate::proofs::HandedBytes::kept_failed, crate::proofs::HandedBytes::kept_more, crate::proofs::HandedBytes::kept_emptied))]
    pub(crate) fn hand_on<W: Write>(
        &mut self,
        out: &mut W,
        faults: &mut u64,
    ) -> Result<(), SinkFailed>
        requires { faults.old ≤ most_faults }
        // The bytes of the output, and then those that are left, stay as they were.
        ensures kept { Keeps
            (append_known (W.contents out.old)
            (slice_range self.old.bytes self.old.handed self.old.filled))
            (append_known (W.contents out.new)
            (slice_range self.new.bytes self.new.handed self.new.filled)) }
        ensures emptied { OnOk result (self.new.filled ≡ 0) }
        ensures left { OnErr result (self.new.handed < self.new.filled) }
        ensures fewer { self.new.filled - self.new.handed ≤ self.old.filled - self.old.handed }
        ensures steady { OnOk result (faults.new ≡ faults.old) }
        ensures cause { OnErr result (Rises faults.old faults.new) }
        ensures later { faults.old ≤ faults.new }
        ensures counted { faults.new ≤ most_faults }
    {
        while self.handed < self.filled {
            match out.write(&self.bytes[self.handed..self.filled]) {
                Ok(count) if count > 0 => self.handed += count,
                _ => {
                    *faults = faults.saturating_add(1);
                    return Err(SinkFailed);
                }
            }
        }
        self.handed = 0;
        self.filled = 0;
        Ok(())
    }

    /// Makes room for a byte at least, where there is none, by handing on.
    pub(crate) fn make_room<W: Write>(
        &mut self,
        out: &mut W,
        faults: &mut u64,
    ) -> Result<(), SinkFailed>
        requires { faults.old ≤ most_faults }
        ensures kept { Keeps
            (append_known (W.contents out.old)
            (slice_range self.old.bytes self.old.handed self.old.filled))
            (append_known (W.contents out.new)
            (slice_range self.new.bytes self.new.handed self.new.filled)) }
        ensures room { OnOk result (self.new.filled < GATHERED_BYTES) }
        ensures fewer { self.new.filled - self.new.handed ≤ self.old.filled - self.old.handed }
        ensures steady { OnOk result (faults.new ≡ faults.old) }
        ensures cause { OnErr result (Rises faults.old faults.new) }
        ensures later { faults.old ≤ faults.new }
        ensures counted { faults.new ≤ most_faults }
    {
        if self.filled < GATHERED_BYTES {
            return Ok(());
        }
        self.hand_on(out, faults)
    }
}
