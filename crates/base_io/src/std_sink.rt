ghost use Rattle.std.specs.Prelude.{◌≡◌, None};

use crate::gathered::Gathered;
use crate::sink::{Sink, SinkFailed};
use std::io;
use std::io::{Print, Printer, Write};
use std::marker::Model;

/// Standard output. Bytes are gathered, and handed on to the output where 4,096 of them have come
/// and at [`flush`](Sink::flush). Those that the output didn't take are kept for the next call that
/// hands on.
///
/// It takes no memory, and tells its bytes where the output tells what it was handed; that of the
/// system doesn't. Contracts see what is seen of a sink.
#[derive(Drop)]
pub struct StdSink<W: Write> {
    out: W,
    gathered: Gathered,
    faults: u64,
}

impl<W: Write> Model for StdSink<W> {
    ghost use Rattle.std.specs.Prelude.{◌≤◌, ◌-◌, slice_range};
    ghost use Rattle.std.specs.Io.KnownBytes.{append_known};
    ghost use Rattle.base_io.specs.Outside.{SinkSeen, most_faults};

    ghost Value = { SinkSeen };

    ghost view = { λ sink. record {
      written = append_known (W.contents sink.out)
          (slice_range sink.gathered.bytes sink.gathered.handed sink.gathered.filled);
      buffered = sink.gathered.filled - sink.gathered.handed;
      faults = sink.faults;
    } };

    ghost invariant = { λ sink. sink.faults ≤ most_faults };
}

impl<'a, R: Print> StdSink<Printer<'a, R>> {
    /// The output of this runtime, with no byte taken and no fault yet.
    pub fn new(rt: &'a R) -> StdSink<Printer<'a, R>>
        ensures { result ≡ record { written = None; buffered = 0; faults = 0 } }
    {
        StdSink {
            out: io::writer(rt),
            gathered: Gathered::new(),
            faults: 0,
        }
    }
}

impl<W: Write> StdSink<W> {
    /// How many writes to the output failed, or took nothing.
    pub fn faults(&self) -> u64
        ensures { result ≡ self.now.faults }
    {
        self.faults
    }
}

impl<W: Write> Sink for StdSink<W> {
    ghost seen = { λ sink. sink };

    #[tactic(auto, using(crate::proofs::HandedBytes::kept_and_more))]
    fn write(&mut self, bytes: &[u8]) -> Result<usize, SinkFailed> {
        // Most pieces fit. With no part of them to cut off, a short one is copied in a few steps.
        if self.gathered.has_room(bytes.len()) {
            self.gathered.add(bytes);
            return Ok(bytes.len());
        }
        self.gathered.make_room(&mut self.out, &mut self.faults)?;
        Ok(self.gathered.gather(bytes))
    }

    fn flush(&mut self) -> Result<(), SinkFailed> {
        self.gathered.hand_on(&mut self.out, &mut self.faults)
    }
}
