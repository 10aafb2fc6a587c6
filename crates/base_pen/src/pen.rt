ghost use Rattle.std.specs.Prelude.{◌≡◌, Ok, decimal};
ghost use Rattle.base_pen.specs.Putting.{Adds};

use base_io::{Sink, SinkFailed, write_piece};
use itoa::Buffer;

/// A sink that a text is put on, and what came of the text so far. It takes no memory.
///
/// A writer that asks for the sink itself is called where no write has failed, and answers the
/// outcome: `if pen.outcome.is_ok() { pen.outcome = write_plan(monitor, plan, pen.out); }`.
#[derive(Drop)]
pub struct Pen<'a, S> {
    /// Where the text goes.
    pub out: &'a mut S,
    /// Whether the text so far was written whole.
    pub outcome: Result<(), SinkFailed>,
}

impl<'a, S: Sink> Pen<'a, S> {
    /// A pen over this sink, before any text.
    pub fn new(out: &'a mut S) -> Pen<'a, S>
        ensures same { result.out.ghost_name ≡ out.entry.ghost_name }
        ensures untouched { result.out.now ≡ out.old }
        ensures outcome { result.outcome ≡ Ok tt }
    {
        Pen {
            out,
            outcome: Ok(()),
        }
    }

    /// Puts these bytes: writes them whole, or nothing where a write has failed before.
    pub fn put(&mut self, bytes: &[u8])
        ensures { Adds S.seen self.old self.new bytes.now }
    {
        if self.outcome.is_ok() {
            self.outcome = write_piece(bytes, self.out);
        }
    }

    /// Puts a number in decimal digits.
    pub fn decimal(&mut self, number: u64)
        ensures { Adds S.seen self.old self.new (decimal number) }
    {
        let mut digits = Buffer::new();
        self.put(digits.format(number).as_bytes());
    }
}
