//! A hint, and its line.

ghost use Rattle.base_io.specs.Writing.{Wrote};
ghost use Rattle.front_hint.specs.Shown.{hint_if, hint_text};

use crate::parts::{Part, Way, write_parts};
use base_io::{Sink, SinkFailed};

/// What is likely wrong, in a few words: two words, with words before, between and after them.
#[derive(Clone, Copy, Debug)]
pub struct Hint<'a> {
    pub before: &'a [u8],
    pub first: &'a [u8],
    pub between: &'a [u8],
    pub second: &'a [u8],
    pub after: &'a [u8],
}

impl<'a> Hint<'a> {
    /// These words.
    pub fn of(text: &'a [u8]) -> Hint<'a> {
        Hint::of_two(text, b"", b"", b"", b"")
    }

    /// A quoted word between other words.
    pub fn quoting(before: &'a [u8], word: &'a [u8], after: &'a [u8]) -> Hint<'a> {
        Hint::of_two(before, b"`", word, b"`", after)
    }

    /// Two words, with words before, between and after them.
    pub fn of_two(
        before: &'a [u8],
        first: &'a [u8],
        between: &'a [u8],
        second: &'a [u8],
        after: &'a [u8],
    ) -> Hint<'a> {
        Hint {
            before,
            first,
            between,
            second,
            after,
        }
    }
}

/// Writes the line of a hint, and takes no memory.
///
/// After `SinkFailed` the first bytes of the line were taken, fewer than all and maybe none.
pub fn write_hint<S: Sink>(hint: &Hint, out: &mut S) -> Result<(), SinkFailed>
    ensures { Wrote (S.seen out.old) (S.seen out.new) result (hint_text hint.now) }
{
    write_said(*hint, out)
}

/// Writes the line of these words.
fn write_said<'a, S: Sink>(hint: Hint<'a>, out: &mut S) -> Result<(), SinkFailed>
    ensures { Wrote (S.seen out.old) (S.seen out.new) result (hint_text hint.entry) }
{
    let Hint {
        before,
        first,
        between,
        second,
        after,
    } = hint;
    write_parts(
        &[
            Part {
                way: Way::Plain,
                bytes: b"hint: ",
            },
            Part {
                way: Way::Said,
                bytes: before,
            },
            Part {
                way: Way::Said,
                bytes: first,
            },
            Part {
                way: Way::Said,
                bytes: between,
            },
            Part {
                way: Way::Said,
                bytes: second,
            },
            Part {
                way: Way::Said,
                bytes: after,
            },
            Part {
                way: Way::Plain,
                bytes: b"\n",
            },
        ],
        out,
    )
}

/// Writes a hint, where there is one. It takes no memory.
///
/// After `SinkFailed` the first bytes of the line were taken, fewer than all and maybe none.
pub fn write_hint_if<S: Sink>(hint: Option<Hint>, out: &mut S) -> Result<(), SinkFailed>
    ensures { Wrote (S.seen out.old) (S.seen out.new) result (hint_if hint.entry) }
{
    match hint {
        Some(hint) => write_hint(&hint, out),
        None => Ok(()),
    }
}
