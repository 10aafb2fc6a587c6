//! The line of an offset, with a caret under it.

ghost use Rattle.std.specs.Prelude.{◌≡◌, ◌-◌, drop, length, reverse, take};
ghost use Rattle.std.specs.List.{prefix_len};
ghost use Rattle.lang_base.specs.Lines.{is_in_line};
ghost use Rattle.base_io.specs.Writing.{Wrote};
ghost use Rattle.front_hint.specs.Shown.{before_place, caret_text, from_place, line_text};

use crate::parts::{Part, Way, write_parts};
use base_io::{Sink, SinkFailed};
use lang_base::is_in_line;

/// The most bytes of a line that are shown on each side of the place. Definitions give it the same
/// name and number (`specs/Shown`).
const SIDE_BYTES: usize = 80;

/// Writes the line of an offset, and under it a caret at the offset. It takes no memory.
///
/// After `SinkFailed` the first bytes of the text were taken, fewer than all and maybe none.
pub fn write_caret<S: Sink>(bytes: &[u8], at: u32, out: &mut S) -> Result<(), SinkFailed>
    ensures { Wrote (S.seen out.old) (S.seen out.new) result (caret_text bytes.now at) }
{
    write_line(before_place(bytes, at), from_place(bytes, at), out)
}

/// Writes these two parts of a line, and a caret below between them.
fn write_line<'a, S: Sink>(before: &'a [u8], from: &'a [u8], out: &mut S) -> Result<(), SinkFailed>
    ensures { Wrote (S.seen out.old) (S.seen out.new) result
        (line_text before.now from.now) }
{
    write_parts(
        &[
            Part {
                way: Way::Plain,
                bytes: b"  ",
            },
            Part {
                way: Way::Shown,
                bytes: before,
            },
            Part {
                way: Way::Shown,
                bytes: from,
            },
            Part {
                way: Way::Plain,
                bytes: b"\n  ",
            },
            Part {
                way: Way::Blank,
                bytes: before,
            },
            Part {
                way: Way::Plain,
                bytes: b"^\n",
            },
        ],
        out,
    )
}

/// The last bytes of the line that stand before the offset.
fn before_place(bytes: &[u8], at: u32) -> &[u8]
    ensures { result.now ≡ before_place bytes.now at }
{
    let front = first_of(bytes, at as usize);
    last_of(front, in_line_back(front).min(SIDE_BYTES))
}

/// The first bytes of the line from the offset on.
fn from_place(bytes: &[u8], at: u32) -> &[u8]
    ensures { result.now ≡ from_place bytes.now at }
{
    let back = rest_of(bytes, at as usize);
    first_of(back, in_line(back).min(SIDE_BYTES))
}

/// So many of the first bytes, or all where there are fewer.
fn first_of(bytes: &[u8], count: usize) -> &[u8]
    ensures { result.now ≡ take count bytes.now }
{
    bytes.get(..count).unwrap_or(bytes)
}

/// The bytes but for so many of the first.
fn rest_of(bytes: &[u8], count: usize) -> &[u8]
    ensures { result.now ≡ drop count bytes.now }
{
    bytes.get(count..).unwrap_or(b"")
}

/// So many of the last bytes, or all where there are fewer.
fn last_of(bytes: &[u8], count: usize) -> &[u8]
    ensures { result.now ≡ drop (length bytes.now - count) bytes.now }
{
    rest_of(bytes, bytes.len().saturating_sub(count))
}

/// How many of the last bytes end no line.
fn in_line_back(bytes: &[u8]) -> usize
    ensures { result ≡ prefix_len is_in_line (reverse bytes.now) }
{
    bytes
        .iter()
        .rev()
        .take_while(|byte| is_in_line(**byte))
        .count()
}

/// How many of the first bytes end no line.
fn in_line(bytes: &[u8]) -> usize
    ensures { result ≡ prefix_len is_in_line bytes.now }
{
    bytes.iter().take_while(|byte| is_in_line(**byte)).count()
}
