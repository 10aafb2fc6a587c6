//! Texts of parts, whose bytes are written one by one.

ghost use Rattle.std.specs.Prelude.{◌≡◌, [], ◌∷◌, map};
ghost use Rattle.base_io.specs.Writing.{Wrote};
ghost use Rattle.front_hint.specs.Shown.{said_byte, shown_byte};
ghost use Rattle.front_hint.specs.inner.Ways.{part_text, parts_text, written_byte};

use base_io::{Sink, SinkFailed, write_piece};

/// What is written of each byte.
#[derive(Clone, Copy)]
pub(crate) enum Way {
    /// The byte.
    Plain,
    /// The byte as a line shows it.
    Shown,
    /// A blank.
    Blank,
    /// The byte as a hint says it.
    Said,
}

/// Bytes that are written in a way.
#[derive(Clone, Copy)]
pub(crate) struct Part<'a> {
    pub(crate) way: Way,
    pub(crate) bytes: &'a [u8],
}

/// Writes these parts, one after the other.
pub(crate) fn write_parts<S: Sink>(parts: &[Part], out: &mut S) -> Result<(), SinkFailed>
    ensures { Wrote (S.seen out.old) (S.seen out.new) result (parts_text parts.now) }
{
    for part in parts {
        write_part(*part, out)?;
    }
    Ok(())
}

/// Writes the bytes of a part, one by one.
fn write_part<S: Sink>(part: Part, out: &mut S) -> Result<(), SinkFailed>
    ensures { Wrote (S.seen out.old) (S.seen out.new) result (part_text part.entry) }
{
    for byte in part.bytes {
        write_byte(written_byte(part.way, *byte), out)?;
    }
    Ok(())
}

/// Writes one byte.
fn write_byte<S: Sink>(byte: u8, out: &mut S) -> Result<(), SinkFailed>
    ensures { Wrote (S.seen out.old) (S.seen out.new) result (byte ∷ []) }
{
    write_piece(&[byte], out)
}

/// What stands for a byte.
fn written_byte(way: Way, byte: u8) -> u8
    ensures { result ≡ written_byte way byte }
{
    match way {
        Way::Plain => byte,
        Way::Shown => shown_byte(byte),
        Way::Blank => b' ',
        Way::Said => said_byte(byte),
    }
}

/// How a line shows a byte, in one column.
fn shown_byte(byte: u8) -> u8
    ensures { result ≡ shown_byte byte }
{
    if byte < 32 {
        b' '
    } else if byte < 127 {
        byte
    } else {
        b'?'
    }
}

/// How a hint says a byte.
fn said_byte(byte: u8) -> u8
    ensures { result ≡ said_byte byte }
{
    if byte < 32 {
        b'?'
    } else if byte == 127 {
        b'?'
    } else {
        byte
    }
}
