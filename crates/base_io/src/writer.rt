//! Texts written piece by piece to a sink. No writer takes memory.

ghost use Rattle.base_io.specs.Writing.{Wrote, pieces_text};

use crate::sink::{Sink, SinkFailed, write_whole};

/// Writes these pieces whole, one after the other, and takes no memory.
///
/// After `SinkFailed` the first bytes of the row were taken, fewer than all and maybe none.
pub fn write_pieces<S: Sink>(pieces: &[&[u8]], out: &mut S) -> Result<(), SinkFailed>
    ensures { Wrote (S.seen out.old) (S.seen out.new) result (pieces_text pieces.now) }
{
    for piece in pieces {
        write_piece(piece, out)?;
    }
    Ok(())
}

/// Writes these bytes whole as [`write_whole`] does, with the sink last, for a text of several
/// parts.
///
/// After `SinkFailed` the first of them were taken, fewer than all and maybe none.
pub fn write_piece<S: Sink>(piece: &[u8], out: &mut S) -> Result<(), SinkFailed>
    ensures { Wrote (S.seen out.old) (S.seen out.new) result piece.now }
{
    write_whole(out, piece)
}
