//! How deep a line stands.

ghost use Rattle.emit_bodies.specs.Statements.{indent};
ghost use Rattle.emit_bodies.specs.inner.Depths.{levels};
ghost use Rattle.base_io.specs.Writing.{Wrote};

use base_io::{Sink, SinkFailed, write_piece};

/// How deep a line stands: at the margin, or one level deeper than another.
///
/// It is a chain on the stack and no number, since statements stand in one another without a bound.
#[derive(Clone, Copy)]
pub(crate) enum Depth<'a> {
    Margin,
    Below(&'a Depth<'a>),
}

/// Four blanks for each level.
pub(crate) fn write_indent<S: Sink>(depth: &Depth, out: &mut S) -> Result<(), SinkFailed>
    ensures { Wrote (S.seen out.old) (S.seen out.new) result (indent (levels depth.now)) }
{
    match depth {
        Depth::Margin => Ok(()),
        Depth::Below(above) => {
            write_piece(b"    ", out)?;
            write_indent(above, out)
        }
    }
}
