//! Names of methods and blocks.

ghost use Rattle.std.specs.Prelude.{◌≡◌, ◌<◌, Some, slice_get};
ghost use Rattle.lang_base.specs.Limits.{BLOCKS};
ghost use Rattle.base_io.specs.Writing.{Wrote};
ghost use Rattle.machine_events.specs.PlanText.{block_mark, block_name, method_name, name_in};

use base_io::{Sink, SinkFailed, write_piece, write_pieces};
use itoa::Buffer;
use lang_monitor::{Method, Monitor};

/// Writes the name of a block, by its number in the monitor: its method's name, and for a method of
/// several blocks its number among these, from 1. It takes no memory.
///
/// After `SinkFailed` the first bytes of the name were taken, fewer than all and maybe none.
pub fn write_block_name<S: Sink>(
    monitor: &Monitor,
    block: usize,
    out: &mut S,
) -> Result<(), SinkFailed>
    ensures { Wrote (S.seen out.old) (S.seen out.new) result (block_name monitor.now block) }
{
    let Some(held) = monitor.blocks().get(block) else {
        return Ok(());
    };
    match monitor.methods().get(held.method as usize) {
        Some(method) => write_name_in(method, block, out),
        None => Ok(()),
    }
}

// `put`, or `pair.2`: a method, and the block of it that has this number in the monitor.
fn write_name_in<S: Sink>(method: &Method, block: usize, out: &mut S) -> Result<(), SinkFailed>
    requires { block < BLOCKS }
    ensures { Wrote (S.seen out.old) (S.seen out.new) result (name_in (Some method.now) block) }
{
    write_piece(method.name.bytes(), out)?;
    let before = block.saturating_sub(method.first as usize);
    write_mark(method.count, before + 1, out)
}

/// `.2`: the number, from 1, of a block among so many of its method, or nothing for the only one.
pub(crate) fn write_mark<S: Sink>(count: u32, number: usize, out: &mut S) -> Result<(), SinkFailed>
    ensures { Wrote (S.seen out.old) (S.seen out.new) result (block_mark count number) }
{
    if count <= 1 {
        return Ok(());
    }
    let mut digits = Buffer::new();
    write_pieces(&[b".", digits.format(number).as_bytes()], out)
}

/// The name of a method, or nothing where there is none.
pub(crate) fn method_bytes(monitor: &Monitor, method: u32) -> &[u8]
    ensures { result.now ≡ method_name (slice_get monitor.now.methods method) }
{
    match monitor.methods().get(method as usize) {
        Some(method) => method.name.bytes(),
        None => b"",
    }
}
