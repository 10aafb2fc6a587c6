//! The guards of blocks, as functions of the state, written to a sink.

ghost use Rattle.std.specs.Prelude.{◌≡◌};
ghost use Rattle.emit_bodies.specs.Guards.{guard_head, guard_reach, guard_text};
ghost use Rattle.base_io.specs.Writing.{Wrote};

use crate::blocks::{write_block_name, write_inputs};
use base_io::{Sink, SinkFailed, write_piece};
use emit_expressions::{Reach, Scope, write_plain};
use lang_tree::{Expr, MethodTree, MonitorTree};

/// Writes the function that tests the guard of a block, by the number of the block in its method,
/// from 1, and by whether the guard of its condition reads inputs: it takes inputs there alone. It
/// takes no memory.
///
/// After `SinkFailed` the first bytes were taken, fewer than all and maybe none.
pub fn write_guard<S: Sink>(
    tree: &MonitorTree,
    method: &MethodTree,
    number: usize,
    reads: bool,
    guard: &Expr,
    out: &mut S,
) -> Result<(), SinkFailed>
    ensures { Wrote (S.seen out.old) (S.seen out.new) result
        (guard_text tree.now method.now number reads guard.now) }
{
    let reach = guard_reach(reads);
    write_head(tree, method, number, reach, out)?;
    let scope = Scope {
        tree,
        method,
        receiver: b"self",
        reach,
        whole: false,
    };
    write_plain(&scope, guard, out)?;
    write_piece(b"\n    }\n", out)
}

fn guard_reach(reads: bool) -> Reach
    ensures { result ≡ guard_reach reads }
{
    if reads { Reach::Held } else { Reach::Unread }
}

// A function of a block that tests its guard, up to the test.
fn write_head<S: Sink>(
    tree: &MonitorTree,
    method: &MethodTree,
    number: usize,
    reach: Reach,
    out: &mut S,
) -> Result<(), SinkFailed>
    ensures { Wrote (S.seen out.old) (S.seen out.new) result
        (guard_head tree.now method.now number reach) }
{
    write_piece(b"    fn ", out)?;
    write_block_name(tree, method, b"can", number, out)?;
    write_piece(b"(&self", out)?;
    write_inputs(method, reach, out)?;
    write_piece(b") -> bool {\n        ", out)
}
