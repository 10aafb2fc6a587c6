//! The lints of declarations.

ghost use Rattle.base_io.specs.Writing.{Wrote};
ghost use Rattle.emit_module.specs.Modules.{lints_text};

use base_io::{Sink, SinkFailed, write_piece};
use emit_names::has_odd_name;
use lang_tree::MonitorTree;

/// Writes what keeps lints from names that are written as they stand.
pub(crate) fn write_lints<S: Sink>(tree: &MonitorTree, out: &mut S) -> Result<(), SinkFailed>
    ensures { Wrote (S.seen out.old) (S.seen out.new) result (lints_text tree.now) }
{
    if !has_odd_name(tree) {
        return Ok(());
    }
    write_piece(b"#[allow(non_snake_case, non_upper_case_globals)]\n", out)
}
