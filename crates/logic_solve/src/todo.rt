//! What a search has left to do.

ghost use Rattle.std.specs.Prelude.{IfOk};
ghost use Rattle.logic_solve.specs.inner.Searches.{in_order, IsNext};

use logic_linear::Formula;
use std::alloc::AllocError;

/// Takes the next formula off the list, whose last part of a list comes first.
pub(crate) fn next<'a>(todo: &mut Vec<&'a [Formula]>) -> Result<Option<&'a Formula>, AllocError>
    ensures { IfOk result (IsNext (in_order todo.old.items) todo.new) }
{
    while let Some(parts) = todo.pop() {
        match parts {
            [] => {}
            [first, rest @ ..] => {
                todo.push(rest)?;
                return Ok(Some(first));
            }
        }
    }
    Ok(None)
}
