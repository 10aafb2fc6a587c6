//! The elimination of the variables of rows.

ghost use Rattle.std.specs.Prelude.{IfOk};
ghost use Rattle.logic_elim.specs.Chains.{state_of};
ghost use Rattle.logic_solve.specs.inner.Literals.{ClosesIf};

use logic_elim::{Elimination, Progress, eliminate};
use std::alloc::{AllocError, Global};

/// A cube's elimination keeps at most so many rows.
pub(crate) const MOST_ROWS: usize = 4_096;

/// Eliminates the variables one after the other, and tells whether the last sum is a positive
/// number.
pub(crate) fn eliminate_all(
    alloc: Global,
    places: &[u32],
    left: &mut Elimination,
) -> Result<bool, AllocError>
    ensures { IfOk result (ClosesIf (state_of left.old) (state_of left.new)) }
{
    for place in places {
        match eliminate(alloc, MOST_ROWS, *place, left)? {
            Progress::Left => {}
            Progress::Closed => return Ok(true),
            Progress::Stopped => return Ok(false),
        }
    }
    Ok(false)
}
