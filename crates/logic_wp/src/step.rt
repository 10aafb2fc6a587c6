//! Steps of paths.

ghost use Rattle.std.specs.Prelude.{◌≡◌, IfOk};

use logic_linear::{Formula, Put, copy_formula};
use std::alloc::{AllocError, Global};

/// A step of a path through a body: an assignment, or a condition that is assumed there.
#[derive(Debug, Drop)]
pub enum Step {
    Put(Put),
    Assume(Formula),
}

/// A copy of the assignment.
pub(crate) fn copy_put(alloc: Global, put: &Put) -> Result<Put, AllocError>
    ensures { IfOk result (λ copy. copy ≡ put.now) }
{
    match put {
        Put::Number { place, form } => Ok(Put::Number {
            place: *place,
            form: form.clone()?,
        }),
        Put::Truth { place, is } => Ok(Put::Truth {
            place: *place,
            is: copy_formula(alloc, is)?,
        }),
    }
}
