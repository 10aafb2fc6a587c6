//! The numbers of fields at the start.

ghost use Rattle.std.specs.Prelude.{◌≡◌, All, true};
ghost use Rattle.std.specs.List.{list_all};
ghost use Rattle.lang_monitor.specs.Bodies.{fits_64};
ghost use Rattle.lang_monitor.specs.Candidates.{AreSomeOf, candidates_of};
ghost use Rattle.logic_wp.specs.Expressible.{is_expressible};

use lang_base::Value;
use lang_monitor::{Candidate, Field, Monitor};
use logic_wp::candidates_are_expressible;

/// A value is within 64 bits, which a read of it tells.
fn read_value(value: &Value)
    ensures { fits_64 value.now ≡ true }
{
    match value {
        Value::Int(number) => {
            let _number = *number;
        }
        Value::Bool(_) => {}
    }
}

/// The numbers of fields fit 64 bits at the start.
fn read_starts(fields: &[Field])
    ensures { All (λ field. fits_64 field.start ≡ true) fields.now }
{
    for field in fields {
        read_value(&field.start);
    }
}

/// The candidates that a plan keeps have formulas.
pub(crate) fn kept_have_formulas(monitor: &Monitor, kept: &[Candidate])
    requires { AreSomeOf kept.now (candidates_of monitor.now) }
    ensures { list_all is_expressible kept.now ≡ true }
{
    candidates_are_expressible();
    read_starts(monitor.fields());
}
