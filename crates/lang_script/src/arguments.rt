//! Arguments of calls: what they are for, and the numbers that they write.

ghost use Rattle.std.specs.Prelude.{◌≡◌, ◌≤◌, length, zip};
ghost use Rattle.std.specs.List.{flat_map};
ghost use Rattle.lang_base.specs.Limits.{GREATEST_NUMBER};
ghost use Rattle.lang_base.specs.SourceFaults.{least};
ghost use Rattle.lang_script.specs.Faults.{argument_faults, argument_place, is_for, number_faults};
ghost use Rattle.lang_script.specs.Faults.{type_faults};
ghost use Rattle.lang_script.specs.Scripts.{number_of, value_of};
ghost use Rattle.lang_script.specs.inner.Making.{IsSmallArgument};

use lang_base::limits::GREATEST_NUMBER;
use lang_base::{Kind, Refusal, SourceFault, Value, earlier_of};
use lang_tree::{Arg, Lit};

/// The first of the written numbers that is too large.
pub(crate) fn large_number(arguments: &[Arg]) -> Option<SourceFault>
    ensures { result ≡ least (flat_map number_faults arguments.now) }
{
    let mut fault = None;
    for argument in arguments {
        fault = earlier_of(fault, number_fault(argument));
    }
    fault
}

fn number_fault(argument: &Arg) -> Option<SourceFault>
    ensures { result ≡ least (number_faults argument.now) }
{
    match argument {
        Arg::Int { value, .. } => if GREATEST_NUMBER < value.digits {
            Some(SourceFault {
                at: value.at,
                what: Refusal::TooLarge,
            })
        } else {
            None
        },
        Arg::Bool { .. } => None,
    }
}

/// There are as many arguments as inputs, and then each is for its input.
pub(crate) fn argument_fault(inputs: &[Kind], at: u32, arguments: &[Arg]) -> Option<SourceFault>
    ensures { result ≡ least (argument_faults inputs.now at arguments.now) }
{
    if arguments.len() == inputs.len() {
        wrong_type(inputs, arguments)
    } else {
        Some(SourceFault {
            at,
            what: Refusal::WrongCount,
        })
    }
}

/// The first argument that is not for its input.
fn wrong_type(inputs: &[Kind], arguments: &[Arg]) -> Option<SourceFault>
    requires { length arguments.now ≡ length inputs.now }
    ensures { result ≡ least (flat_map type_faults (zip inputs.now arguments.now)) }
{
    let mut fault = None;
    for (i, argument) in arguments.iter().enumerate() {
        fault = earlier_of(fault, type_fault(inputs[i], argument));
    }
    fault
}

fn type_fault(kind: Kind, argument: &Arg) -> Option<SourceFault>
    ensures { result ≡ least (type_faults (kind, argument.now)) }
{
    if is_for(kind, argument) {
        None
    } else {
        Some(SourceFault {
            at: argument_place(argument),
            what: Refusal::WrongType,
        })
    }
}

/// Whether an argument is one for an input of this kind.
fn is_for(kind: Kind, argument: &Arg) -> bool
    ensures { result ≡ is_for kind argument.now }
{
    match kind {
        Kind::Int => matches!(argument, Arg::Int { .. }),
        Kind::Bool => matches!(argument, Arg::Bool { .. }),
    }
}

/// The offset of an argument's first token.
fn argument_place(argument: &Arg) -> u32
    ensures { result ≡ argument_place argument.now }
{
    match argument {
        Arg::Int { at, .. } => *at,
        Arg::Bool { at, .. } => *at,
    }
}

/// The value that an argument gives.
pub(crate) fn value_of(argument: &Arg) -> Value
    requires { IsSmallArgument argument.now }
    ensures { result ≡ value_of argument.now }
{
    match argument {
        Arg::Int { value, .. } => Value::Int(number_of(value)),
        Arg::Bool { value, .. } => Value::Bool(*value),
    }
}

fn number_of(literal: &Lit) -> i64
    requires { literal.now.digits ≤ GREATEST_NUMBER }
    ensures { result ≡ number_of literal.now }
{
    let magnitude = literal.digits as i64;
    if literal.minus { -magnitude } else { magnitude }
}
