//! Names with their values.

ghost use Rattle.std.specs.Prelude.{◌≡◌, ◌≤◌, length};
ghost use Rattle.lang_base.specs.Limits.{FIELDS};
ghost use Rattle.base_io.specs.Writing.{Wrote};
ghost use Rattle.logic_solve.specs.Solutions.{valuation_of};
ghost use Rattle.report_reasons.specs.ReasonText.{field_text, fields_text, named_text, value_text};

use base_io::{Sink, SinkFailed, write_piece, write_pieces};
use itoa::Buffer;
use lang_base::Kind;
use lang_monitor::Field;
use lang_printer::truth_bytes;
use logic_solve::Solution;

/// What stands at a place of this kind. A number's digits stand in the buffer.
fn value_bytes<'a>(at: &Solution, kind: Kind, place: u32, digits: &'a mut Buffer) -> &'a [u8]
    ensures { result.now ≡ value_text (valuation_of at.now) kind place }
{
    match kind {
        Kind::Int => digits.format(at.number(place)).as_bytes(),
        Kind::Bool => truth_bytes(at.flag(place)),
    }
}

/// `readers=0`: a name, and what stands at its place.
pub(crate) fn write_named<S: Sink>(
    at: &Solution,
    name: &[u8],
    kind: Kind,
    place: u32,
    out: &mut S,
) -> Result<(), SinkFailed>
    ensures { Wrote (S.seen out.old) (S.seen out.new) result
        (named_text (valuation_of at.now) name.now kind place) }
{
    write_piece(name, out)?;
    let mut digits = Buffer::new();
    write_pieces(&[b"=", value_bytes(at, kind, place, &mut digits)], out)
}

/// ` readers=0`: a field, by its number.
fn write_field<S: Sink>(
    at: &Solution,
    number: usize,
    field: &Field,
    out: &mut S,
) -> Result<(), SinkFailed>
    requires { number ≤ FIELDS }
    ensures { Wrote (S.seen out.old) (S.seen out.new) result
        (field_text (valuation_of at.now) number field.now) }
{
    write_piece(b" ", out)?;
    write_named(at, field.name.bytes(), field.kind, number as u32, out)
}

/// Writes each field, by what stands at its place: ` readers=0 writing=false`. It takes no memory.
///
/// After `SinkFailed` the first bytes of the text were taken, fewer than all and maybe none.
pub fn write_fields<S: Sink>(at: &Solution, fields: &[Field], out: &mut S) -> Result<(), SinkFailed>
    requires { length fields.now ≤ FIELDS }
    ensures { Wrote (S.seen out.old) (S.seen out.new) result
        (fields_text (valuation_of at.now) fields.now) }
{
    for (number, field) in fields.iter().enumerate() {
        write_field(at, number, field, out)?;
    }
    Ok(())
}
