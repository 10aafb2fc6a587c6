//! The text of a candidate.

ghost use Rattle.std.specs.Prelude.{◌≡◌, ◌++◌, slice_get};
ghost use Rattle.base_io.specs.Writing.{Wrote};
ghost use Rattle.machine_events.specs.PlanText.{candidate_text, field_name, flag_mark};

use base_io::{Sink, SinkFailed, write_pieces};
use itoa::Buffer;
use lang_monitor::{Candidate, Field};

/// Writes a candidate about these fields: `x <= 4`, `x >= -1`, `b`, `!b` or `x <= y`. It takes no
/// memory.
///
/// After `SinkFailed` the first bytes of the text were taken, fewer than all and maybe none.
pub fn write_candidate<S: Sink>(
    fields: &[Field],
    candidate: Candidate,
    out: &mut S,
) -> Result<(), SinkFailed>
    ensures { Wrote (S.seen out.old) (S.seen out.new) result (candidate_text fields.now candidate) }
{
    let mut digits = Buffer::new();
    match candidate {
        Candidate::AtMost { field, bound } => {
            let bound = digits.format(bound).as_bytes();
            write_sides(field_bytes(fields, field), b" <= ", bound, out)
        }
        Candidate::AtLeast { field, bound } => {
            let bound = digits.format(bound).as_bytes();
            write_sides(field_bytes(fields, field), b" >= ", bound, out)
        }
        Candidate::Flag { field, is } => {
            write_sides(flag_bytes(is), field_bytes(fields, field), b"", out)
        }
        Candidate::Below { left, right } => write_sides(
            field_bytes(fields, left),
            b" <= ",
            field_bytes(fields, right),
            out,
        ),
    }
}

// What stands on both sides of a sign.
fn write_sides<'a, S: Sink>(
    left: &'a [u8],
    sign: &'a [u8],
    right: &'a [u8],
    out: &mut S,
) -> Result<(), SinkFailed>
    ensures { Wrote (S.seen out.old) (S.seen out.new) result
        (left.now ++ sign.now ++ right.now) }
{
    write_pieces(&[left, sign, right], out)
}

// The name of a field, or nothing where there is none.
fn field_bytes(fields: &[Field], field: u32) -> &[u8]
    ensures { result.now ≡ field_name (slice_get fields.now field) }
{
    match fields.get(field as usize) {
        Some(field) => field.name.bytes(),
        None => b"",
    }
}

fn flag_bytes(is: bool) -> &'static [u8]
    ensures { result.now ≡ flag_mark is }
{
    if is { b"" } else { b"!" }
}
