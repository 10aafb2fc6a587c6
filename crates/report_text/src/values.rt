//! Values and replies as they are printed.

ghost use Rattle.std.specs.Prelude.{◌≡◌};
ghost use Rattle.report_text.specs.TurnsText.{value_text, reply_text};

use itoa::Buffer;
use lang_base::Value;
use lang_printer::truth_bytes;
use machine_implicit::Reply;

/// A value as bytes. A number's digits stand in the buffer.
pub(crate) fn value_bytes<'a>(value: Value, digits: &'a mut Buffer) -> &'a [u8]
    ensures { result.now ≡ value_text value }
{
    match value {
        Value::Int(number) => digits.format(number).as_bytes(),
        Value::Bool(truth) => truth_bytes(truth),
    }
}

/// A reply as bytes. A number's digits stand in the buffer.
pub(crate) fn reply_bytes<'a>(reply: Reply, digits: &'a mut Buffer) -> &'a [u8]
    ensures { result.now ≡ reply_text reply }
{
    match reply {
        Reply::Unit => b"-",
        Reply::Int(number) => digits.format(number).as_bytes(),
        Reply::Bool(truth) => truth_bytes(truth),
        Reply::Overflow => b"overflow",
        Reply::Refused => b"refused",
    }
}
