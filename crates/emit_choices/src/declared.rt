//! Declarations: which are fields, their types and values.

ghost use Rattle.std.specs.Prelude.{◌≡◌, decimal};
ghost use Rattle.lang_printer.specs.Canonical.{literal_text, minus_text};
ghost use Rattle.base_io.specs.Writing.{Wrote};
ghost use Rattle.emit_choices.specs.Declarations.{is_field, start_text, typed_start};

use base_io::{Sink, SinkFailed, write_piece, write_pieces};
use emit_bodies::{kind_bytes, kind_declared};
use itoa::Buffer;
use lang_printer::truth_bytes;
use lang_tree::{Decl, Lit};

/// Whether a declaration is that of a field or a parameter, and not of a constant.
pub fn is_field(declared: &Decl) -> bool
    ensures { result ≡ is_field declared.now }
{
    match declared {
        Decl::Const { .. } => false,
        Decl::Param { .. } | Decl::Int { .. } | Decl::Copied { .. } | Decl::Flag { .. } => true,
    }
}

/// Writes the type and the value of a declaration: `: i64 = 0`. It takes no memory.
///
/// After `SinkFailed` the first bytes were taken, fewer than all and maybe none.
pub fn write_typed_start<S: Sink>(declared: &Decl, out: &mut S) -> Result<(), SinkFailed>
    ensures { Wrote (S.seen out.old) (S.seen out.new) result (typed_start declared.now) }
{
    write_pieces(&[b": ", kind_bytes(kind_declared(declared)), b" = "], out)?;
    write_start(declared, out)
}

/// Writes the value of a declaration as the file has it. It takes no memory.
///
/// After `SinkFailed` the first bytes were taken, fewer than all and maybe none.
pub fn write_start<S: Sink>(declared: &Decl, out: &mut S) -> Result<(), SinkFailed>
    ensures { Wrote (S.seen out.old) (S.seen out.new) result (start_text declared.now) }
{
    match declared {
        Decl::Const { value, .. } => write_literal(*value, out),
        Decl::Param { value, .. } => write_literal(*value, out),
        Decl::Int { value, .. } => write_literal(*value, out),
        Decl::Copied { source, .. } => write_piece(source.name.bytes(), out),
        Decl::Flag { value, .. } => write_piece(truth_bytes(*value), out),
    }
}

/// Writes a number with its sign.
pub(crate) fn write_literal<S: Sink>(value: Lit, out: &mut S) -> Result<(), SinkFailed>
    ensures { Wrote (S.seen out.old) (S.seen out.new) result (literal_text value) }
{
    write_piece(minus_bytes(value.minus), out)?;
    write_digits(value.digits, out)
}

fn write_digits<S: Sink>(number: u128, out: &mut S) -> Result<(), SinkFailed>
    ensures { Wrote (S.seen out.old) (S.seen out.new) result (decimal number) }
{
    let mut digits = Buffer::new();
    write_piece(digits.format(number).as_bytes(), out)
}

fn minus_bytes(minus: bool) -> &'static [u8]
    ensures { result.now ≡ minus_text minus }
{
    if minus { b"-" } else { b"" }
}
