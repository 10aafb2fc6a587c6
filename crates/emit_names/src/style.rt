//! Letters, and how a name is written with them.

ghost use Rattle.std.specs.Prelude.{◌≡◌};
ghost use Rattle.emit_names.specs.Letters.{begins_word, cased, is_lower, is_upper, lower, upper};

/// How a name is written: as it stands, in snake case, or in snake case and upper-case letters.
#[derive(Clone, Copy, Debug, PartialEq, Eq)]
pub enum Style {
    Kept,
    Snake,
    Upper,
}

fn is_lower(b: u8) -> bool
    ensures { result ≡ is_lower b }
{
    b'a' <= b && b <= b'z'
}

fn is_upper(b: u8) -> bool
    ensures { result ≡ is_upper b }
{
    b'A' <= b && b <= b'Z'
}

fn lower(b: u8) -> u8
    ensures { result ≡ lower b }
{
    if is_upper(b) { b + 32 } else { b }
}

/// The upper-case letter of a lower-case one. Any other byte stays.
pub(crate) fn upper(b: u8) -> u8
    ensures { result ≡ upper b }
{
    if is_lower(b) { b - 32 } else { b }
}

/// A byte of a name, as the style has it.
pub(crate) fn cased(style: Style, b: u8) -> u8
    ensures { result ≡ cased style b }
{
    match style {
        Style::Kept => b,
        Style::Snake => lower(b),
        Style::Upper => upper(b),
    }
}

/// Whether the style puts a `_` between these bytes.
pub(crate) fn begins_word(style: Style, before: u8, b: u8) -> bool
    ensures { result ≡ begins_word style before b }
{
    match style {
        Style::Kept => false,
        Style::Snake | Style::Upper => is_lower(before) && is_upper(b),
    }
}
