//! Lines of a text.

ghost use Rattle.std.specs.Prelude.{◌≡◌};
ghost use Rattle.lang_base.specs.Lines.{is_in_line};

/// Whether the byte stands in a line: it is none that ends one.
pub fn is_in_line(byte: u8) -> bool
    ensures { result ≡ is_in_line byte }
{
    byte != b'\n'
}
