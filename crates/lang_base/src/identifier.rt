//! Identifiers: the names that a file may give, and their bytes.

ghost use Rattle.std.specs.Prelude.{◌≡◌, ◌↔◌, IsTrue};
ghost use Rattle.std.specs.List.{list_all, list_any};
ghost use Rattle.std.specs.Str.{bytes_eq};
ghost use Rattle.lang_base.specs.Identifiers.{IsIdentifier, is_digit, is_keyword, is_letter};
ghost use Rattle.lang_base.specs.Identifiers.{is_spelled, is_word_byte};

use super::limits::WORD_BYTES;

/// The words of the language, which name nothing. Definitions give them the same name
/// (`specs/Identifiers`).
pub const KEYWORDS: [&[u8]; 15] = [
    b"monitor",
    b"const",
    b"int",
    b"bool",
    b"true",
    b"false",
    b"method",
    b"waituntil",
    b"if",
    b"else",
    b"return",
    b"client",
    b"repeat",
    b"try",
    b"local",
];

/// Whether the bytes are one identifier: 1 to 32 letters, digits and underscores, of which the
/// first is no digit, and no keyword. A blank or anything else before or after it makes them none.
pub fn is_identifier(bytes: &[u8]) -> bool
    ensures { IsTrue result ↔ IsIdentifier bytes.now }
{
    is_spelled(bytes) && bytes.len() <= WORD_BYTES && !is_keyword(bytes)
}

/// Whether the bytes are a letter, and then letters and digits.
fn is_spelled(bytes: &[u8]) -> bool
    ensures { result ≡ is_spelled bytes.now }
{
    match bytes {
        [first, more @ ..] => is_letter(*first) && are_words(more),
        _ => false,
    }
}

fn are_words(bytes: &[u8]) -> bool
    ensures { result ≡ list_all is_word_byte bytes.now }
{
    bytes.iter().all(|b| is_word_byte(*b))
}

/// Whether the byte is a letter or an underscore: one of `a` to `z`, `A` to `Z` and `_`.
pub fn is_letter(b: u8) -> bool
    ensures { result ≡ is_letter b }
{
    (b'a' <= b && b <= b'z') || (b'A' <= b && b <= b'Z') || b == b'_'
}

/// Whether the byte is a decimal digit: one of `0` to `9`.
pub fn is_digit(b: u8) -> bool
    ensures { result ≡ is_digit b }
{
    b'0' <= b && b <= b'9'
}

/// Whether the byte may stand in an identifier after its first: a letter, an underscore or a
/// decimal digit.
pub fn is_word_byte(b: u8) -> bool
    ensures { result ≡ is_word_byte b }
{
    is_letter(b) || is_digit(b)
}

/// Whether the bytes are a word of the language.
fn is_keyword(text: &[u8]) -> bool
    ensures { result ≡ is_keyword text.now }
{
    is_among(&KEYWORDS, text)
}

fn is_among(words: &[&[u8]], text: &[u8]) -> bool
    ensures { result ≡ list_any (λ word. bytes_eq text.now word.now) words.now }
{
    words.iter().any(|word| text == *word)
}
