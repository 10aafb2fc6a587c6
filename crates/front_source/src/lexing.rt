//! Hints of places where no token starts.

use crate::around::Around;
use front_hint::{Hint, is, said_at_front};
use lang_base::is_word_byte;
use lang_tokens::TokenKind;

/// What is said of signs that no token begins with.
const FOREIGN_SIGNS: [(&[u8], &[u8]); 34] = [
    (
        b"/*",
        b"a comment begins with `//` and ends with its line: there is no `/* */`",
    ),
    (
        b"*/",
        b"a comment begins with `//` and ends with its line: there is no `/* */`",
    ),
    (b"/", b"there is no division; a comment begins with `//`"),
    (b"&", b"and is written `&&`, not `&`"),
    (b"|", b"or is written `||`, not `|`"),
    (b"%", b"there is no remainder: sums have `+`, `-` and `*`"),
    (b"^", b"there is no `^`: sums have `+`, `-` and `*`"),
    (b"#", b"a comment begins with `//`, not with `#`"),
    (b":=", b"`=` assigns; `==` compares"),
    (
        b"::",
        b"there is no `::`: a name is one word, as in `get();`",
    ),
    (
        b":",
        b"a type stands before its name, with no `:`, as in `int count = 0;`",
    ),
    (
        b"[",
        b"there are no lists: a field is one number or one truth value",
    ),
    (
        b"]",
        b"there are no lists: a field is one number or one truth value",
    ),
    (
        b".",
        b"there is no `.`: numbers are whole, and a name is one word",
    ),
    (
        b"\"",
        b"there are no texts: a value is a number, `true` or `false`",
    ),
    (
        b"'",
        b"there are no texts: a value is a number, `true` or `false`",
    ),
    (b"?", b"there is no `?`: write `if (..) { .. } else { .. }`"),
    (b"~", b"there is no `~`: not is written `!`"),
    (
        b"\xEF\xBB\xBF",
        b"the file begins with a byte order mark: save it as UTF-8 without one",
    ),
    (
        b"\xC2\xA0",
        b"a no-break space stands here: write a blank in its place",
    ),
    (
        b"\xE2\x80\x8B",
        b"a space without width stands here: take it away",
    ),
    (b"\xE2\x80\x93", b"this dash is no minus: write `-`"),
    (b"\xE2\x80\x94", b"this dash is no minus: write `-`"),
    (
        b"\xE2\x88\x92",
        b"this sign is no minus of a file: write `-`",
    ),
    (b"\xE2\x89\xA4", b"at most is written `<=`"),
    (b"\xE2\x89\xA5", b"at least is written `>=`"),
    (b"\xE2\x89\xA0", b"differs is written `!=`"),
    (b"\xE2\x88\xA7", b"and is written `&&`"),
    (b"\xE2\x88\xA8", b"or is written `||`"),
    (b"\xC2\xAC", b"not is written `!`"),
    (
        b"\xE2\x80\x9C",
        b"there are no texts: a value is a number, `true` or `false`",
    ),
    (b"\xFF\xFE", b"the file is UTF-16: save it as UTF-8"),
    (b"\xFE\xFF", b"the file is UTF-16: save it as UTF-8"),
    (b"\0", b"a byte of 0 stands here: the file is no text"),
];

/// What is likely wrong where no token starts.
pub(crate) fn lexing_hint<'a>(place: &Around<'a>) -> Option<Hint<'a>> {
    if place.rest().starts_with(b":") && !place.rest().starts_with(b":=") {
        return colon_hint(place).or(sign_hint(place.rest()));
    }
    let is_method = is(place.text(0), "client") && place.kind_before() == Some(TokenKind::Ident);
    if place.rest().starts_with(b".") && is_method {
        return Some(Hint::of(b"a call has the name of its method alone, as `get();`"));
    }
    sign_hint(place.rest())
}

/// What is likely wrong of a `:`.
fn colon_hint<'a>(place: &Around<'a>) -> Option<Hint<'a>> {
    if is(place.before(2), "const") {
        Some(Hint::of(b"a constant has no type: `const CAP = 1;`"))
    } else if is(place.before(2), "monitor") || is(place.before(2), "client") {
        Some(Hint::quoting(b"expected `{` after ", place.before(1), b""))
    } else if is(place.before(1), ")") {
        Some(Hint::of(b"nobody declares what a method answers: `return` says it"))
    } else if place.braces() > 1 {
        Some(Hint::of(b"a statement ends in `;`, not in `:`"))
    } else {
        None
    }
}

/// What is likely wrong of the bytes with which no token starts.
fn sign_hint<'a>(rest: &'a [u8]) -> Option<Hint<'a>> {
    if let Some(said) = said_at_front(&FOREIGN_SIGNS, rest) {
        return Some(Hint::of(said));
    }
    let first = *rest.first()?;
    if is_word_byte(first) {
        return Some(Hint::of(b"a name or a number has at most 32 letters or digits"));
    }
    Some(Hint::quoting(b"", foreign(rest, first), b" is no sign of the language"))
}

/// The bytes of the character at the front, or its first byte.
fn foreign<'a>(rest: &'a [u8], first: u8) -> &'a [u8] {
    let length = if first < 0xC0 {
        1
    } else if first < 0xE0 {
        2
    } else if first < 0xF0 {
        3
    } else {
        4
    };
    match rest.get(..length) {
        Some(character) if is_character(character) => character,
        _ => b"?",
    }
}

/// Whether the bytes are a character that may be printed.
fn is_character(bytes: &[u8]) -> bool {
    std::str::from_utf8(bytes).is_ok() && !is_control(bytes)
}

/// Whether the bytes are one of the 32 control characters beyond ASCII.
fn is_control(bytes: &[u8]) -> bool {
    match bytes {
        [first, second] => *first == 0xC2 && *second < 0xA0,
        _ => false,
    }
}
