//! The piece at the front of the bytes: a blank, a comment or a token.

ghost use Rattle.std.specs.Prelude.{◌≡◌, ℕ, List, length, IfSome, nat_eq, find, option_map, ◌≤◌};
ghost use Rattle.std.specs.Prelude.{◌<◌, ◌+◌};
ghost use Rattle.std.specs.List.{position, prefix_len, starts_with};
ghost use Rattle.std.specs.Str.{bytes_eq};
ghost use Rattle.lang_tokens.specs.Spelling.{is_word_byte, is_digit, is_blank, is_in_line};
ghost use Rattle.lang_tokens.specs.Spelling.{kind_of_word};
ghost use Rattle.lang_base.specs.Limits.{FILE_BYTES};
ghost use Rattle.lang_tokens.specs.inner.Pieces.{class_of, is_run, other_at, by_class, longest_at};
ghost use Rattle.lang_tokens.specs.inner.Pieces.{limited, sign_at};

use super::token::{KEYWORD_KINDS, SIGNS, TokenKind};
use lang_base::limits::WORD_BYTES;
use lang_base::{KEYWORDS, is_digit, is_in_line, is_letter, is_word_byte};

/// What a byte outside comments can begin.
#[derive(Clone, Copy, Debug, PartialEq, Eq)]
pub enum Class {
    Letter,
    Digit,
    Blank,
    Other,
}

/// What a piece of the text is.
#[derive(Clone, Copy, Debug, PartialEq, Eq)]
pub enum Shape {
    Blank,
    Comment,
    /// An identifier or a keyword.
    Word,
    Number,
    Sign(TokenKind),
}

fn is_blank(b: u8) -> bool
    ensures { result ≡ is_blank b }
{
    b == b' ' || b == b'\t' || b == b'\n' || b == b'\r'
}

fn class_of(b: u8) -> Class
    ensures { result ≡ class_of b }
{
    if is_letter(b) {
        Class::Letter
    } else if is_digit(b) {
        Class::Digit
    } else if is_blank(b) {
        Class::Blank
    } else {
        Class::Other
    }
}

fn word_len(bytes: &[u8]) -> usize
    ensures len { result ≡ prefix_len is_word_byte bytes.now }
    ensures within { result ≤ length bytes.now }
{
    bytes.iter().take_while(|b| is_word_byte(**b)).count()
}

fn digits_len(bytes: &[u8]) -> usize
    ensures len { result ≡ prefix_len is_digit bytes.now }
    ensures within { result ≤ length bytes.now }
{
    bytes.iter().take_while(|b| is_digit(**b)).count()
}

fn line_len(bytes: &[u8]) -> usize
    ensures len { result ≡ prefix_len is_in_line bytes.now }
    ensures within { result ≤ length bytes.now }
{
    bytes.iter().take_while(|b| is_in_line(**b)).count()
}

/// The first of these signs that stands at the front, and its length.
fn sign_among(signs: &[(&[u8], TokenKind)], bytes: &[u8]) -> Option<(TokenKind, usize)>
    ensures { result ≡ option_map (λ row. (row.1, length row.0.now))
        (find (λ row. starts_with nat_eq bytes.now row.0.now) signs.now) }
{
    let (sign, kind) = signs.iter().find(|(sign, _)| bytes.starts_with(sign))?;
    Some((*kind, sign.len()))
}

/// The longest sign at the front, and its length.
fn sign_at(bytes: &[u8]) -> Option<(TokenKind, usize)>
    ensures { result ≡ sign_at bytes.now }
{
    sign_among(SIGNS.as_slice(), bytes)
}

/// The comment or sign at the front, whatever follows it.
#[tactic(auto, unfolding(crate::specs::inner::Pieces::other_at))]
fn other_at(bytes: &[u8]) -> Option<(Shape, usize)>
    ensures { result ≡ other_at bytes.now }
{
    if bytes.starts_with(b"//") {
        return Some((Shape::Comment, line_len(bytes)));
    }
    let (kind, len) = sign_at(bytes)?;
    Some((Shape::Sign(kind), len))
}

/// The longest piece at the front, of any length.
#[tactic(auto, unfolding(crate::specs::inner::Pieces::longest_at))]
fn longest_at(bytes: &[u8]) -> Option<(Shape, usize)>
    requires { length bytes.now ≤ FILE_BYTES }
    ensures { result ≡ longest_at bytes.now }
{
    match bytes {
        [first, rest @ ..] => match class_of(*first) {
            Class::Letter => Some((Shape::Word, 1 + word_len(rest))),
            Class::Digit => Some((Shape::Number, 1 + digits_len(rest))),
            Class::Blank => Some((Shape::Blank, 1)),
            Class::Other => other_at(bytes),
        },
        _ => None,
    }
}

fn is_run(shape: Shape) -> bool
    ensures { result ≡ is_run shape }
{
    match shape {
        Shape::Word => true,
        Shape::Number => true,
        _ => false,
    }
}

/// The piece at the front, and its length in bytes. A word or a number that is too long is none.
pub fn piece_at(bytes: &[u8]) -> Option<(Shape, usize)>
    requires { length bytes.now ≤ FILE_BYTES }
    ensures { result ≡ limited (longest_at bytes.now) }
{
    match longest_at(bytes) {
        Some((shape, len)) => {
            if is_run(shape) && WORD_BYTES < len {
                None
            } else {
                Some((shape, len))
            }
        }
        None => None,
    }
}

/// The place of the text among the words.
fn place_among(words: &[&[u8]], text: &[u8]) -> Option<usize>
    ensures place { result ≡ position (λ word. bytes_eq text.now word.now) words.now }
    ensures within { IfSome result (λ place. place < length words.now) }
{
    words.iter().position(|word| text == *word)
}

/// The keyword that a word is, or `Ident`.
pub fn kind_of_word(text: &[u8]) -> TokenKind
    ensures { result ≡ kind_of_word text.now }
{
    match place_among(&KEYWORDS, text) {
        Some(place) => KEYWORD_KINDS[place],
        None => TokenKind::Ident,
    }
}
