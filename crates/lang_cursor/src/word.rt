//! What single tokens say: a name, a number, or one of a table of keywords and signs.

ghost use Rattle.std.specs.Prelude.{◌≡◌, IfOk};
ghost use Rattle.std.specs.Str.{bytes_eq};
ghost use Rattle.lang_tokens.specs.Spelling.{IsDecimal, text_of};
ghost use Rattle.lang_tokens.specs.Words.{decimal_value};
ghost use Rattle.lang_cursor.specs.Arguments.{plain};
ghost use Rattle.lang_cursor.specs.Reading.{is_kind, kind_of, limit_sign_of, minus_of, op_of};
ghost use Rattle.lang_cursor.specs.Reading.{truth_of};

use lang_base::{Kind, Name};
use lang_tokens::{Token, TokenKind, decimal_value};
use lang_tree::{Arg, Expr, LimitSign, Lit, Op};
use std::alloc::{AllocError, Global};

/// A written number and its offset.
#[derive(Clone, Copy, Debug)]
pub struct PlacedNumber {
    pub at: u32,
    pub value: u128,
}

pub fn is_kind(a: TokenKind, b: TokenKind) -> bool
    ensures { result ≡ is_kind a b }
{
    a == b
}

// ---- tables of keywords and signs

/// The comparison of a sign.
pub fn op_of(kind: TokenKind) -> Option<Op>
    ensures { result ≡ op_of kind }
{
    match kind {
        TokenKind::Equal => Some(Op::Equal),
        TokenKind::Differs => Some(Op::Differs),
        TokenKind::Less => Some(Op::Less),
        TokenKind::AtMost => Some(Op::AtMost),
        TokenKind::More => Some(Op::More),
        TokenKind::AtLeast => Some(Op::AtLeast),
        _ => None,
    }
}

/// How a parameter compares with its bound.
pub fn limit_sign_of(kind: TokenKind) -> Option<LimitSign>
    ensures { result ≡ limit_sign_of kind }
{
    match kind {
        TokenKind::Equal => Some(LimitSign::Equal),
        TokenKind::Less => Some(LimitSign::Less),
        TokenKind::AtMost => Some(LimitSign::AtMost),
        TokenKind::More => Some(LimitSign::More),
        TokenKind::AtLeast => Some(LimitSign::AtLeast),
        _ => None,
    }
}

/// Whether it is a minus, where it is a plus or a minus.
pub fn minus_of(kind: TokenKind) -> Option<bool>
    ensures { result ≡ minus_of kind }
{
    match kind {
        TokenKind::Plus => Some(false),
        TokenKind::Minus => Some(true),
        _ => None,
    }
}

/// The truth value of a keyword.
pub fn truth_of(kind: TokenKind) -> Option<bool>
    ensures { result ≡ truth_of kind }
{
    match kind {
        TokenKind::KeyTrue => Some(true),
        TokenKind::KeyFalse => Some(false),
        _ => None,
    }
}

/// What a parameter of this keyword takes.
pub fn kind_of(kind: TokenKind) -> Option<Kind>
    ensures { result ≡ kind_of kind }
{
    match kind {
        TokenKind::KeyInt => Some(Kind::Int),
        TokenKind::KeyBool => Some(Kind::Bool),
        _ => None,
    }
}

// ---- names and numbers

fn text_of<'a>(bytes: &'a [u8], token: &Token) -> &'a [u8]
    ensures { result.now ≡ text_of bytes.now token.now }
{
    let start = (token.at as usize).min(bytes.len());
    let end = (start + token.len as usize).min(bytes.len());
    &bytes[start..end]
}

/// The text of a token.
pub fn name_of(alloc: Global, bytes: &[u8], token: &Token) -> Result<Name, AllocError>
    ensures { IfOk result (λ name. name ≡ text_of bytes.now token.now) }
{
    Ok(Name::of(Vec::from_slice(alloc, text_of(bytes, token))?))
}

/// Whether a token's text is these letters.
pub fn is_spelled(bytes: &[u8], token: &Token, letters: &[u8]) -> bool
    ensures { result ≡ bytes_eq (text_of bytes.now token.now) letters.now }
{
    text_of(bytes, token) == letters
}

/// The number that a token's text stands for.
pub fn number_of(bytes: &[u8], token: &Token) -> u128
    requires { IsDecimal (text_of bytes.now token.now) }
    ensures { result ≡ decimal_value (text_of bytes.now token.now) }
{
    decimal_value(text_of(bytes, token))
}

// ---- atoms

pub fn named(alloc: Global, bytes: &[u8], token: &Token) -> Result<Expr, AllocError>
    ensures { IfOk result (λ name. name ≡ Expr.Named token.now.at (text_of bytes.now token.now)) }
{
    let name = name_of(alloc, bytes, token)?;
    Ok(Expr::Named { at: token.at, name })
}

pub fn number(bytes: &[u8], token: &Token) -> Expr
    requires { IsDecimal (text_of bytes.now token.now) }
    ensures { result ≡ Expr.Number token.now.at (decimal_value (text_of bytes.now token.now)) }
{
    Expr::Number {
        at: token.at,
        value: number_of(bytes, token),
    }
}

pub fn truth(token: &Token, value: bool) -> Expr
    ensures { result ≡ Expr.Truth token.now.at value }
{
    Expr::Truth {
        at: token.at,
        value,
    }
}

// ---- arguments without a sign

pub fn plain_argument(bytes: &[u8], token: &Token) -> Arg
    requires { IsDecimal (text_of bytes.now token.now) }
    ensures { result ≡ plain token.now.at (decimal_value (text_of bytes.now token.now)) }
{
    Arg::Int {
        at: token.at,
        value: Lit {
            at: token.at,
            minus: false,
            digits: number_of(bytes, token),
        },
    }
}

pub fn truth_argument(token: &Token, value: bool) -> Arg
    ensures { result ≡ Arg.Bool token.now.at value }
{
    Arg::Bool {
        at: token.at,
        value,
    }
}
