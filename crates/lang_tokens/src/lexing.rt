//! From bytes to tokens.

ghost use Rattle.std.specs.Prelude.{◌≡◌, ◌++◌, ◌<◌, ◌≤◌, ◌^◌, List, length, IfOk, IfErr, OnOk};
ghost use Rattle.lang_tokens.specs.declared.token.Token.{Token};
ghost use Rattle.lang_base.specs.declared.source_fault.Refusal.TheVariants.{Lex};
ghost use Rattle.lang_tokens.specs.Spelling.{Spells, StartsNoToken, token};
ghost use Rattle.lang_tokens.specs.Lexing.{IsAt, Reads};
ghost use Rattle.lang_base.specs.Limits.{FILE_BYTES};
ghost use Rattle.lang_tokens.specs.inner.Pieces.{meant};

use super::piece::{Shape, kind_of_word, piece_at};
use super::token::{Token, TokenKind};
use lang_base::{Refusal, SourceError, SourceFault};
use std::alloc::{AllocError, Global};

/// Adds the token of a piece at an offset; a blank or a comment adds none.
fn push_token(out: &mut Vec<Token>, shape: Shape, text: &[u8], at: u32) -> Result<(), AllocError>
    requires { length text.now < 2 ^ 32 }
    ensures { OnOk result (out.new.items ≡ out.old.items ++ token (meant shape) text.now at) }
{
    let kind = match shape {
        Shape::Blank | Shape::Comment => return Ok(()),
        Shape::Word => kind_of_word(text),
        Shape::Number => TokenKind::Number,
        Shape::Sign(kind) => kind,
    };
    out.push(Token {
        kind,
        at,
        len: text.len() as u32,
    })?;
    Ok(())
}

/// The tokens of a file, in order.
///
/// # Errors
///
/// A fault by [`Refusal::Lex`] at the first offset at which no token, blank or comment starts; or
/// out of memory.
pub fn tokens(alloc: Global, bytes: &[u8]) -> Result<Vec<Token>, SourceError>
    requires { length bytes.now ≤ FILE_BYTES }
    ensures spelled { IfOk result (λ v. Spells bytes.now v.items) }
    ensures stuck { IfErr result (IsAt Lex (StartsNoToken bytes.now)) }

    // Bytes that spell tokens are read as these, unless memory runs out.
    ensures complete { (spelled : List Token) → Spells bytes.now spelled → Reads result spelled }
{
    let mut out = Vec::new(alloc);
    let mut at: u32 = 0;
    let mut rest = bytes;
    'pieces: while !rest.is_empty() {
        match piece_at(rest) {
            Some((shape, len)) => {
                let (text, after) = rest.split_at(len);
                push_token(&mut out, shape, text, at)?;
                at += len as u32;
                rest = after;
            }
            None => return Err(SourceError::Fault(SourceFault {
                at,
                what: Refusal::Lex,
            })),
        }
    }
    Ok(out)
}
