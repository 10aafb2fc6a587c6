//! The tokens of a file around a place.

use lang_base::limits::FILE_BYTES;
use lang_base::{SourceError, is_in_line};
use lang_tokens::{Token, TokenKind, tokens};
use std::alloc::{AllocError, Global};

/// The tokens of a file, up to the place where none starts, or none where memory is short.
pub(crate) fn tokens_of(alloc: Global, bytes: &[u8]) -> Vec<Token> {
    match tokens_in(alloc, bytes) {
        Ok(found) => found,
        Err(AllocError) => Vec::new(alloc),
    }
}

/// The tokens of a file, up to the place where none starts.
fn tokens_in(alloc: Global, bytes: &[u8]) -> Result<Vec<Token>, AllocError> {
    match short_tokens(alloc, bytes) {
        Ok(found) => Ok(found),
        Err(SourceError::Fault(fault)) => {
            let front = bytes.get(..fault.at as usize).unwrap_or(b"");
            match short_tokens(alloc, front) {
                Ok(found) => Ok(found),
                Err(_) => Err(AllocError),
            }
        }
        Err(SourceError::OutOfMemory) => Err(AllocError),
    }
}

/// The tokens of a file that isn't too long.
fn short_tokens(alloc: Global, bytes: &[u8]) -> Result<Vec<Token>, SourceError> {
    if bytes.len() > FILE_BYTES {
        return Ok(Vec::new(alloc));
    }
    tokens(alloc, bytes)
}

/// A place among the tokens of a file: that of the first token that doesn't stand before it.
#[derive(Clone, Copy)]
pub(crate) struct Around<'a> {
    pub(crate) bytes: &'a [u8],
    pub(crate) tokens: &'a [Token],
    pub(crate) at: u32,
    pub(crate) index: usize,
}

impl<'a> Around<'a> {
    pub(crate) fn new(bytes: &'a [u8], tokens: &'a [Token], at: u32) -> Around<'a> {
        let index = tokens.iter().take_while(|token| token.at < at).count();
        Around {
            bytes,
            tokens,
            at,
            index,
        }
    }

    /// The bytes from the place on.
    pub(crate) fn rest(&self) -> &'a [u8] {
        self.bytes.get(self.at as usize..).unwrap_or(b"")
    }

    /// The text of a token by its index, and nothing where there is none.
    pub(crate) fn text(&self, index: usize) -> &'a [u8] {
        match self.tokens.get(index) {
            Some(token) => {
                let back = self.bytes.get(token.at as usize..).unwrap_or(b"");
                back.get(..token.len as usize).unwrap_or(b"")
            }
            None => b"",
        }
    }

    /// The text of the token at the place, and nothing at the end.
    pub(crate) fn here(&self) -> &'a [u8] {
        self.text(self.index)
    }

    /// The text of the token so many tokens before the place, and nothing where there is none.
    pub(crate) fn before(&self, back: usize) -> &'a [u8] {
        match self.index.checked_sub(back) {
            Some(index) => self.text(index),
            None => b"",
        }
    }

    /// What the token of this index is.
    pub(crate) fn kind(&self, index: usize) -> Option<TokenKind> {
        let token = self.tokens.get(index)?;
        Some(token.kind)
    }

    /// What the token before the place is.
    pub(crate) fn kind_before(&self) -> Option<TokenKind> {
        let index = self.index.checked_sub(1)?;
        self.kind(index)
    }

    /// How many opening signs before the place are not closed.
    fn open(&self, opening: TokenKind, closing: TokenKind) -> u64 {
        let mut open: u64 = 0;
        for token in self.tokens.iter().take(self.index) {
            if token.kind == opening {
                open = open.saturating_add(1);
            } else if token.kind == closing {
                open = open.saturating_sub(1);
            }
        }
        open
    }

    /// How many braces before the place are not closed.
    pub(crate) fn braces(&self) -> u64 {
        self.open(TokenKind::OpenBrace, TokenKind::CloseBrace)
    }

    /// How many parentheses before the place are not closed.
    pub(crate) fn parens(&self) -> u64 {
        self.open(TokenKind::OpenParen, TokenKind::CloseParen)
    }

    /// Whether the place is right behind the token before it.
    pub(crate) fn touches(&self) -> bool {
        match self.index.checked_sub(1) {
            Some(index) => match self.tokens.get(index) {
                Some(token) => token.at.saturating_add(token.len) == self.at,
                None => false,
            },
            None => false,
        }
    }

    /// The index of the parenthesis that is closed by the token before the place, or of the token
    /// at the place where none is.
    pub(crate) fn opener(&self) -> usize {
        let mut open: u64 = 0;
        for back in 0..self.index {
            let index = self.index - 1 - back;
            if self.kind(index) == Some(TokenKind::CloseParen) {
                open = open.saturating_add(1);
            } else if self.kind(index) == Some(TokenKind::OpenParen) {
                open = open.saturating_sub(1);
            }
            if open == 0 {
                return index;
            }
        }
        self.index
    }

    /// Whether the place is in another line than the token before it.
    pub(crate) fn begins_line(&self) -> bool {
        let front = self.bytes.get(..self.at as usize).unwrap_or(b"");
        let in_line = front
            .iter()
            .rev()
            .take_while(|byte| is_in_line(**byte))
            .count();
        match self.index.checked_sub(1) {
            Some(index) => match self.tokens.get(index) {
                Some(token) => { (token.at as usize) < front.len().saturating_sub(in_line) }
                None => false,
            },
            None => false,
        }
    }
}
