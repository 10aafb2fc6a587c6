//! Tokens: what the bytes of a file spell.
//!
//! [`tokens`] cuts a file's bytes into the one list of tokens that they spell (`specs/Spelling`),
//! or answers the first place where nothing starts (`specs/Lexing`). [`is_identifier`] tells
//! whether a text is one name, and [`decimal_value`] gives the number that a text of digits stands
//! for. `specs/Words` says what tokens say, each with its offset; grammars speak of these words.
//! The laws are functions of `laws`.
#![tactic(auto)]

mod decimal;
mod laws;
mod lexing;
mod piece;
mod token;

pub use decimal::decimal_value;
pub use lang_base::{Refusal, SourceError, SourceFault, is_identifier};
pub use laws::{each_is_token, one_spelling};
pub use lexing::tokens;
pub use token::{Token, TokenKind};
