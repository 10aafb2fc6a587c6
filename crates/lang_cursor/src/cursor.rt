//! The tokens that are left of a file. A contract sees a cursor as the words that they say.

ghost use Rattle.std.specs.Prelude.{◌≡◌, ◌==◌, ℕ, List, length};
ghost use Rattle.lang_tokens.specs.Words.{words};
ghost use Rattle.lang_cursor.specs.Reading.{AreTokens, IsMarkKind, atom_at, begins};
ghost use Rattle.lang_cursor.specs.Reading.{begins_ident, begins_listed, begins_spelled, ident_at};
ghost use Rattle.lang_cursor.specs.Reading.{kind_of, limit_sign_of, listed_at, mark_at, minus_of};
ghost use Rattle.lang_cursor.specs.Reading.{numeral_at, op_of, placed_at, plain_argument_at};
ghost use Rattle.lang_cursor.specs.Reading.{spelled_at, truth_of};
ghost use Rattle.lang_cursor.specs.Takes.{Takes};

use super::fault::{Stop, stop_before};
use super::word::{
    PlacedNumber, is_kind, is_spelled, kind_of, limit_sign_of, minus_of, name_of, named, number,
    number_of, op_of, plain_argument, truth, truth_argument, truth_of,
};
use lang_base::Kind;
use lang_tokens::{Token, TokenKind};
use lang_tree::{Arg, Expr, LimitSign, Op, PlacedName};
use std::alloc::Global;
use std::marker::Model;

/// The tokens of a text that are not read yet.
#[derive(Debug, Drop)]
pub struct Cursor<'a> {
    bytes: &'a [u8],
    tokens: &'a [Token],
}

impl<'a> Model for Cursor<'a> {
    ghost use Rattle.std.specs.Prelude.{List};
    ghost use Rattle.lang_tokens.specs.Words.{Word, words};
    ghost use Rattle.lang_cursor.specs.Reading.{AreTokens};

    ghost Value = { List Word };

    ghost view = { λ c. words c.bytes.now c.tokens.now };

    ghost invariant = { λ c. AreTokens c.bytes.now c.tokens.now };
}

/// Whether a keyword or sign comes next that a table lists.
macro_rules! begins_listed {
    ($input:expr, $table:expr) => {
        match $input.tokens {
            [first, ..] => $table(first.kind).is_some(),
            _ => false,
        }
    };
}

/// What a table says of the keyword or sign that comes next.
macro_rules! listed {
    ($input:expr, $table:expr) => {
        match $input.tokens {
            [first, rest @ ..] => match $table(first.kind) {
                Some(found) => {
                    $input.tokens = rest;
                    Ok(found)
                }
                None => Err(stop_before($input.tokens)),
            },
            _ => Err(stop_before($input.tokens)),
        }
    };
}

impl<'a> Cursor<'a> {
    /// Before all of these tokens.
    pub fn new(bytes: &'a [u8], tokens: &'a [Token]) -> Cursor<'a>
        requires { AreTokens bytes.now tokens.now }
        ensures { result ≡ words bytes.now tokens.now }
    {
        Cursor { bytes, tokens }
    }

    /// Whether nothing is left.
    pub fn is_empty(&self) -> bool
        ensures { result ≡ (length self.now == 0) }
    {
        self.tokens.is_empty()
    }

    /// The stop before what is left.
    pub fn stop(&self) -> Stop
        ensures { result ≡ Stop.Before (length self.now) }
    {
        stop_before(self.tokens)
    }

    // ---- what comes next

    /// Whether this keyword or sign comes next.
    #[tactic(auto, unfolding(crate::specs::Reading::begins))]
    pub fn begins(&self, kind: TokenKind) -> bool
        requires { IsMarkKind kind }
        ensures { result ≡ begins kind self.now }
    {
        match self.tokens {
            [first, ..] => is_kind(first.kind, kind),
            _ => false,
        }
    }

    /// Whether an identifier comes next.
    #[tactic(auto, unfolding(crate::specs::Reading::begins_ident))]
    pub fn begins_ident(&self) -> bool
        ensures { result ≡ begins_ident self.now }
    {
        match self.tokens {
            [first, ..] => match first.kind {
                TokenKind::Ident => true,
                _ => false,
            },
            _ => false,
        }
    }

    /// Whether an identifier of these letters comes next.
    #[tactic(auto, unfolding(crate::specs::Reading::begins_spelled))]
    pub fn begins_spelled(&self, letters: &[u8]) -> bool
        ensures { result ≡ begins_spelled letters.now self.now }
    {
        match self.tokens {
            [first, ..] => match first.kind {
                TokenKind::Ident => is_spelled(self.bytes, first, letters),
                _ => false,
            },
            _ => false,
        }
    }

    /// Whether a sign of a comparison comes next.
    #[tactic(auto, unfolding(crate::specs::Reading::begins_listed))]
    pub fn begins_op(&self) -> bool
        ensures { result ≡ begins_listed op_of self.now }
    {
        begins_listed!(self, op_of)
    }

    /// Whether a plus or a minus comes next.
    #[tactic(auto, unfolding(crate::specs::Reading::begins_listed))]
    pub fn begins_sum_sign(&self) -> bool
        ensures { result ≡ begins_listed minus_of self.now }
    {
        begins_listed!(self, minus_of)
    }

    /// Whether the kind of a parameter comes next.
    #[tactic(auto, unfolding(crate::specs::Reading::begins_listed))]
    pub fn begins_input(&self) -> bool
        ensures { result ≡ begins_listed kind_of self.now }
    {
        begins_listed!(self, kind_of)
    }

    // ---- one word

    /// A keyword or a sign, with its offset.
    #[tactic(auto, unfolding(crate::specs::Reading::placed_at, crate::specs::Reading::AreTokens))]
    pub fn placed(&mut self, kind: TokenKind) -> Result<u32, Stop>
        requires { IsMarkKind kind }
        ensures { Takes result self.new (placed_at kind self.old) }
    {
        match self.tokens {
            [first, rest @ ..] => {
                if !is_kind(first.kind, kind) {
                    return Err(stop_before(self.tokens));
                }
                self.tokens = rest;
                Ok(first.at)
            }
            _ => Err(stop_before(self.tokens)),
        }
    }

    /// A keyword or a sign.
    #[tactic(auto, unfolding(crate::specs::Reading::mark_at, crate::specs::Reading::AreTokens))]
    pub fn mark(&mut self, kind: TokenKind) -> Result<(), Stop>
        requires { IsMarkKind kind }
        ensures { Takes result self.new (mark_at kind self.old) }
    {
        match self.tokens {
            [first, rest @ ..] => {
                if !is_kind(first.kind, kind) {
                    return Err(stop_before(self.tokens));
                }
                self.tokens = rest;
                Ok(())
            }
            _ => Err(stop_before(self.tokens)),
        }
    }

    /// ID
    #[tactic(auto, unfolding(crate::specs::Reading::ident_at, crate::specs::Reading::AreTokens))]
    pub fn ident(&mut self, alloc: Global) -> Result<PlacedName, Stop>
        ensures { Takes result self.new (ident_at self.old) }
    {
        match self.tokens {
            [first, rest @ ..] => match first.kind {
                TokenKind::Ident => {
                    let name = name_of(alloc, self.bytes, first)?;
                    self.tokens = rest;
                    Ok(PlacedName { at: first.at, name })
                }
                _ => Err(stop_before(self.tokens)),
            },
            _ => Err(stop_before(self.tokens)),
        }
    }

    /// An identifier of these letters, with its offset.
    #[tactic(auto, unfolding(crate::specs::Reading::spelled_at, crate::specs::Reading::AreTokens))]
    pub fn spelled(&mut self, letters: &[u8]) -> Result<u32, Stop>
        ensures { Takes result self.new (spelled_at letters.now self.old) }
    {
        match self.tokens {
            [first, rest @ ..] => match first.kind {
                TokenKind::Ident => {
                    if !is_spelled(self.bytes, first, letters) {
                        return Err(stop_before(self.tokens));
                    }
                    self.tokens = rest;
                    Ok(first.at)
                }
                _ => Err(stop_before(self.tokens)),
            },
            _ => Err(stop_before(self.tokens)),
        }
    }

    /// NUM
    #[tactic(auto, unfolding(crate::specs::Reading::numeral_at, crate::specs::Reading::AreTokens))]
    pub fn numeral(&mut self) -> Result<PlacedNumber, Stop>
        ensures { Takes result self.new (numeral_at self.old) }
    {
        match self.tokens {
            [first, rest @ ..] => match first.kind {
                TokenKind::Number => {
                    let value = number_of(self.bytes, first);
                    self.tokens = rest;
                    Ok(PlacedNumber {
                        at: first.at,
                        value,
                    })
                }
                _ => Err(stop_before(self.tokens)),
            },
            _ => Err(stop_before(self.tokens)),
        }
    }

    /// "==" | "!=" | "<" | "<=" | ">" | ">="
    #[tactic(auto, unfolding(crate::specs::Reading::listed_at, crate::specs::Reading::AreTokens))]
    pub fn op(&mut self) -> Result<Op, Stop>
        ensures { Takes result self.new (listed_at op_of self.old) }
    {
        listed!(self, op_of)
    }

    /// "==" | "<" | "<=" | ">" | ">="
    #[tactic(auto, unfolding(crate::specs::Reading::listed_at, crate::specs::Reading::AreTokens))]
    pub fn limit_sign(&mut self) -> Result<LimitSign, Stop>
        ensures { Takes result self.new (listed_at limit_sign_of self.old) }
    {
        listed!(self, limit_sign_of)
    }

    /// "+" | "-": whether it is a minus.
    #[tactic(auto, unfolding(crate::specs::Reading::listed_at, crate::specs::Reading::AreTokens))]
    pub fn sum_sign(&mut self) -> Result<bool, Stop>
        ensures { Takes result self.new (listed_at minus_of self.old) }
    {
        listed!(self, minus_of)
    }

    /// "true" | "false"
    #[tactic(auto, unfolding(crate::specs::Reading::listed_at, crate::specs::Reading::AreTokens))]
    pub fn truth(&mut self) -> Result<bool, Stop>
        ensures { Takes result self.new (listed_at truth_of self.old) }
    {
        listed!(self, truth_of)
    }

    /// "int" | "bool"
    #[tactic(auto, unfolding(crate::specs::Reading::listed_at, crate::specs::Reading::AreTokens))]
    pub fn input_kind(&mut self) -> Result<Kind, Stop>
        ensures { Takes result self.new (listed_at kind_of self.old) }
    {
        listed!(self, kind_of)
    }

    /// NUM | "true" | "false"
    #[tactic(auto, unfolding(crate::specs::Reading::plain_argument_at, crate::specs::Reading::AreTokens))]
    pub fn plain_argument(&mut self) -> Result<Arg, Stop>
        ensures { Takes result self.new (plain_argument_at self.old) }
    {
        match self.tokens {
            [first, rest @ ..] => {
                let argument = match first.kind {
                    TokenKind::Number => plain_argument(self.bytes, first),
                    TokenKind::KeyTrue => truth_argument(first, true),
                    TokenKind::KeyFalse => truth_argument(first, false),
                    _ => return Err(stop_before(self.tokens)),
                };
                self.tokens = rest;
                Ok(argument)
            }
            _ => Err(stop_before(self.tokens)),
        }
    }

    /// NUM | "true" | "false" | ID
    #[tactic(auto, unfolding(crate::specs::Reading::atom_at, crate::specs::Reading::AreTokens))]
    pub fn atom(&mut self, alloc: Global) -> Result<Expr, Stop>
        ensures { Takes result self.new (atom_at self.old) }
    {
        match self.tokens {
            [first, rest @ ..] => {
                let atom = match first.kind {
                    TokenKind::Ident => named(alloc, self.bytes, first)?,
                    TokenKind::Number => number(self.bytes, first),
                    TokenKind::KeyTrue => truth(first, true),
                    TokenKind::KeyFalse => truth(first, false),
                    _ => return Err(stop_before(self.tokens)),
                };
                self.tokens = rest;
                Ok(atom)
            }
            _ => Err(stop_before(self.tokens)),
        }
    }
}
