//! Why tokens give no tree.

ghost use Rattle.std.specs.Prelude.{◌≡◌, ◌≤◌, ◌-◌, length, drop};
ghost use Rattle.lang_base.specs.Limits.{FILE_BYTES};
ghost use Rattle.lang_cursor.specs.declared.fault.Stop.TheVariants as stops;
ghost use Rattle.lang_cursor.specs.Reading.{IsFaultOf, first_offset};

use lang_base::{Refusal, SourceError, SourceFault};
use lang_tokens::Token;
use std::alloc::{AllocError, AllocFailed};

/// Why a production was not read.
#[derive(Clone, Copy, Debug)]
pub enum Stop {
    /// The first token that doesn't fit has so many tokens from itself to the end.
    Before { left: usize },
    OutOfMemory,
}

impl From<AllocError> for Stop {
    ghost from_gives = { λ _ e. e ≡ stops.OutOfMemory };

    fn from(_: AllocError) -> Self {
        Stop::OutOfMemory
    }
}

impl<T: Drop> From<AllocFailed<T>> for Stop {
    ghost from_gives = { λ _ e. e ≡ stops.OutOfMemory };

    fn from(_: AllocFailed<T>) -> Self {
        Stop::OutOfMemory
    }
}

/// The stop before these tokens.
pub fn stop_before(tokens: &[Token]) -> Stop
    ensures { result ≡ Stop.Before (length tokens.now) }
{
    Stop::Before { left: tokens.len() }
}

fn offset_of(bytes: &[u8], tokens: &[Token], left: usize) -> u32
    requires { length bytes.now ≤ FILE_BYTES }
    ensures { result ≡ first_offset bytes.now (drop (length tokens.now - left) tokens.now) }
{
    match tokens.get(tokens.len().saturating_sub(left)) {
        Some(token) => token.at,
        None => bytes.len() as u32,
    }
}

/// The error of a stop while these tokens of these bytes were read.
pub fn fault_of(bytes: &[u8], tokens: &[Token], stop: Stop) -> SourceError
    requires { length bytes.now ≤ FILE_BYTES }
    ensures { IsFaultOf bytes.now tokens.now stop result }
{
    match stop {
        Stop::Before { left } => SourceError::Fault(SourceFault {
            at: offset_of(bytes, tokens, left),
            what: Refusal::Syntax,
        }),
        Stop::OutOfMemory => SourceError::OutOfMemory,
    }
}
