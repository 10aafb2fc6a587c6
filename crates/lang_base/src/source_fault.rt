//! What may be wrong in a source file, a monitor's or its clients', and where.

ghost use Rattle.std.specs.Prelude.{◌≡◌, ◌≤◌};
ghost use Rattle.lang_base.specs.SourceFaults as faults;
ghost use Rattle.lang_base.specs.SourceFaults.{counted_rank, rank};
ghost use Rattle.lang_base.specs.declared.source_fault.SourceError.TheVariants.{Fault, OutOfMemory};

use crate::counted::Counted;
use crate::placed::Placed;
use std::alloc::{AllocError, AllocFailed};
use thiserror::Error;

/// What is wrong in a source file: the rule that it breaks.
#[derive(Clone, Copy, Debug, Drop, PartialEq, Eq, Error)]
pub enum Refusal {
    /// No token starts here.
    #[error("no token starts here")]
    Lex,
    /// The token, or the end, doesn't fit the grammar.
    #[error("syntax")]
    Syntax,
    /// A name is no constant, parameter or field, and no input or local of the method; in the
    /// condition of a parameter it is another one's, and as a start no earlier constant's or
    /// parameter's.
    #[error("unknown name")]
    Unknown,
    /// A name is that of an earlier declaration, method, input or local.
    #[error("name used twice")]
    Duplicate,
    /// A called name is no method. At the name.
    #[error("unknown method")]
    UnknownMethod,
    /// A call has more or fewer arguments than the method has inputs. At the call's name.
    #[error("wrong number of arguments")]
    WrongCount,
    /// An int stands where a bool is asked, or the other way round.
    #[error("wrong type")]
    WrongType,
    /// Neither side of a `*` is constant.
    #[error("product of two variables")]
    NotLinear,
    /// A number is above 9223372036854775807, or a flattened form has too large a number. At the
    /// number, not at its minus sign.
    #[error("number too large")]
    TooLarge,
    /// The first one over a limit of a monitor.
    #[error(transparent)]
    TooMany(Counted),
    /// The target of an assignment is a constant, a parameter or an input, and no field or local.
    #[error("not a field")]
    ReadOnly,
    /// A `return` is not the last statement of its method's last block.
    #[error("misplaced return")]
    Misplaced,
    /// The own number of a parameter doesn't meet its condition. At the number, not at its minus
    /// sign.
    #[error("wrong start")]
    WrongStart,
    /// A client has the name of an earlier one. At the later name.
    #[error("client used twice")]
    DuplicateClient,
    /// There are more than 32 clients. At the 33rd name.
    #[error("too many clients")]
    TooManyClients,
    /// There are more than 16,384 calls, with each `repeat` written out. At the first item, of
    /// those that stand directly in a client, with which they are above.
    #[error("too many calls")]
    TooManyCalls,
}

/// A rule that a source file breaks, with the offset of the place where it is broken.
#[derive(Clone, Copy, Debug, Drop, PartialEq, Eq, Error)]
#[error("{what} at byte {at}")]
pub struct SourceFault {
    pub at: u32,
    pub what: Refusal,
}

impl Placed for SourceFault {
    ghost order = { faults.order };

    fn place(&self) -> u32 {
        self.at
    }

    fn rank(&self) -> u32 {
        rank(self.what)
    }
}

/// In the order of the variants.
fn rank(what: Refusal) -> u32
    ensures { result ≡ rank what }
{
    match what {
        Refusal::Lex => 0,
        Refusal::Syntax => 1,
        Refusal::Unknown => 2,
        Refusal::Duplicate => 3,
        Refusal::UnknownMethod => 4,
        Refusal::WrongCount => 5,
        Refusal::WrongType => 6,
        Refusal::NotLinear => 7,
        Refusal::TooLarge => 8,
        Refusal::TooMany(counted) => 9 + counted_rank(counted),
        Refusal::ReadOnly => 16,
        Refusal::Misplaced => 17,
        Refusal::WrongStart => 18,
        Refusal::DuplicateClient => 19,
        Refusal::TooManyClients => 20,
        Refusal::TooManyCalls => 21,
    }
}

fn counted_rank(counted: Counted) -> u32
    ensures exact { result ≡ counted_rank counted }
    ensures small { result ≤ 6 }
{
    match counted {
        Counted::Constants => 0,
        Counted::Fields => 1,
        Counted::Methods => 2,
        Counted::Parameters => 3,
        Counted::Locals => 4,
        Counted::Blocks => 5,
        Counted::Statements => 6,
    }
}

/// Why nothing is made of a source file: it has a fault, or no memory was found.
#[derive(Clone, Copy, Debug, Drop, Error)]
pub enum SourceError {
    #[error(transparent)]
    Fault(SourceFault),
    #[error("out of memory")]
    OutOfMemory,
}

impl From<SourceFault> for SourceError {
    ghost from_gives = { λ fault made. made ≡ Fault fault };

    fn from(fault: SourceFault) -> SourceError {
        SourceError::Fault(fault)
    }
}

impl From<AllocError> for SourceError {
    ghost from_gives = { λ _ made. made ≡ OutOfMemory };

    fn from(_error: AllocError) -> SourceError {
        SourceError::OutOfMemory
    }
}

impl<T: Drop> From<AllocFailed<T>> for SourceError {
    ghost from_gives = { λ _ made. made ≡ OutOfMemory };

    fn from(_error: AllocFailed<T>) -> SourceError {
        SourceError::OutOfMemory
    }
}
