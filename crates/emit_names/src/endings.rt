//! What the names of further methods end in.

ghost use Rattle.std.specs.Prelude.{◌≡◌};
ghost use Rattle.emit_names.specs.Names.{ending_text};

/// What the name of a method ends in whose calls are given a function, wait until a time or for
/// one, or both.
#[derive(Clone, Copy, Debug, PartialEq, Eq)]
pub enum Ending {
    /// `put_with`
    With,
    /// `put_until`
    Until,
    /// `put_for`
    For,
    /// `put_until_with`
    UntilWith,
    /// `put_for_with`
    ForWith,
}

/// The bytes of an ending.
pub(crate) fn ending_bytes(ending: Ending) -> &'static [u8]
    ensures { result.now ≡ ending_text ending }
{
    match ending {
        Ending::With => b"_with",
        Ending::Until => b"_until",
        Ending::For => b"_for",
        Ending::UntilWith => b"_until_with",
        Ending::ForWith => b"_for_with",
    }
}
