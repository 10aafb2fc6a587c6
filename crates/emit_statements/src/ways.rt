//! How the calls of a method wait for its first guard.

ghost use Rattle.std.specs.Prelude.{◌≡◌};
ghost use Rattle.emit_statements.specs.Ways.{asserts, ends, may_refuse, tries};

/// How the calls of a method wait for the guard of its first block.
#[derive(Clone, Copy, Debug, PartialEq, Eq)]
pub enum Way {
    /// Until it is true.
    Waits,
    /// No call of the method does: it asserts the guard, and they are refused where it is false.
    Asserts,
    /// They do not, and are refused where it is false.
    Tries,
    /// No longer than until a time.
    Until,
    /// No longer than for a time: such a call is one of the others.
    For,
}

/// Whether calls are refused where the guard is false.
pub(crate) fn tries(way: Way) -> bool
    ensures { result ≡ tries way }
{
    match way {
        Way::Asserts | Way::Tries => true,
        Way::Waits | Way::Until | Way::For => false,
    }
}

/// Whether calls wait in a loop that ends where their time is over.
pub(crate) fn ends(way: Way) -> bool
    ensures { result ≡ ends way }
{
    match way {
        Way::Until => true,
        Way::Waits | Way::Asserts | Way::Tries | Way::For => false,
    }
}

/// Whether calls may be refused, at once or when their time is over.
pub fn may_refuse(way: Way) -> bool
    ensures { result ≡ may_refuse way }
{
    match way {
        Way::Waits => false,
        Way::Asserts | Way::Tries | Way::Until | Way::For => true,
    }
}

/// Whether the method asserts that guard.
pub fn asserts(way: Way) -> bool
    ensures { result ≡ asserts way }
{
    match way {
        Way::Asserts => true,
        Way::Waits | Way::Tries | Way::Until | Way::For => false,
    }
}
