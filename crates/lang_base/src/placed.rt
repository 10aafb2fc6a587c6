//! Which of two things comes first in a file.

ghost use Rattle.std.specs.Prelude.{◌≡◌};
ghost use Rattle.lang_base.specs.Least.{earlier_of, is_before};

/// What has a place in a file, and a rank among those that stand at one place.
pub trait Placed {
    ghost use Rattle.lang_base.specs.Least.{Order};

    ghost order: { Order Self };

    /// Where it stands.
    fn place(&self) -> u32
        ensures { result ≡ order.place self.now };

    /// Of two at one place the one with the lower rank comes first.
    fn rank(&self) -> u32
        ensures { result ≡ order.rank self.now };
}

/// The earlier of two, and the one where they are at one place and of one rank.
pub fn earlier_of<T: Placed + Copy>(one: Option<T>, other: Option<T>) -> Option<T>
    ensures { result ≡ earlier_of T.order one other }
{
    match one {
        None => other,
        Some(first) => match other {
            None => Some(first),
            Some(later) => Some(if is_before(&later, &first) {
                later
            } else {
                first
            }),
        },
    }
}

/// By place, and at one place by rank.
fn is_before<T: Placed>(a: &T, b: &T) -> bool
    ensures { result ≡ is_before T.order a.now b.now }
{
    a.place() < b.place() || (a.place() == b.place() && a.rank() < b.rank())
}
