//! Valuations that are given as lists.

ghost use Rattle.std.specs.Prelude.{◌≡◌};
ghost use Rattle.logic_solve.specs.Solutions.{is_listed, number_among, valuation_of};

use base_list::Seq;

/// The number at a place.
#[derive(Clone, Copy, Debug)]
pub struct NumberAt {
    pub place: u32,
    pub number: i128,
}

/// A valuation in whole numbers (`specs/Solutions`, `valuation_of`): the numbers that are given,
/// and 0 at each other place; just those flags are true that are listed.
#[derive(Debug, Drop)]
pub struct Solution {
    pub numbers: Seq<NumberAt>,
    pub flags: Seq<u32>,
}

impl Solution {
    /// The number at the place.
    pub fn number(&self, place: u32) -> i128
        ensures { result ≡ (valuation_of self.now).number place }
    {
        number_among(self.numbers.items(), place)
    }

    /// Whether the flag at the place is true.
    pub fn flag(&self, place: u32) -> bool
        ensures { result ≡ (valuation_of self.now).flag place }
    {
        is_listed(self.flags.items(), place)
    }
}

/// The number that the list gives first to the place, or 0.
pub(crate) fn number_among(numbers: &[NumberAt], place: u32) -> i128
    ensures { result ≡ number_among numbers.now place }
{
    for one in numbers {
        if one.place == place {
            return one.number;
        }
    }
    0
}

/// Whether the place is one of the list.
fn is_listed(places: &[u32], place: u32) -> bool
    ensures { result ≡ is_listed places.now place }
{
    places.iter().any(|other| *other == place)
}
