//! Whole numbers within the bounds of levels.

use super::levels::{Bound, Level};
use super::valuation::{NumberAt, number_among};
use super::work::Work;
use std::alloc::{AllocError, Global};

/// The least and the greatest number that rows allow, where they bound it.
#[derive(Clone, Copy)]
struct Range {
    least: Option<i128>,
    most: Option<i128>,
}

/// How many times a row has a variable, and what the rest of it is worth.
#[derive(Clone, Copy)]
struct Split {
    times: i128,
    rest: i128,
}

/// The row at these numbers, but for the variable, where that fits.
fn split_at(place: u32, bound: &Bound, numbers: &[NumberAt]) -> Option<Split> {
    let mut times: i128 = 0;
    let mut rest = bound.constant;
    for term in bound.terms.as_slice() {
        if term.place == place {
            times = term.times;
        } else {
            let worth = term.times.checked_mul(number_among(numbers, term.place))?;
            rest = rest.checked_add(worth)?;
        }
    }
    Some(Split { times, rest })
}

/// The greatest whole number that is at most `number / by`, where that fits and `by` is above 0.
fn floor(number: i128, by: i128) -> Option<i128> {
    number.checked_div_euclid(by)
}

/// The lesser of two bounds above.
fn lesser(first: Option<i128>, other: i128) -> i128 {
    match first {
        None => other,
        Some(first) => first.min(other),
    }
}

/// The greater of two bounds below.
fn greater(first: Option<i128>, other: i128) -> i128 {
    match first {
        None => other,
        Some(first) => first.max(other),
    }
}

/// The range within `times * number + rest <= 0` too, where the numbers fit.
fn within(range: Range, split: Split) -> Option<Range> {
    if split.times > 0 {
        let most = floor(split.rest.checked_neg()?, split.times)?;
        return Some(Range {
            least: range.least,
            most: Some(lesser(range.most, most)),
        });
    }
    let least = floor(split.rest.checked_neg()?, split.times.checked_neg()?)?.checked_neg()?;
    Some(Range {
        least: Some(greater(range.least, least)),
        most: range.most,
    })
}

/// The range of the level's variable at these numbers of those of later levels, where they fit.
fn range_at(level: &Level, numbers: &[NumberAt]) -> Option<Range> {
    let mut range = Range {
        least: None,
        most: None,
    };
    for bound in level.bounds.as_slice() {
        range = within(range, split_at(level.place, bound, numbers)?)?;
    }
    Some(range)
}

/// Whether the number is at least the bound, where there is one.
fn is_above(least: Option<i128>, number: i128) -> bool {
    match least {
        None => true,
        Some(least) => least <= number,
    }
}

/// Whether the number is at most the bound, where there is one.
fn is_below(most: Option<i128>, number: i128) -> bool {
    match most {
        None => true,
        Some(most) => number <= most,
    }
}

/// Whether the number is in the range.
fn is_in(range: Range, number: i128) -> bool {
    is_above(range.least, number) && is_below(range.most, number)
}

/// The number of the range that is nearest to 0, where it has one.
fn nearest(range: Range) -> i128 {
    let above = greater(range.least, 0);
    lesser(range.most, above)
}

/// How far the number of a try stands from the first one: 0, 1, -1, 2, -2 and so on.
fn step_of(tries: u32) -> i128 {
    let far = i128::from(tries / 2);
    if tries % 2 == 1 { far + 1 } else { -far }
}

/// A variable is tried at most so many times with the same numbers of those of later levels.
const MOST_TRIES: u32 = 64;

/// Of a cube at most so many numbers are tried.
const MOST_STEPS: u32 = 16_384;

/// What a try at a level comes to.
#[derive(Clone, Copy)]
enum Try {
    /// The variable may be this number.
    Number(i128),
    /// The number is outside the range.
    Outside,
    /// No number is left to try.
    Ended,
}

/// A try at the level, after so many others.
fn tried(level: &Level, numbers: &[NumberAt], tries: u32) -> Try {
    if tries >= MOST_TRIES {
        return Try::Ended;
    }
    let Some(range) = range_at(level, numbers) else {
        return Try::Ended;
    };
    let first = nearest(range);
    if !is_in(range, first) {
        return Try::Ended;
    }
    match first.checked_add(step_of(tries)) {
        None => Try::Outside,
        Some(number) => {
            if is_in(range, number) {
                Try::Number(number)
            } else {
                Try::Outside
            }
        }
    }
}

/// The numbers of the last levels, and how often each was tried before.
#[derive(Drop)]
struct Chosen {
    numbers: Vec<NumberAt>,
    tries: Vec<u32>,
    /// How often the next level was tried.
    next: u32,
}

/// Goes on to the next level, to the next try, or back to the level before. It answers whether
/// there is a level to go on with.
fn go_on(level: &Level, chosen: &mut Chosen) -> Result<bool, AllocError> {
    match tried(level, chosen.numbers.as_slice(), chosen.next) {
        Try::Number(number) => {
            let place = level.place;
            chosen.numbers.push(NumberAt { place, number })?;
            chosen.tries.push(chosen.next)?;
            chosen.next = 0;
            Ok(true)
        }
        Try::Outside => {
            chosen.next = chosen.next.saturating_add(1);
            Ok(true)
        }
        Try::Ended => {
            chosen.numbers.pop();
            let Some(tries) = chosen.tries.pop() else {
                return Ok(false);
            };
            chosen.next = tries.saturating_add(1);
            Ok(true)
        }
    }
}

/// The level of which a number is chosen next, where each later one has a number.
fn next_level<'a>(levels: &'a [Level], numbers: &[NumberAt]) -> Option<&'a Level> {
    let after = levels.len().checked_sub(numbers.len())?;
    levels.get(after.checked_sub(1)?)
}

/// Whole numbers of the levels' variables within all bounds, where some are found: from the last
/// level to the first, the nearest to 0 that its bounds allow, and then others.
pub(crate) fn whole_numbers(
    alloc: Global,
    levels: &[Level],
    work: &mut Work,
) -> Result<Option<Vec<NumberAt>>, AllocError> {
    let mut chosen = Chosen {
        numbers: Vec::new(alloc),
        tries: Vec::new(alloc),
        next: 0,
    };
    for _ in 0..MOST_STEPS {
        let Some(level) = next_level(levels, chosen.numbers.as_slice()) else {
            return Ok(Some(chosen.numbers));
        };
        if !work.takes(level.bounds.len().saturating_add(1)) {
            return Ok(None);
        }
        if !go_on(level, &mut chosen)? {
            return Ok(None);
        }
    }
    Ok(None)
}
