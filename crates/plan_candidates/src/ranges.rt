//! The numbers with which fields may start.

ghost use Rattle.std.specs.Prelude.{◌≡◌};
ghost use Rattle.lang_monitor.specs.Starts.{limit_number};
ghost use Rattle.plan_candidates.specs.inner.Starts.{LEAST, MOST, least_at, least_found, least_in};
ghost use Rattle.plan_candidates.specs.inner.Starts.{least_of, most_at, most_found, most_in};
ghost use Rattle.plan_candidates.specs.inner.Starts.{most_of, root_at, root_of};

use super::listing::number_of;
use lang_base::Value;
use lang_monitor::{Field, Limit, Origin};

const LEAST: i128 = -9223372036854775808;

const MOST: i128 = 9223372036854775807;

/// The number with which a limit compares.
pub(crate) fn number_in(limit: Limit) -> i128
    ensures { result ≡ limit_number limit }
{
    match limit {
        Limit::Exactly { number } => number,
        Limit::AtMost { bound } => bound,
        Limit::AtLeast { bound } => bound,
    }
}

/// The least number of 64 bits that a limit admits, where it admits one.
pub(crate) fn least_in(limit: Limit) -> i128
    ensures { result ≡ least_in limit }
{
    match limit {
        Limit::Exactly { number } => number,
        Limit::AtMost { .. } => LEAST,
        Limit::AtLeast { bound } => { if bound <= LEAST { LEAST } else { bound } }
    }
}

/// The greatest number of 64 bits that a limit admits, where it admits one.
pub(crate) fn most_in(limit: Limit) -> i128
    ensures { result ≡ most_in limit }
{
    match limit {
        Limit::Exactly { number } => number,
        Limit::AtMost { bound } => { if MOST <= bound { MOST } else { bound } }
        Limit::AtLeast { .. } => MOST,
    }
}

fn least_of(own: Value, origin: Origin) -> i128
    ensures { result ≡ least_of own origin }
{
    match origin {
        Origin::Own => number_of(own),
        Origin::Chosen(limit) => least_in(limit),
        Origin::Copied(_) => number_of(own),
    }
}

fn most_of(own: Value, origin: Origin) -> i128
    ensures { result ≡ most_of own origin }
{
    match origin {
        Origin::Own => number_of(own),
        Origin::Chosen(limit) => most_in(limit),
        Origin::Copied(_) => number_of(own),
    }
}

fn root_of(place: u32, origin: Origin) -> u32
    ensures { result ≡ root_of place origin }
{
    match origin {
        Origin::Own => place,
        Origin::Chosen(_) => place,
        Origin::Copied(parameter) => parameter,
    }
}

/// The parameter that a field copies, or the field itself.
pub(crate) fn root_at(fields: &[Field], place: u32) -> u32
    ensures { result ≡ root_at fields.now place }
{
    match fields.get(place as usize) {
        None => place,
        Some(field) => root_of(place, field.origin),
    }
}

/// The least number with which a field may start. A field that is not there has 0.
pub(crate) fn least_at(fields: &[Field], place: u32) -> i128
    ensures { result ≡ least_at fields.now place }
{
    let root = root_at(fields, place);
    match fields.get(root as usize) {
        None => 0,
        Some(field) => least_of(field.start, field.origin),
    }
}

/// The greatest number with which a field may start. A field that is not there has 0.
pub(crate) fn most_at(fields: &[Field], place: u32) -> i128
    ensures { result ≡ most_at fields.now place }
{
    let root = root_at(fields, place);
    match fields.get(root as usize) {
        None => 0,
        Some(field) => most_of(field.start, field.origin),
    }
}
