//! Which rows are a light cube.

ghost use Rattle.std.specs.Prelude.{◌≡◌, ◌↔◌, ◌^◌, IfOk, IsTrue};
ghost use Rattle.std.specs.List.{list_all};
ghost use Rattle.logic_linear.specs.LightCubes.{IsLightCube};
ghost use Rattle.logic_elim.specs.Chains.{rows_in};
ghost use Rattle.logic_elim.specs.inner.Light.{has_light_numbers, has_light_times, is_light_row};
ghost use Rattle.logic_elim.specs.inner.Light.{is_within};

use super::places::places_of;
use super::rows::{Numbered, Rows};
use logic_cert::WideRow;
use logic_linear::Term;
use std::alloc::{AllocError, Global};

/// A light cube has at most so many rows.
pub(crate) const MOST_LIGHT_ROWS: usize = 12;

/// The rows of a light cube have variables of at most so many places.
pub(crate) const MOST_PLACES: usize = 3;

/// Whether the number's magnitude is at most `2^10`.
fn is_light_times(number: i128) -> bool
    ensures { result ≡ is_within (2 ^ 10) number }
{
    -1_024 <= number && number <= 1_024
}

/// Whether the number's magnitude is at most `2^40`.
fn is_light_constant(number: i128) -> bool
    ensures { result ≡ is_within (2 ^ 40) number }
{
    -1_099_511_627_776 <= number && number <= 1_099_511_627_776
}

/// Whether no variable counts more often than in a light cube.
fn has_light_terms(terms: &[Term]) -> bool
    ensures { result ≡ list_all has_light_times terms.now }
{
    terms.iter().all(|term| is_light_times(term.times))
}

/// Whether the row's numbers are those of a light cube.
fn has_light_numbers(row: &WideRow) -> bool
    ensures { result ≡ has_light_numbers row.now }
{
    has_light_terms(row.terms()) && is_light_constant(row.constant())
}

/// Whether each row's numbers are.
fn have_light_numbers(rows: &[Numbered]) -> bool
    ensures { result ≡ list_all is_light_row rows.now }
{
    for numbered in rows {
        if !has_light_numbers(&numbered.row) {
            return false;
        }
    }
    true
}

/// Whether the rows are a light cube. It fails only for want of memory.
pub fn is_light(alloc: Global, kept: &Rows) -> Result<bool, AllocError>
    ensures { IfOk result (λ answer. IsTrue answer ↔ IsLightCube (rows_in kept.now)) }
{
    if kept.len() > MOST_LIGHT_ROWS {
        return Ok(false);
    }
    if !have_light_numbers(kept.rows()) {
        return Ok(false);
    }
    Ok(places_of(alloc, kept.rows())?.len() <= MOST_PLACES)
}
