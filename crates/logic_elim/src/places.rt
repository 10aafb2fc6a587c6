//! The places of variables, each once.

ghost use Rattle.std.specs.Prelude.{◌≡◌, [], IfOk};
ghost use Rattle.logic_elim.specs.Chains.{rows_in};
ghost use Rattle.logic_elim.specs.Noted.{noted, terms_in, with_place};

use super::rows::Numbered;
use logic_linear::Term;
use std::alloc::{AllocError, Global};

/// Notes the place, unless it is among them.
fn note_place(places: &mut Vec<u32>, place: u32) -> Result<(), AllocError>
    ensures { IfOk result (λ done. places.new.items ≡ with_place places.old.items place) }
{
    if places.contains(&place) {
        return Ok(());
    }
    places.push(place)?;
    Ok(())
}

/// Notes the places of the terms.
pub fn note_places(places: &mut Vec<u32>, terms: &[Term]) -> Result<(), AllocError>
    ensures { IfOk result (λ done. places.new.items ≡ noted places.old.items terms.now) }
{
    for term in terms {
        note_place(places, term.place)?;
    }
    Ok(())
}

/// The places of the rows, each once.
pub(crate) fn places_of(alloc: Global, rows: &[Numbered]) -> Result<Vec<u32>, AllocError>
    ensures { IfOk result (λ places. places.items ≡ noted [] (terms_in (rows_in rows.now))) }
{
    let mut places = Vec::new(alloc);
    for numbered in rows {
        note_places(&mut places, numbered.row.terms())?;
    }
    Ok(places)
}
