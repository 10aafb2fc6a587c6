//! The cubes of a formula by their numbers.

use logic_cert::Literal;
use logic_linear::{Formula, cubes};
use std::alloc::AllocError;

/// Gathers the literals of the formula's cube of this number.
#[cycle(cube)]
pub(crate) fn gather(
    formula: &Formula,
    number: u64,
    literals: &mut Vec<Literal>,
) -> Result<(), AllocError> {
    match formula {
        Formula::Row(form) => {
            literals.push(Literal::Row(form.clone()?))?;
            Ok(())
        }
        Formula::Flag { place, is } => {
            literals.push(Literal::Flag {
                place: *place,
                is: *is,
            })?;
            Ok(())
        }
        Formula::All(parts) => gather_all(parts.items(), number, literals),
        Formula::Any(parts) => gather_any(parts.items(), number, literals),
    }
}

/// Of each part the cube of a number: the last digit is the first part's.
#[cycle(cube)]
fn gather_all(
    parts: &[Formula],
    number: u64,
    literals: &mut Vec<Literal>,
) -> Result<(), AllocError> {
    let mut left = number;
    for part in parts {
        let count = cubes(part);
        gather(part, left.checked_rem(count).unwrap_or(0), literals)?;
        left = left.checked_div(count).unwrap_or(0);
    }
    Ok(())
}

/// Of the part in whose cubes the number is, the cube of that number.
#[cycle(cube)]
fn gather_any(
    parts: &[Formula],
    number: u64,
    literals: &mut Vec<Literal>,
) -> Result<(), AllocError> {
    let mut left = number;
    for part in parts {
        let count = cubes(part);
        match left.checked_sub(count) {
            None => return gather(part, left, literals),
            Some(later) => left = later,
        }
    }
    Ok(())
}
