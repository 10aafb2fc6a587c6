//! Clashes of flags.

ghost use Rattle.std.specs.Prelude.{◌≡◌, ◌≤◌, IfOk, length};
ghost use Rattle.std.specs.List.{list_any, position};
ghost use Rattle.logic_linear.specs.Measures.{MOST_NODES};
ghost use Rattle.logic_solve.specs.Cubes.{is_opposite};
ghost use Rattle.logic_solve.specs.inner.Flags.{is_clear, is_same, HasClash, Looks};

use logic_cert::{Cert, Literal, are_opposite};
use std::alloc::{AllocError, Global};

/// A flag whose opposite is no literal.
#[derive(Clone, Copy)]
struct Clear {
    place: u32,
    is: bool,
}

/// Whether the flag is the one at the place with this truth.
fn is_same(place: u32, is: bool, clear: Clear) -> bool
    ensures { result ≡ is_same place is clear }
{
    clear.place == place && clear.is == is
}

/// Whether the flag at the place with this truth is one of these.
fn is_clear(place: u32, is: bool, clear: &[Clear]) -> bool
    ensures { result ≡ is_clear place is clear.now }
{
    clear.iter().any(|flag| is_same(place, is, *flag))
}

/// The number of the first literal that is the given one's flag with the other truth.
fn first_opposite(literals: &[Literal], literal: &Literal) -> Option<usize>
    ensures { result ≡ position (is_opposite literal.now) literals.now }
{
    literals
        .iter()
        .position(|other| are_opposite(literal, other))
}

/// The number of the literal's opposite, which is looked for once for each flag: where there is
/// none, the flag is noted.
fn opposite_of(
    literals: &[Literal],
    literal: &Literal,
    clear: &mut Vec<Clear>,
) -> Result<Option<usize>, AllocError>
    ensures { IfOk result (Looks literals.now literal.now clear.old.items clear.new) }
{
    match literal {
        Literal::Row(_) => Ok(None),
        Literal::Flag { place, is } => {
            if is_clear(*place, *is, clear.as_slice()) {
                return Ok(None);
            }
            if let Some(other) = first_opposite(literals, literal) {
                return Ok(Some(other));
            }
            clear.push(Clear {
                place: *place,
                is: *is,
            })?;
            Ok(None)
        }
    }
}

/// Two literals that are the same flag with opposite truths, where there are such.
pub(crate) fn clash(alloc: Global, literals: &[Literal]) -> Result<Option<Cert>, AllocError>
    requires { length literals.now ≤ MOST_NODES }
    ensures { IfOk result (HasClash literals.now) }
{
    let mut clear = Vec::new(alloc);
    for i in 0..literals.len() {
        if let Some(other) = opposite_of(literals, &literals[i], &mut clear)? {
            return Ok(Some(Cert::Clash {
                left: i as u32,
                right: other as u32,
            }));
        }
    }
    Ok(None)
}
