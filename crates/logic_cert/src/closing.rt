//! Clashes and chains over gathered literals.

ghost use Rattle.std.specs.Prelude.{◌≡◌, IfOk, Some, slice_get};
ghost use Rattle.logic_cert.specs.declared.cert.Cert.{out-Cert};
ghost use Rattle.logic_cert.specs.Refutes.{are_opposite, closes};

use super::cert::{Cert, Literal};
use super::rows::chain_closes;
use std::alloc::{AllocError, Global};

/// Whether the two literals are the same flag with opposite truths.
pub fn are_opposite(left: &Literal, right: &Literal) -> bool
    ensures { result ≡ are_opposite (Some left.now) (Some right.now) }
{
    match left {
        Literal::Row(_) => false,
        Literal::Flag { place, is } => match right {
            Literal::Row(_) => false,
            Literal::Flag {
                place: other,
                is: other_is,
            } => *place == *other && *is != *other_is,
        },
    }
}

/// Whether the literals of these numbers are the same flag with opposite truths.
fn clashes(literals: &[Literal], left: usize, right: usize) -> bool
    ensures { result ≡ are_opposite (slice_get literals.now left) (slice_get literals.now right) }
{
    if left >= literals.len() {
        return false;
    }
    if right >= literals.len() {
        return false;
    }
    are_opposite(&literals[left], &literals[right])
}

/// Whether the certificate is a clash or a chain over the literals.
pub(crate) fn closes(alloc: Global, literals: &[Literal], cert: &Cert) -> Result<bool, AllocError>
    ensures { IfOk result (λ answer. answer ≡ closes literals.now (out-Cert cert.now)) }
{
    match cert {
        Cert::Split(_) => Ok(false),
        Cert::Clash { left, right } => Ok(clashes(literals, *left as usize, *right as usize)),
        Cert::Chain(combines) => chain_closes(alloc, literals, combines.items()),
        Cert::Cases { .. } => Ok(false),
    }
}
