//! How large a formula is.

ghost use Rattle.std.specs.Prelude.{◌≡◌, ◌+◌, ◌*◌, ◌≤◌, map, min, sum};
ghost use Rattle.logic_linear.specs.Measures.{nodes_of, cubes_of, product, MOST_CUBES, MOST_NODES};

use super::formula::Formula;

/// A formula has at most so many nodes, where an assignment or a query makes it.
pub const MOST_NODES: u64 = 65_536;

/// A formula of at most so many cubes can be decided.
pub const MOST_CUBES: u64 = 1_024;

/// The rows, flags, alls and anys of a formula, and one more than [`MOST_NODES`] where they are
/// more.
#[cycle(nodes)]
pub fn nodes(formula: &Formula) -> u64
    ensures { result ≡ min (nodes_of formula.now) (MOST_NODES + 1) }
{
    match formula {
        Formula::Row(_) => 1,
        Formula::Flag { .. } => 1,
        Formula::All(parts) => nodes_of_parts(parts.items()),
        Formula::Any(parts) => nodes_of_parts(parts.items()),
    }
}

#[cycle(nodes)]
fn nodes_of_parts(parts: &[Formula]) -> u64
    ensures { result ≡ min (1 + sum (map nodes_of parts.now)) (MOST_NODES + 1) }
{
    let mut total = 1;
    for part in parts {
        total = (total + nodes(part)).min(MOST_NODES + 1);
    }
    total
}

/// The cubes of a formula: 1 for a row or a flag, their product over an all, and their sum over an
/// any, but at least 1. It is one more than [`MOST_CUBES`] where they are more.
#[cycle(cubes)]
pub fn cubes(formula: &Formula) -> u64
    ensures { result ≡ min (cubes_of formula.now) (MOST_CUBES + 1) }
{
    match formula {
        Formula::Row(_) => 1,
        Formula::Flag { .. } => 1,
        Formula::All(parts) => product_of_cubes(parts.items()),
        Formula::Any(parts) => sum_of_cubes(parts.items()).max(1),
    }
}

#[cycle(cubes)]
fn product_of_cubes(parts: &[Formula]) -> u64
    ensures { result ≡ min (product (map cubes_of parts.now)) (MOST_CUBES + 1) }
{
    let mut total = 1;
    for part in parts {
        total = limited_product(total, cubes(part));
    }
    total
}

#[cycle(cubes)]
fn sum_of_cubes(parts: &[Formula]) -> u64
    ensures { result ≡ min (sum (map cubes_of parts.now)) (MOST_CUBES + 1) }
{
    let mut total = 0;
    for part in parts {
        total = (total + cubes(part)).min(MOST_CUBES + 1);
    }
    total
}

/// The product, and one more than the most cubes where it is more.
fn limited_product(a: u64, b: u64) -> u64
    requires a { a ≤ MOST_CUBES + 1 }
    requires b { b ≤ MOST_CUBES + 1 }
    ensures { result ≡ min (a * b) (MOST_CUBES + 1) }
{
    (a * b).min(MOST_CUBES + 1)
}
