//! Refutations of formulas.

ghost use Rattle.std.specs.Prelude.{◌≤◌, ◌∷◌, [], IfOk, IfSome};
ghost use Rattle.logic_linear.specs.Measures.{nodes_of, MOST_NODES};
ghost use Rattle.logic_solve.specs.LeanRefutations.{RefutesLeanly};
ghost use Rattle.logic_solve.specs.Refutation.{IsAnswer};

use super::facts::Facts;
use super::search::search;
use logic_cert::Cert;
use logic_linear::{Formula, MOST_CUBES, cubes};
use std::alloc::{AllocError, Global};

/// A certificate that refutes the formula, of at most 65,536 nodes, where one is found. Its chains
/// have no row that nothing needs.
///
/// There is none only where the formula holds at some valuation in whole numbers, or has more than
/// 1,024 cubes, or a cube has a row that is no difference row, no flag with opposite truths, and
/// rows that are no light cube or have a solution in fractions. So a formula of difference rows
/// with no more cubes is decided. It fails only for want of memory.
///
/// The formula is split at each any, unless the literals before it close already. In each cube two
/// flags with opposite truths are looked for. Where all its rows are difference rows, they are the
/// edges of a graph, and a cycle of positive weight is looked for along longest paths, in passes
/// over the edges until no path grows (Bellman's and Ford's method, each path followed back to its
/// start: Thomas Cormen, Charles Leiserson, Ronald Rivest and Clifford Stein, "Introduction to
/// Algorithms", on difference constraints; Boris Cherkassky and Andrew Goldberg, "Negative-cycle
/// detection algorithms"). Else the variables of the rows are eliminated one after the other, where
/// each upper bound is added to each lower one with factors that cancel the variable (Fourier's and
/// Motzkin's elimination: Alexander Schrijver, "Theory of Linear and Integer Programming", section
/// 12.2). Of rows with the same terms the tightest stays. A cube that is not light is given up
/// where a number leaves 128 bits or there are more than 4,096 rows.
///
/// It copies no formula: what is left to do are borrowed parts, of which each any that is open
/// holds a list, and the literals are gathered in one list, which is cut back after each part of an
/// any. Where there are more than 1,024, those that say something new stand in a second list, so
/// their rows are held twice. So memory is at most twice that of the literals of one cube, and that
/// of the certificate and of those lists. It recurses as deep as anys are open at once, and the
/// calls that measure and drop a formula as deep as alls and anys stand in one another. A condition
/// of a monitor opens at most 64 levels, and where a truth value is assigned, those of its
/// expression stand in place of a flag.
pub fn refute(alloc: Global, formula: &Formula) -> Result<Option<Cert>, AllocError>
    requires { nodes_of formula.now ≤ MOST_NODES }
    ensures answer { IfOk result (IsAnswer formula.now) }
    ensures lean { IfOk result (λ found. IfSome found (RefutesLeanly (formula.now ∷ []) [])) }
{
    if cubes(formula) > MOST_CUBES {
        return Ok(None);
    }
    let mut literals = Vec::new(alloc);
    let mut facts = Facts::new(alloc);
    Ok(search(alloc, formula, &[], &mut literals, &mut facts)?)
}
