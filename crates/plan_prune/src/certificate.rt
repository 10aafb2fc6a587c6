//! Certificates of queries.

ghost use Rattle.std.specs.Prelude.{◌<◌, IfOk, IfSome, IsTrue, length};
ghost use Rattle.logic_linear.specs.Negation.{can_negate};
ghost use Rattle.lang_monitor.specs.Triples.{IsValidQuery};
ghost use Rattle.plan_prune.specs.Invariants.{IsDecision};

use lang_monitor::{Monitor, Query};
use logic_cert::{Cert, refuted_formula_is_false};
use logic_solve::refute;
use logic_wp::{negated, refuted_query_is_valid, satisfied_query_is_invalid};
use std::alloc::{AllocError, Global};

/// A certificate that refutes the negation of a query, which is then valid. There is none only
/// where the query is not valid, or is not negated within the limits of [`negated`] to a formula of
/// at most 1,024 cubes, or where that formula has a cube without a clash, with a row that is no
/// difference row, and that cube isn't light, or is light and has a solution in fractions and none
/// in whole numbers (`specs/Hardness`). It fails only for want of memory.
pub fn certificate_of(
    alloc: Global,
    monitor: &Monitor,
    query: &Query,
) -> Result<Option<Cert>, AllocError>
    requires block { query.now.block < length monitor.now.blocks }
    requires post { IsTrue (can_negate query.now.post) }
    ensures decided { IfOk result (IsDecision monitor.now query.now) }
    ensures valid { IfOk result (λ it. IfSome it (λ cert. IsValidQuery monitor.now query.now)) }
{
    refuted_formula_is_false(); // so where a certificate is found
    refuted_query_is_valid(); // the query is valid
    satisfied_query_is_invalid(); // and where its negation is true somewhere it is not
    monitor.blocks();
    match negated(alloc, monitor, query)? {
        None => Ok(None),
        Some(formula) => Ok(refute(alloc, &formula)?),
    }
}
