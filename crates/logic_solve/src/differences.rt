//! Difference rows as the edges of a graph, and the chain of a cycle.

ghost use Rattle.std.specs.Prelude.{◌≡◌, ◌++◌, ◌+◌, ◌<◌, ◌≤◌, ◌^◌, false, IfOk, length};
ghost use Rattle.std.specs.List.{list_any};
ghost use Rattle.logic_elim.specs.Rows.{has_terms};
ghost use Rattle.logic_linear.specs.Measures.{MOST_NODES};
ghost use Rattle.logic_solve.specs.inner.Differences.{chain_along, chain_of, edges_with, sum_with};
ghost use Rattle.logic_solve.specs.inner.Differences.{lower_vertex, upper_vertex, AreEdgesOf};
ghost use Rattle.logic_solve.specs.Cubes.{is_general};
ghost use Rattle.logic_solve.specs.inner.Literals.{FitsLiteral};

use super::paths::Edge;
use logic_cert::{Combine, Literal};
use logic_linear::{Lin, Term};
use std::alloc::{AllocError, Global};

/// The vertex of the first variable that counts more than 0 times, and 0 where there is none.
fn upper_vertex(terms: &[Term]) -> u64
    ensures { result ≡ upper_vertex terms.now }
{
    for term in terms {
        if term.times > 0 {
            return u64::from(term.place) + 1;
        }
    }
    0
}

/// The vertex of the first variable that counts less than 0 times, and 0 where there is none.
fn lower_vertex(terms: &[Term]) -> u64
    ensures { result ≡ lower_vertex terms.now }
{
    for term in terms {
        if term.times < 0 {
            return u64::from(term.place) + 1;
        }
    }
    0
}

/// Whether the row has a variable.
fn has_terms(form: &Lin) -> bool
    ensures { result ≡ has_terms form.now.terms }
{
    match form.terms() {
        [] => false,
        _ => true,
    }
}

/// Notes the edge of the literal, where it is a row with a variable.
fn note_edge(edges: &mut Vec<Edge>, number: u32, literal: &Literal) -> Result<(), AllocError>
    ensures edges { IfOk result (λ done.
        edges.new.items ≡ edges.old.items ++ edges_with number literal.now) }
    ensures rule { FitsLiteral literal.now }
{
    match literal {
        Literal::Row(form) => {
            let weight = form.constant();
            if !has_terms(form) {
                return Ok(());
            }
            edges.push(Edge {
                from: upper_vertex(form.terms()),
                to: lower_vertex(form.terms()),
                weight,
                number,
            })?;
            Ok(())
        }
        Literal::Flag { .. } => Ok(()),
    }
}

/// The edges of the literals' rows.
pub(crate) fn edges_of(alloc: Global, literals: &[Literal]) -> Result<Vec<Edge>, AllocError>
    requires size { length literals.now ≤ MOST_NODES }
    requires differences { list_any is_general literals.now ≡ false }
    ensures { IfOk result (λ edges. AreEdgesOf literals.now literals.now edges.items) }
{
    let mut edges = Vec::new(alloc);
    for i in 0..literals.len() {
        note_edge(&mut edges, i as u32, &literals[i])?;
    }
    Ok(edges)
}

/// The sum of the edge's row and another row.
fn sum_with(number: u32, edge: &Edge) -> Combine
    ensures { result ≡ sum_with number edge.now }
{
    Combine {
        left: number,
        left_times: 1,
        right: edge.number,
        right_times: 1,
    }
}

/// The sums of the row of the number and those of the path's edges, one after the other.
fn chain_along(
    alloc: Global,
    number: u32,
    next: u32,
    path: &[Edge],
) -> Result<Vec<Combine>, AllocError>
    requires { next + length path.now < 2 ^ 32 }
    ensures { IfOk result (λ combines. combines.items ≡ chain_along number next path.now) }
{
    let mut combines = Vec::new(alloc);
    let mut sum = number;
    let mut at = next;
    for i in 0..path.len() {
        combines.push(sum_with(sum, &path[i]))?;
        sum = at;
        at += 1;
    }
    Ok(combines)
}

/// The sums of the rows of the path's edges, one after the other.
pub(crate) fn chain_of(alloc: Global, next: u32, path: &[Edge]) -> Result<Vec<Combine>, AllocError>
    requires some { 0 < length path.now }
    requires room { next + length path.now < 2 ^ 32 }
    ensures { IfOk result (λ combines. combines.items ≡ chain_of next path.now) }
{
    Ok(chain_along(alloc, path[0].number, next, &path[1..])?)
}
