//! The first rule that an expression breaks.

ghost use Rattle.std.specs.Prelude.{◌≡◌, IfOk, IsTrue};
ghost use Rattle.lang_tree.specs.declared.tree.Expr.TheVariants as exprs;
ghost use Rattle.lang_base.specs.SourceFaults.{least};
ghost use Rattle.lang_forms.specs.Making.{has_small_numbers};
ghost use Rattle.lang_forms.specs.Scope.{entry_named};
ghost use Rattle.lang_forms.specs.Sense.{faults_in, large_number, unknown};
ghost use Rattle.lang_forms.specs.inner.Parts.{IsFirstOfBoth, IsFirstOfEither, IsFirstOfNot};
ghost use Rattle.lang_forms.specs.inner.Parts.{faults_in_addends, faults_in_factors};
ghost use Rattle.lang_forms.specs.inner.Parts.{faults_in_parts};

use crate::scope::{Entry, find};
use crate::whole_fault::{
    fault_of_comparison, fault_of_minus, fault_of_not, fault_of_parts, fault_of_product,
    fault_of_sum,
};
use base_list::{Boxed, Seq};
use lang_base::{Refusal, SourceFault, earlier_of, limits};
use lang_tree::{Addend, Expr, Factor};
use std::alloc::{AllocError, Global};

/// The first rule that an expression breaks, if any. It fails only for want of memory.
#[cycle(fault_in)]
pub fn fault_in(
    alloc: Global,
    scope: &[Entry],
    expression: &Expr,
) -> Result<Option<SourceFault>, AllocError>
    requires { IsTrue (has_small_numbers scope.now) }
    ensures { IfOk result (λ fault. fault ≡ least (faults_in scope.now expression.now)) }
{
    match expression {
        Expr::Number { at, value } => Ok(large_number(*at, *value)),
        Expr::Truth { .. } => Ok(None),
        Expr::Named { at, name } => Ok(unknown(scope, *at, name.bytes())),
        Expr::Minus { at, of } => fault_in_minus(alloc, scope, *at, of),
        Expr::Not { of, .. } => fault_in_not(alloc, scope, of),
        Expr::Product { first, rest } => {
            let (first, rest) = (first.get(), rest.items());
            let one = fault_in(alloc, scope, first)?;
            let other = fault_in_factors(alloc, scope, rest)?;
            fault_of_product(alloc, scope, first, rest, earlier_of(one, other))
        }
        Expr::Sum { first, rest } => {
            let (first, rest) = (first.get(), rest.items());
            let one = fault_in(alloc, scope, first)?;
            let other = fault_in_addends(alloc, scope, rest)?;
            fault_of_sum(alloc, scope, first, rest, earlier_of(one, other))
        }
        Expr::Compare { left, right, .. } => {
            let (left, right) = (left.get(), right.get());
            let one = fault_in(alloc, scope, left)?;
            let other = fault_in(alloc, scope, right)?;
            fault_of_comparison(alloc, scope, left, right, earlier_of(one, other))
        }
        Expr::Both { parts } => fault_in_joined(alloc, scope, parts),
        Expr::Either { parts } => fault_in_joined(alloc, scope, parts),
    }
}

#[cycle(fault_in)]
fn fault_in_minus(
    alloc: Global,
    scope: &[Entry],
    at: u32,
    of: &Boxed<Expr>,
) -> Result<Option<SourceFault>, AllocError>
    requires { IsTrue (has_small_numbers scope.now) }
    ensures { IfOk result (λ fault. fault ≡ least (faults_in scope.now (exprs.Minus at of.now))) }
{
    let of = of.get();
    let part = fault_in(alloc, scope, of)?;
    fault_of_minus(alloc, scope, at, of, part)
}

#[cycle(fault_in)]
fn fault_in_not(
    alloc: Global,
    scope: &[Entry],
    of: &Boxed<Expr>,
) -> Result<Option<SourceFault>, AllocError>
    requires { IsTrue (has_small_numbers scope.now) }
    ensures { IfOk result (IsFirstOfNot scope.now of.now) }
{
    let of = of.get();
    let part = fault_in(alloc, scope, of)?;
    Ok(fault_of_not(scope, of, part))
}

/// In parts that are joined by `and` or by `or`.
#[cycle(fault_in)]
fn fault_in_joined(
    alloc: Global,
    scope: &[Entry],
    parts: &Seq<Expr>,
) -> Result<Option<SourceFault>, AllocError>
    requires { IsTrue (has_small_numbers scope.now) }
    ensures both { IfOk result (IsFirstOfBoth scope.now parts.now) }
    ensures either { IfOk result (IsFirstOfEither scope.now parts.now) }
{
    let parts = parts.items();
    let part = fault_in_parts(alloc, scope, parts)?;
    Ok(fault_of_parts(scope, parts, part))
}

#[cycle(fault_in)]
fn fault_in_factors(
    alloc: Global,
    scope: &[Entry],
    factors: &[Factor],
) -> Result<Option<SourceFault>, AllocError>
    requires { IsTrue (has_small_numbers scope.now) }
    ensures { IfOk result (λ fault. fault ≡ least (faults_in_factors scope.now factors.now)) }
{
    let mut fault = None;
    for factor in factors {
        fault = earlier_of(fault, fault_in(alloc, scope, &factor.of)?);
    }
    Ok(fault)
}

#[cycle(fault_in)]
fn fault_in_addends(
    alloc: Global,
    scope: &[Entry],
    addends: &[Addend],
) -> Result<Option<SourceFault>, AllocError>
    requires { IsTrue (has_small_numbers scope.now) }
    ensures { IfOk result (λ fault. fault ≡ least (faults_in_addends scope.now addends.now)) }
{
    let mut fault = None;
    for addend in addends {
        fault = earlier_of(fault, fault_in(alloc, scope, &addend.of)?);
    }
    Ok(fault)
}

#[cycle(fault_in)]
fn fault_in_parts(
    alloc: Global,
    scope: &[Entry],
    parts: &[Expr],
) -> Result<Option<SourceFault>, AllocError>
    requires { IsTrue (has_small_numbers scope.now) }
    ensures { IfOk result (λ fault. fault ≡ least (faults_in_parts scope.now parts.now)) }
{
    let mut fault = None;
    for part in parts {
        fault = earlier_of(fault, fault_in(alloc, scope, part)?);
    }
    Ok(fault)
}

/// A written number above the greatest one.
pub fn large_number(at: u32, value: u128) -> Option<SourceFault>
    ensures { result ≡ least (large_number at value) }
{
    if value > limits::GREATEST_NUMBER {
        Some(SourceFault {
            at,
            what: Refusal::TooLarge,
        })
    } else {
        None
    }
}

/// A name that no entry has.
fn unknown(scope: &[Entry], at: u32, name: &[u8]) -> Option<SourceFault>
    ensures { result ≡ least (unknown at (entry_named scope.now name.now)) }
{
    match find(scope, name) {
        Some(_) => None,
        None => Some(SourceFault {
            at,
            what: Refusal::Unknown,
        }),
    }
}
