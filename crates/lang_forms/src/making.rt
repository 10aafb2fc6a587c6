//! The forms of int expressions and the formulas of bool ones, where they break no rule.

ghost use Rattle.std.specs.Prelude.{◌≡◌, ℕ, true, false, [], IfOk, IsTrue, All};
ghost use Rattle.lang_base.specs.declared.kind.Kind.TheVariants as kinds;
ghost use Rattle.lang_forms.specs.Scope.{entry_named};
ghost use Rattle.lang_forms.specs.Forms.{IsOrdered, is_limited, linear_of, product};
ghost use Rattle.lang_forms.specs.Sense.{entry_formula, faults_in, form_in, formula_in, is_other};
ghost use Rattle.lang_forms.specs.Sense.{kind_in, meaning_formula, truth_formula};
ghost use Rattle.lang_forms.specs.Making.{IsBool, IsInt, has_small_numbers};
ghost use Rattle.lang_forms.specs.inner.FormBounds.{IsFormOf};
ghost use Rattle.lang_forms.specs.inner.Parts.{at_most_formula, broken_from, compared_formula};
ghost use Rattle.lang_forms.specs.inner.Parts.{difference, formulas_in, less_formula, product_from};
ghost use Rattle.lang_forms.specs.inner.Parts.{sum_from};

use crate::form::Flat;
use crate::scope::{Entry, Meaning, find};
use base_list::Seq;
use lang_tree::{Addend, Expr, Factor, Op};
use logic_linear::{Formula, Lin, negate};
use std::alloc::{AllocError, Global};

/// The linear form of an int expression that breaks no rule. It fails only for want of memory.
pub fn form_of(alloc: Global, scope: &[Entry], expression: &Expr) -> Result<Lin, AllocError>
    requires ordered { IsOrdered scope.now }
    requires numbers { IsTrue (has_small_numbers scope.now) }
    requires fine { faults_in scope.now expression.now ≡ [] }
    requires int { is_other kinds.Int (kind_in scope.now expression.now) ≡ false }
    ensures { IfOk result (λ form. form ≡ linear_of scope.now (form_in scope.now expression.now)) }
{
    flat_of(alloc, scope, expression)?.into_linear(alloc, scope)
}

/// The flattened form of an int expression that breaks no rule. It fails only for want of memory.
#[cycle(flat_of)]
pub(crate) fn flat_of(alloc: Global, scope: &[Entry], expression: &Expr) -> Result<Flat, AllocError>
    requires numbers { IsTrue (has_small_numbers scope.now) }
    requires fine { faults_in scope.now expression.now ≡ [] }
    requires int { is_other kinds.Int (kind_in scope.now expression.now) ≡ false }
    ensures { IfOk result (λ flat. flat ≡ form_in scope.now expression.now) }
{
    match expression {
        Expr::Number { value, .. } => Flat::number(alloc, scope, *value as i128),
        Expr::Named { name, .. } => Flat::name(alloc, scope, name.bytes()),
        Expr::Minus { of, .. } => {
            let mut flat = flat_of(alloc, scope, of.get())?;
            flat.scale(-1);
            Ok(flat)
        }
        Expr::Product { first, rest } => {
            let first = flat_of(alloc, scope, first.get())?;
            multiply_all(alloc, scope, first, rest.items())
        }
        Expr::Sum { first, rest } => {
            let first = flat_of(alloc, scope, first.get())?;
            add_all(alloc, scope, first, rest.items())
        }
        _ => unreachable!(),
    }
}

// The first form times the factors, of which at most one is no constant.
#[cycle(flat_of)]
fn multiply_all(
    alloc: Global,
    scope: &[Entry],
    first: Flat,
    rest: &[Factor],
) -> Result<Flat, AllocError>
    requires numbers { IsTrue (has_small_numbers scope.now) }
    requires limited { is_limited first ≡ true }
    requires parts { All (λ factor. IsInt scope.now factor.of) rest.now }
    requires fine { (at : ℕ) × broken_from scope.now at first rest.now ≡ [] }
    ensures { IfOk result (λ flat. flat ≡ product_from scope.now first rest.now) }
{
    let mut product = first;
    for factor in rest {
        product = multiply(product, flat_of(alloc, scope, &factor.of)?);
    }
    Ok(product)
}

// The first form and the addends, each of limited numbers.
#[cycle(flat_of)]
pub(crate) fn add_all(
    alloc: Global,
    scope: &[Entry],
    first: Flat,
    rest: &[Addend],
) -> Result<Flat, AllocError>
    requires numbers { IsTrue (has_small_numbers scope.now) }
    requires of_scope { IsFormOf scope.now first }
    requires limited { is_limited first ≡ true }
    requires parts { All (λ addend. IsInt scope.now addend.of) rest.now }
    ensures { IfOk result (λ flat. flat ≡ sum_from scope.now first rest.now) }
{
    let mut sum = first;
    for addend in rest {
        let part = flat_of(alloc, scope, &addend.of)?;
        sum.add(addend.minus, &part);
    }
    Ok(sum)
}

// The product of two forms, of which one at least is constant.
pub(crate) fn multiply(mut left: Flat, mut right: Flat) -> Flat
    requires left { is_limited left ≡ true }
    requires right { is_limited right ≡ true }
    ensures { result ≡ product left right }
{
    if left.is_constant() {
        right.scale(left.constant());
        return right;
    }
    left.scale(right.constant());
    left
}

/// The formula of a bool expression that breaks no rule. It fails only for want of memory.
#[cycle(formula_of)]
pub fn formula_of(alloc: Global, scope: &[Entry], expression: &Expr) -> Result<Formula, AllocError>
    requires ordered { IsOrdered scope.now }
    requires numbers { IsTrue (has_small_numbers scope.now) }
    requires fine { faults_in scope.now expression.now ≡ [] }
    requires bool { is_other kinds.Bool (kind_in scope.now expression.now) ≡ false }
    ensures { IfOk result (λ formula. formula ≡ formula_in scope.now expression.now) }
{
    match expression {
        Expr::Truth { value, .. } => Ok(truth_formula(alloc, *value)),
        Expr::Named { name, .. } => Ok(named_formula(alloc, scope, name.bytes())),
        Expr::Not { of, .. } => negate(alloc, &formula_of(alloc, scope, of.get())?),
        Expr::Compare { op, left, right } => compare(alloc, scope, *op, left.get(), right.get()),
        Expr::Both { parts } => Ok(Formula::All(Seq::of(formulas_of(
            alloc,
            scope,
            parts.items(),
        )?))),
        Expr::Either { parts } => Ok(Formula::Any(Seq::of(formulas_of(
            alloc,
            scope,
            parts.items(),
        )?))),
        _ => unreachable!(),
    }
}

#[cycle(formula_of)]
fn formulas_of(alloc: Global, scope: &[Entry], parts: &[Expr]) -> Result<Vec<Formula>, AllocError>
    requires ordered { IsOrdered scope.now }
    requires numbers { IsTrue (has_small_numbers scope.now) }
    requires parts { All (IsBool scope.now) parts.now }
    ensures { IfOk result (λ formulas. formulas.items ≡ formulas_in scope.now parts.now) }
{
    let mut formulas = Vec::new(alloc);
    for part in parts {
        formulas.push(formula_of(alloc, scope, part)?)?;
    }
    Ok(formulas)
}

// What is always so, or never.
fn truth_formula(alloc: Global, truth: bool) -> Formula
    ensures { result ≡ truth_formula truth }
{
    let parts = Seq::of(Vec::new(alloc));
    if truth {
        Formula::All(parts)
    } else {
        Formula::Any(parts)
    }
}

// The truth value at a bool name's place. No rule looks at the formula of another name.
fn named_formula(alloc: Global, scope: &[Entry], name: &[u8]) -> Formula
    ensures { result ≡ entry_formula (entry_named scope.now name.now) }
{
    match find(scope, name) {
        Some(index) => meaning_formula(alloc, scope[index].meaning),
        None => truth_formula(alloc, true),
    }
}

fn meaning_formula(alloc: Global, meaning: Meaning) -> Formula
    ensures { result ≡ meaning_formula meaning }
{
    match meaning {
        Meaning::Flag { place } => Formula::Flag { place, is: true },
        _ => truth_formula(alloc, true),
    }
}

// The rows of a comparison of int expressions.
fn compare(
    alloc: Global,
    scope: &[Entry],
    op: Op,
    left: &Expr,
    right: &Expr,
) -> Result<Formula, AllocError>
    requires ordered { IsOrdered scope.now }
    requires numbers { IsTrue (has_small_numbers scope.now) }
    requires left { IsInt scope.now left.now }
    requires right { IsInt scope.now right.now }
    requires limited { is_limited (difference scope.now left.now right.now) ≡ true }
    ensures { IfOk result (λ formula. formula ≡ compared_formula scope.now op left.now right.now) }
{
    match op {
        Op::Equal => {
            let one = at_most(alloc, scope, left, right)?;
            let other = at_most(alloc, scope, right, left)?;
            Ok(Formula::All(Seq::of(vec![in alloc; one, other]?)))
        }
        Op::Differs => {
            let one = less(alloc, scope, right, left)?;
            let other = less(alloc, scope, left, right)?;
            Ok(Formula::Any(Seq::of(vec![in alloc; one, other]?)))
        }
        Op::Less => less(alloc, scope, left, right),
        Op::AtMost => at_most(alloc, scope, left, right),
        Op::More => less(alloc, scope, right, left),
        Op::AtLeast => at_most(alloc, scope, right, left),
    }
}

// The row `left <= right`.
fn at_most(alloc: Global, scope: &[Entry], left: &Expr, right: &Expr) -> Result<Formula, AllocError>
    requires ordered { IsOrdered scope.now }
    requires numbers { IsTrue (has_small_numbers scope.now) }
    requires left { IsInt scope.now left.now }
    requires right { IsInt scope.now right.now }
    requires limited { is_limited (difference scope.now left.now right.now) ≡ true }
    ensures { IfOk result (λ row. row ≡ at_most_formula scope.now left.now right.now) }
{
    let form = difference(alloc, scope, left, right)?;
    Ok(Formula::Row(form.into_linear(alloc, scope)?))
}

// The row `left < right`.
fn less(alloc: Global, scope: &[Entry], left: &Expr, right: &Expr) -> Result<Formula, AllocError>
    requires ordered { IsOrdered scope.now }
    requires numbers { IsTrue (has_small_numbers scope.now) }
    requires left { IsInt scope.now left.now }
    requires right { IsInt scope.now right.now }
    requires limited { is_limited (difference scope.now left.now right.now) ≡ true }
    ensures { IfOk result (λ row. row ≡ less_formula scope.now left.now right.now) }
{
    let mut form = difference(alloc, scope, left, right)?;
    form.raise();
    Ok(Formula::Row(form.into_linear(alloc, scope)?))
}

pub(crate) fn difference(
    alloc: Global,
    scope: &[Entry],
    left: &Expr,
    right: &Expr,
) -> Result<Flat, AllocError>
    requires numbers { IsTrue (has_small_numbers scope.now) }
    requires left { IsInt scope.now left.now }
    requires right { IsInt scope.now right.now }
    ensures { IfOk result (λ flat. flat ≡ difference scope.now left.now right.now) }
{
    let mut form = flat_of(alloc, scope, left)?;
    let other = flat_of(alloc, scope, right)?;
    form.add(true, &other);
    Ok(form)
}
