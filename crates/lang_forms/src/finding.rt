//! What is found of an expression without memory: where it begins, and its kind.

ghost use Rattle.std.specs.Prelude.{◌≡◌, List, Some, map};
ghost use Rattle.lang_forms.specs.declared.scope.Entry.{Entry};
ghost use Rattle.lang_forms.specs.Scope.{entry_named};
ghost use Rattle.lang_forms.specs.Sense.{entry_kind, first_of, is_other, meaning_kind, sense};

use crate::scope::{Entry, Meaning, find};
use lang_base::Kind;
use lang_tree::Expr;

/// The offset of an expression's first token.
#[cycle(first_place)]
pub fn first_place(expression: &Expr) -> u32
    ensures { (scope : List Entry) → result ≡ (sense scope expression.now).first }
{
    match expression {
        Expr::Number { at, .. } => *at,
        Expr::Truth { at, .. } => *at,
        Expr::Named { at, .. } => *at,
        Expr::Minus { at, .. } => *at,
        Expr::Not { at, .. } => *at,
        Expr::Product { first, .. } => first_place(first.get()),
        Expr::Sum { first, .. } => first_place(first.get()),
        Expr::Compare { left, .. } => first_place(left.get()),
        Expr::Both { parts } => first_of(parts.items()),
        Expr::Either { parts } => first_of(parts.items()),
    }
}

#[cycle(first_place)]
fn first_of(parts: &[Expr]) -> u32
    ensures { (scope : List Entry) → result ≡ first_of (map (sense scope) parts.now) }
{
    match parts {
        [] => 0,
        [part, ..] => first_place(part),
    }
}

/// The kind of an expression. An unknown name has none.
pub fn kind_of(scope: &[Entry], expression: &Expr) -> Option<Kind>
    ensures { result ≡ (sense scope.now expression.now).kind }
{
    match expression {
        Expr::Number { .. } => Some(Kind::Int),
        Expr::Truth { .. } => Some(Kind::Bool),
        Expr::Named { name, .. } => kind_of_name(scope, name.bytes()),
        Expr::Minus { .. } => Some(Kind::Int),
        Expr::Not { .. } => Some(Kind::Bool),
        Expr::Product { .. } => Some(Kind::Int),
        Expr::Sum { .. } => Some(Kind::Int),
        Expr::Compare { .. } => Some(Kind::Bool),
        Expr::Both { .. } => Some(Kind::Bool),
        Expr::Either { .. } => Some(Kind::Bool),
    }
}

/// The kind of what a name stands for, where it is known.
pub fn kind_of_name(scope: &[Entry], name: &[u8]) -> Option<Kind>
    ensures { result ≡ entry_kind (entry_named scope.now name.now) }
{
    match find(scope, name) {
        Some(index) => Some(kind_of_meaning(scope[index].meaning)),
        None => None,
    }
}

fn kind_of_meaning(meaning: Meaning) -> Kind
    ensures { result ≡ meaning_kind meaning }
{
    match meaning {
        Meaning::Number(_) => Kind::Int,
        Meaning::Int { .. } => Kind::Int,
        Meaning::Flag { .. } => Kind::Bool,
    }
}

/// Whether a kind is other than the wanted one. An unknown name has either kind, as wanted.
pub fn is_other(wanted: Kind, kind: Option<Kind>) -> bool
    ensures { result ≡ is_other wanted kind }
{
    match kind {
        Some(kind) => differs(wanted, kind),
        None => false,
    }
}

fn differs(wanted: Kind, kind: Kind) -> bool
    ensures { result ≡ is_other wanted (Some kind) }
{
    match wanted {
        Kind::Int => match kind {
            Kind::Int => false,
            Kind::Bool => true,
        },
        Kind::Bool => match kind {
            Kind::Int => true,
            Kind::Bool => false,
        },
    }
}
