//! Statements and results.

ghost use Rattle.std.specs.Prelude.{◌≡◌, ◌++◌, [], All, IfOk, IsTrue, OnOk};
ghost use Rattle.std.specs.List.{flat_map};
ghost use Rattle.lang_tree.specs.declared.tree.StmtTree.{out-StmtTree};
ghost use Rattle.lang_forms.specs.Forms.{IsOrdered};
ghost use Rattle.lang_forms.specs.Making.{has_small_numbers};
ghost use Rattle.lang_forms.specs.Sense.{sense};
ghost use Rattle.lang_rules.specs.Rules.{finding};
ghost use Rattle.lang_types.specs.Typed.{result_layer, result_of, statement_of};
ghost use Rattle.lang_types.specs.inner.Making.{assigned, assigned_at};
ghost use Rattle.lang_types.specs.inner.Making.{meaning_faults, value_faults};
ghost use Rattle.lang_types.specs.inner.Making.{value_result as result_of_value};

use base_list::Seq;
use lang_base::Kind;
use lang_forms::{Entry, Meaning, find, form_of, formula_of, kind_of};
use lang_monitor::{Ret, Stmt};
use lang_tree::{Expr, StmtTree};
use logic_linear::Put;
use std::alloc::{AllocError, Global};

/// The statements of these trees.
#[cycle(statements_of)]
pub(crate) fn statements_of(
    alloc: Global,
    scope: &[Entry],
    trees: &[StmtTree],
) -> Result<Vec<Stmt>, AllocError>
    requires ordered { IsOrdered scope.now }
    requires numbers { IsTrue (has_small_numbers scope.now) }
    requires fine { All (λ tree. (finding scope.now tree).faults ≡ []) trees.now }
    ensures { IfOk result (λ made. made.items ≡ flat_map (statement_of scope.now) trees.now) }
{
    let mut made = Vec::new(alloc);
    for tree in trees {
        push_statement(alloc, scope, tree, &mut made)?;
    }
    Ok(made)
}

/// Adds the statement of a tree. A `return` is none.
#[cycle(statements_of)]
fn push_statement(
    alloc: Global,
    scope: &[Entry],
    tree: &StmtTree,
    to: &mut Vec<Stmt>,
) -> Result<(), AllocError>
    requires ordered { IsOrdered scope.now }
    requires numbers { IsTrue (has_small_numbers scope.now) }
    requires fine { (finding scope.now tree.now).faults ≡ [] }
    ensures { OnOk result (to.new.items ≡ to.old.items ++ statement_of scope.now tree.now) }
{
    match tree {
        StmtTree::Set { name, value, .. } => { push_set(alloc, scope, name.bytes(), value, to) }
        StmtTree::If {
            when,
            then,
            other,
            ..
        } => {
            let when = formula_of(alloc, scope, when)?;
            let body = statements_of(alloc, scope, then.items())?;
            let other = statements_of(alloc, scope, other.items())?;
            to.push(Stmt::If {
                when,
                then: Seq::of(body),
                other: Seq::of(other),
            })?;
            Ok(())
        }
        StmtTree::Return { .. } => Ok(()),
    }
}

/// Adds the assignment to a name.
fn push_set(
    alloc: Global,
    scope: &[Entry],
    name: &[u8],
    value: &Expr,
    to: &mut Vec<Stmt>,
) -> Result<(), AllocError>
    requires ordered { IsOrdered scope.now }
    requires numbers { IsTrue (has_small_numbers scope.now) }
    requires fine { value_faults scope.now name.now value.now ≡ [] }
    ensures { OnOk result (to.new.items ≡ to.old.items ++ assigned scope.now name.now value.now) }
{
    match find(scope, name) {
        None => Ok(()),
        Some(index) => push_assignment(alloc, scope, scope[index].meaning, value, to),
    }
}

/// Adds the assignment to a place.
fn push_assignment(
    alloc: Global,
    scope: &[Entry],
    meaning: Meaning,
    value: &Expr,
    to: &mut Vec<Stmt>,
) -> Result<(), AllocError>
    requires ordered { IsOrdered scope.now }
    requires numbers { IsTrue (has_small_numbers scope.now) }
    requires fine { meaning_faults meaning scope.now value.now ≡ [] }
    ensures { OnOk result (to.new.items ≡ to.old.items ++ assigned_at scope.now meaning value.now) }
{
    match meaning {
        Meaning::Number(_) => Ok(()),
        Meaning::Int { place } => {
            let form = form_of(alloc, scope, value)?;
            to.push(Stmt::Put(Put::Number { place, form }))?;
            Ok(())
        }
        Meaning::Flag { place } => {
            let is = formula_of(alloc, scope, value)?;
            to.push(Stmt::Put(Put::Truth { place, is }))?;
            Ok(())
        }
    }
}

/// The result of a body.
pub(crate) fn result_of(
    alloc: Global,
    scope: &[Entry],
    body: &[StmtTree],
) -> Result<Ret, AllocError>
    requires ordered { IsOrdered scope.now }
    requires numbers { IsTrue (has_small_numbers scope.now) }
    requires fine { All (λ tree. (finding scope.now tree).faults ≡ []) body.now }
    ensures { IfOk result (λ made. made ≡ result_of scope.now body.now) }
{
    if body.is_empty() {
        return Ok(Ret::Nothing);
    }
    let last = body.len() - 1;
    last_result(alloc, scope, &body[last])
}

/// The result of a last statement.
fn last_result(alloc: Global, scope: &[Entry], last: &StmtTree) -> Result<Ret, AllocError>
    requires ordered { IsOrdered scope.now }
    requires numbers { IsTrue (has_small_numbers scope.now) }
    requires fine { (finding scope.now last.now).faults ≡ [] }
    ensures { IfOk result (λ made. made ≡ result_layer scope.now (out-StmtTree last.now)) }
{
    match last {
        StmtTree::Return { value, .. } => value_result(alloc, scope, value),
        _ => Ok(Ret::Nothing),
    }
}

/// The result that an expression is.
fn value_result(alloc: Global, scope: &[Entry], value: &Expr) -> Result<Ret, AllocError>
    requires ordered { IsOrdered scope.now }
    requires numbers { IsTrue (has_small_numbers scope.now) }
    requires fine { (sense scope.now value.now).faults ≡ [] }
    ensures { IfOk result (λ made. made ≡ result_of_value scope.now value.now) }
{
    match kind_of(scope, value) {
        None => Ok(Ret::Nothing),
        Some(Kind::Int) => Ok(Ret::Int(form_of(alloc, scope, value)?)),
        Some(Kind::Bool) => Ok(Ret::Bool(formula_of(alloc, scope, value)?)),
    }
}
