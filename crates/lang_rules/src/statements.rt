//! The rules of expressions and statements.

ghost use Rattle.std.specs.Prelude.{◌≡◌, IfOk, IsTrue, List};
ghost use Rattle.lang_forms.specs.declared.scope.Entry.{Entry};
ghost use Rattle.lang_base.specs.SourceFaults.{least};
ghost use Rattle.lang_forms.specs.Making.{has_small_numbers};
ghost use Rattle.lang_forms.specs.Scope.{entry_named};
ghost use Rattle.lang_forms.specs.Sense.{sense};
ghost use Rattle.lang_rules.specs.Rules.{early_faults, expected, faults_in_each, finding};
ghost use Rattle.lang_rules.specs.Rules.{return_faults, target_faults};
ghost use Rattle.lang_rules.specs.inner.Parts.{branch_faults, misplaced_in, set_faults, unwanted};

use lang_base::{Kind, Refusal, SourceFault, earlier_of};
use lang_forms::{Entry, fault_in, find, kind_of_name, wrong_type};
use lang_tree::{Expr, StmtTree};
use std::alloc::{AllocError, Global};

/// The first fault in an expression, of the wanted kind where one is wanted.
pub(crate) fn fault_in_expected(
    alloc: Global,
    scope: &[Entry],
    wanted: Option<Kind>,
    value: &Expr,
) -> Result<Option<SourceFault>, AllocError>
    requires numbers { IsTrue (has_small_numbers scope.now) }
    ensures { IfOk result (λ fault. fault ≡ least (expected wanted (sense scope.now value.now))) }
{
    match fault_in(alloc, scope, value)? {
        Some(fault) => Ok(Some(fault)),
        None => Ok(unwanted(scope, wanted, value)),
    }
}

/// An expression without faults is of another kind than the wanted one.
fn unwanted(scope: &[Entry], wanted: Option<Kind>, value: &Expr) -> Option<SourceFault>
    ensures { result ≡ least (unwanted wanted (sense scope.now value.now)) }
{
    match wanted {
        None => None,
        Some(kind) => wrong_type(scope, kind, value),
    }
}

/// The first fault in an assignment.
fn fault_in_set(
    alloc: Global,
    scope: &[Entry],
    at: u32,
    name: &[u8],
    value: &Expr,
) -> Result<Option<SourceFault>, AllocError>
    requires numbers { IsTrue (has_small_numbers scope.now) }
    ensures { IfOk result (λ fault. fault ≡ least (set_faults scope.now at name.now value.now)) }
{
    let target = target_fault(scope, at, name);
    let valued = fault_in_expected(alloc, scope, kind_of_name(scope, name), value)?;
    Ok(earlier_of(target, valued))
}

/// The target of an assignment is a field or a local.
fn target_fault(scope: &[Entry], at: u32, name: &[u8]) -> Option<SourceFault>
    ensures { result ≡ least (target_faults at (entry_named scope.now name.now)) }
{
    match find(scope, name) {
        None => Some(SourceFault {
            at,
            what: Refusal::Unknown,
        }),
        Some(index) => if scope[index].is_variable {
            None
        } else {
            Some(SourceFault {
                at,
                what: Refusal::ReadOnly,
            })
        },
    }
}

/// The first fault in a statement and its inner ones.
#[cycle(fault_in_statement)]
fn fault_in_statement(
    alloc: Global,
    scope: &[Entry],
    statement: &StmtTree,
) -> Result<Option<SourceFault>, AllocError>
    requires numbers { IsTrue (has_small_numbers scope.now) }
    ensures { IfOk result (λ fault. fault ≡ least (finding scope.now statement.now).faults) }
{
    match statement {
        StmtTree::Set { at, name, value } => fault_in_set(alloc, scope, *at, name.bytes(), value),
        StmtTree::If {
            when,
            then,
            other,
            ..
        } => {
            let condition = fault_in_expected(alloc, scope, Some(Kind::Bool), when)?;
            let chosen = fault_in_branch(alloc, scope, then.items())?;
            let otherwise = fault_in_branch(alloc, scope, other.items())?;
            Ok(earlier_of(condition, earlier_of(chosen, otherwise)))
        }
        StmtTree::Return { value, .. } => fault_in(alloc, scope, value),
    }
}

/// The first fault in the statements of an `if`, where no `return` stands.
#[cycle(fault_in_statement)]
fn fault_in_branch(
    alloc: Global,
    scope: &[Entry],
    statements: &[StmtTree],
) -> Result<Option<SourceFault>, AllocError>
    requires numbers { IsTrue (has_small_numbers scope.now) }
    ensures { IfOk result (λ fault. fault ≡ least (branch_faults scope.now statements.now)) }
{
    let mut fault = None;
    for statement in statements {
        let inner = fault_in_statement(alloc, scope, statement)?;
        fault = earlier_of(fault, earlier_of(inner, misplaced_return(statement)));
    }
    Ok(fault)
}

/// A `return` where none may stand.
fn misplaced_return(statement: &StmtTree) -> Option<SourceFault>
    ensures { (scope : List Entry) → result ≡ least (misplaced_in scope statement.now) }
{
    match statement {
        StmtTree::Set { .. } => None,
        StmtTree::If { .. } => None,
        StmtTree::Return { at, .. } => Some(SourceFault {
            at: *at,
            what: Refusal::Misplaced,
        }),
    }
}

/// The first fault in the statements of a body.
pub(crate) fn fault_in_each(
    alloc: Global,
    scope: &[Entry],
    body: &[StmtTree],
) -> Result<Option<SourceFault>, AllocError>
    requires numbers { IsTrue (has_small_numbers scope.now) }
    ensures { IfOk result (λ fault. fault ≡ least (faults_in_each scope.now body.now)) }
{
    let mut fault = None;
    for statement in body {
        fault = earlier_of(fault, fault_in_statement(alloc, scope, statement)?);
    }
    Ok(fault)
}

/// The first `return` that is not the last statement of its body.
pub(crate) fn early_return(body: &[StmtTree]) -> Option<SourceFault>
    ensures { (scope : List Entry) → result ≡ least (early_faults scope body.now) }
{
    match body.len().checked_sub(1) {
        None => None,
        Some(last) => any_return(&body[..last]),
    }
}

/// The first `return` of statements among which none may stand.
pub(crate) fn any_return(statements: &[StmtTree]) -> Option<SourceFault>
    ensures { (scope : List Entry) → result ≡ least (return_faults scope statements.now) }
{
    let mut fault = None;
    for statement in statements {
        fault = earlier_of(fault, misplaced_return(statement));
    }
    fault
}
