//! Blocks of simple statements: all rows are difference rows, and an int is assigned a constant, or
//! a field, parameter or local plus a constant.

ghost use Rattle.std.specs.Prelude.{◌≡◌, ◌&&◌};
ghost use Rattle.std.specs.List.{list_all};
ghost use Rattle.logic_linear.specs.Differences.{has_difference_rows};
ghost use Rattle.logic_wp.specs.PlainClaims.{are_simple_terms, is_simple_block, is_simple_put};
ghost use Rattle.logic_wp.specs.PlainClaims.{is_simple_statement};

use lang_monitor::{Block, Stmt};
use logic_linear::{Formula, Put, Term, is_difference};

/// Whether each row of the formula is a difference row.
#[cycle(differences)]
pub(crate) fn has_difference_rows(formula: &Formula) -> bool
    ensures { result ≡ has_difference_rows formula.now }
{
    match formula {
        Formula::Row(form) => is_difference(form),
        Formula::Flag { .. } => true,
        Formula::All(parts) => have_difference_rows(parts.items()),
        Formula::Any(parts) => have_difference_rows(parts.items()),
    }
}

#[cycle(differences)]
fn have_difference_rows(parts: &[Formula]) -> bool
    ensures { result ≡ list_all has_difference_rows parts.now }
{
    for part in parts {
        if !has_difference_rows(part) {
            return false;
        }
    }
    true
}

/// Whether there is no variable, or one, which counts once.
fn are_simple_terms(terms: &[Term]) -> bool
    ensures { result ≡ are_simple_terms terms.now }
{
    match terms {
        [] => true,
        [term] => term.times == 1,
        _ => false,
    }
}

fn all_three(first: bool, second: bool, third: bool) -> bool
    ensures { result ≡ (first && (second && third)) }
{
    first && second && third
}

/// Whether a simple form is assigned, or a formula that has difference rows alone.
fn is_simple_put(put: &Put) -> bool
    ensures { result ≡ is_simple_put put.now }
{
    match put {
        Put::Number { form, .. } => are_simple_terms(form.terms()),
        Put::Truth { is, .. } => has_difference_rows(is),
    }
}

#[cycle(simple)]
fn is_simple_statement(statement: &Stmt) -> bool
    ensures { result ≡ is_simple_statement statement.now }
{
    match statement {
        Stmt::Put(put) => is_simple_put(put),
        Stmt::If { when, then, other } => {
            let condition = has_difference_rows(when);
            let body = are_simple_statements(then.items());
            let rest = are_simple_statements(other.items());
            all_three(condition, body, rest)
        }
    }
}

#[cycle(simple)]
fn are_simple_statements(body: &[Stmt]) -> bool
    ensures { result ≡ list_all is_simple_statement body.now }
{
    for statement in body {
        if !is_simple_statement(statement) {
            return false;
        }
    }
    true
}

fn is_simple_block(block: &Block) -> bool
    ensures { result ≡ is_simple_block block.now }
{
    has_difference_rows(&block.guard) && are_simple_statements(block.body.items())
}

/// Whether each block is simple.
pub(crate) fn are_simple_blocks(blocks: &[Block]) -> bool
    ensures { result ≡ list_all is_simple_block blocks.now }
{
    for block in blocks {
        if !is_simple_block(block) {
            return false;
        }
    }
    true
}
