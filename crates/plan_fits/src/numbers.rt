//! Whether a block assigns or answers a number.

ghost use Rattle.std.specs.Prelude.{◌≡◌, ◌&&◌, ◌||◌};
ghost use Rattle.std.specs.List.{list_all};
ghost use Rattle.plan_fits.specs.Outside.{answers_number, has_numbers, is_number, is_numberless};

use lang_monitor::{Block, Ret, Stmt};
use logic_linear::Put;

fn either(first: bool, second: bool) -> bool
    ensures { result ≡ (first || second) }
{
    first || second
}

fn both(first: bool, second: bool) -> bool
    ensures { result ≡ (first && second) }
{
    first && second
}

fn is_number(put: &Put) -> bool
    ensures { result ≡ is_number put.now }
{
    match put {
        Put::Number { .. } => true,
        Put::Truth { .. } => false,
    }
}

#[cycle(numbers)]
fn is_numberless(statement: &Stmt) -> bool
    ensures { result ≡ is_numberless statement.now }
{
    match statement {
        Stmt::Put(put) => !is_number(put),
        Stmt::If { then, other, .. } => {
            let body = are_numberless(then.items());
            let rest = are_numberless(other.items());
            both(body, rest)
        }
    }
}

#[cycle(numbers)]
fn are_numberless(body: &[Stmt]) -> bool
    ensures { result ≡ list_all is_numberless body.now }
{
    for statement in body {
        if !is_numberless(statement) {
            return false;
        }
    }
    true
}

fn answers_number(answer: &Ret) -> bool
    ensures { result ≡ answers_number answer.now }
{
    match answer {
        Ret::Nothing => false,
        Ret::Int(_) => true,
        Ret::Bool(_) => false,
    }
}

/// Whether some int is assigned or answered.
pub(crate) fn has_numbers(block: &Block) -> bool
    ensures { result ≡ has_numbers block.now }
{
    let numberless = are_numberless(block.body.items());
    let answers = answers_number(&block.result);
    either(!numberless, answers)
}
