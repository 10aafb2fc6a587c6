//! How many paths a body has.

ghost use Rattle.std.specs.Prelude.{◌≡◌, ◌+◌, ◌*◌, ◌<◌, ◌≤◌, map, min, length};
ghost use Rattle.logic_linear.specs.Measures.{product};
ghost use Rattle.lang_monitor.specs.Paths.{block_body, path_count, statement_count, MOST_PATHS};

use super::monitor::{Monitor, Stmt};

/// A body that can be decided has at most so many paths.
pub const MOST_PATHS: u64 = 64;

/// How many paths the body of a block has, and one more than [`MOST_PATHS`] where they are more: an
/// assignment has one, an `if` those of both of its sides, and a list of statements the product of
/// theirs. The block is a number from 0.
pub fn paths(monitor: &Monitor, block: u32) -> u64
    requires { block < length monitor.now.blocks }
    ensures { result ≡ min (path_count (block_body monitor.now block)) (MOST_PATHS + 1) }
{
    count_of_body(monitor.blocks()[block as usize].body.items())
}

/// How many paths a statement has, and one more than the most where they are more.
#[cycle(count)]
fn count_of_statement(statement: &Stmt) -> u64
    ensures { result ≡ min (statement_count statement.now) (MOST_PATHS + 1) }
{
    match statement {
        Stmt::Put(_) => 1,
        Stmt::If { then, other, .. } => {
            (count_of_body(then.items()) + count_of_body(other.items())).min(MOST_PATHS + 1)
        }
    }
}

#[cycle(count)]
fn count_of_body(body: &[Stmt]) -> u64
    ensures { result ≡ min (path_count body.now) (MOST_PATHS + 1) }
{
    let mut total = 1;
    for statement in body {
        total = limited_product(total, count_of_statement(statement));
    }
    total
}

fn limited_product(a: u64, b: u64) -> u64
    requires a { a ≤ MOST_PATHS + 1 }
    requires b { b ≤ MOST_PATHS + 1 }
    ensures { result ≡ min (a * b) (MOST_PATHS + 1) }
{
    (a * b).min(MOST_PATHS + 1)
}
