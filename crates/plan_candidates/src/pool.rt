//! The numbers with which a candidate compares a field.

ghost use Rattle.std.specs.Prelude.{◌≡◌, IfOk, OnOk};
ghost use Rattle.lang_monitor.specs.Candidates.{own_numbers, pool};
ghost use Rattle.plan_candidates.specs.inner.Numbers.{with_number};

use super::bounds::numbers_of;
use lang_monitor::{Block, Field};
use std::alloc::{AllocError, Global};

/// A field is compared with at most so many numbers.
const MOST_BOUNDS: usize = 12;

/// Takes the number into the pool, unless the pool is full or has it.
fn note(pool: &mut Vec<i128>, number: i128) -> Result<(), AllocError>
    ensures { OnOk result (pool.new.items ≡ with_number pool.old.items number) }
{
    if pool.len() >= MOST_BOUNDS {
        return Ok(());
    }
    if pool.contains(&number) {
        return Ok(());
    }
    pool.push(number)?;
    Ok(())
}

/// The first numbers that differ of 0, what is known of the number at the start, and those with
/// which guards compare the field.
pub(crate) fn pool(
    alloc: Global,
    blocks: &[Block],
    number: u32,
    field: &Field,
) -> Result<Vec<i128>, AllocError>
    ensures { IfOk result (λ made. made.items
        ≡ pool blocks.now number (own_numbers field.now.start field.now.origin)) }
{
    let numbers = numbers_of(alloc, blocks, number, field)?;
    let mut pool = Vec::new(alloc);
    for number in &numbers {
        note(&mut pool, *number)?;
    }
    Ok(pool)
}
