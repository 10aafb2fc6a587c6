//! The rows by which conditions are counted.

ghost use Rattle.std.specs.Prelude.{◌≡◌};
ghost use Rattle.plan_needs.specs.Needs.{counted_row, row_of};

use plan_counted::Column;

/// The row by which the condition is counted, where it is.
pub(crate) fn counted_row(columns: &[Option<Column>], condition: u32) -> Option<u32>
    ensures { result ≡ counted_row columns.now condition }
{
    match columns.get(condition.saturating_sub(1) as usize) {
        Some(held) => row_of(held),
        None => None,
    }
}

fn row_of(held: &Option<Column>) -> Option<u32>
    ensures { result ≡ row_of held.now }
{
    match held {
        Some(column) => Some(column.row),
        None => None,
    }
}
