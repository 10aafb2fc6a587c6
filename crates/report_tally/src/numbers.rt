//! The rows of columns, and the numbers of certificates in them, which are of their types.

ghost use Rattle.std.specs.Prelude.{◌<◌, ◌^◌, All};
ghost use Rattle.report_tally.specs.CountedTexts.{HasTypedColumn, IsTypedColumn, IsTypedTold};

use plan_counted::{Column, Told};
use report_proofs::read_cert_numbers;

/// The rows of columns, and the numbers of their certificates, are of their types. It reads each of
/// them, since a contract knows the range of a number that was read, and does nothing else.
pub fn read_column_numbers(columns: &[Option<Column>])
    ensures { All HasTypedColumn columns.now }
{
    for column in columns {
        of_column(column);
    }
}

fn of_column(column: &Option<Column>)
    ensures { HasTypedColumn column.now }
{
    match column {
        None => {}
        Some(column) => of_whole(column),
    }
}

fn of_whole(column: &Column)
    ensures { IsTypedColumn column.now }
{
    of_row(column.row);
    of_each(column.told.items());
}

fn of_row(row: u32)
    ensures { row < 2 ^ 32 }
{}

fn of_each(column: &[Told])
    ensures { All IsTypedTold column.now }
{
    for told in column {
        of_told(told);
    }
}

fn of_told(told: &Told)
    ensures { IsTypedTold told.now }
{
    match told {
        Told::Nothing { counts } => read_cert_numbers(counts),
        Told::Signal { gives, first } => {
            read_cert_numbers(gives);
            read_cert_numbers(first);
        }
        Told::Broadcast => {}
    }
}
