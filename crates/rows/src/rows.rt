//! Rows, and whether they hold.

use crate::calls::{Call, File};
use crate::devices::difference;
use anyhow::Result;
use std::alloc::{AllocError, Global};
use std::io::Print;
use std::sync::Wait;
use std::thread::Threads;

/// A step of a row.
#[derive(Drop)]
pub(crate) enum Step {
    /// This file is there from now on, in place of one of its name.
    File(File),
    /// The program is called.
    Call(Call),
}

/// Steps that are made one after the other, from no files on.
#[derive(Drop)]
pub(crate) struct Row {
    /// The table's file.
    pub(crate) table: String,
    pub(crate) name: String,
    pub(crate) steps: Vec<Step>,
}

/// How many rows hold, and how many do not.
#[derive(Clone, Copy)]
pub(crate) struct Counted {
    pub(crate) held: u64,
    pub(crate) failed: u64,
}

/// Runs these rows, and prints a line for each that doesn't hold.
pub(crate) fn run_rows(
    rt: &(impl Print + Threads + Wait + Sync + AllocGlobal),
    rows: &[Row],
) -> Result<Counted> {
    let mut counted = Counted { held: 0, failed: 0 };
    for row in rows {
        if holds(rt, row)? {
            counted.held = counted.held.saturating_add(1);
        } else {
            counted.failed = counted.failed.saturating_add(1);
        }
    }
    Ok(counted)
}

/// Whether a row holds. Where it doesn't, prints the first difference.
fn holds(rt: &(impl Print + Threads + Wait + Sync + AllocGlobal), row: &Row) -> Result<bool> {
    let mut files = Vec::new(rt.alloc());
    for step in &row.steps {
        match step {
            Step::File(file) => put(rt.alloc(), &mut files, file)?,
            Step::Call(call) => {
                if let Some(text) = difference(rt, call, &mut files)? {
                    println!(rt; "{}:{}: {}: {text}", row.table, call.line, row.name)?;
                    return Ok(false);
                }
            }
        }
    }
    Ok(true)
}

/// Puts a copy of a file before the others, since of two of one name the first is read.
pub(crate) fn put(alloc: Global, files: &mut Vec<File>, file: &File) -> Result<(), AllocError> {
    let copy = File {
        name: String::from_str(alloc, file.name.as_str())?,
        bytes: Vec::from_slice(alloc, file.bytes.as_slice())?,
    };
    files.insert(0, copy)?;
    Ok(())
}
