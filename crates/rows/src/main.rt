//! The table of the commands: files in memory, command lines, and what each must answer and print.
//!
//! Rows are data, so a new row costs no proof. The words of the command line name files of rows,
//! and a text that one of them defines can be named in those behind it. [`reading`] says how they
//! are written. For each row that doesn't hold a line says what differs, and the last line says how
//! many rows hold.
#![tactic(auto)]

mod calls;
mod devices;
mod escapes;
mod reading;
mod rows;

use anyhow::{Context, Result, bail};
use reading::{Table, read_table};
use rows::run_rows;
use std::alloc::Global;
use std::process::ExitCode;
use std::rt::{Env, Files};
use std::{env, fs};

/// The words of the command line, the program's name first.
fn words_given<R: Env + AllocGlobal>(rt: &R) -> Result<Vec<String>> {
    Ok(env::args(rt)?.collect(rt.alloc())?)
}

/// The tables of these files, the first word left out.
fn tables<R: Files + AllocGlobal>(rt: &R, words: &[String]) -> Result<Table> {
    let mut table = Table::new(rt.alloc());
    for word in words.iter().skip(1) {
        let text = fs::read_to_string(rt, word.as_str()).context(word.as_str())?;
        if let Err(error) = read_table(rt.alloc(), word.as_str(), text.as_str(), &mut table) {
            bail!("{word}:{error}");
        }
    }
    Ok(table)
}

fn main(rt: HostRuntime) -> Result<ExitCode> {
    let words = words_given(&rt)?;
    let table = tables(&rt, words.as_slice())?;
    let counted = run_rows(&rt, table.rows())?;
    println!(rt; "{} rows hold", counted.held)?;
    if counted.failed == 0 {
        return Ok(ExitCode::SUCCESS);
    }
    println!(rt; "{} rows do not hold", counted.failed)?;
    Ok(ExitCode::FAILURE)
}
