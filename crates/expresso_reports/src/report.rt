//! `expresso report FILE [--count]`, without `--fits`.

ghost use Rattle.std.specs.Prelude.{false, true};
ghost use Rattle.front_command.specs.CommandLine.{report};
ghost use Rattle.expresso_answers.specs.Ending.{CommandEnds, KeepsFiles};

use crate::text::{show_counted_report, show_report};
use base_io::{Files, Sink};
use expresso_answers::{Status, counting_of, monitor_of, placed_of};
use report_proofs::{placed_text_is_report_text, read_numbers};
use report_tally::counted_text_is_report_text;
use std::alloc::{AllocError, Global};

/// Compiles a monitor file and writes the plan, counted where this is asked for, with a certificate
/// of each claim and question that it rests on, or the line of its first fault.
pub fn report_file<F: Files, S: Sink>(
    alloc: Global,
    file: &str,
    count: bool,
    files: &mut F,
    out: &mut S,
) -> Status
    requires { F.may_read files.old file.now }
    ensures ended { CommandEnds (report file.now count false)
        (F.seen files.old) (F.seen files.new) result (S.seen out.old) (S.seen out.new) }
    ensures files { KeepsFiles (F.seen files.old) (F.seen files.new)
        (F.may_read files.old) (F.may_read files.new) }
{
    if count {
        report_counted(alloc, file, files, out)
    } else {
        report_placed(alloc, file, files, out)
    }
}

/// Writes the report of the plan that a monitor file is compiled to, or the line of its first
/// fault.
fn report_placed<F: Files, S: Sink>(alloc: Global, file: &str, files: &mut F, out: &mut S) -> Status
    requires { F.may_read files.old file.now }
    ensures ended { CommandEnds (report file.now false false)
        (F.seen files.old) (F.seen files.new) result (S.seen out.old) (S.seen out.new) }
    ensures files { KeepsFiles (F.seen files.old) (F.seen files.new)
        (F.may_read files.old) (F.may_read files.new) }
{
    placed_text_is_report_text();
    let found = match monitor_of(alloc, file, files, out) {
        Ok(found) => found,
        Err(status) => return status,
    };
    match placed_of(alloc, &found.monitor) {
        Ok(placed) => {
            read_numbers(&placed);
            show_report(&found.monitor, &placed, out)
        }
        Err(AllocError) => Status::OutOfMemory,
    }
}

/// Writes the report of that plan counted, or the line of the file's first fault.
fn report_counted<F: Files, S: Sink>(
    alloc: Global,
    file: &str,
    files: &mut F,
    out: &mut S,
) -> Status
    requires { F.may_read files.old file.now }
    ensures ended { CommandEnds (report file.now true false)
        (F.seen files.old) (F.seen files.new) result (S.seen out.old) (S.seen out.new) }
    ensures files { KeepsFiles (F.seen files.old) (F.seen files.new)
        (F.may_read files.old) (F.may_read files.new) }
{
    counted_text_is_report_text();
    let found = match monitor_of(alloc, file, files, out) {
        Ok(found) => found,
        Err(status) => return status,
    };
    match counting_of(alloc, &found.monitor) {
        Ok(counting) => show_counted_report(&found.monitor, &counting, out),
        Err(AllocError) => Status::OutOfMemory,
    }
}
