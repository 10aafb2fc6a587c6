//! `expresso compile FILE [--count] [--relay]`.

ghost use Rattle.front_command.specs.CommandLine.{compile};
ghost use Rattle.expresso_answers.specs.Ending.{CommandEnds, KeepsFiles};

use crate::text::show_plan;
use base_io::{Files, Sink};
use expresso_answers::{Status, monitor_of, plan_of};
use front_command::PlanChoice;
use std::alloc::{AllocError, Global};

/// Compiles a monitor file and writes the plan that is asked for, or the line of its first fault.
pub(crate) fn compile_file<F: Files, S: Sink>(
    alloc: Global,
    file: &str,
    choice: PlanChoice,
    files: &mut F,
    out: &mut S,
) -> Status
    requires { F.may_read files.old file.now }
    ensures ended { CommandEnds (compile file.now choice)
        (F.seen files.old) (F.seen files.new) result (S.seen out.old) (S.seen out.new) }
    ensures files { KeepsFiles (F.seen files.old) (F.seen files.new)
        (F.may_read files.old) (F.may_read files.new) }
{
    let found = match monitor_of(alloc, file, files, out) {
        Ok(found) => found,
        Err(status) => return status,
    };
    match plan_of(alloc, &found.monitor, choice) {
        Ok(plan) => show_plan(&found.monitor, &plan, out),
        Err(AllocError) => Status::OutOfMemory,
    }
}
