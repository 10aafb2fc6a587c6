//! `expresso stress N [--workers N]`.

ghost use Rattle.front_command.specs.CommandLine.{stress};
ghost use Rattle.base_io.specs.Outside.{FilesSeen};
ghost use Rattle.expresso_answers.specs.Ending.{CommandEnds};
ghost use Rattle.expresso_runs.specs.Ranges.{AreWorkers};

use crate::run::worked;
use crate::text::show_summary;
use base_io::Sink;
use expresso_answers::Status;
use front_command::PlanChoice;
use machine_stress::{LargeInput, every_large_run_ends_done, large_input};
use std::alloc::{AllocError, Global};
use std::sync::Wait;
use std::thread::Threads;
use threads_pool::Gate;

/// Has workers run the large input that a number stands for, and writes the summary of the log. It
/// reads no file.
pub fn run_large<R: Threads + Wait + Sync, S: Sink, G: Gate>(
    rt: &R,
    alloc: Global,
    number: u64,
    workers: u32,
    out: &mut S,
    gate: &G,
) -> Status
    requires { AreWorkers workers }
    ensures { (files : FilesSeen) → CommandEnds (stress number workers)
        files files result (S.seen out.old) (S.seen out.new) }
{
    every_large_run_ends_done();
    let Ok(LargeInput { monitor, scripts }) = large_input(alloc, number) else {
        return Status::OutOfMemory;
    };
    match worked(
        rt,
        alloc,
        monitor,
        scripts,
        workers,
        PlanChoice::Placed,
        gate,
    ) {
        Ok(free) => show_summary(&free, out),
        Err(AllocError) => Status::OutOfMemory,
    }
}
