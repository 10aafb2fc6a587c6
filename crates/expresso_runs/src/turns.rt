//! `expresso turns FILE CLIENTS`.

ghost use Rattle.std.specs.Prelude.{[], ◌∷◌, All};
ghost use Rattle.front_command.specs.CommandLine.{turns};
ghost use Rattle.expresso_answers.specs.Ending.{CommandEnds, KeepsFiles};

use crate::text::show_turns;
use base_io::{Files, Sink};
use expresso_answers::{Status, input_of};
use machine_implicit::turns;
use std::alloc::{AllocError, Global};

/// Reads both files, the monitor first, runs the clients on the monitor by rounds, and writes the
/// run, or the line of the first fault.
pub fn take_turns<F: Files, S: Sink>(
    alloc: Global,
    monitor: &str,
    clients: &str,
    files: &mut F,
    out: &mut S,
) -> Status
    requires files { All (F.may_read files.old) (monitor.now ∷ clients.now ∷ []) }
    ensures ended { CommandEnds (turns monitor.now clients.now)
        (F.seen files.old) (F.seen files.new) result (S.seen out.old) (S.seen out.new) }
    ensures files { KeepsFiles (F.seen files.old) (F.seen files.new)
        (F.may_read files.old) (F.may_read files.new) }
{
    let input = match input_of(alloc, monitor, clients, files, out) {
        Ok(input) => input,
        Err(status) => return status,
    };
    match turns(alloc, &input.monitor, &input.scripts) {
        Ok(run) => show_turns(&input.monitor, &input.scripts, &run, out),
        Err(AllocError) => Status::OutOfMemory,
    }
}
