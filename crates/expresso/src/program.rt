//! The top call.

ghost use Rattle.std.specs.Prelude.{◌≡◌, IfErr, IfOk, OnErr, map};
ghost use Rattle.std.specs.String.{string_bytes};
ghost use Rattle.front_command.specs.CommandLine.{MayReadFiles, Takes};
ghost use Rattle.front_command.specs.Commands.{command_meant};
ghost use Rattle.expresso.specs.Headline.{Headline};
ghost use Rattle.expresso.specs.ProgramEnds.{HasThreads, ProgramEnds};
ghost use Rattle.expresso_answers.specs.Ending.{KeepsFiles};

use crate::text::show_usage;
use crate::work::{work, work_in_threads};
use base_io::{Files, Sink};
use expresso_answers::Status;
use front_command::{Command, CommandFault, command_of, one_command};
use std::alloc::Global;
use std::sync::Wait;
use std::thread::Threads;
use threads_pool::Gate;

/// The program: `run FILE CLIENTS [--workers N]` compiles the monitor of a file to a plan, has
/// workers run the clients of another in threads under it, and writes the plan, the log and the
/// last state. `check FILE` checks a monitor file and writes its canonical form; `turns FILE
/// CLIENTS` runs the clients by rounds of the implicit machine, and writes the run and its last
/// state; `compile FILE` writes the plan; `simulate FILE CLIENTS [--seed N] [--spurious K]` runs
/// the clients by sections under such a plan, by rounds or by the words that a seed draws, and
/// writes as `run`; `stress N [--workers N]` has workers run a large input that is made of a
/// number, and writes a summary; `block FILE CLIENTS` has a caller for each client run it in a
/// thread of its own, and writes as `run`. `report FILE` writes the plan and, for each claim that
/// it rests on, a line with a certificate, with `--count` of the counted plan; `recheck FILE
/// REPORT` checks such a report again, by its certificates alone, and writes whether it is
/// accepted. `audit FILE PLAN` writes whether a plan that was written by hand is lawful, with
/// `--count` also by counting, or what it lacks. `explain FILE` writes the plan, with `--count` the
/// counted one, and, for each thing in it that costs something, a state that shows why it stands.
/// `emit FILE` writes a Rust module of the monitor under the plan, whose methods threads call.
/// `--version`, or `-V`, writes the program's name and version, and stands alone.
///
/// With `--relay` beside `run`, `compile` or `simulate` the plan is that one with its signals
/// relayed.
///
/// The words begin with the program's name. First the files are read, the monitor first, then all
/// work is done and all memory taken, and then the text is written, which takes no memory. Of a
/// file that isn't accepted the line of its first fault is written, the monitor's first. Each
/// worker calls the gate ahead of each section that it tries, and each caller ahead of each block
/// that it waits for. Threads wait for one another, so `run`, `stress` and `block` are not said to
/// return; all else is done by [`without_threads`], which has no runtime to wait by and returns.
pub fn expresso<R: Threads + Wait + Sync, F: Files, S: Sink, G: Gate>(
    rt: &R,
    alloc: Global,
    words: &Vec<String>,
    files: &mut F,
    out: &mut S,
    gate: &G,
) -> Status
    // The files that the words name may be read; of no other name is this known.
    requires { MayReadFiles (F.may_read files.old) (map string_bytes words.now.items) }
    // What `run` and `block` promise.
    ensures headline { Headline (map string_bytes words.now.items)
        (F.seen files.old) result (S.seen out.old) (S.seen out.new) }
    // What each status promises.
    ensures ended { ProgramEnds (map string_bytes words.now.items)
        (F.seen files.old) (F.seen files.new) result (S.seen out.old) (S.seen out.new) }
    ensures files { KeepsFiles (F.seen files.old) (F.seen files.new)
        (F.may_read files.old) (F.may_read files.new) }
{
    one_command();
    match without_threads(alloc, words, files, out) {
        Ok(status) => status,
        Err(command) => work_in_threads(rt, alloc, command, files, out, gate),
    }
}

/// The program but for `run`, `stress` and `block`: what `check`, `turns`, `compile`, `simulate`,
/// `report`, `recheck`, `audit`, `explain`, `emit` and `--version` do, and what comes of other
/// words. It starts no thread and waits for none, so it returns. A command that runs clients in
/// threads is handed back, with nothing read and nothing written.
pub fn without_threads<'a, F: Files, S: Sink>(
    alloc: Global,
    words: &'a Vec<String>,
    files: &mut F,
    out: &mut S,
) -> Result<Status, Command<'a>>
    requires { MayReadFiles (F.may_read files.old) (map string_bytes words.now.items) }
    ensures ended { IfOk result (λ status. ProgramEnds (map string_bytes words.now.items)
        (F.seen files.old) (F.seen files.new) status (S.seen out.old) (S.seen out.new)) }
    ensures taken { IfErr result (λ left.
        Takes (map string_bytes words.now.items) (command_meant left)) }
    ensures threads { IfErr result (λ left. HasThreads (command_meant left)) }
    ensures unread { OnErr result (files.new ≡ files.old) }
    ensures silent { OnErr result (out.new ≡ out.old) }
    ensures files { KeepsFiles (F.seen files.old) (F.seen files.new)
        (F.may_read files.old) (F.may_read files.new) }
{
    one_command();
    match command_of(alloc, words.as_slice()) {
        Ok(command) => work(alloc, command, files, out),
        Err(CommandFault::Usage) => Ok(show_usage(out)),
        Err(CommandFault::OutOfMemory) => Ok(Status::OutOfMemory),
    }
}
