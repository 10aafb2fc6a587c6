//! What is done for a command.

ghost use Rattle.std.specs.Prelude.{◌≡◌, false, All, IfErr, IfOk, OnErr};
ghost use Rattle.front_command.specs.CommandLine.{explain, files_of, report};
ghost use Rattle.front_command.specs.Commands.{command_meant};
ghost use Rattle.expresso.specs.ProgramEnds.{HasThreads};
ghost use Rattle.expresso_answers.specs.Ending.{CommandEnds, KeepsFiles};
ghost use Rattle.expresso_runs.specs.Ranges.{IsInRange};

use crate::check::check_file;
use crate::compile::compile_file;
use crate::emit::emit_file;
use crate::version::version;
use base_io::{Files, Sink};
use expresso_answers::Status;
use expresso_reports::{
    audit_files, explain_counted_file, explain_file, explain_fits, recheck_files, report_file,
    report_fits,
};
use expresso_runs::{block_files, run_files, run_large, simulate_files, take_turns};
use front_command::Command;
use std::alloc::Global;
use std::sync::Wait;
use std::thread::Threads;
use threads_pool::Gate;

/// Does what a command asks for, and writes its text or the line of the first fault of its files. A
/// command that runs clients in threads is handed back, with nothing done.
pub(crate) fn work<'a, F: Files, S: Sink>(
    alloc: Global,
    command: Command<'a>,
    files: &mut F,
    out: &mut S,
) -> Result<Status, Command<'a>>
    requires files { All (F.may_read files.old) (files_of (command_meant command)) }
    requires range { IsInRange (command_meant command) }
    ensures ended { IfOk result (λ status. CommandEnds (command_meant command.entry)
        (F.seen files.old) (F.seen files.new) status (S.seen out.old) (S.seen out.new)) }
    ensures left { IfErr result (λ left. left ≡ command.entry) }
    ensures threads { IfErr result (λ left. HasThreads (command_meant left)) }
    ensures unread { OnErr result (files.new ≡ files.old) }
    ensures silent { OnErr result (out.new ≡ out.old) }
    ensures files { KeepsFiles (F.seen files.old) (F.seen files.new)
        (F.may_read files.old) (F.may_read files.new) }
{
    match command {
        Command::Check { monitor } => Ok(check_file(alloc, monitor, files, out)),
        Command::Turns { monitor, clients } => Ok(take_turns(alloc, monitor, clients, files, out)),
        Command::Compile { monitor, choice } => {
            Ok(compile_file(alloc, monitor, choice, files, out))
        }
        Command::Simulate {
            monitor,
            clients,
            schedule,
            choice,
        } => Ok(simulate_files(alloc, monitor, clients, schedule, choice, files, out)),
        Command::Report {
            monitor,
            count,
            fits,
        } => Ok(reported(alloc, monitor, count, fits, files, out)),
        Command::Recheck { monitor, report } => {
            Ok(recheck_files(alloc, monitor, report, files, out))
        }
        Command::Audit {
            monitor,
            plan,
            count,
        } => Ok(audit_files(alloc, monitor, plan, count, files, out)),
        Command::Explain {
            monitor,
            count,
            fits,
        } => Ok(explained(alloc, monitor, count, fits, files, out)),
        Command::Emit { monitor } => Ok(emit_file(alloc, monitor, files, out)),
        Command::Version => Ok(version(out)),
        Command::Run { .. } => Err(command),
        Command::Stress { .. } => Err(command),
        Command::Block { .. } => Err(command),
    }
}

/// Reports the plan that is asked for, and where it is asked for, which blocks keep 64 bits.
fn reported<F: Files, S: Sink>(
    alloc: Global,
    file: &str,
    count: bool,
    fits: bool,
    files: &mut F,
    out: &mut S,
) -> Status
    requires { F.may_read files.old file.now }
    ensures ended { CommandEnds (report file.now count fits)
        (F.seen files.old) (F.seen files.new) result (S.seen out.old) (S.seen out.new) }
    ensures files { KeepsFiles (F.seen files.old) (F.seen files.new)
        (F.may_read files.old) (F.may_read files.new) }
{
    match fits {
        true => report_fits(alloc, file, count, files, out),
        false => report_file(alloc, file, count, files, out),
    }
}

/// Explains the plan that is asked for, and where it is asked for, why blocks may leave 64 bits.
fn explained<F: Files, S: Sink>(
    alloc: Global,
    file: &str,
    count: bool,
    fits: bool,
    files: &mut F,
    out: &mut S,
) -> Status
    requires { F.may_read files.old file.now }
    ensures ended { CommandEnds (explain file.now count fits)
        (F.seen files.old) (F.seen files.new) result (S.seen out.old) (S.seen out.new) }
    ensures files { KeepsFiles (F.seen files.old) (F.seen files.new)
        (F.may_read files.old) (F.may_read files.new) }
{
    match fits {
        true => explain_fits(alloc, file, count, files, out),
        false => explained_alone(alloc, file, count, files, out),
    }
}

/// Explains the plan that is asked for, and no more.
fn explained_alone<F: Files, S: Sink>(
    alloc: Global,
    file: &str,
    count: bool,
    files: &mut F,
    out: &mut S,
) -> Status
    requires { F.may_read files.old file.now }
    ensures ended { CommandEnds (explain file.now count false)
        (F.seen files.old) (F.seen files.new) result (S.seen out.old) (S.seen out.new) }
    ensures files { KeepsFiles (F.seen files.old) (F.seen files.new)
        (F.may_read files.old) (F.may_read files.new) }
{
    match count {
        true => explain_counted_file(alloc, file, files, out),
        false => explain_file(alloc, file, files, out),
    }
}

/// Does what a command asks for that runs clients in threads.
pub(crate) fn work_in_threads<R: Threads + Wait + Sync, F: Files, S: Sink, G: Gate>(
    rt: &R,
    alloc: Global,
    command: Command,
    files: &mut F,
    out: &mut S,
    gate: &G,
) -> Status
    requires threads { HasThreads (command_meant command) }
    requires files { All (F.may_read files.old) (files_of (command_meant command)) }
    requires range { IsInRange (command_meant command) }
    ensures ended { CommandEnds (command_meant command.entry)
        (F.seen files.old) (F.seen files.new) result (S.seen out.old) (S.seen out.new) }
    ensures files { KeepsFiles (F.seen files.old) (F.seen files.new)
        (F.may_read files.old) (F.may_read files.new) }
{
    match command {
        Command::Run {
            monitor,
            clients,
            workers,
            choice,
        } => run_files(
            rt, alloc, monitor, clients, workers, choice, files, out, gate,
        ),
        Command::Stress { number, workers } => run_large(rt, alloc, number, workers, out, gate),
        Command::Block {
            monitor,
            clients,
            choice,
        } => block_files(rt, alloc, monitor, clients, choice, files, out, gate),
        _ => unreachable!(),
    }
}
