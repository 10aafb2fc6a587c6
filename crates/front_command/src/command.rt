//! The command that words ask for.

ghost use Rattle.std.specs.Prelude.{◌≡◌, IfOk, map, string_bytes};
ghost use Rattle.front_command.specs.CommandLine.{Takes, TakesNone};
ghost use Rattle.front_command.specs.Commands.{command_meant};

use crate::arguments::given_of;
use crate::asked::command_asked;
use crate::plan_choice::PlanChoice;
use crate::schedule::Schedule;
use std::alloc::Global;
use thiserror::Error;

/// A command, with the words that name its files.
#[derive(Clone, Copy, Debug)]
pub enum Command<'a> {
    /// Checks a monitor file.
    Check {
        monitor: &'a str,
    },
    /// Runs the clients of a file on the monitor of another.
    Turns {
        monitor: &'a str,
        clients: &'a str,
    },
    /// Compiles a monitor to the plan that is asked for.
    Compile {
        monitor: &'a str,
        choice: PlanChoice,
    },
    /// Runs the clients of a file on the monitor of another by sections, under the plan that is
    /// asked for and a schedule.
    Simulate {
        monitor: &'a str,
        clients: &'a str,
        schedule: Schedule,
        choice: PlanChoice,
    },
    /// Runs the clients of a file on the monitor of another in workers, from 1 to `WORKERS`, under
    /// the plan that is asked for.
    Run {
        monitor: &'a str,
        clients: &'a str,
        workers: u32,
        choice: PlanChoice,
    },
    /// Runs the large input of a number in workers, from 1 to `WORKERS`.
    Stress {
        number: u64,
        workers: u32,
    },
    /// Compiles a monitor to a plan, or to that one counted, with a certificate for each claim that
    /// the plan rests on, and where it is asked for, for each block that keeps 64 bits.
    Report {
        monitor: &'a str,
        count: bool,
        fits: bool,
    },
    /// Checks such a report of the monitor of another file again.
    Recheck {
        monitor: &'a str,
        report: &'a str,
    },
    /// Runs the clients of a file on the monitor of another by a caller for each client, under the
    /// plan that is asked for: the one that is placed, or that one counted.
    Block {
        monitor: &'a str,
        clients: &'a str,
        choice: PlanChoice,
    },
    /// Says whether a plan that is written by hand is lawful for the monitor of another file, or
    /// where signals may be counted, lawful by counting.
    Audit {
        monitor: &'a str,
        plan: &'a str,
        count: bool,
    },
    /// Compiles a monitor to a plan, or to that one counted, with a state that shows why each thing
    /// stands that costs something, and where it is asked for, why each block may leave 64 bits.
    Explain {
        monitor: &'a str,
        count: bool,
        fits: bool,
    },
    /// Compiles a monitor to a plan, and prints it under that plan as a module of Rust.
    Emit {
        monitor: &'a str,
    },
    /// Tells the program's name and version.
    Version,
}

/// Why words gave no command.
#[derive(Clone, Copy, Debug, PartialEq, Eq, Error)]
pub enum CommandFault {
    /// They are no command, or ask for help.
    #[error("the words are no command")]
    Usage,
    /// No memory was found, whatever the words are.
    #[error("out of memory")]
    OutOfMemory,
}

/// The command that the words, the program's name first, ask for.
///
/// `Usage` comes only where they ask for no command, and `OutOfMemory` only for want of memory.
pub fn command_of<'a>(alloc: Global, words: &'a [String]) -> Result<Command<'a>, CommandFault>
    ensures taken { IfOk result
        (λ command. Takes (map string_bytes words.now) (command_meant command)) }
    ensures usage { result ≡ Err CommandFault.Usage → TakesNone (map string_bytes words.now) }
{
    let given = given_of(alloc, words)?;
    command_asked(&given).ok_or(CommandFault::Usage)
}
