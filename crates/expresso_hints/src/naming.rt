//! The files that words name, and what is wrong of words.

use base_io::Sink;
use front_command::{Command, CommandFault, command_of};
use front_help::{Named, Other, help};
use front_hint::words_hint;
use std::alloc::Global;

/// Writes what is likely wrong of words, the program's name first, that are no command.
pub(crate) fn help_with_words<H: Sink>(alloc: Global, words: &[String], hints: &mut H) {
    if is_usage(alloc, words)
        && let Some(hint) = words_hint(words)
    {
        help(&hint, hints);
    }
}

/// Whether words are no command.
fn is_usage(alloc: Global, words: &[String]) -> bool {
    match command_of(alloc, words) {
        Err(CommandFault::Usage) => true,
        _ => false,
    }
}

/// The files that words name, where they are a command with files.
pub(crate) fn named_in<'a>(alloc: Global, words: &'a [String]) -> Option<Named<'a>> {
    match command_of(alloc, words) {
        Ok(command) => files_of(command),
        Err(_) => None,
    }
}

/// The files of a command, where it has any.
fn files_of<'a>(command: Command<'a>) -> Option<Named<'a>> {
    match command {
        Command::Check { monitor, .. } => Some(alone(monitor)),
        Command::Compile { monitor, .. } => Some(alone(monitor)),
        Command::Report { monitor, .. } => Some(alone(monitor)),
        Command::Explain { monitor, .. } => Some(alone(monitor)),
        Command::Emit { monitor, .. } => Some(alone(monitor)),
        Command::Turns {
            monitor,
            clients,
            ..
        } => Some(with_clients(monitor, clients)),
        Command::Simulate {
            monitor,
            clients,
            ..
        } => Some(with_clients(monitor, clients)),
        Command::Run {
            monitor,
            clients,
            ..
        } => Some(with_clients(monitor, clients)),
        Command::Block {
            monitor,
            clients,
            ..
        } => Some(with_clients(monitor, clients)),
        Command::Audit { monitor, plan, .. } => Some(Named {
            monitor,
            other: Other::Plan { name: plan },
        }),
        Command::Recheck {
            monitor,
            report,
            ..
        } => Some(Named {
            monitor,
            other: Other::Report { name: report },
        }),
        Command::Stress { .. } => None,
        Command::Version => None,
    }
}

/// A monitor's file alone.
fn alone<'a>(monitor: &'a str) -> Named<'a> {
    Named {
        monitor,
        other: Other::None,
    }
}

/// A monitor's file, and that of its clients.
fn with_clients<'a>(monitor: &'a str, clients: &'a str) -> Named<'a> {
    Named {
        monitor,
        other: Other::Clients { name: clients },
    }
}
