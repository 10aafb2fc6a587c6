//! The command that the arguments ask for, by the rules of the product.

ghost use Rattle.std.specs.Prelude.{◌≡◌, ◌≤◌, option_map};
ghost use Rattle.front_command.specs.Commands.{command_meant};
ghost use Rattle.front_command.specs.inner.Given.{given_meant};
ghost use Rattle.front_command.specs.CommandLine.{choice_in};
ghost use Rattle.front_command.specs.inner.Asked.{command_if, command_of_values, compile_if};
ghost use Rattle.front_command.specs.inner.Asked.{counted_if, fitting_if, fitting_of_values};
ghost use Rattle.front_command.specs.inner.Asked.{is_named, named_if, version_if};
ghost use Rattle.front_command.specs.inner.Asked.{version_of_values};
ghost use Rattle.front_command.specs.inner.Asked.{has_choice, has_schedule, has_settings};
ghost use Rattle.front_command.specs.inner.Asked.{pair_if, plain_if};
ghost use Rattle.front_command.specs.inner.Asked.{run_if, simulate_if, single_if, some_workers};
ghost use Rattle.front_command.specs.inner.Asked.{stress_if, workers_if};

use crate::arguments::Given;
use crate::command::Command;
use crate::numbers::number_of;
use crate::plan_choice::{PlanChoice, choice_of};
use crate::schedule::schedule_of;
use lang_base::limits::WORKERS;

/// The workers of a run where the words give no number of them.
pub const DEFAULT_WORKERS: u32 = 4;

/// The command that the arguments ask for; nothing where a rule refuses them.
pub(crate) fn command_asked<'a>(given: &Given<'a>) -> Option<Command<'a>>
    ensures { option_map command_meant result ≡ command_if (given_meant given.now) }
{
    if given.version {
        version_of_values(given)
    } else {
        named_asked(given)
    }
}

/// What the values ask for where `--version` is used: it stands with no values.
fn version_of_values<'a>(given: &Given<'a>) -> Option<Command<'a>>
    ensures { option_map command_meant result
        ≡ version_of_values (given_meant given.now) (given_meant given.now).values }
{
    match given.values.as_slice() {
        [] => version_asked(given),
        _ => None,
    }
}

/// The version, where neither a command nor an option is given beside it.
fn version_asked<'a>(given: &Given<'a>) -> Option<Command<'a>>
    ensures { option_map command_meant result ≡ version_if (given_meant given.now) }
{
    if given.command.is_some() || given.fits {
        None
    } else {
        plain_asked(given, Command::Version)
    }
}

/// The command that is named.
fn named_asked<'a>(given: &Given<'a>) -> Option<Command<'a>>
    ensures { option_map command_meant result ≡ named_if (given_meant given.now) }
{
    if given.fits {
        fitting_of_values(given)
    } else {
        command_of_values(given)
    }
}

/// The command that the values ask for where `--fits` is used.
fn fitting_of_values<'a>(given: &Given<'a>) -> Option<Command<'a>>
    ensures { option_map command_meant result
        ≡ fitting_of_values (given_meant given.now) (given_meant given.now).values }
{
    match given.values.as_slice() {
        [value] => fitting_asked(given, *value),
        _ => None,
    }
}

/// The command of one value that says which blocks keep 64 bits.
fn fitting_asked<'a>(given: &Given<'a>, value: &'a str) -> Option<Command<'a>>
    ensures { option_map command_meant result ≡ fitting_if (given_meant given.now) value.now }
{
    if is_named(given.command, "report") {
        counted_asked(
            given,
            Command::Report {
                monitor: value,
                count: given.count,
                fits: true,
            },
        )
    } else if is_named(given.command, "explain") {
        counted_asked(
            given,
            Command::Explain {
                monitor: value,
                count: given.count,
                fits: true,
            },
        )
    } else {
        None
    }
}

/// The command that the values ask for where it is not.
fn command_of_values<'a>(given: &Given<'a>) -> Option<Command<'a>>
    ensures { option_map command_meant result
        ≡ command_of_values (given_meant given.now) (given_meant given.now).values }
{
    match given.values.as_slice() {
        [value] => single_asked(given, *value),
        [monitor, other] => pair_asked(given, *monitor, *other),
        _ => None,
    }
}

/// The command of one value.
fn single_asked<'a>(given: &Given<'a>, value: &'a str) -> Option<Command<'a>>
    ensures { option_map command_meant result ≡ single_if (given_meant given.now) value.now }
{
    if is_named(given.command, "check") {
        plain_asked(given, Command::Check { monitor: value })
    } else if is_named(given.command, "compile") {
        compile_asked(given, value)
    } else if is_named(given.command, "stress") {
        stress_asked(given, value)
    } else if is_named(given.command, "report") {
        counted_asked(
            given,
            Command::Report {
                monitor: value,
                count: given.count,
                fits: false,
            },
        )
    } else if is_named(given.command, "explain") {
        counted_asked(
            given,
            Command::Explain {
                monitor: value,
                count: given.count,
                fits: false,
            },
        )
    } else if is_named(given.command, "emit") {
        plain_asked(given, Command::Emit { monitor: value })
    } else {
        None
    }
}

/// The command of two values.
fn pair_asked<'a>(given: &Given<'a>, monitor: &'a str, other: &'a str) -> Option<Command<'a>>
    ensures { option_map command_meant result
        ≡ pair_if (given_meant given.now) monitor.now other.now }
{
    if is_named(given.command, "turns") {
        plain_asked(
            given,
            Command::Turns {
                monitor,
                clients: other,
            },
        )
    } else if is_named(given.command, "simulate") {
        simulate_asked(given, monitor, other)
    } else if is_named(given.command, "run") {
        run_asked(given, monitor, other)
    } else if is_named(given.command, "recheck") {
        plain_asked(
            given,
            Command::Recheck {
                monitor,
                report: other,
            },
        )
    } else if is_named(given.command, "block") {
        counted_asked(
            given,
            Command::Block {
                monitor,
                clients: other,
                choice: choice_in(given),
            },
        )
    } else if is_named(given.command, "audit") {
        counted_asked(
            given,
            Command::Audit {
                monitor,
                plan: other,
                count: given.count,
            },
        )
    } else {
        None
    }
}

/// Whether the word for a command is this name.
fn is_named(word: Option<&str>, name: &str) -> bool
    ensures { result ≡ is_named (option_map (λ word. word.now) word.entry) name.now }
{
    match word {
        Some(word) => word == name,
        None => false,
    }
}

/// A command whose options are `--count` and `--fits` alone.
fn counted_asked<'a>(given: &Given<'a>, command: Command<'a>) -> Option<Command<'a>>
    ensures { option_map command_meant result
        ≡ counted_if (given_meant given.now) (command_meant command.entry) }
{
    if has_settings(given) || given.relay {
        None
    } else {
        Some(command)
    }
}

/// A command that has no options but `--fits`.
fn plain_asked<'a>(given: &Given<'a>, command: Command<'a>) -> Option<Command<'a>>
    ensures { option_map command_meant result
        ≡ plain_if (given_meant given.now) (command_meant command.entry) }
{
    if given.count {
        None
    } else {
        counted_asked(given, command)
    }
}

/// The compilation of a monitor.
fn compile_asked<'a>(given: &Given<'a>, monitor: &'a str) -> Option<Command<'a>>
    ensures { option_map command_meant result ≡ compile_if (given_meant given.now) monitor.now }
{
    if has_settings(given) {
        return None;
    }
    Some(Command::Compile {
        monitor,
        choice: choice_in(given),
    })
}

/// A simulation, under the schedule that is asked for.
fn simulate_asked<'a>(given: &Given<'a>, monitor: &'a str, clients: &'a str) -> Option<Command<'a>>
    ensures { option_map command_meant result
        ≡ simulate_if (given_meant given.now) monitor.now clients.now }
{
    if given.workers.is_some() {
        return None;
    }
    let schedule = schedule_of(given.seed, given.spurious)?;
    Some(Command::Simulate {
        monitor,
        clients,
        schedule,
        choice: choice_in(given),
    })
}

/// A run in workers.
fn run_asked<'a>(given: &Given<'a>, monitor: &'a str, clients: &'a str) -> Option<Command<'a>>
    ensures { option_map command_meant result
        ≡ run_if (given_meant given.now) monitor.now clients.now }
{
    if has_schedule(given) {
        return None;
    }
    let workers = workers_of(given.workers)?;
    Some(Command::Run {
        monitor,
        clients,
        workers,
        choice: choice_in(given),
    })
}

/// A run of the large input of a number.
fn stress_asked<'a>(given: &Given<'a>, number: &'a str) -> Option<Command<'a>>
    ensures { option_map command_meant result ≡ stress_if (given_meant given.now) number.now }
{
    if has_schedule(given) || has_choice(given) {
        return None;
    }
    let number = number_of(number, u64::MAX)?;
    let workers = workers_of(given.workers)?;
    Some(Command::Stress { number, workers })
}

/// Whether an option of the schedule is used.
fn has_schedule<'a>(given: &Given<'a>) -> bool
    ensures { result ≡ has_schedule (given_meant given.now) }
{
    given.seed.is_some() || given.spurious.is_some()
}

/// Whether an option of the schedule or of the workers is used.
fn has_settings<'a>(given: &Given<'a>) -> bool
    ensures { result ≡ has_settings (given_meant given.now) }
{
    has_schedule(given) || given.workers.is_some()
}

/// Whether another plan is asked for than the one that is placed.
fn has_choice<'a>(given: &Given<'a>) -> bool
    ensures { result ≡ has_choice (given_meant given.now) }
{
    given.relay || given.count
}

/// The choice that is asked for.
fn choice_in<'a>(given: &Given<'a>) -> PlanChoice
    ensures { result ≡ choice_in (given_meant given.now) }
{
    choice_of(given.relay, given.count)
}

/// The number of workers that is asked for.
fn workers_of(word: Option<&str>) -> Option<u32>
    ensures { result ≡ workers_if (option_map (λ word. word.now) word.entry) }
{
    match word {
        Some(word) => {
            let workers = number_of(word, WORKERS as u64)?;
            some_workers(workers)
        }
        None => Some(DEFAULT_WORKERS),
    }
}

/// A number of workers, which is not 0.
fn some_workers(number: u64) -> Option<u32>
    requires { number ≤ WORKERS }
    ensures { result ≡ some_workers number }
{
    if number == 0 {
        None
    } else {
        Some(number as u32)
    }
}
