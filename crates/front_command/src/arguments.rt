//! The arguments of the command line, as `clap` reads them.

ghost use Rattle.std.specs.Prelude.{◌≡◌, [], false, IfOk, codes, map, option_map, string_bytes};
ghost use Rattle.std.specs.Prelude.{unwrap_or};
ghost use Rattle.clap.specs.Words.{FailsBy, all_of, app_of, fault_of, found_of, matches_of, rows_of, rule_of};
ghost use Rattle.front_command.specs.CommandLine.{IsGiven, command_rule, flag_rule, is_used, option_rule};
ghost use Rattle.front_command.specs.CommandLine.{program, values_rule, version_rule};
ghost use Rattle.front_command.specs.CommandLine.{Given as Arguments};
ghost use Rattle.front_command.specs.inner.Given.{given_meant};

use crate::command::CommandFault;
use clap::error::ErrorKind;
use clap::{Arg, ArgAction, ArgMatches, Error};
use std::alloc::{AllocError, Global};

/// What the words give for each argument.
#[derive(Drop)]
pub(crate) struct Given<'a> {
    pub(crate) command: Option<&'a str>,
    pub(crate) values: Vec<&'a str>,
    pub(crate) seed: Option<&'a str>,
    pub(crate) spurious: Option<&'a str>,
    pub(crate) workers: Option<&'a str>,
    pub(crate) relay: bool,
    pub(crate) count: bool,
    pub(crate) fits: bool,
    pub(crate) version: bool,
}

/// What the words, the program's name first, give; `Usage` where `clap` refuses them or they ask
/// for help.
pub(crate) fn given_of<'a>(alloc: Global, words: &'a [String]) -> Result<Given<'a>, CommandFault>
    ensures given { IfOk result
        (λ given. IsGiven (map string_bytes words.now) (given_meant given)) }
    ensures usage { result ≡ Err CommandFault.Usage
        → (given : Arguments) → IsGiven (map string_bytes words.now) given → ⊥ }
{
    let matches = match matches_of(alloc, words) {
        Ok(matches) => matches,
        Err(error) => {
            return Err(match error.kind() {
                ErrorKind::OutOfMemory => CommandFault::OutOfMemory,
                _ => CommandFault::Usage,
            });
        }
    };
    let Ok(values) = values_of(alloc, &matches) else {
        return Err(CommandFault::OutOfMemory);
    };
    Ok(Given {
        command: matches.get_str("command"),
        values,
        seed: matches.get_str("seed"),
        spurious: matches.get_str("spurious"),
        workers: matches.get_str("workers"),
        relay: is_used(matches.get_str("relay")),
        count: is_used(matches.get_str("count")),
        fits: is_used(matches.get_str("fits")),
        version: is_used(matches.get_str("version")),
    })
}

/// Whether a flag is used, of which `clap` gives this text.
fn is_used(text: Option<&str>) -> bool
    ensures { result ≡ is_used (option_map (λ text. text.now) text.entry) }
{
    match text {
        Some(text) => text == "true",
        None => false,
    }
}

/// What `clap` matches in the words.
fn matches_of<'a>(alloc: Global, words: &'a [String]) -> Result<ArgMatches<'a>, Error>
    ensures matches { IfOk result
        (λ m. rows_of (found_of m) ≡ matches_of program (map string_bytes words.now)) }
    ensures kinds { FailsBy (fault_of program (map string_bytes words.now)) result }
{
    let command = program(alloc)?;
    command.try_get_matches_from(words)
}

/// The values that were matched, in order.
fn values_of<'a>(alloc: Global, matches: &ArgMatches<'a>) -> Result<Vec<&'a str>, AllocError>
    ensures { IfOk result (λ values. map (λ value. value.now) values.items
        ≡ unwrap_or (all_of (codes "values") (rows_of (found_of matches.now))) []) }
{
    match matches.get_strs("values") {
        Some(values) => Vec::from_slice(alloc, values),
        None => Ok(Vec::new(alloc)),
    }
}

/// The command line, as `clap` defines it.
fn program<'a>(alloc: Global) -> Result<clap::Command<'a>, AllocError>
    ensures { IfOk result (λ command. app_of command ≡ program) }
{
    clap::Command::new(alloc, "expresso")
        .arg(command_argument(alloc))?
        .arg(values_argument(alloc))?
        .arg(option(alloc, "seed"))?
        .arg(option(alloc, "spurious"))?
        .arg(option(alloc, "workers"))?
        .arg(flag(alloc, "relay"))?
        .arg(flag(alloc, "count"))?
        .arg(flag(alloc, "fits"))?
        .arg(version_argument(alloc))
}

/// The command's name, which `--version` may stand in place of.
fn command_argument<'a>(alloc: Global) -> Arg<'a>
    ensures rule { rule_of result ≡ command_rule }
    ensures local { result.global ≡ false }
{
    Arg::new(alloc, "command").action(ArgAction::Set)
}

/// Any number of values.
fn values_argument<'a>(alloc: Global) -> Arg<'a>
    ensures rule { rule_of result ≡ values_rule }
    ensures local { result.global ≡ false }
{
    Arg::new(alloc, "values")
        .num_args(0..)
        .action(ArgAction::Append)
}

/// An option with one text.
fn option<'a>(alloc: Global, name: &'a str) -> Arg<'a>
    ensures rule { rule_of result ≡ option_rule name.now }
    ensures local { result.global ≡ false }
{
    Arg::new(alloc, name).long(name).action(ArgAction::Set)
}

/// An option without a text.
fn flag<'a>(alloc: Global, name: &'a str) -> Arg<'a>
    ensures rule { rule_of result ≡ flag_rule name.now }
    ensures local { result.global ≡ false }
{
    Arg::new(alloc, name).long(name).action(ArgAction::SetTrue)
}

/// `--version`, or `-V`.
fn version_argument<'a>(alloc: Global) -> Arg<'a>
    ensures rule { rule_of result ≡ version_rule }
    ensures local { result.global ≡ false }
{
    flag(alloc, "version").short('V')
}
