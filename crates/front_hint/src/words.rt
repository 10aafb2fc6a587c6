//! Hints of words that are no command.

use crate::commands::{
    COMMANDS, CommandWords, OPTIONS, OTHER_COMMANDS, OTHER_OPTIONS, OptionWords,
};
use crate::hint::Hint;
use crate::near::{is, is_near};
use crate::said::said_of;
use lang_base::is_digit;

/// The most digits of a number among words.
const MOST_DIGITS: usize = 20;

/// What is likely wrong of words, the program's name first, that are no command. Of words that ask
/// for help nothing is.
pub fn words_hint<'a>(words: &'a [String]) -> Option<Hint<'a>> {
    let given = words.get(1..).unwrap_or(&[]);
    if given.iter().any(|word| is_help(word.as_bytes())) {
        return None;
    }
    let Some(name) = first_value(given) else {
        return Some(without_command(given));
    };
    match command_named(name) {
        Some(command) => options_hint(command, given).or(values_hint(command, given)),
        None => Some(no_command(name)),
    }
}

/// Words with no name of a command among them.
fn without_command<'a>(given: &'a [String]) -> Hint<'a> {
    match unknown_option(given) {
        Some(word) => no_option(name_in(word)),
        None => without_option(given),
    }
}

/// Words with no name of a command among them, and with no option that is none.
fn without_option<'a>(given: &'a [String]) -> Hint<'a> {
    if count_of(given, b"--version") > 0 {
        Hint::of(b"`--version` stands alone")
    } else {
        Hint::of(b"a command is missing")
    }
}

/// The first word that looks like an option and is none.
fn unknown_option<'a>(given: &'a [String]) -> Option<&'a [u8]> {
    for word in given {
        let word = word.as_bytes();
        if is_option(word) && option_named(word).is_none() {
            return Some(word);
        }
    }
    None
}

/// Whether the word asks for help.
fn is_help(word: &[u8]) -> bool {
    is(word, "--help") || is(word, "-h") || is(word, "help")
}

/// Whether a word is an option, or looks like one.
fn is_option(word: &[u8]) -> bool {
    match word.get(1) {
        Some(next) => is_dashed(word) || (word.starts_with(b"-") && !is_digit(*next)),
        None => false,
    }
}

/// Whether a word begins with a dash that is no hyphen, as text programs write it.
fn is_dashed(word: &[u8]) -> bool {
    word.starts_with(b"\xE2\x80\x93") || word.starts_with(b"\xE2\x80\x94")
}

/// What stands ahead of the first `=` of a word.
fn name_in<'a>(word: &'a [u8]) -> &'a [u8] {
    let length = word.iter().take_while(|byte| **byte != b'=').count();
    word.get(..length).unwrap_or(word)
}

/// What stands behind the first `=` of a word.
fn number_in<'a>(word: &'a [u8]) -> Option<&'a [u8]> {
    let length = word.iter().take_while(|byte| **byte != b'=').count();
    word.get(length.saturating_add(1)..)
}

/// The option that a word names.
fn option_named(word: &[u8]) -> Option<OptionWords> {
    let name = name_in(word);
    let found = OPTIONS.iter().find(|option| option.name == name)?;
    Some(*found)
}

/// Whether the word is an option whose number is the next word.
fn takes_next(word: &[u8]) -> bool {
    match option_named(word) {
        Some(option) => option.numbered && number_in(word).is_none(),
        None => false,
    }
}

/// The command of this name.
fn command_named(name: &[u8]) -> Option<CommandWords> {
    let found = COMMANDS.iter().find(|command| command.name == name)?;
    Some(*found)
}

/// The first name of a command that differs in one letter.
fn near_command<'a>(name: &'a [u8]) -> Option<&'a [u8]> {
    let found = COMMANDS.iter().find(|command| is_near(command.name, name))?;
    Some(found.name)
}

/// The first name of a command that begins so.
fn begun_command<'a>(name: &'a [u8]) -> Option<&'a [u8]> {
    if name.len() < 2 {
        return None;
    }
    let found = COMMANDS
        .iter()
        .find(|command| command.name.starts_with(name))?;
    Some(found.name)
}

/// The command that is likely meant by a name of none.
fn meant_command<'a>(name: &'a [u8]) -> Option<&'a [u8]> {
    near_command(name)
        .or(begun_command(name))
        .or(said_of(&OTHER_COMMANDS, name))
}

/// A name of no command.
fn no_command<'a>(name: &'a [u8]) -> Hint<'a> {
    if is_file_name(name) {
        return Hint::quoting(b"a command is missing ahead of ", name, b"");
    }
    match meant_command(name) {
        Some(meant) => other_command(name, meant),
        None => Hint::quoting(b"no command ", name, b""),
    }
}

/// Whether a word looks like the name of a file.
fn is_file_name(word: &[u8]) -> bool {
    word.ends_with(b".mon") || word.ends_with(b".cl") || word.iter().any(|byte| *byte == b'/')
}

/// A name of no command, near one that is.
fn other_command<'a>(name: &'a [u8], near: &'a [u8]) -> Hint<'a> {
    Hint::of_two(b"no command `", name, b"`; `", near, b"`?")
}

/// The first word that is no option and no option's number.
fn first_value<'a>(given: &'a [String]) -> Option<&'a [u8]> {
    let mut number = false;
    for word in given {
        let word = word.as_bytes();
        if !number && !is_option(word) {
            return Some(word);
        }
        number = !number && takes_next(word);
    }
    None
}

/// How many words are no options and no numbers of options.
fn count_of_values(given: &[String]) -> usize {
    let mut number = false;
    let mut count: usize = 0;
    for word in given {
        let word = word.as_bytes();
        if !number && !is_option(word) {
            count = count.saturating_add(1);
        }
        number = !number && takes_next(word);
    }
    count
}

/// What is wrong of the options of a command.
fn options_hint<'a>(command: CommandWords, given: &'a [String]) -> Option<Hint<'a>> {
    for index in 0..given.len() {
        let word = given[index].as_bytes();
        let next = word_at(given, index.saturating_add(1));
        if is_option(word) {
            if let Some(hint) = option_hint(command, word, next) {
                return Some(hint);
            }
            if count_of(given, name_in(word)) > 1 {
                return Some(Hint::quoting(b"", name_in(word), b" stands twice"));
            }
        }
    }
    if count_of(given, b"--spurious") > 0 && count_of(given, b"--seed") == 0 {
        return Some(Hint::of(b"`--spurious` wants `--seed`"));
    }
    None
}

/// A word by its index.
fn word_at<'a>(given: &'a [String], index: usize) -> Option<&'a [u8]> {
    let word = given.get(index)?;
    Some(word.as_bytes())
}

/// How often an option of this name stands there.
fn count_of(given: &[String], name: &[u8]) -> usize {
    given
        .iter()
        .filter(|word| name_in(word.as_bytes()) == name)
        .count()
}

/// What is wrong of one option, with the word behind it.
fn option_hint<'a>(
    command: CommandWords,
    word: &'a [u8],
    next: Option<&'a [u8]>,
) -> Option<Hint<'a>> {
    let Some(option) = option_named(word) else {
        return Some(no_option(name_in(word)));
    };
    if is(command.name, "emit") && is(option.name, "--count") {
        return Some(Hint::of(b"`emit` has no `--count`: it always counts"));
    }
    if !has_option(command, option.name) {
        return Some(Hint::of_two(b"`", command.name, b"` has no `", option.name, b"`"));
    }
    number_hint(option, number_in(word), next)
}

/// The first name of an option that is likely meant by a word.
fn near_option<'a>(name: &'a [u8]) -> Option<&'a [u8]> {
    let found = OPTIONS.iter().find(|option| is_meant(option.name, name))?;
    Some(found.name)
}

/// Whether a name differs from a word in one letter, or begins with it.
fn is_meant(name: &[u8], word: &[u8]) -> bool {
    is_near(name, word) || (word.len() > 3 && name.starts_with(word))
}

/// A name of no option.
fn no_option<'a>(name: &'a [u8]) -> Hint<'a> {
    if is_dashed(name) {
        return Hint::quoting(b"an option begins with two hyphens, and not as ", name, b"");
    }
    if let Some(said) = said_of(&OTHER_OPTIONS, name) {
        return Hint::of(said);
    }
    match near_option(name) {
        Some(near) => other_option(name, near),
        None => Hint::quoting(b"no option ", name, b""),
    }
}

/// A name of no option, near one that is.
fn other_option<'a>(name: &'a [u8], near: &'a [u8]) -> Hint<'a> {
    Hint::of_two(b"no option `", name, b"`; `", near, b"`?")
}

/// Whether a command has the option of this name.
fn has_option(command: CommandWords, name: &[u8]) -> bool {
    command.options.iter().any(|option| *option == name)
}

/// What is wrong of an option's number, which stands in its word or in the next one.
fn number_hint<'a>(
    option: OptionWords,
    within: Option<&'a [u8]>,
    next: Option<&'a [u8]>,
) -> Option<Hint<'a>> {
    if !option.numbered {
        return if within.is_some() {
            Some(Hint::of(option.said))
        } else {
            None
        };
    }
    match within.or(next) {
        Some(number) if is_number(number, option.least, option.most) => None,
        _ => Some(Hint::of(option.said)),
    }
}

/// Whether these are digits of a number in a range.
fn is_number(word: &[u8], least: u128, most: u128) -> bool {
    if word.is_empty() || word.len() > MOST_DIGITS {
        return false;
    }
    let mut value: u128 = 0;
    for digit in word {
        if !is_digit(*digit) {
            return false;
        }
        value = value
            .saturating_mul(10)
            .saturating_add((*digit).saturating_sub(b'0') as u128);
    }
    least <= value && value <= most
}

/// What is wrong of the values of a command, of which the first is its name.
fn values_hint<'a>(command: CommandWords, given: &'a [String]) -> Option<Hint<'a>> {
    if count_of_values(given) != command.count.saturating_add(1) {
        return Some(Hint::of_two(b"`", command.name, b"` wants ", command.files, b""));
    }
    if is(command.name, "stress") {
        return Some(Hint::of(b"`stress` wants a number from 0 to 18446744073709551615"));
    }
    None
}
