//! Hints of rules that are broken.

use crate::around::Around;
use crate::kinds::kind_hint;
use front_hint::{Hint, is, is_near, said_of};
use lang_base::{Counted, Refusal};
use lang_tokens::TokenKind;

/// What is said of words that name values in other languages.
const FOREIGN_VALUES: [(&[u8], &[u8]); 10] = [
    (b"True", b"it is written `true`"),
    (b"TRUE", b"it is written `true`"),
    (b"False", b"it is written `false`"),
    (b"FALSE", b"it is written `false`"),
    (
        b"null",
        b"there is no `null`: a value is a number, `true` or `false`",
    ),
    (
        b"NULL",
        b"there is no `NULL`: a value is a number, `true` or `false`",
    ),
    (
        b"nil",
        b"there is no `nil`: a value is a number, `true` or `false`",
    ),
    (
        b"None",
        b"there is no `None`: a value is a number, `true` or `false`",
    ),
    (b"this", b"a field is named by its name alone"),
    (b"self", b"a field is named by its name alone"),
];

/// What is likely wrong where a rule is broken. `methods` has the tokens of the monitor.
pub(crate) fn rule_hint<'a>(
    what: Refusal,
    place: &Around<'a>,
    methods: &Around<'a>,
) -> Option<Hint<'a>> {
    match what {
        Refusal::Unknown => unknown(place),
        Refusal::UnknownMethod => unknown_method(place, methods),
        Refusal::WrongCount => inputs(place, methods),
        Refusal::WrongType => Some(kind_hint(place)),
        Refusal::Duplicate => Some(twice(place.here())),
        Refusal::DuplicateClient => Some(twice(place.here())),
        Refusal::TooMany(counted) => Some(Hint::of(most(counted))),
        _ => Some(Hint::of(said_of_rule(what)?)),
    }
}

/// What is said of a rule, whatever stands there.
fn said_of_rule(what: Refusal) -> Option<&'static [u8]> {
    match what {
        Refusal::NotLinear => Some(b"one side of a `*` is made of numbers and constants alone"),
        Refusal::TooLarge => Some(b"a number is at most 9223372036854775807"),
        Refusal::ReadOnly => Some(b"only fields and locals are assigned, no constants and inputs"),
        Refusal::Misplaced => Some(b"a `return` is the last statement of a method, in no `if`"),
        Refusal::WrongStart => Some(b"the number of a parameter meets its condition"),
        Refusal::TooManyClients => Some(b"there are at most 32 clients"),
        Refusal::TooManyCalls => Some(b"clients make at most 16384 calls, with each `repeat`"),
        _ => None,
    }
}

/// How many there may be.
fn most(counted: Counted) -> &'static [u8] {
    match counted {
        Counted::Constants => b"a monitor has at most 64 constants",
        Counted::Fields => b"a monitor has at most 16 fields",
        Counted::Methods => b"a monitor has at most 16 methods",
        Counted::Parameters => b"a method has at most 6 inputs",
        Counted::Locals => b"a method has at most 4 locals",
        Counted::Blocks => b"a method has at most 4 blocks",
        Counted::Statements => b"a body has at most 64 statements",
    }
}

/// A name that stands twice.
fn twice<'a>(name: &'a [u8]) -> Hint<'a> {
    Hint::quoting(b"", name, b" names something further up already")
}

/// An unknown name.
fn unknown<'a>(place: &Around<'a>) -> Option<Hint<'a>> {
    let here = place.here();
    if let Some(said) = said_of(&FOREIGN_VALUES, here) {
        return Some(Hint::of(said));
    }
    match near_name(place, here) {
        Some(name) => Some(did_you_mean(here, name)),
        None => Some(Hint::quoting(b"no constant, field, input or local is named ", here, b"")),
    }
}

/// A name that is there, in place of one that isn't.
fn did_you_mean<'a>(here: &'a [u8], name: &'a [u8]) -> Hint<'a> {
    Hint::of_two(b"`", here, b"` isn't there, but `", name, b"` is")
}

/// The first name of a constant, a parameter, a field, an input or a local that differs in one
/// letter.
fn near_name<'a>(place: &Around<'a>, word: &[u8]) -> Option<&'a [u8]> {
    for index in 1..place.tokens.len() {
        if is_declared(place, index - 1) && is_near(place.text(index), word) {
            return Some(place.text(index));
        }
    }
    None
}

/// Whether the name of a value stands behind the token of this index.
pub(crate) fn is_declared<'a>(place: &Around<'a>, index: usize) -> bool {
    let kind = place.kind(index);
    kind == Some(TokenKind::KeyConst)
        || kind == Some(TokenKind::KeyInt)
        || kind == Some(TokenKind::KeyBool)
        || is(place.text(index), "param")
}

/// An unknown method.
fn unknown_method<'a>(place: &Around<'a>, methods: &Around<'a>) -> Option<Hint<'a>> {
    let here = place.here();
    for index in 1..methods.tokens.len() {
        if methods.kind(index - 1) == Some(TokenKind::KeyMethod)
            && is_near(methods.text(index), here)
        {
            return Some(did_you_mean(here, methods.text(index)));
        }
    }
    Some(Hint::quoting(b"the monitor has no method ", here, b""))
}

/// A call with too few or too many arguments.
fn inputs<'a>(place: &Around<'a>, methods: &Around<'a>) -> Option<Hint<'a>> {
    let here = place.here();
    for index in 1..methods.tokens.len() {
        if methods.kind(index - 1) == Some(TokenKind::KeyMethod) && methods.text(index) == here {
            let count = words_of(inputs_from(methods, index));
            return Some(Hint::of_two(b"`", here, b"` has ", count, b""));
        }
    }
    None
}

/// How many inputs stand behind the name of a method.
fn inputs_from<'a>(methods: &Around<'a>, name: usize) -> usize {
    methods
        .tokens
        .iter()
        .skip(name)
        .take_while(|token| token.kind != TokenKind::CloseParen)
        .filter(|token| token.kind == TokenKind::KeyInt || token.kind == TokenKind::KeyBool)
        .count()
}

/// How many inputs a method has, as words.
fn words_of(count: usize) -> &'static [u8] {
    match count {
        0 => b"no inputs",
        1 => b"1 input",
        2 => b"2 inputs",
        3 => b"3 inputs",
        4 => b"4 inputs",
        5 => b"5 inputs",
        _ => b"6 inputs",
    }
}
