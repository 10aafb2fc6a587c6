//! Hints of numbers that stand in place of truth values, and the other way round.

use crate::around::Around;
use crate::grammar::is_comparison;
use crate::rules::is_declared;
use front_hint::{Hint, is};
use lang_tokens::TokenKind;

/// What is likely wrong where a value of the other kind is asked.
pub(crate) fn kind_hint<'a>(place: &Around<'a>) -> Hint<'a> {
    let found = if is(place.text(0), "client") {
        argument(place)
    } else if is_truth(place) {
        equal(place).or(truth(place))
    } else if is_number(place) {
        number(place)
    } else {
        None
    };
    match found {
        Some(hint) => hint,
        None => {
            Hint::of(
                b"a sum and a comparison are of numbers, a guard and a condition are true or false",
            )
        }
    }
}

/// Whether a truth value stands at the place.
fn is_truth<'a>(place: &Around<'a>) -> bool {
    match place.kind(place.index) {
        Some(TokenKind::Ident) => declared(place, place.here()) == Some(TokenKind::KeyBool),
        Some(kind) => kind == TokenKind::KeyTrue || kind == TokenKind::KeyFalse,
        None => false,
    }
}

/// Whether a number, or the name of one, stands at the place.
fn is_number<'a>(place: &Around<'a>) -> bool {
    match place.kind(place.index) {
        Some(TokenKind::Ident) => match declared(place, place.here()) {
            Some(kind) => kind != TokenKind::KeyBool,
            None => false,
        },
        Some(kind) => kind == TokenKind::Number,
        None => false,
    }
}

/// By which word a name was last declared ahead of the place: that of a parameter is a name.
fn declared<'a>(place: &Around<'a>, name: &[u8]) -> Option<TokenKind> {
    for back in 0..place.index {
        let index = place.index - 1 - back;
        let before = index.saturating_sub(1);
        if place.text(index) == name && is_declared(place, before) {
            return place.kind(before);
        }
    }
    None
}

/// At an argument of a call.
fn argument<'a>(place: &Around<'a>) -> Option<Hint<'a>> {
    if is(place.here(), "true") || is(place.here(), "false") {
        Some(Hint::quoting(b"this input is a number, and not ", place.here(), b""))
    } else {
        Some(Hint::of(b"this input is a truth value: `true` or `false`"))
    }
}

/// At a truth value that is tested for being another: `held == true`.
fn equal<'a>(place: &Around<'a>) -> Option<Hint<'a>> {
    let sign = place.text(place.index.saturating_add(1));
    let other = place.text(place.index.saturating_add(2));
    let here = place.here();
    if !is(sign, "==") && !is(sign, "!=") {
        return None;
    }
    if is_written(other) {
        return Some(plain(here, is(sign, "==") == is(other, "true")));
    }
    if is_written(here) {
        return Some(plain(other, is(sign, "==") == is(here, "true")));
    }
    Some(Hint::of(b"only numbers are compared: truth values are joined by `&&`, `||` and `!`"))
}

/// Whether the word is a truth value as it is written.
fn is_written(word: &[u8]) -> bool {
    is(word, "true") || is(word, "false")
}

/// How it is written that a name is true, or false.
fn plain<'a>(name: &'a [u8], is: bool) -> Hint<'a> {
    if is {
        Hint::of_two(b"only numbers are compared: write `", name, b"`", b"", b"")
    } else {
        Hint::of_two(b"only numbers are compared: write `!", name, b"`", b"", b"")
    }
}

/// At a truth value in place of a number.
fn truth<'a>(place: &Around<'a>) -> Option<Hint<'a>> {
    let here = place.here();
    let before = place.before(1);
    let next = place.text(place.index.saturating_add(1));
    if is(before, "=") && declared(place, place.before(2)) == Some(TokenKind::KeyInt) {
        Some(Hint::of_two(
            b"`",
            place.before(2),
            b"` is a number, and `",
            here,
            b"` a truth value",
        ))
    } else if is_comparison(before) || is_comparison(next) {
        Some(Hint::of_two(
            b"only numbers are compared, and `",
            here,
            b"` is a truth value",
            b"",
            b"",
        ))
    } else {
        Some(Hint::of_two(
            b"a sum is of numbers, and `",
            here,
            b"` is a truth value",
            b"",
            b"",
        ))
    }
}

/// At a number in place of a truth value.
fn number<'a>(place: &Around<'a>) -> Option<Hint<'a>> {
    let here = place.here();
    let assigned = place.before(2);
    if is(place.before(1), "=") && declared(place, assigned) == Some(TokenKind::KeyInt) {
        return Some(Hint::quoting(b"", assigned, b" is a number, and the value a truth value"));
    }
    if is(place.before(1), "=") {
        return Some(Hint::of_two(
            b"`",
            assigned,
            b"` is a truth value, and `",
            here,
            b"` a number",
        ));
    }
    if place.kind(place.index) == Some(TokenKind::Number) {
        return Some(Hint::of_two(
            b"a condition is true or false, and `",
            here,
            b"` is a number",
            b"",
            b"",
        ));
    }
    Some(Hint::of_two(
        b"a condition is true or false: compare `",
        here,
        b"`, as by `",
        here,
        b" > 0`",
    ))
}
