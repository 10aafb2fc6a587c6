//! Hints of places where the grammar of clients stops.

use crate::around::Around;
use crate::foreign::foreign;
use crate::grammar::{
    begins_part, end, ends_value, is_reserved, is_sum, misspelled, naming, numeral, parentheses,
    reserved,
};
use front_hint::{Hint, is};
use lang_tokens::TokenKind;

/// What is said of other statements.
const ONLY_CALLS: &[u8] = b"a client only calls and repeats, as `repeat 3 { get(); }`";

/// What is likely wrong where the grammar of clients stops.
pub(crate) fn clients_hint<'a>(place: &Around<'a>) -> Option<Hint<'a>> {
    clients_start(place)
        .or(numeral(place))
        .or(misspelled(place))
        .or(calls(place))
        .or(repetition(place))
        .or(foreign(place))
        .or(reserved(place))
        .or(naming(place))
        .or(argument(place))
        .or(parentheses(place))
        .or(separator(place))
        .or(only_calls(place))
        .or(end(place))
}

/// At the start of a file of clients.
fn clients_start<'a>(place: &Around<'a>) -> Option<Hint<'a>> {
    if (place.index > 0 && !is(place.before(1), "}")) || place.braces() > 0 {
        return None;
    }
    if is(place.here(), "monitor") {
        Some(Hint::of(b"this is a monitor: the file of clients comes second"))
    } else if is(place.here(), "plan") {
        Some(Hint::of(b"this is a plan or a report, and no file of clients"))
    } else if is(place.here(), ";") {
        Some(Hint::of(b"no `;` stands behind `}`"))
    } else if is(place.here(), "}") {
        Some(Hint::of(b"this `}` closes no `{`"))
    } else {
        Some(Hint::of(b"a client begins with `client NAME {`"))
    }
}

/// What a client writes that only calls.
fn calls<'a>(place: &Around<'a>) -> Option<Hint<'a>> {
    let before = place.before(1);
    let here = place.here();
    if is(here, "=") {
        return Some(Hint::of(b"a client only calls, as `get();`: the log has what is answered"));
    }
    if is(before, "try") {
        return Some(Hint::of(b"a call that tries is written `try get();`"));
    }
    let is_bare = place.kind_before() == Some(TokenKind::Ident) && begins_part(place.before(2));
    if is_bare && place.kind(place.index) == Some(TokenKind::Ident) {
        return Some(Hint::of(b"a client only calls, as `get();`"));
    }
    if is_bare && (is(here, ";") || is(here, "}")) {
        return Some(Hint::quoting(
            b"a call has parentheses: `()` is missing behind ",
            before,
            b"",
        ));
    }
    if is(before, ")") && is(here, "{") {
        return Some(Hint::of(ONLY_CALLS));
    }
    None
}

/// `repeat` without its number or its braces, and a client without its own.
fn repetition<'a>(place: &Around<'a>) -> Option<Hint<'a>> {
    if is(place.before(1), "repeat") || is(place.before(2), "repeat") {
        return Some(Hint::of(b"a repetition is written `repeat 3 { .. }`"));
    }
    if is(place.before(2), "client") && !is(place.here(), "{") {
        return Some(Hint::quoting(b"expected `{` after ", place.before(1), b""));
    }
    None
}

/// At the argument of a call.
fn argument<'a>(place: &Around<'a>) -> Option<Hint<'a>> {
    let before = place.before(1);
    if is(before, "(") || is(before, ",") || is(before, "-") {
        return Some(Hint::of(b"only numbers, `true` and `false` may stand here"));
    }
    if is_sum(place.here()) {
        return Some(Hint::of(b"an argument is one number, `true` or `false`, and no sum"));
    }
    None
}

/// A `;` that is missing.
fn separator<'a>(place: &Around<'a>) -> Option<Hint<'a>> {
    if !ends_value(place.kind_before()?) {
        return None;
    }
    if place.parens() > 0 {
        return Some(Hint::quoting(b"expected `,` or `)` after ", place.before(1), b""));
    }
    Some(Hint::quoting(b"expected `;` after ", place.before(1), b""))
}

/// A word of monitors where a call is to begin.
fn only_calls<'a>(place: &Around<'a>) -> Option<Hint<'a>> {
    if begins_part(place.before(1)) && is_reserved(place.here()) {
        return Some(Hint::of(ONLY_CALLS));
    }
    None
}
