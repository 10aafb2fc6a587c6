//! Hints of places where the grammar of monitors stops.

use crate::around::Around;
use crate::foreign::foreign;
use front_hint::{Hint, is, is_near};
use lang_base::{KEYWORDS, is_word_byte};
use lang_tokens::TokenKind;

/// What is likely wrong where the grammar of monitors stops.
pub(crate) fn monitor_hint<'a>(place: &Around<'a>) -> Option<Hint<'a>> {
    monitor_start(place)
        .or(numeral(place))
        .or(foreign(place))
        .or(misspelled(place))
        .or(unnamed_method(place))
        .or(nested(place))
        .or(ordered(place))
        .or(reserved(place))
        .or(declaration(place))
        .or(naming(place))
        .or(header(place))
        .or(called(place))
        .or(comparison(place))
        .or(parentheses(place))
        .or(separator(place))
        .or(begun_part(place))
        .or(monitor_end(place))
}

/// At a monitor's start.
fn monitor_start<'a>(place: &Around<'a>) -> Option<Hint<'a>> {
    if is(place.before(2), "monitor") {
        return Some(Hint::quoting(b"expected `{` after ", place.before(1), b""));
    }
    if place.index > 0 {
        return None;
    }
    if is(place.here(), "client") {
        return Some(Hint::of(b"this is a file of clients: the monitor's file comes first"));
    }
    if is(place.here(), "plan") {
        return Some(Hint::of(b"this is a plan or a report: the monitor's file comes first"));
    }
    Some(Hint::of(b"a monitor begins with `monitor NAME {`"))
}

/// Letters at the end of a number.
pub(crate) fn numeral<'a>(place: &Around<'a>) -> Option<Hint<'a>> {
    let first = *place.here().first()?;
    if place.kind_before()? == TokenKind::Number && place.touches() && is_word_byte(first) {
        return Some(Hint::of(
            b"a number has decimal digits alone, and a name begins with a letter",
        ));
    }
    None
}

/// A keyword with a slip of one letter, at the place or before it.
pub(crate) fn misspelled<'a>(place: &Around<'a>) -> Option<Hint<'a>> {
    if place.kind(place.index) == Some(TokenKind::Ident) && begins_part(place.before(1)) {
        return slip_of(place.here());
    }
    let here = place.here();
    let is_assigned = is(here, "=") || is_comparison(here) || is_sum(here);
    let is_word = place.kind_before() == Some(TokenKind::Ident) && !is_assigned;
    if is_word && begins_part(place.before(2)) {
        return slip_of(place.before(1));
    }
    None
}

/// The keyword from which a word differs in one letter.
fn slip_of<'a>(word: &'a [u8]) -> Option<Hint<'a>> {
    let near = near_keyword(word)?;
    Some(Hint::of_two(b"`", word, b"` is no keyword; `", near, b"`?"))
}

/// The first keyword that differs in one letter.
fn near_keyword(word: &[u8]) -> Option<&'static [u8]> {
    for index in 0..KEYWORDS.len() {
        let keyword = KEYWORDS[index];
        if is_near(keyword, word) {
            return Some(keyword);
        }
    }
    None
}

/// Whether a statement or another part stands behind the word.
pub(crate) fn begins_part(word: &[u8]) -> bool {
    is(word, ";") || is(word, "{") || is(word, "}") || is(word, ")")
}

/// A method without the word `method`.
fn unnamed_method<'a>(place: &Around<'a>) -> Option<Hint<'a>> {
    if place.braces() != 1 || place.parens() > 0 {
        return None;
    }
    let here = place.here();
    let is_name = place.kind(place.index) == Some(TokenKind::Ident);
    let after = if is_type(here) { 2 } else { 1 };
    let next = place.text(place.index.saturating_add(after));
    let is_header = (is_name || is_type(here)) && is(next, "(") && begins_member(place.before(1));
    let is_behind = is(here, "(") && place.kind_before() == Some(TokenKind::Ident);
    if is_header || (is_behind && !is(place.before(2), "method")) {
        return Some(Hint::of(b"a method begins with `method`, as `method get() waituntil (..)`"));
    }
    None
}

/// Whether a field or a method may stand behind the word.
fn begins_member(word: &[u8]) -> bool {
    is(word, ";") || is(word, "{") || is(word, "}")
}

/// A word that stands in no body.
fn nested<'a>(place: &Around<'a>) -> Option<Hint<'a>> {
    if place.braces() < 2 {
        return None;
    }
    let here = place.here();
    if is(here, "method") {
        Some(Hint::of(b"a `}` is missing ahead of this `method`"))
    } else if is(here, "waituntil") {
        Some(Hint::of(b"a `waituntil` stands in no body: a `}` ends the body ahead of it"))
    } else if is(here, "repeat") || is(here, "try") {
        Some(Hint::quoting(b"only clients have ", here, b""))
    } else {
        None
    }
}

/// Declarations at another place than their own, and what stands behind a word.
fn ordered<'a>(place: &Around<'a>) -> Option<Hint<'a>> {
    let before = place.before(1);
    let here = place.here();
    if is(before, "else") {
        Some(Hint::of(b"a `{` stands behind `else`: `else { .. }`"))
    } else if is(before, "local") {
        Some(Hint::of(b"a local has a type: `local int x = 0;`"))
    } else if is(here, "local") && is_type(place.text(place.index.saturating_add(1))) {
        Some(Hint::of(b"locals stand between the inputs and the first `waituntil`"))
    } else if is_declared(here) && begins_member(before) {
        Some(Hint::of(b"fields stand ahead of the methods, locals ahead of `waituntil`"))
    } else if is_asked(before) && !is(here, "(") {
        Some(Hint::quoting(
            b"a condition stands in parentheses: `(..)` behind ",
            before,
            b"",
        ))
    } else {
        None
    }
}

/// Whether the word is a type.
fn is_type(word: &[u8]) -> bool {
    is(word, "int") || is(word, "bool")
}

/// Whether a condition stands behind the word.
fn is_asked(word: &[u8]) -> bool {
    is(word, "if") || is(word, "waituntil")
}

/// Whether the word is reserved.
pub(crate) fn is_reserved(word: &[u8]) -> bool {
    KEYWORDS.iter().any(|keyword| word == *keyword)
}

/// Whether a name stands behind the word.
fn is_naming(word: &[u8]) -> bool {
    is_declared(word) || is(word, "monitor") || is(word, "method") || is(word, "client")
}

/// A reserved word in place of a name.
pub(crate) fn reserved<'a>(place: &Around<'a>) -> Option<Hint<'a>> {
    let here = place.here();
    let next = place.text(place.index.saturating_add(1));
    if !is_reserved(here) {
        return None;
    }
    let is_value = begins_value(place.before(1)) && !is(here, "true") && !is(here, "false");
    if is_naming(place.before(1)) || is(next, "=") || is_value {
        return Some(Hint::quoting(b"", here, b" is a reserved word, and no name"));
    }
    None
}

/// Whether a value stands behind the sign.
fn begins_value(sign: &[u8]) -> bool {
    is_comparison(sign)
        || is(sign, "=")
        || is(sign, "+")
        || is(sign, "-")
        || is(sign, "*")
        || is(sign, "!")
        || is(sign, "(")
        || is_joining(sign)
}

/// Whether the sign compares.
pub(crate) fn is_comparison(sign: &[u8]) -> bool {
    is(sign, "==")
        || is(sign, "!=")
        || is(sign, "<")
        || is(sign, "<=")
        || is(sign, ">")
        || is(sign, ">=")
}

/// Whether the sign joins truth values.
fn is_joining(sign: &[u8]) -> bool {
    is(sign, "&&") || is(sign, "||")
}

/// In a declaration of a constant, a parameter, a field or a local.
fn declaration<'a>(place: &Around<'a>) -> Option<Hint<'a>> {
    let here = place.here();
    let named = place.before(2);
    if is_type(named) && is(here, ",") {
        return Some(Hint::of(b"each field has a type and a value of its own: `int a = 0;`"));
    }
    if is_declared(named) && is(here, ";") {
        return Some(Hint::of(b"a value is missing: a field begins with one, as `int x = 0;`"));
    }
    if is(place.before(1), "-") && is_declared(place.before(4)) {
        return Some(Hint::of(b"only a number may stand here"));
    }
    if is(place.before(1), "=") && is_declared(place.before(3)) {
        return Some(begun(place.before(3), here));
    }
    if is(place.before(2), "=") && is(place.before(4), "param") {
        return Some(Hint::of(b"a condition stands behind the number, as `where (CAP >= 1)`"));
    }
    if is(place.before(2), "=") && is_declared(place.before(4)) {
        return Some(behind_value(place.before(1), here));
    }
    None
}

/// Whether a declaration begins with the word.
fn is_declared(word: &[u8]) -> bool {
    is_type(word) || is(word, "const") || is(word, "param")
}

/// Whether the sign is one of sums.
pub(crate) fn is_sum(sign: &[u8]) -> bool {
    is(sign, "+") || is(sign, "-") || is(sign, "*")
}

/// What a field begins with.
fn begun<'a>(declared: &'a [u8], here: &'a [u8]) -> Hint<'a> {
    if is(declared, "bool") {
        Hint::of(b"a `bool` begins as `true` or `false`")
    } else {
        Hint::quoting(b"only a number may stand here, and not ", here, b"")
    }
}

/// What stands behind the value of a declaration.
fn behind_value<'a>(value: &'a [u8], here: &[u8]) -> Hint<'a> {
    if is(here, ",") {
        Hint::of(b"each field has a type and a value of its own: `int a = 0;`")
    } else if is_sum(here) {
        Hint::of(b"only one number may stand here, and no sum")
    } else {
        Hint::quoting(b"expected `;` after ", value, b"")
    }
}

/// A name that is missing.
pub(crate) fn naming<'a>(place: &Around<'a>) -> Option<Hint<'a>> {
    if is_naming(place.before(1)) {
        return Some(Hint::quoting(b"a name is missing behind ", place.before(1), b""));
    }
    None
}

/// In the header of a method, or where its first guard is to come.
fn header<'a>(place: &Around<'a>) -> Option<Hint<'a>> {
    let here = place.here();
    let before = place.before(1);
    if is(place.before(2), "method") && !is(here, "(") {
        return Some(Hint::quoting(b"`()` is missing behind ", before, b""));
    }
    if is(before, ")") {
        return behind(place, place.opener());
    }
    if (is(before, "(") || is(before, ",")) && is_header(place) {
        return Some(Hint::of(b"an input has a type, as `int n`"));
    }
    if is_type(place.before(2)) && is_header(place) && is(here, "=") {
        return Some(Hint::of(b"an input has no value: each call gives one"));
    }
    if is_type(place.before(2)) && is_header(place) && !is(here, ")") {
        return Some(Hint::quoting(b"`,` or `)` is missing behind ", before, b""));
    }
    None
}

/// Whether the place is among the inputs of a method: the last `(` stands behind its name.
fn is_header<'a>(place: &Around<'a>) -> bool {
    for back in 0..place.index {
        let index = place.index - 1 - back;
        if place.kind(index) == Some(TokenKind::OpenParen) {
            return is(place.text(index.saturating_sub(2)), "method");
        }
    }
    false
}

/// Behind the `)` of the parenthesis that this one opens.
fn behind<'a>(place: &Around<'a>, opener: usize) -> Option<Hint<'a>> {
    let here = place.here();
    if is(place.text(opener.saturating_sub(2)), "method") {
        return Some(Hint::of(
            b"a guard is missing: a body stands behind one, as `waituntil (true) { .. }`",
        ));
    }
    let asked = place.text(opener.saturating_sub(1));
    if !is_asked(asked) || is(here, "{") {
        None
    } else if is(here, ")") {
        Some(Hint::of(b"this `)` closes no `(`"))
    } else if is_joining(here) || is_comparison(here) || is_sum(here) {
        Some(Hint::quoting(
            b"one pair of parentheses holds all that stands behind ",
            asked,
            b"",
        ))
    } else {
        Some(Hint::quoting(
            b"a body in `{ }` is missing behind the condition of ",
            asked,
            b"",
        ))
    }
}

/// A call, which only clients write.
fn called<'a>(place: &Around<'a>) -> Option<Hint<'a>> {
    if is(place.here(), "(") && place.kind_before()? == TokenKind::Ident {
        return Some(Hint::of(b"only clients call: here stand names, numbers and signs"));
    }
    None
}

/// `=` and `==`, and comparisons in a row.
fn comparison<'a>(place: &Around<'a>) -> Option<Hint<'a>> {
    let here = place.here();
    if is(here, "==") && begins_statement(place.before(2)) {
        return Some(Hint::of(b"`=` assigns; `==` compares"));
    }
    if is(here, "=") {
        return Some(Hint::of(b"`==` compares; `=` assigns"));
    }
    if is_comparison(here) {
        return Some(Hint::of(b"one comparison has two sides: join two of them by `&&`"));
    }
    None
}

/// Whether a statement or a declaration's name stands behind the word.
fn begins_statement(word: &[u8]) -> bool {
    begins_member(word) || is_declared(word)
}

/// Parentheses that are not closed, or closed twice, or empty.
pub(crate) fn parentheses<'a>(place: &Around<'a>) -> Option<Hint<'a>> {
    let here = place.here();
    let open = place.parens();
    if open > 0 && (is(here, "{") || is(here, ";") || is(here, "}") || is(here, "")) {
        return Some(Hint::quoting(b"a `)` is missing behind ", place.before(1), b""));
    }
    if open == 0 && is(here, ")") {
        return Some(Hint::of(b"this `)` closes no `(`"));
    }
    if is(place.before(1), "(") && is(here, ")") && is_asked(place.before(2)) {
        return Some(Hint::of(b"a condition is missing, as in `waituntil (true)`"));
    }
    None
}

/// A `;` that is missing, or a `=`.
fn separator<'a>(place: &Around<'a>) -> Option<Hint<'a>> {
    if !ends_value(place.kind_before()?) {
        return None;
    }
    let before = place.before(1);
    if begins_statement(place.before(2)) && !place.begins_line() {
        return Some(Hint::quoting(b"expected `=` after ", before, b""));
    }
    if place.parens() > 0 {
        return Some(Hint::quoting(b"expected `)` or a sign as `&&` after ", before, b""));
    }
    if place.begins_line() || is(place.here(), "}") || is(place.here(), "{") {
        return Some(Hint::quoting(b"expected `;` after ", before, b""));
    }
    Some(Hint::quoting(b"expected `;` or a sign as `+` after ", before, b""))
}

/// Whether a token may end a value.
pub(crate) fn ends_value(kind: TokenKind) -> bool {
    kind == TokenKind::Ident
        || kind == TokenKind::Number
        || kind == TokenKind::KeyTrue
        || kind == TokenKind::KeyFalse
        || kind == TokenKind::CloseParen
}

/// Where a statement, a field or a method is to begin.
fn begun_part<'a>(place: &Around<'a>) -> Option<Hint<'a>> {
    if !begins_member(place.before(1)) || is(place.here(), "") {
        return None;
    }
    match place.braces() {
        0 => None,
        1 => Some(Hint::of(b"here begins a `const`, a `param`, an `int`, a `bool` or a `method`")),
        _ => Some(Hint::of(b"a statement begins with the name that it assigns, `if` or `return`")),
    }
}

/// At the end of a monitor, or of its file.
fn monitor_end<'a>(place: &Around<'a>) -> Option<Hint<'a>> {
    if place.braces() == 0 && is(place.before(1), "}") {
        return Some(Hint::of(b"nothing may stand behind the last `}` of the monitor"));
    }
    end(place)
}

/// At the end of a file.
pub(crate) fn end<'a>(place: &Around<'a>) -> Option<Hint<'a>> {
    if place.braces() > 0 && is(place.here(), "") {
        return Some(Hint::of(b"the file ends ahead of a `}` that closes what is open"));
    }
    None
}
