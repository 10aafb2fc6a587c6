//! Hints of signs and words that other languages have.

use crate::around::Around;
use front_hint::{Hint, is, said_at_front, said_of};

/// What is said of signs that other languages have.
const WRONG_SIGNS: [(&[u8], &[u8]); 11] = [
    (b"+=", b"there is no `+=`: write `count = count + 1;`"),
    (b"-=", b"there is no `-=`: write `count = count - 1;`"),
    (b"*=", b"there is no `*=`: write `count = count * 2;`"),
    (b"++", b"there is no `++`: write `count = count + 1;`"),
    (b"-- ", b"a comment begins with `//`, not with `--`"),
    (b"--", b"there is no `--`: write `count = count - 1;`"),
    (b"=>", b"at least is written `>=`"),
    (b"=<", b"at most is written `<=`"),
    (b"=!", b"differs is written `!=`"),
    (
        b"->",
        b"nobody declares what a method answers: `return` says it",
    ),
    (
        b"*/",
        b"a comment begins with `//` and ends with its line: there is no `/* */`",
    ),
];

/// What is said of words that other languages have.
const WRONG_WORDS: [(&[u8], &[u8]); 68] = [
    (
        b"while",
        b"there is no `while`: a call waits by `waituntil`, and a client repeats",
    ),
    (
        b"for",
        b"there is no `for`: a client repeats by `repeat 3 { .. }`",
    ),
    (
        b"loop",
        b"there is no `loop`: a client repeats by `repeat 3 { .. }`",
    ),
    (
        b"do",
        b"there is no `do`: a client repeats by `repeat 3 { .. }`",
    ),
    (
        b"switch",
        b"there is no `switch`: write `if (..) { .. } else { .. }`",
    ),
    (
        b"match",
        b"there is no `match`: write `if (..) { .. } else { .. }`",
    ),
    (b"i8", b"a number's type is `int`"),
    (b"i16", b"a number's type is `int`"),
    (b"i32", b"a number's type is `int`"),
    (b"i64", b"a number's type is `int`"),
    (b"u8", b"a number's type is `int`"),
    (b"u16", b"a number's type is `int`"),
    (b"u32", b"a number's type is `int`"),
    (b"u64", b"a number's type is `int`"),
    (b"isize", b"a number's type is `int`"),
    (b"usize", b"a number's type is `int`"),
    (b"long", b"a number's type is `int`"),
    (b"short", b"a number's type is `int`"),
    (b"unsigned", b"a number's type is `int`"),
    (b"integer", b"a number's type is `int`"),
    (b"Integer", b"a number's type is `int`"),
    (b"float", b"a number's type is `int`: numbers are whole"),
    (b"double", b"a number's type is `int`: numbers are whole"),
    (b"boolean", b"a truth value's type is `bool`"),
    (b"Boolean", b"a truth value's type is `bool`"),
    (
        b"let",
        b"a field is written `int count = 0;`, a local `local int count = 0;`",
    ),
    (
        b"var",
        b"a field is written `int count = 0;`, a local `local int count = 0;`",
    ),
    (
        b"mut",
        b"a field is written `int count = 0;`: all fields may be assigned",
    ),
    (
        b"fn",
        b"a method is written `method put() waituntil (true) { .. }`",
    ),
    (
        b"void",
        b"a method is written `method put() waituntil (true) { .. }`",
    ),
    (
        b"def",
        b"a method is written `method put() waituntil (true) { .. }`",
    ),
    (
        b"function",
        b"a method is written `method put() waituntil (true) { .. }`",
    ),
    (b"and", b"and is written `&&`"),
    (b"AND", b"and is written `&&`"),
    (b"or", b"or is written `||`"),
    (b"OR", b"or is written `||`"),
    (b"not", b"not is written `!`"),
    (b"NOT", b"not is written `!`"),
    (
        b"string",
        b"there are no texts: a value is a number, `true` or `false`",
    ),
    (
        b"String",
        b"there are no texts: a value is a number, `true` or `false`",
    ),
    (
        b"char",
        b"there are no texts: a value is a number, `true` or `false`",
    ),
    (b"is", b"equals is written `==`"),
    (b"then", b"a body stands in braces: `if (..) { .. }`"),
    (
        b"signal",
        b"nobody writes signals: Expresso finds whom a body has to wake",
    ),
    (
        b"broadcast",
        b"nobody writes signals: Expresso finds whom a body has to wake",
    ),
    (
        b"notify",
        b"nobody writes signals: Expresso finds whom a body has to wake",
    ),
    (
        b"notifyAll",
        b"nobody writes signals: Expresso finds whom a body has to wake",
    ),
    (
        b"notify_one",
        b"nobody writes signals: Expresso finds whom a body has to wake",
    ),
    (
        b"notify_all",
        b"nobody writes signals: Expresso finds whom a body has to wake",
    ),
    (
        b"private",
        b"nothing stands ahead of a field's type or of `method`",
    ),
    (
        b"public",
        b"nothing stands ahead of a field's type or of `method`",
    ),
    (
        b"protected",
        b"nothing stands ahead of a field's type or of `method`",
    ),
    (
        b"static",
        b"nothing stands ahead of a field's type or of `method`",
    ),
    (
        b"final",
        b"nothing stands ahead of a field's type or of `method`",
    ),
    (
        b"pub",
        b"nothing stands ahead of a field's type or of `method`",
    ),
    (
        b"synchronized",
        b"nothing stands ahead of a field's type or of `method`",
    ),
    (
        b"elif",
        b"there is no `elif`: write `else { if (..) { .. } }`",
    ),
    (
        b"elseif",
        b"there is no `elseif`: write `else { if (..) { .. } }`",
    ),
    (
        b"elsif",
        b"there is no `elsif`: write `else { if (..) { .. } }`",
    ),
    (b"pass", b"a body that does nothing is empty: `{ }`"),
    (
        b"throw",
        b"there are no exceptions: a call waits until its guard holds",
    ),
    (
        b"raise",
        b"there are no exceptions: a call waits until its guard holds",
    ),
    (
        b"waitUntil",
        b"a guard is written `waituntil (..)`, in small letters",
    ),
    (
        b"WaitUntil",
        b"a guard is written `waituntil (..)`, in small letters",
    ),
    (
        b"wait_until",
        b"a guard is written `waituntil (..)`, in small letters",
    ),
    (
        b"when",
        b"a guard is written `waituntil (..)`, in small letters",
    ),
    (
        b"wait",
        b"a call waits by its guard: `waituntil (..) { .. }`",
    ),
    (
        b"await",
        b"a call waits by its guard: `waituntil (..) { .. }`",
    ),
];

/// What is said of two tokens that never stand beside each other.
const PAIRS: [(&[u8], &[u8], &[u8]); 16] = [
    (b"<", b">", b"differs is written `!=`"),
    (b"<", b"<", b"there is no `<<`: sums have `+`, `-` and `*`"),
    (b">", b">", b"there is no `>>`: sums have `+`, `-` and `*`"),
    (b"*", b"*", b"there is no `**`: sums have `+`, `-` and `*`"),
    (b"==", b"=", b"there is no `===`: `==` compares"),
    (b"!=", b"=", b"there is no `!==`: `!=` compares"),
    (b"=", b"+", b"no `+` stands ahead of a number"),
    (b"}", b";", b"no `;` stands behind `}`"),
    (
        b"else",
        b"if",
        b"there is no `else if`: write `else { if (..) { .. } }`",
    ),
    (b"=", b"if", b"an `if` is no value: assign in its braces"),
    (
        b"return",
        b"if",
        b"an `if` is no value: keep the answer in a local",
    ),
    (
        b"return",
        b";",
        b"a `return` has a value, as `return 0;`: without one leave it out",
    ),
    (
        b"const",
        b"int",
        b"a constant has no type: `const CAP = 1;`",
    ),
    (
        b"const",
        b"bool",
        b"a constant has no type: `const CAP = 1;`",
    ),
    (
        b"method",
        b"int",
        b"nobody declares what a method answers: `return` says it",
    ),
    (
        b"method",
        b"bool",
        b"nobody declares what a method answers: `return` says it",
    ),
];

/// Signs and words of other languages, and tokens that never stand beside each other.
pub(crate) fn foreign<'a>(place: &Around<'a>) -> Option<Hint<'a>> {
    if let Some(said) = said_at_front(&WRONG_SIGNS, place.rest()) {
        return Some(Hint::of(said));
    }
    if let Some(said) = said_of_pair(place.before(1), place.here()) {
        return Some(Hint::of(said));
    }
    foreign_word(place)
}

/// A word of another language at the place, or before it.
fn foreign_word<'a>(place: &Around<'a>) -> Option<Hint<'a>> {
    if let Some(said) = said_of(&WRONG_WORDS, place.here()) {
        return Some(Hint::of(said));
    }
    if let Some(said) = said_of(&WRONG_WORDS, place.before(1)) {
        return Some(Hint::of(said));
    }
    if !is(place.before(1), "(") {
        return None;
    }
    let said = said_of(&WRONG_WORDS, place.before(2))?;
    Some(Hint::of(said))
}

/// The text of the row that these two tokens are in.
fn said_of_pair(before: &[u8], here: &[u8]) -> Option<&'static [u8]> {
    let (_, _, said) = PAIRS
        .iter()
        .find(|(first, second, _)| *first == before && *second == here)?;
    Some(*said)
}
