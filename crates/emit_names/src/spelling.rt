//! A name as it is written, byte by byte.

ghost use Rattle.std.specs.Prelude.{◌≡◌, ◌++◌, drop, if◌then◌else◌, slice_get};
ghost use Rattle.std.specs.Str.{bytes_eq};
ghost use Rattle.emit_names.specs.Letters.{begins_word, cased, spelled};
ghost use Rattle.emit_names.specs.inner.Spellings.{after_byte, name_text, spelling_text};

use crate::style::{Style, begins_word, cased};

/// What is still to be written of a name: a word before it, its bytes after one of them, and its
/// ending.
#[derive(Clone, Copy)]
pub(crate) struct Spelling<'a> {
    word: &'a [u8],
    style: Style,
    before: u8,
    name: &'a [u8],
    ending: &'static [u8],
}

/// A name from its first byte on, after a word, and an ending.
pub(crate) fn spelling_of<'a>(
    word: &'a [u8],
    style: Style,
    name: &'a [u8],
    ending: &'static [u8],
) -> Spelling<'a>
    ensures { spelling_text result ≡ word.now ++ (spelled style 0 name.now ++ ending.now) }
{
    Spelling {
        word,
        style,
        before: 0,
        name,
        ending,
    }
}

/// Whether two are written alike.
#[cycle(is_same)]
pub(crate) fn is_same(it: Spelling, other: Spelling) -> bool
    ensures { result ≡ bytes_eq (spelling_text it.entry) (spelling_text other.entry) }
{
    match first_byte(it) {
        None => first_byte(other).is_none(),
        Some(first) => {
            let Some(other_first) = first_byte(other) else {
                return false;
            };
            first == other_first && is_same(after_first(it), after_first(other))
        }
    }
}

fn first_byte(it: Spelling) -> Option<u8>
    ensures { result ≡ slice_get (spelling_text it.entry) 0 }
{
    match it.word {
        [b, ..] => Some(*b),
        _ => first_of_name(it.style, it.before, it.name, it.ending),
    }
}

fn first_of_name(style: Style, before: u8, name: &[u8], ending: &[u8]) -> Option<u8>
    ensures { result ≡ slice_get (spelled style before name.now ++ ending.now) 0 }
{
    match name {
        [b, ..] => Some(first_of(style, before, *b)),
        _ => first_of_ending(ending),
    }
}

fn first_of_ending(ending: &[u8]) -> Option<u8>
    ensures { result ≡ slice_get ending.now 0 }
{
    match ending {
        [b, ..] => Some(*b),
        _ => None,
    }
}

fn first_of(style: Style, before: u8, b: u8) -> u8
    ensures { result ≡ if begins_word style before b then 95 else cased style b }
{
    if begins_word(style, before, b) {
        b'_'
    } else {
        cased(style, b)
    }
}

fn after_first(it: Spelling) -> Spelling
    ensures { spelling_text result ≡ drop 1 (spelling_text it.entry) }
{
    match it.word {
        [_, word @ ..] => Spelling { word, ..it },
        _ => after_first_of_name(it),
    }
}

fn after_first_of_name(it: Spelling) -> Spelling
    ensures { spelling_text result ≡ it.entry.word.now ++ drop 1 (name_text it.entry) }
{
    match it.name {
        [b, more @ ..] => after_byte(it, *b, more),
        _ => after_first_of_ending(it),
    }
}

fn after_first_of_ending(it: Spelling) -> Spelling
    ensures { spelling_text result ≡ it.entry.word.now
        ++ (spelled it.entry.style it.entry.before it.entry.name.now
        ++ drop 1 it.entry.ending.now) }
{
    match it.ending {
        [_, ending @ ..] => Spelling { ending, ..it },
        _ => it,
    }
}

// After a `_` that begins a word its letter is still to come.
fn after_byte<'a>(it: Spelling<'a>, b: u8, more: &'a [u8]) -> Spelling<'a>
    ensures { spelling_text result ≡ it.entry.word.now
        ++ (after_byte it.entry b more.now ++ it.entry.ending.now) }
{
    if begins_word(it.style, it.before, b) {
        Spelling { before: 0, ..it }
    } else {
        Spelling {
            before: b,
            name: more,
            ..it
        }
    }
}
