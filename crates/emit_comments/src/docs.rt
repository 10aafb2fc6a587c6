//! Comments as docs.

ghost use Rattle.std.specs.Prelude.{◌≡◌, ◌==◌, ◌<◌, ◌≤◌, ◌-◌, ◌^◌, drop, nat_le, take};
ghost use Rattle.std.specs.List.{flat_map, list_all};
ghost use Rattle.lang_base.specs.Identifiers.{is_digit};
ghost use Rattle.base_io.specs.Writing.{Wrote};
ghost use Rattle.emit_comments.specs.Comments.{FIRST_MARKS, MARKS, begins_item, begins_link};
ghost use Rattle.emit_comments.specs.Comments.{begins_word, byte_text, comment_docs, doc_line};
ghost use Rattle.emit_comments.specs.Comments.{doc_mark, due_text, empty_line, is_among};
ghost use Rattle.emit_comments.specs.Comments.{is_emphasis, is_escaped, is_inside, is_mark};
ghost use Rattle.emit_comments.specs.Comments.{leading_docs, lines_of, plain_text, shown};

use crate::comments::{comment_count, has_comments};
use crate::line::{begins_slashed, comment_of, line_at};
use base_io::{Sink, SinkFailed, write_piece};
use lang_base::{is_digit, is_word_byte};

/// Writes the comments directly above the line of this number as lines of docs, each after an
/// indent. It takes no memory.
///
/// After `SinkFailed` the first bytes were taken, fewer than all and maybe none.
pub fn write_comments<S: Sink>(
    indent: &[u8],
    text: &[u8],
    place: usize,
    out: &mut S,
) -> Result<(), SinkFailed>
    ensures { Wrote (S.seen out.old) (S.seen out.new) result
        (comment_docs indent.now text.now place) }
{
    write_lines(indent, text, place, comment_count(text, place), out)
}

/// Writes the same, and an empty line of docs after them where there are any. It takes no memory.
///
/// After `SinkFailed` the first bytes were taken, fewer than all and maybe none.
pub fn write_leading<S: Sink>(
    indent: &[u8],
    text: &[u8],
    place: usize,
    out: &mut S,
) -> Result<(), SinkFailed>
    ensures { Wrote (S.seen out.old) (S.seen out.new) result
        (leading_docs indent.now text.now place) }
{
    write_comments(indent, text, place, out)?;
    write_gap(has_comments(text, place), indent, out)
}

fn write_gap<S: Sink>(due: bool, indent: &[u8], out: &mut S) -> Result<(), SinkFailed>
    ensures { Wrote (S.seen out.old) (S.seen out.new) result
        (due_text due (empty_line indent.now)) }
{
    if !due {
        return Ok(());
    }
    write_empty(indent, out)
}

// An empty line of docs.
fn write_empty<S: Sink>(indent: &[u8], out: &mut S) -> Result<(), SinkFailed>
    ensures { Wrote (S.seen out.old) (S.seen out.new) result (empty_line indent.now) }
{
    write_piece(indent, out)?;
    write_piece(b"///\n", out)
}

// So many lines, the last ones before the line of this number.
fn write_lines<S: Sink>(
    indent: &[u8],
    text: &[u8],
    place: usize,
    count: usize,
    out: &mut S,
) -> Result<(), SinkFailed>
    requires { count ≤ place }
    ensures { Wrote (S.seen out.old) (S.seen out.new) result
        (flat_map (doc_line indent.now) (take count (drop (place - count) (lines_of text.now)))) }
{
    let mut at = 0;
    for number in 0..place {
        if at > text.len() {
            return Ok(());
        }
        let line = line_at(text, at);
        write_due(is_due(place - number, count), indent, line, out)?;
        at += line.len() + 1;
    }
    Ok(())
}

// With so many lines to go, this is one of the last.
fn is_due(left: usize, count: usize) -> bool
    ensures { result ≡ nat_le left count }
{
    left <= count
}

fn write_due<S: Sink>(due: bool, indent: &[u8], line: &[u8], out: &mut S) -> Result<(), SinkFailed>
    ensures { Wrote (S.seen out.old) (S.seen out.new) result
        (due_text due (doc_line indent.now line.now)) }
{
    if !due {
        return Ok(());
    }
    write_line(indent, line, out)
}

fn write_line<S: Sink>(indent: &[u8], line: &[u8], out: &mut S) -> Result<(), SinkFailed>
    ensures { Wrote (S.seen out.old) (S.seen out.new) result (doc_line indent.now line.now) }
{
    let text = comment_of(line);
    write_piece(indent, out)?;
    write_piece(doc_mark(text), out)?;
    write_plain(text, out)?;
    write_piece(b"\n", out)
}

fn doc_mark(text: &[u8]) -> &'static [u8]
    ensures { result.now ≡ doc_mark text.now }
{
    match text {
        [_, ..] => b"/// ",
        _ => b"///",
    }
}

fn write_plain<S: Sink>(text: &[u8], out: &mut S) -> Result<(), SinkFailed>
    ensures { Wrote (S.seen out.old) (S.seen out.new) result (plain_text text.now) }
{
    for (at, byte) in text.iter().enumerate() {
        write_byte(text, at, *byte, out)?;
    }
    Ok(())
}

fn write_byte<S: Sink>(text: &[u8], at: usize, byte: u8, out: &mut S) -> Result<(), SinkFailed>
    requires { at < 2 ^ 63 }
    ensures { Wrote (S.seen out.old) (S.seen out.new) result (byte_text text.now at byte) }
{
    let shown = shown(byte);
    if is_escaped(text, at, byte) {
        return write_piece(&[b'\\', shown], out);
    }
    write_piece(&[shown], out)
}

// ---- the bytes of a text

fn shown(byte: u8) -> u8
    ensures { result ≡ shown byte }
{
    if 32 <= byte && byte <= 126 {
        byte
    } else {
        b'?'
    }
}

fn is_escaped(text: &[u8], at: usize, byte: u8) -> bool
    requires { at < 2 ^ 63 }
    ensures { result ≡ is_escaped text.now at byte }
{
    let mark = is_mark(at, byte);
    let emphasis = is_emphasis(text, at, byte);
    let item = begins_item(text, at, byte);
    let link = begins_link(text, at, byte);
    (mark || emphasis) || (item || link)
}

fn is_mark(at: usize, byte: u8) -> bool
    ensures { result ≡ is_mark at byte }
{
    let anywhere = is_among(marks(), byte);
    let first = is_among(first_marks(), byte);
    anywhere || (at == 0 && first)
}

fn is_among(marks: &[u8], byte: u8) -> bool
    ensures { result ≡ is_among marks.now byte }
{
    marks.iter().any(|mark| *mark == byte)
}

fn marks() -> &'static [u8]
    ensures { result.now ≡ MARKS }
{
    b"\\`*[]<>~|&"
}

fn first_marks() -> &'static [u8]
    ensures { result.now ≡ FIRST_MARKS }
{
    b"#=+-"
}

fn is_emphasis(text: &[u8], at: usize, byte: u8) -> bool
    requires { at < 2 ^ 63 }
    ensures { result ≡ is_emphasis text.now at byte }
{
    let inside = is_inside(text, at);
    byte == b'_' && !inside
}

// Of the first byte itself is asked, in place of one before it, but a `_` is no letter.
fn is_inside(text: &[u8], at: usize) -> bool
    requires { at < 2 ^ 63 }
    ensures { result ≡ is_inside text.now at }
{
    let before = begins_word(text.get(at.saturating_sub(1)..).unwrap_or(&[]));
    let after = begins_word(text.get(at + 1..).unwrap_or(&[]));
    before && after
}

fn begins_word(text: &[u8]) -> bool
    ensures { result ≡ begins_word text.now }
{
    match text {
        [byte, ..] => is_word_byte(*byte) && *byte != b'_',
        _ => false,
    }
}

fn begins_item(text: &[u8], at: usize, byte: u8) -> bool
    ensures { result ≡ begins_item text.now at byte }
{
    let point = byte == b'.' || byte == b')';
    let number = at <= 9 && are_digits(text.get(..at).unwrap_or(text));
    point && number
}

fn are_digits(text: &[u8]) -> bool
    ensures { result ≡ list_all is_digit text.now }
{
    text.iter().all(|byte| is_digit(*byte))
}

fn begins_link(text: &[u8], at: usize, byte: u8) -> bool
    requires { at < 2 ^ 63 }
    ensures { result ≡ begins_link text.now at byte }
{
    let slashes = begins_slashed(text.get(at + 1..).unwrap_or(&[]));
    byte == b':' && slashes
}
