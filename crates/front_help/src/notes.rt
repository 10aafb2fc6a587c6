//! The notes of a block in a plan's text.

use crate::lines::from;
use lang_base::is_digit;

/// What is said of notes that are not written as a plan has them.
const FORM: &[u8] = b"expected notes as `1 signal, 2 broadcast tested`, or `none`";

/// Where these notes stop being those of a block, and what is said of the place, where there are so
/// many conditions; nothing where nothing is wrong.
pub(crate) fn notes_slip(notes: &[u8], conditions: usize) -> Option<(usize, &'static [u8])> {
    if notes == b"none".as_slice() {
        return None;
    }
    let mut start = 0;
    let mut last = 0;
    for _note in 0..notes.len() {
        let Some(end) = note_end(notes, start) else {
            return Some((start, FORM));
        };
        let number = number_at(notes, start);
        if let Some(said) = number_fault(number, last, conditions) {
            return Some((start, said));
        }
        if end >= notes.len() {
            return None;
        }
        if !from(notes, end).starts_with(b", ") {
            return Some((end, FORM));
        }
        start = end.saturating_add(2);
        last = number;
    }
    Some((start, FORM))
}

/// What is wrong of the number of a note, behind a note of the last number.
fn number_fault(number: usize, last: usize, conditions: usize) -> Option<&'static [u8]> {
    if number == 0 || number > conditions {
        Some(b"no condition has this number")
    } else if number <= last {
        Some(b"notes stand by rising numbers, each condition at most once")
    } else {
        None
    }
}

/// The number that begins here.
fn number_at(notes: &[u8], start: usize) -> usize {
    let mut value: usize = 0;
    for byte in from(notes, start) {
        if !is_digit(*byte) {
            return value;
        }
        value = value
            .saturating_mul(10)
            .saturating_add((*byte).saturating_sub(b'0') as usize);
    }
    value
}

/// Where the note that begins here ends.
fn note_end(notes: &[u8], start: usize) -> Option<usize> {
    let rest = from(notes, start);
    let digits = rest.iter().take_while(|byte| is_digit(**byte)).count();
    if digits == 0 || (digits > 1 && rest.starts_with(b"0")) {
        return None;
    }
    let kind = start.saturating_add(digits);
    let end = after_one_of(notes, kind, b" signal", b" broadcast")?;
    if from(notes, end).starts_with(b" tested") {
        Some(end.saturating_add(7))
    } else {
        Some(end)
    }
}

/// Where one of two words that stands here ends.
fn after_one_of(notes: &[u8], start: usize, one: &[u8], other: &[u8]) -> Option<usize> {
    if from(notes, start).starts_with(one) {
        Some(start.saturating_add(one.len()))
    } else if from(notes, start).starts_with(other) {
        Some(start.saturating_add(other.len()))
    } else {
        None
    }
}
