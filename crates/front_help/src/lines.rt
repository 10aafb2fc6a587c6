//! Lines of a text, by the places where they begin.

use lang_base::is_in_line;

/// The bytes from a place on.
pub(crate) fn from(bytes: &[u8], start: usize) -> &[u8] {
    bytes.get(start..).unwrap_or(b"")
}

/// The line that begins at a place, without its end.
pub(crate) fn line_from(bytes: &[u8], start: usize) -> &[u8] {
    let rest = from(bytes, start);
    let length = rest.iter().take_while(|byte| is_in_line(**byte)).count();
    rest.get(..length).unwrap_or(rest)
}

/// Where the line after the one that begins at a place begins.
pub(crate) fn next_line(bytes: &[u8], start: usize) -> usize {
    let end = start.saturating_add(line_from(bytes, start).len());
    end.saturating_add(1)
}

/// Whether the line that begins at a place has an end.
pub(crate) fn is_ended(bytes: &[u8], start: usize) -> bool {
    next_line(bytes, start) <= bytes.len()
}

/// How many of the first bytes are the same.
pub(crate) fn same_front(left: &[u8], right: &[u8]) -> usize {
    left.iter()
        .zip(right)
        .take_while(|(one, other)| one == other)
        .count()
}

/// How many bytes stand ahead of these, or all where they don't stand there.
pub(crate) fn same_until(bytes: &[u8], sign: &[u8]) -> usize {
    for start in 0..bytes.len() {
        if from(bytes, start).starts_with(sign) {
            return start;
        }
    }
    bytes.len()
}
