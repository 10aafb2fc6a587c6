//! Tables of what is said of words and signs.

/// The text of the row that this word is in.
pub fn said_of(rows: &[(&'static [u8], &'static [u8])], word: &[u8]) -> Option<&'static [u8]> {
    let (_, said) = rows.iter().find(|(row, _)| *row == word)?;
    Some(*said)
}

/// The text of the first row whose sign stands at the front of the bytes.
pub fn said_at_front(
    rows: &[(&'static [u8], &'static [u8])],
    bytes: &[u8],
) -> Option<&'static [u8]> {
    let (_, said) = rows.iter().find(|(sign, _)| bytes.starts_with(sign))?;
    Some(*said)
}
