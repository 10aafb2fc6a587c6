//! Lines and columns of offsets.

ghost use Rattle.std.specs.Prelude.{◌≡◌, take};
ghost use Rattle.report_text.specs.FaultText.{column_at, line_at};

use lang_base::is_in_line;

/// The line of an offset, from 1.
pub(crate) fn line_at(bytes: &[u8], at: u32) -> usize
    ensures { result ≡ line_at bytes.now at }
{
    let line_feeds = before(bytes, at)
        .iter()
        .filter(|byte| **byte == b'\n')
        .count();
    1 + line_feeds
}

/// The column of an offset, from 1, in bytes.
pub(crate) fn column_at(bytes: &[u8], at: u32) -> usize
    ensures { result ≡ column_at bytes.now at }
{
    let in_line = before(bytes, at)
        .iter()
        .rev()
        .take_while(|byte| is_in_line(**byte))
        .count();
    1 + in_line
}

// The bytes before an offset, or all where it is past the end.
fn before(bytes: &[u8], at: u32) -> &[u8]
    ensures { result.now ≡ take at bytes.now }
{
    bytes.get(..at as usize).unwrap_or(bytes)
}
