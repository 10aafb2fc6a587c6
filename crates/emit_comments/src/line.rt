//! One line of a text.

ghost use Rattle.std.specs.Prelude.{◌≡◌, drop, take};
ghost use Rattle.std.specs.List.{prefix_len};
ghost use Rattle.emit_comments.specs.Comments.{begins_slashed, comment_of, is_comment};
ghost use Rattle.emit_comments.specs.Comments.{is_empty_comment, is_spare, trimmed, unindented};
ghost use Rattle.emit_comments.specs.inner.Cuts.{is_in_line, line_at};

/// The line that begins at this offset.
pub(crate) fn line_at(text: &[u8], at: usize) -> &[u8]
    ensures { result.now ≡ line_at text.now at }
{
    let rest = text.get(at..).unwrap_or(&[]);
    rest.get(..line_length(rest)).unwrap_or(rest)
}

fn line_length(rest: &[u8]) -> usize
    ensures { result ≡ prefix_len is_in_line rest.now }
{
    rest.iter().take_while(|byte| is_in_line(**byte)).count()
}

fn is_in_line(byte: u8) -> bool
    ensures { result ≡ is_in_line byte }
{
    byte != b'\n'
}

/// Whether nothing but a comment stands in a line.
pub(crate) fn is_comment(line: &[u8]) -> bool
    ensures { result ≡ is_comment line.now }
{
    begins_slashed(unindented(line))
}

/// What the comment of such a line says.
pub(crate) fn comment_of(line: &[u8]) -> &[u8]
    ensures { result.now ≡ comment_of line.now }
{
    trimmed(after_slashes(unindented(line)))
}

/// Whether nothing but a comment that says nothing stands in a line.
pub(crate) fn is_empty_comment(line: &[u8]) -> bool
    ensures { result ≡ is_empty_comment line.now }
{
    let comment = is_comment(line);
    let empty = comment_of(line).len() == 0;
    comment && empty
}

/// Whether no token stands in a line.
pub(crate) fn is_spare(line: &[u8]) -> bool
    ensures { result ≡ is_spare line.now }
{
    let empty = unindented(line).len() == 0;
    let comment = is_comment(line);
    empty || comment
}

/// Whether a text begins with `//`.
pub(crate) fn begins_slashed(text: &[u8]) -> bool
    ensures { result ≡ begins_slashed text.now }
{
    match text {
        [a, b, ..] => *a == b'/' && *b == b'/',
        _ => false,
    }
}

fn unindented(text: &[u8]) -> &[u8]
    ensures { result.now ≡ unindented text.now }
{
    text.trim_ascii_start()
}

fn trimmed(text: &[u8]) -> &[u8]
    ensures { result.now ≡ trimmed text.now }
{
    text.trim_ascii()
}

fn after_slashes(text: &[u8]) -> &[u8]
    ensures { result.now ≡ drop 2 text.now }
{
    text.get(2..).unwrap_or(&[])
}
