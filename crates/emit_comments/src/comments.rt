//! The comments above a line.

ghost use Rattle.std.specs.Prelude.{◌≡◌, ◌+◌, ◌-◌, ◌<◌, ◌≤◌, ◌^◌, if◌then◌else◌, take};
ghost use Rattle.emit_comments.specs.Comments.{comment_count, first_line, has_comments, line_of};
ghost use Rattle.emit_comments.specs.Comments.{said_count};

use crate::line::{is_comment, is_empty_comment, is_spare};

/// The line of an offset, by its number from 0.
pub fn line_of(text: &[u8], at: u32) -> usize
    ensures { result ≡ line_of text.now at }
{
    before(text, at)
        .iter()
        .filter(|byte| **byte == b'\n')
        .count()
}

// The bytes before an offset, or all where it is past the end.
fn before(text: &[u8], at: u32) -> &[u8]
    ensures { result.now ≡ take at text.now }
{
    text.get(..at as usize).unwrap_or(text)
}

/// The first line in which a token stands, or the number of lines where there is none.
pub fn first_line(text: &[u8]) -> usize
    ensures { result ≡ first_line text.now }
{
    text.split(|byte| *byte == b'\n')
        .take_while(|line| is_spare(line))
        .count()
}

/// Whether there are comments directly above the line of this number, of which one says something.
pub fn has_comments(text: &[u8], place: usize) -> bool
    ensures { result ≡ has_comments text.now place }
{
    comment_count(text, place) != 0
}

/// How many lines directly above the line of this number are comments; 0 where none of them says
/// anything.
pub(crate) fn comment_count(text: &[u8], place: usize) -> usize
    ensures is { result ≡ comment_count text.now place }
    ensures few { result ≤ place }
{
    let mut left = place;
    let mut run = 0;
    let mut empty = 0;
    for line in text.split(|byte| *byte == b'\n') {
        if left == 0 {
            return said_count(run, empty);
        }
        left -= 1;
        run = longer_run(is_comment(line), run);
        empty = longer_run(is_empty_comment(line), empty);
    }
    said_count(run, empty)
}

// Another line ends the run.
fn longer_run(here: bool, run: usize) -> usize
    requires { run < 2 ^ 64 - 1 }
    ensures { result ≡ if here then 1 + run else 0 }
{
    if here { run + 1 } else { 0 }
}

// Of so many comments, of which so many say nothing.
fn said_count(run: usize, empty: usize) -> usize
    ensures is { result ≡ said_count run empty }
    ensures few { result ≤ run }
{
    if empty == run { 0 } else { run }
}
