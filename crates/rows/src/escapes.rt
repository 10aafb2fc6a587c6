//! Bytes that a line of a table writes with escapes.
//!
//! `\n` is a line feed, `\r` a carriage return, `\t` a tab, `\s` a blank, `\e` nothing, and `\xHH`
//! the byte of these two hexadecimal digits, as `\x5c` for a backslash. `\#` is the number of the
//! copy that `repeat` makes, from 00 on in two digits, and `\(NAME)` the text of this name.

ghost use Rattle.std.specs.Prelude.{◌<◌, IfOk};

use crate::calls::File;
use anyhow::{Error, Result, anyhow};
use std::alloc::Global;

/// Where a line stands, and which texts it may name.
#[derive(Clone, Copy)]
pub(crate) struct Scope<'a> {
    pub(crate) alloc: Global,
    pub(crate) texts: &'a [File],
    pub(crate) line: u64,
}

/// What is wrong with a line, by its number.
pub(crate) fn fault(line: u64, what: &str) -> Error {
    anyhow!("{line}: {what}")
}

/// The same of a name that stands in the line.
pub(crate) fn fault_of(line: u64, what: &str, name: &str) -> Error {
    anyhow!("{line}: {what} {name}")
}

/// Appends the text of this name.
pub(crate) fn append_text(scope: Scope<'_>, out: &mut Vec<u8>, name: &[u8]) -> Result<()> {
    for text in scope.texts {
        if text.name.as_bytes() == name {
            out.extend_from_slice(text.bytes.as_slice())?;
            return Ok(());
        }
    }
    let name = String::from_utf8_lossy(scope.alloc, name)?;
    Err(fault_of(scope.line, "no text", name.as_str()))
}

/// Appends what a line writes with escapes, in the copy of this number.
pub(crate) fn append_escaped(
    scope: Scope<'_>,
    out: &mut Vec<u8>,
    text: &[u8],
    copy: u64,
) -> Result<()> {
    let mut first = true;
    for piece in text.split(|byte| *byte == b'\\') {
        if first {
            out.extend_from_slice(piece)?;
            first = false;
        } else {
            append_escape(scope, out, piece, copy)?;
        }
    }
    Ok(())
}

/// Appends what stands behind a backslash.
fn append_escape(scope: Scope<'_>, out: &mut Vec<u8>, piece: &[u8], copy: u64) -> Result<()> {
    match piece {
        [b'x', high, low, rest @ ..] => {
            out.push(digit(scope, *high)? * 16 + digit(scope, *low)?)?;
            out.extend_from_slice(rest)?;
        }
        [b'#', rest @ ..] => {
            out.push(b'0' + (copy / 10 % 10) as u8)?;
            out.push(b'0' + (copy % 10) as u8)?;
            out.extend_from_slice(rest)?;
        }
        [b'(', rest @ ..] => append_named(scope, out, rest)?,
        [letter, rest @ ..] => {
            out.extend_from_slice(meant(scope, *letter)?)?;
            out.extend_from_slice(rest)?;
        }
        [] => return Err(fault(scope.line, "nothing behind a backslash")),
    }
    Ok(())
}

/// Appends the text whose name ends at `)`, and what stands behind it.
fn append_named(scope: Scope<'_>, out: &mut Vec<u8>, piece: &[u8]) -> Result<()> {
    let Some(end) = piece.iter().position(|byte| *byte == b')') else {
        return Err(fault(scope.line, "no ) behind a name"));
    };
    let (name, rest) = piece.split_at(end);
    append_text(scope, out, name)?;
    out.extend_from_slice(rest.strip_prefix(b")").unwrap_or(rest))?;
    Ok(())
}

/// What an escape of one letter stands for.
fn meant(scope: Scope<'_>, letter: u8) -> Result<&'static [u8]> {
    match letter {
        b'n' => Ok(b"\n"),
        b'r' => Ok(b"\r"),
        b't' => Ok(b"\t"),
        b's' => Ok(b" "),
        b'e' => Ok(b""),
        _ => Err(fault(scope.line, "no such escape")),
    }
}

/// The value of a hexadecimal digit.
fn digit(scope: Scope<'_>, digit: u8) -> Result<u8>
    ensures { IfOk result (λ value. value < 16) }
{
    match digit {
        b'0'..=b'9' => Ok(digit - b'0'),
        b'a'..=b'f' => Ok(digit - b'a' + 10),
        _ => Err(fault(scope.line, "no hexadecimal digit")),
    }
}
