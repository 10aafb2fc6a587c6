//! How rows are written.
//!
//! A table is made of lines. Blanks ahead of a line, empty lines, and lines that begin with `#` say
//! nothing.
//!
//! ```text
//! text NAME           a text, which rows below name
//! row NAME            a row: no file is there yet
//!   file NAME         a file of the row, from now on
//!   $ WORDS           the words of a command line, the program's name first
//!   status STATUS     calls the program with the words above, and wants this status and this text
//! ```
//!
//! Words are split at blanks, and may have escapes. Behind `> NAME` what the program prints becomes
//! a file of this name. Behind `text NAME`, `file NAME` and `status STATUS` there may stand ` =
//! NAME`, and lines may follow, which go on with the text:
//!
//! ```text
//!     | LINE          a line as it stands here, and a line feed
//!     = NAME          the text of this name
//!     front N NAME    so many of its first bytes
//!     bytes BYTES     bytes with escapes, and no line feed
//!     repeat N BYTES  so many copies of them
//!     fill N BYTE     this byte until there are so many bytes
//!     .. N            of a status: so many lines; or any lines, where the number is left out
//! ```

use crate::calls::{Call, File, Wanted};
use crate::escapes::{Scope, append_escaped, append_text, fault, fault_of};
use crate::rows::{Row, Step};
use anyhow::Result;
use expresso::Status;
use std::alloc::{AllocError, Global};

/// The words of a command line, and the file that has what is printed.
#[derive(Drop)]
struct Asked {
    words: Vec<String>,
    into: Option<String>,
}

/// Texts and rows.
#[derive(Drop)]
pub(crate) struct Table {
    texts: Vec<File>,
    rows: Vec<Row>,
    asked: Option<Asked>,
}

impl Table {
    /// A table of nothing.
    pub(crate) fn new(alloc: Global) -> Table {
        Table {
            texts: Vec::new(alloc),
            rows: Vec::new(alloc),
            asked: None,
        }
    }

    /// All rows, in order.
    pub(crate) fn rows(&self) -> &[Row] {
        self.rows.as_slice()
    }
}

/// A line of a table, with the lines behind it that go on with its text.
#[derive(Drop)]
struct Item {
    line: u64,
    head: String,
    parts: Vec<Part>,
}

/// A line that goes on with a text.
#[derive(Drop)]
struct Part {
    line: u64,
    text: String,
}

/// The first word of a line, and what stands behind it.
fn key_of(line: &str) -> (&str, &str) {
    line.split_once(' ').unwrap_or((line, ""))
}

fn is_part(line: &str) -> bool {
    let (key, _) = key_of(line);
    matches!(
        key,
        "|" | "=" | "front" | "bytes" | "repeat" | "fill" | ".."
    )
}

fn says_something(line: &str) -> bool {
    !line.is_empty() && !line.starts_with('#')
}

fn items_of(alloc: Global, text: &str) -> Result<Vec<Item>> {
    let mut items = Vec::new(alloc);
    let mut line: u64 = 0;
    for raw in text.lines() {
        line = line.saturating_add(1);
        let trimmed = raw.trim_start();
        if says_something(trimmed) {
            let text = String::from_str(alloc, trimmed)?;
            add_line(alloc, &mut items, line, text)?;
        }
    }
    Ok(items)
}

/// Adds a line to the last item, or begins another.
fn add_line(alloc: Global, items: &mut Vec<Item>, line: u64, text: String) -> Result<()> {
    if !is_part(text.as_str()) {
        let parts = Vec::new(alloc);
        items.push(Item {
            line,
            head: text,
            parts,
        })?;
        return Ok(());
    }
    match items.last_mut() {
        Some(item) => item.parts.push(Part { line, text })?,
        None => return Err(fault(line, "a text of nothing")),
    }
    Ok(())
}

/// Adds the texts and rows of a file of this name. An error begins with the number of the line
/// where it is met.
pub(crate) fn read_table(alloc: Global, file: &str, text: &str, table: &mut Table) -> Result<()> {
    let items = items_of(alloc, text)?;
    let mut last: u64 = 0;
    for item in &items {
        add_item(alloc, file, item, table)?;
        last = item.line;
    }
    end_row(table, last)
}

fn add_item(alloc: Global, file: &str, item: &Item, table: &mut Table) -> Result<()> {
    let (key, rest) = key_of(item.head.as_str());
    match key {
        "text" => add_text(alloc, item, rest, table),
        "row" => add_row(alloc, file, item.line, rest, table),
        "file" => add_file(alloc, item, rest, table),
        "$" => add_words(alloc, item.line, rest, table),
        "status" => add_call(alloc, item, rest, table),
        _ => Err(fault_of(item.line, "no line begins with", key)),
    }
}

/// The name at the beginning of a line, and the name of the text that is begun with.
fn named_of(rest: &str) -> (&str, Option<&str>) {
    match rest.split_once(" = ") {
        Some((name, text)) => (name, Some(text)),
        None => (rest, None),
    }
}

fn add_text(alloc: Global, item: &Item, rest: &str, table: &mut Table) -> Result<()> {
    let text = file_of(alloc, item, rest, table.texts.as_slice())?;
    if table
        .texts
        .iter()
        .any(|other| other.name.as_str() == text.name.as_str())
    {
        return Err(fault_of(item.line, "one more text", text.name.as_str()));
    }
    table.texts.push(text)?;
    Ok(())
}

fn add_row(alloc: Global, file: &str, line: u64, name: &str, table: &mut Table) -> Result<()> {
    end_row(table, line)?;
    if table.rows.iter().any(|other| other.name.as_str() == name) {
        return Err(fault_of(line, "one more row", name));
    }
    table.asked = None;
    table.rows.push(Row {
        table: String::from_str(alloc, file)?,
        name: String::from_str(alloc, name)?,
        steps: Vec::new(alloc),
    })?;
    Ok(())
}

/// A row ends with a call.
fn end_row(table: &Table, line: u64) -> Result<()> {
    match table.rows.last() {
        Some(row) if !matches!(row.steps.last(), Some(Step::Call(_))) => {
            Err(fault_of(
                line,
                "nothing is wanted at the end of row",
                row.name.as_str(),
            ))
        }
        _ => Ok(()),
    }
}

fn add_step(table: &mut Table, line: u64, step: Step) -> Result<()> {
    match table.rows.last_mut() {
        Some(row) => row.steps.push(step)?,
        None => return Err(fault(line, "no row")),
    }
    Ok(())
}

fn add_file(alloc: Global, item: &Item, rest: &str, table: &mut Table) -> Result<()> {
    let file = file_of(alloc, item, rest, table.texts.as_slice())?;
    add_step(table, item.line, Step::File(file))
}

/// The text or file that an item writes.
fn file_of(alloc: Global, item: &Item, rest: &str, texts: &[File]) -> Result<File> {
    let (name, begun) = named_of(rest);
    let mut bytes = begun_with(scope(alloc, texts, item.line), begun)?;
    for part in &item.parts {
        append_part(
            scope(alloc, texts, part.line),
            &mut bytes,
            part.text.as_str(),
        )?;
    }
    Ok(File {
        name: String::from_str(alloc, name)?,
        bytes,
    })
}

fn scope(alloc: Global, texts: &[File], line: u64) -> Scope<'_> {
    Scope { alloc, texts, line }
}

/// The text of this name, if there is a name.
fn begun_with(scope: Scope<'_>, name: Option<&str>) -> Result<Vec<u8>> {
    let mut bytes = Vec::new(scope.alloc);
    if let Some(name) = name {
        append_text(scope, &mut bytes, name.as_bytes())?;
    }
    Ok(bytes)
}

/// Appends what a line says that goes on with a text.
fn append_part(scope: Scope<'_>, out: &mut Vec<u8>, part: &str) -> Result<()> {
    let (key, rest) = key_of(part);
    match key {
        "|" => {
            out.extend_from_slice(rest.as_bytes())?;
            out.push(b'\n')?;
        }
        "=" => append_text(scope, out, rest.as_bytes())?,
        "front" => append_front(scope, out, rest)?,
        "bytes" => append_escaped(scope, out, rest.as_bytes(), 0)?,
        "repeat" => append_copies(scope, out, rest)?,
        "fill" => fill(scope, out, rest)?,
        _ => return Err(fault(scope.line, "lines are left out of a status, and once")),
    }
    Ok(())
}

fn number_of(scope: Scope<'_>, digits: &str) -> Result<u64> {
    match digits.parse::<u64>() {
        Ok(number) => Ok(number),
        Err(_) => Err(fault_of(scope.line, "no number:", digits)),
    }
}

/// Appends so many of the first bytes of a text.
fn append_front(scope: Scope<'_>, out: &mut Vec<u8>, rest: &str) -> Result<()> {
    let (digits, name) = key_of(rest);
    let length = number_of(scope, digits)? as usize;
    let mut whole = Vec::new(scope.alloc);
    append_text(scope, &mut whole, name.as_bytes())?;
    match whole.get(..length) {
        Some(front) => out.extend_from_slice(front)?,
        None => return Err(fault(scope.line, "a front is no longer than its text")),
    }
    Ok(())
}

fn append_copies(scope: Scope<'_>, out: &mut Vec<u8>, rest: &str) -> Result<()> {
    let (digits, text) = key_of(rest);
    for copy in 0..number_of(scope, digits)? {
        append_escaped(scope, out, text.as_bytes(), copy)?;
    }
    Ok(())
}

fn fill(scope: Scope<'_>, out: &mut Vec<u8>, rest: &str) -> Result<()> {
    let (digits, text) = key_of(rest);
    let length = number_of(scope, digits)? as usize;
    let mut filling = Vec::new(scope.alloc);
    append_escaped(scope, &mut filling, text.as_bytes(), 0)?;
    match filling.as_slice() {
        [byte] if out.len() <= length => out.resize(length, *byte)?,
        _ => return Err(fault(scope.line, "one byte fills a shorter text")),
    }
    Ok(())
}

/// The words of a command line, from now on.
fn add_words(alloc: Global, line: u64, rest: &str, table: &mut Table) -> Result<()> {
    let mut words = Vec::new(alloc);
    let mut into = None;
    let mut is_into = false;
    for word in rest.split_whitespace() {
        if word == ">" {
            is_into = true;
        } else if is_into {
            into = Some(String::from_str(alloc, word)?);
        } else {
            words.push(word_of(scope(alloc, table.texts.as_slice(), line), word)?)?;
        }
    }
    table.asked = Some(Asked { words, into });
    Ok(())
}

fn word_of(scope: Scope<'_>, word: &str) -> Result<String> {
    let mut bytes = Vec::new(scope.alloc);
    append_escaped(scope, &mut bytes, word.as_bytes(), 0)?;
    match String::from_utf8(bytes) {
        Ok(word) => Ok(word),
        Err(_) => Err(fault(scope.line, "a word is no text")),
    }
}

fn add_call(alloc: Global, item: &Item, rest: &str, table: &mut Table) -> Result<()> {
    let (name, begun) = named_of(rest);
    let Some(status) = status_of(name) else {
        return Err(fault_of(item.line, "no status", name));
    };
    let Some(asked) = &table.asked else {
        return Err(fault(item.line, "no command line"));
    };
    let call = Call {
        line: item.line,
        words: copied(alloc, asked.words.as_slice())?,
        status,
        wanted: wanted_of(alloc, item, begun, table.texts.as_slice())?,
        into: match &asked.into {
            Some(name) => Some(String::from_str(alloc, name.as_str())?),
            None => None,
        },
    };
    add_step(table, item.line, Step::Call(call))
}

fn copied(alloc: Global, words: &[String]) -> Result<Vec<String>, AllocError> {
    let mut copies = Vec::new(alloc);
    for word in words {
        copies.push(String::from_str(alloc, word.as_str())?)?;
    }
    Ok(copies)
}

fn status_of(name: &str) -> Option<Status> {
    match name {
        "Done" => Some(Status::Done),
        "Refused" => Some(Status::Refused),
        "Usage" => Some(Status::Usage),
        "ReadFault" => Some(Status::ReadFault),
        "WriteFault" => Some(Status::WriteFault),
        "OutOfMemory" => Some(Status::OutOfMemory),
        "Stalled" => Some(Status::Stalled),
        _ => None,
    }
}

/// How many lines are left out, where a line leaves lines out.
#[derive(Clone, Copy)]
enum Gap {
    Any,
    Lines(u64),
}

fn gap_of(scope: Scope<'_>, part: &str) -> Result<Option<Gap>> {
    let (key, rest) = key_of(part);
    if key != ".." {
        return Ok(None);
    }
    if rest.is_empty() {
        return Ok(Some(Gap::Any));
    }
    Ok(Some(Gap::Lines(number_of(scope, rest)?)))
}

/// What an item wants to be printed.
fn wanted_of(alloc: Global, item: &Item, begun: Option<&str>, texts: &[File]) -> Result<Wanted> {
    let mut first = begun_with(scope(alloc, texts, item.line), begun)?;
    let mut last = Vec::new(alloc);
    let mut gap = None;
    for part in &item.parts {
        let at = scope(alloc, texts, part.line);
        if gap.is_some() {
            append_part(at, &mut last, part.text.as_str())?;
        } else {
            gap = gap_of(at, part.text.as_str())?;
            if gap.is_none() {
                append_part(at, &mut first, part.text.as_str())?;
            }
        }
    }
    Ok(match gap {
        None => Wanted::Whole(first),
        Some(Gap::Any) => Wanted::Ends {
            first,
            between: None,
            last,
        },
        Some(Gap::Lines(lines)) => Wanted::Ends {
            first,
            between: Some(lines),
            last,
        },
    })
}
