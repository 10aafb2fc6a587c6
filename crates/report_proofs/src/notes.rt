//! The lines of blocks, read.

ghost use Rattle.std.specs.Prelude.{◌≡◌, ◌++◌, [], Bool, IfOk, List, MatchOption, codes};
ghost use Rattle.machine_events.specs.declared.plan.Note.{Note};
ghost use Rattle.machine_events.specs.PlanText.{block_name, block_text, blocks_text, kind_text};
ghost use Rattle.machine_events.specs.PlanText.{note_kind, note_text, notes_text, tested_text};
ghost use Rattle.report_verdict.specs.Reports.{AreNotesOf};
ghost use Rattle.report_proofs.specs.Fronts.{Anything, AreFor, IsAfter};
ghost use Rattle.report_proofs.specs.inner.Reading.{AreSomeNotesOf};
ghost use Rattle.report_proofs.specs.Fronts.{IsFront, IsNoFront};
ghost use Rattle.report_proofs.specs.inner.Reading.{IsAfterMarks, IsLineEnd};
ghost use Rattle.report_proofs.specs.inner.Reading.{IsNoteTurn};
ghost use Rattle.report_proofs.specs.inner.Reading.{marks_text, notes_after, sign_after};

use super::after::{after, after_piece};
use super::head::block_head;
use itoa::Buffer;
use lang_monitor::Monitor;
use machine_events::{Note, NoteList};
use std::alloc::{AllocError, Global};

/// The notes of the blocks whose lines stand at the front of the bytes, and what is left.
pub(crate) fn read_lists<'a>(
    alloc: Global,
    monitor: &Monitor,
    bytes: &'a [u8],
) -> Result<Option<(Vec<NoteList>, &'a [u8])>, AllocError>
    ensures { IfOk result (λ found. MatchOption found
        (IsNoFront (List (List Note)) (AreFor monitor.now.blocks (AreNotesOf monitor.now)) Anything
        (blocks_text monitor.now) bytes.now)
        (λ read. IsFront (List (List Note)) (AreFor monitor.now.blocks (AreNotesOf monitor.now))
        Anything (blocks_text monitor.now) bytes.now read.0.items read.1.now)) }
{
    let mut lists = Vec::new(alloc);
    let mut rest = bytes;
    for index in 0..monitor.blocks().len() {
        match read_list(alloc, monitor, index, rest)? {
            Some((list, left)) => {
                lists.push(list)?;
                rest = left;
            }
            None => return Ok(None),
        }
    }
    Ok(Some((lists, rest)))
}

/// The notes of the block, by its number, whose line stands at the front of the bytes, and what is
/// left.
fn read_list<'a>(
    alloc: Global,
    monitor: &Monitor,
    block: usize,
    bytes: &'a [u8],
) -> Result<Option<(NoteList, &'a [u8])>, AllocError>
    ensures { IfOk result (λ found. MatchOption found
        (IsNoFront (List Note) (AreNotesOf monitor.now) Anything (block_text monitor.now block)
        bytes.now)
        (λ read. IsFront (List Note) (AreNotesOf monitor.now) Anything
        (block_text monitor.now block) bytes.now read.0 read.1.now)) }
{
    match after_block(alloc, monitor, block, bytes)? {
        Some(rest) => read_notes(alloc, monitor, rest),
        None => Ok(None),
    }
}

/// What is left after `block put: `.
fn after_block<'a>(
    alloc: Global,
    monitor: &Monitor,
    block: usize,
    bytes: &'a [u8],
) -> Result<Option<&'a [u8]>, AllocError>
    ensures { IfOk result (IsAfter bytes.now
        (codes "block " ++ block_name monitor.now block ++ codes ": ")) }
{
    let head = block_head(alloc, monitor, block)?;
    Ok(after_piece(bytes, head.as_slice()))
}

/// The notes that stand at the front of the bytes, and what is left after them and a line feed.
fn read_notes<'a>(
    alloc: Global,
    monitor: &Monitor,
    bytes: &'a [u8],
) -> Result<Option<(NoteList, &'a [u8])>, AllocError>
    ensures { IfOk result (λ found. MatchOption found
        (IsNoFront (List Note) (AreNotesOf monitor.now) Anything
        (λ notes. notes_text notes ++ codes "\n") bytes.now)
        (λ read. IsFront (List Note) (AreNotesOf monitor.now) Anything
        (λ notes. notes_text notes ++ codes "\n") bytes.now read.0 read.1.now)) }
{
    match after(bytes, &[b"none\n"]) {
        Some(rest) => Ok(Some((NoteList::of(Vec::new(alloc)), rest))),
        None => read_some_notes(alloc, monitor, bytes),
    }
}

/// The notes, at least one, that stand at the front of the bytes, and what is left after them and a
/// line feed.
fn read_some_notes<'a>(
    alloc: Global,
    monitor: &Monitor,
    bytes: &'a [u8],
) -> Result<Option<(NoteList, &'a [u8])>, AllocError>
    ensures { IfOk result (λ found. MatchOption found
        (IsNoFront (List Note) (AreSomeNotesOf monitor.now) Anything
        (λ notes. notes_after [] notes ++ codes "\n") bytes.now)
        (λ read. IsFront (List Note) (AreSomeNotesOf monitor.now) Anything
        (λ notes. notes_after [] notes ++ codes "\n") bytes.now read.0 read.1.now)) }
{
    let (notes, rest) = read_each(alloc, monitor, bytes)?;
    if notes.as_slice().is_empty() {
        return Ok(None);
    }
    match after(rest, &[b"\n"]) {
        Some(left) => Ok(Some((NoteList::of(notes), left))),
        None => Ok(None),
    }
}

/// The notes that stand at the front of the bytes, and what is left.
fn read_each<'a>(
    alloc: Global,
    monitor: &Monitor,
    bytes: &'a [u8],
) -> Result<(Vec<Note>, &'a [u8]), AllocError>
    ensures { IfOk result (λ read. IsFront (List Note) (AreNotesOf monitor.now) IsLineEnd
        (notes_after []) bytes.now read.0.items read.1.now) }
{
    let count = monitor.conditions().len() as u32;
    let mut notes = Vec::new(alloc);
    let mut rest = bytes;
    for index in 0..count {
        rest = take_note(index + 1, &mut notes, rest)?;
    }
    Ok((notes, rest))
}

/// Takes the note on this condition, where it stands at the front of the bytes, and answers what is
/// left.
fn take_note<'a>(
    number: u32,
    notes: &mut Vec<Note>,
    bytes: &'a [u8],
) -> Result<&'a [u8], AllocError>
    ensures { IfOk result (λ rest. IsNoteTurn number bytes.now rest.now notes.old.items
        notes.new.items) }
{
    match read_note(number, sign_after(notes.as_slice()), bytes) {
        Some((note, rest)) => {
            notes.push(note)?;
            Ok(rest)
        }
        None => Ok(bytes),
    }
}

/// What separates the next note from these.
fn sign_after(notes: &[Note]) -> &'static [u8]
    ensures { result.now ≡ sign_after notes.now }
{
    match notes {
        [] => b"",
        [_, ..] => b", ",
    }
}

/// The note on this condition that stands, after what separates it from the one before, at the
/// front of the bytes, and what is left.
fn read_note<'a>(number: u32, sign: &[u8], bytes: &'a [u8]) -> Option<(Note, &'a [u8])>
    ensures { MatchOption result
        (IsNoFront Note (λ note. note.condition ≡ number) IsAfterMarks
        (λ note. sign.now ++ note_text note) bytes.now)
        (λ read. IsFront Note (λ note. note.condition ≡ number) IsAfterMarks
        (λ note. sign.now ++ note_text note) bytes.now read.0 read.1.now) }
{
    let mut digits = Buffer::new();
    let digits = digits.format(number).as_bytes();
    match after_number(sign, digits, bytes) {
        Some(rest) => match read_marks(rest) {
            Some((marks, left)) => Some(noted(number, marks, left)),
            None => None,
        },
        None => None,
    }
}

fn noted<'a>(condition: u32, marks: (bool, bool), rest: &'a [u8]) -> (Note, &'a [u8])
    ensures note { result.0 ≡ record { condition = condition; all = marks.0; tested = marks.1 } }
    ensures rest { result.1.now ≡ rest.now }
{
    let note = Note {
        condition,
        all: marks.0,
        tested: marks.1,
    };
    (note, rest)
}

/// What is left after a sign, a number and a blank.
fn after_number<'a, 'b>(sign: &'b [u8], digits: &'b [u8], bytes: &'a [u8]) -> Option<&'a [u8]>
    ensures { IsAfter bytes.now (sign.now ++ digits.now ++ codes " ") result }
{
    after(bytes, &[sign, digits, b" "])
}

/// Whether a broadcast stands at the front of the bytes, and whether a tested one, and what is
/// left.
fn read_marks<'a>(bytes: &'a [u8]) -> Option<((bool, bool), &'a [u8])>
    ensures { MatchOption result
        (IsNoFront (Bool × Bool) Anything IsAfterMarks marks_text bytes.now)
        (λ read. IsFront (Bool × Bool) Anything IsAfterMarks marks_text bytes.now read.0
        read.1.now) }
{
    match read_way(bytes) {
        Some((all, rest)) => {
            let (tested, left) = read_tested(rest);
            Some(((all, tested), left))
        }
        None => None,
    }
}

/// Whether a broadcast stands at the front of the bytes, or a signal, and what is left.
fn read_way<'a>(bytes: &'a [u8]) -> Option<(bool, &'a [u8])>
    ensures { MatchOption result
        (IsNoFront Bool Anything Anything (λ all. kind_text (note_kind all)) bytes.now)
        (λ read. IsFront Bool Anything Anything (λ all. kind_text (note_kind all)) bytes.now
        read.0 read.1.now) }
{
    match after(bytes, &[b"signal"]) {
        Some(rest) => Some((false, rest)),
        None => match after(bytes, &[b"broadcast"]) {
            Some(rest) => Some((true, rest)),
            None => None,
        },
    }
}

/// Whether ` tested` stands at the front of the bytes, and what is left.
fn read_tested<'a>(bytes: &'a [u8]) -> (bool, &'a [u8])
    ensures { IsFront Bool Anything IsAfterMarks tested_text bytes.now result.0 result.1.now }
{
    match after(bytes, &[b" tested"]) {
        Some(rest) => (true, rest),
        None => (false, bytes),
    }
}
