//! The text of a plan.

ghost use Rattle.std.specs.Prelude.{◌≡◌, ◌≤◌, ◌++◌, codes, length};
ghost use Rattle.std.specs.List.{flat_map};
ghost use Rattle.lang_base.specs.Limits.{CONDITIONS};
ghost use Rattle.base_io.specs.Writing.{Wrote};
ghost use Rattle.machine_events.specs.PlanText.{block_text, blocks_text, condition_text};
ghost use Rattle.machine_events.specs.PlanText.{conditions_text, kept_text, kind_text, note_kind};
ghost use Rattle.machine_events.specs.PlanText.{note_text, notes_text, plan_text, tested_text};

use crate::candidate::write_candidate;
use crate::naming::write_block_name;
use base_io::{Sink, SinkFailed, write_piece, write_pieces};
use itoa::Buffer;
use lang_monitor::{Candidate, Condition, Field, Monitor};
use machine_events::{CondKind, Note, NoteList, Plan};

/// Writes a plan of a monitor: its name, then a line for each kept candidate, condition and block.
/// It takes no memory.
///
/// After `SinkFailed` the first bytes of the text were taken, fewer than all and maybe none.
pub fn write_plan<S: Sink>(monitor: &Monitor, plan: &Plan, out: &mut S) -> Result<(), SinkFailed>
    ensures { Wrote (S.seen out.old) (S.seen out.new) result (plan_text monitor.now plan.now) }
{
    write_pieces(&[b"plan ", monitor.name().bytes(), b"\n"], out)?;
    write_kept(monitor.fields(), plan.kept.items(), out)?;
    write_conditions(monitor.conditions(), plan.kinds.items(), out)?;
    write_blocks(monitor, plan.notes.items(), out)
}

// ---- kept candidates

// A line for each candidate.
fn write_kept<S: Sink>(fields: &[Field], kept: &[Candidate], out: &mut S) -> Result<(), SinkFailed>
    ensures { Wrote (S.seen out.old) (S.seen out.new) result
        (flat_map (kept_text fields.now) kept.now) }
{
    for candidate in kept {
        write_keep(fields, *candidate, out)?;
    }
    Ok(())
}

// `keep x <= 4` and a line feed.
fn write_keep<S: Sink>(
    fields: &[Field],
    candidate: Candidate,
    out: &mut S,
) -> Result<(), SinkFailed>
    ensures { Wrote (S.seen out.old) (S.seen out.new) result (kept_text fields.now candidate) }
{
    write_piece(b"keep ", out)?;
    write_candidate(fields, candidate, out)?;
    write_piece(b"\n", out)
}

// ---- conditions

// A line for each condition, with its kind. They are numbered from 1.
fn write_conditions<S: Sink>(
    conditions: &[Condition],
    kinds: &[CondKind],
    out: &mut S,
) -> Result<(), SinkFailed>
    requires { length conditions.now ≤ CONDITIONS }
    ensures { Wrote (S.seen out.old) (S.seen out.new) result
        (conditions_text conditions.now kinds.now) }
{
    let mut number = 1;
    for (condition, kind) in conditions.iter().zip(kinds) {
        write_condition(number, condition, *kind, out)?;
        number += 1;
    }
    Ok(())
}

// `condition 1 signal: x < 4` and a line feed.
fn write_condition<S: Sink>(
    number: u32,
    condition: &Condition,
    kind: CondKind,
    out: &mut S,
) -> Result<(), SinkFailed>
    ensures { Wrote (S.seen out.old) (S.seen out.new) result
        (condition_text number condition.now kind) }
{
    let mut digits = Buffer::new();
    let number = digits.format(number).as_bytes();
    write_condition_parts(number, kind_bytes(kind), condition.shown.items(), out)
}

// What a condition's line consists of.
fn write_condition_parts<'a, S: Sink>(
    number: &'a [u8],
    kind: &'a [u8],
    shown: &'a [u8],
    out: &mut S,
) -> Result<(), SinkFailed>
    ensures { Wrote (S.seen out.old) (S.seen out.new) result
        (codes "condition " ++ number.now ++ codes " " ++ kind.now ++ codes ": " ++ shown.now
        ++ codes "\n") }
{
    write_pieces(
        &[b"condition ", number, b" ", kind, b": ", shown, b"\n"],
        out,
    )
}

fn kind_bytes(kind: CondKind) -> &'static [u8]
    ensures { result.now ≡ kind_text kind }
{
    match kind {
        CondKind::Signal => b"signal",
        CondKind::Broadcast => b"broadcast",
    }
}

// ---- notes

// A line for each block, with its notes.
fn write_blocks<S: Sink>(
    monitor: &Monitor,
    lists: &[NoteList],
    out: &mut S,
) -> Result<(), SinkFailed>
    ensures { Wrote (S.seen out.old) (S.seen out.new) result (blocks_text monitor.now lists.now) }
{
    for (block, list) in lists.iter().enumerate() {
        write_block(monitor, block, list.notes(), out)?;
    }
    Ok(())
}

// `block put: 2 signal` and a line feed: a block, by its number, and its notes.
fn write_block<S: Sink>(
    monitor: &Monitor,
    block: usize,
    notes: &[Note],
    out: &mut S,
) -> Result<(), SinkFailed>
    ensures { Wrote (S.seen out.old) (S.seen out.new) result
        (block_text monitor.now block notes.now) }
{
    write_piece(b"block ", out)?;
    write_block_name(monitor, block, out)?;
    write_piece(b": ", out)?;
    write_notes(notes, out)?;
    write_piece(b"\n", out)
}

// `1 broadcast, 3 signal tested`, or `none`.
fn write_notes<S: Sink>(notes: &[Note], out: &mut S) -> Result<(), SinkFailed>
    ensures { Wrote (S.seen out.old) (S.seen out.new) result (notes_text notes.now) }
{
    let [first, rest @ ..] = notes else {
        return write_piece(b"none", out);
    };
    write_note(b"", *first, out)?;
    for note in rest {
        write_note(b", ", *note, out)?;
    }
    Ok(())
}

// `3 signal tested` after what separates it from the note before.
fn write_note<S: Sink>(sign: &[u8], note: Note, out: &mut S) -> Result<(), SinkFailed>
    ensures { Wrote (S.seen out.old) (S.seen out.new) result (sign.now ++ note_text note) }
{
    let mut digits = Buffer::new();
    let condition = digits.format(note.condition).as_bytes();
    let kind = kind_bytes(kind_of(note.all));
    write_note_parts(sign, condition, kind, tested_bytes(note.tested), out)
}

// What a note consists of, after what separates it from the note before.
fn write_note_parts<'a, S: Sink>(
    sign: &'a [u8],
    condition: &'a [u8],
    kind: &'a [u8],
    tested: &'a [u8],
    out: &mut S,
) -> Result<(), SinkFailed>
    ensures { Wrote (S.seen out.old) (S.seen out.new) result
        (sign.now ++ (condition.now ++ codes " " ++ kind.now ++ tested.now)) }
{
    write_pieces(&[sign, condition, b" ", kind, tested], out)
}

// Of which kind a note is.
fn kind_of(all: bool) -> CondKind
    ensures { result ≡ note_kind all }
{
    if all {
        CondKind::Broadcast
    } else {
        CondKind::Signal
    }
}

fn tested_bytes(tested: bool) -> &'static [u8]
    ensures { result.now ≡ tested_text tested }
{
    if tested { b" tested" } else { b"" }
}
