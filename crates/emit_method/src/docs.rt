//! What is said of a method.

ghost use Rattle.std.specs.Prelude.{◌≡◌, ◌+◌, ◌<◌, ◌^◌, ◌++◌, [], if◌then◌else◌, length};
ghost use Rattle.std.specs.List.{enumerate_from, flat_map};
ghost use Rattle.machine_events.specs.Configurations.{block_condition};
ghost use Rattle.emit_code.specs.Code.{is_waited_on};
ghost use Rattle.base_io.specs.Writing.{Wrote};
ghost use Rattle.emit_statements.specs.Statements.{method_seen};
ghost use Rattle.emit_method.specs.Docs.{ERRORS, asserting_text, docs_text, doing_text};
ghost use Rattle.emit_method.specs.Docs.{errors_text, first_guard, going_text};
ghost use Rattle.emit_method.specs.Docs.{likeness_text, other_error, own_comments, refused_by};
ghost use Rattle.emit_method.specs.Docs.{failure_docs, handed_text, own_docs, panics_text};
ghost use Rattle.emit_method.specs.Docs.{refusal_docs, trying_docs, waiting_docs, waiting_text};
ghost use Rattle.emit_method.specs.Docs.{longest_text, unlike_text, when_text};
ghost use Rattle.emit_method.specs.Docs.{waits_until, work_docs, work_likeness};

use crate::called::write_plain_called;
use base_io::{Sink, SinkFailed, write_piece};
use emit_comments::{line_of, write_leading};
use emit_names::{Style, write_member};
use emit_statements::{Calls, Way, asserts, condition_of, is_waited_on, may_refuse};
use lang_base::Kind;
use lang_printer::write_around;
use lang_tree::{BlockTree, MethodTree};

/// Writes what a method waits for, and when it fails.
pub(crate) fn write_docs<S: Sink>(it: &Calls, out: &mut S) -> Result<(), SinkFailed>
    ensures { Wrote (S.seen out.old) (S.seen out.new) result (docs_text (method_seen it.now)) }
{
    if it.works {
        return write_work_docs(it, out);
    }
    write_own_docs(it, out)
}

fn write_own_docs<S: Sink>(it: &Calls, out: &mut S) -> Result<(), SinkFailed>
    ensures { Wrote (S.seen out.old) (S.seen out.new) result (own_docs (method_seen it.now)) }
{
    if may_refuse(it.way) {
        return write_trying(it, out);
    }
    write_waiting_docs(it, out)
}

fn write_waiting_docs<S: Sink>(it: &Calls, out: &mut S) -> Result<(), SinkFailed>
    ensures { Wrote (S.seen out.old) (S.seen out.new) result (waiting_docs (method_seen it.now)) }
{
    write_own_comments(it, out)?;
    write_blocks_docs(it, it.method.blocks.items(), out)?;
    write_errors(it, out)
}

fn write_own_comments<S: Sink>(it: &Calls, out: &mut S) -> Result<(), SinkFailed>
    ensures { Wrote (S.seen out.old) (S.seen out.new) result (own_comments (method_seen it.now)) }
{
    let place = line_of(it.source.text, it.method.at);
    write_leading(b"    ", it.source.text, place, out)
}

fn write_blocks_docs<S: Sink>(
    it: &Calls,
    blocks: &[BlockTree],
    out: &mut S,
) -> Result<(), SinkFailed>
    ensures { Wrote (S.seen out.old) (S.seen out.new) result
        (flat_map (λ one. waiting_text (method_seen it.now) one.0 one.1)
        (enumerate_from 0 blocks.now)) }
{
    for (place, block) in blocks.iter().enumerate() {
        write_waiting(it, place, block, out)?;
    }
    Ok(())
}

// ---- what a block waits for, by its number in the method, from 0

fn write_waiting<S: Sink>(
    it: &Calls,
    place: usize,
    block: &BlockTree,
    out: &mut S,
) -> Result<(), SinkFailed>
    requires { place < 2 ^ 63 }
    ensures { Wrote (S.seen out.old) (S.seen out.new) result
        (waiting_text (method_seen it.now) place block.now) }
{
    let number = it.first as usize + place;
    if !is_waited_on(it.source.monitor, condition_of(it.source.monitor, number)) {
        return write_piece(going_bytes(place), out);
    }
    write_around(&[waits_until(place)], &block.guard, b"`.\n", out)
}

fn going_bytes(place: usize) -> &'static [u8]
    ensures { result.now ≡ going_text place }
{
    if place == 0 {
        b"    /// Does not wait.\n"
    } else {
        b"    ///\n    /// Then goes on.\n"
    }
}

fn waits_until(place: usize) -> &'static [u8]
    ensures { result.now ≡ waits_until place }
{
    if place == 0 {
        b"    /// Waits until `"
    } else {
        b"    ///\n    /// Then waits until `"
    }
}

// ---- when a method fails

fn write_errors<S: Sink>(it: &Calls, out: &mut S) -> Result<(), SinkFailed>
    ensures { Wrote (S.seen out.old) (S.seen out.new) result
        (errors_text it.now.fails (length it.now.method.now.blocks)) }
{
    write_piece(errors_bytes(it.fails, it.method.blocks.items().len()), out)
}

fn errors_bytes(fails: bool, blocks: usize) -> &'static [u8]
    ensures { result.now ≡ errors_text fails blocks }
{
    if !fails {
        return b"";
    }
    if blocks <= 1 {
        b"    ///
    /// # Errors
    ///
    /// [`Overflow`] where a number would leave 64 bits. Then nothing changes.
"
    } else {
        b"    ///
    /// # Errors
    ///
    /// [`Overflow`] where a number would leave 64 bits. Its block then changes nothing, and no later one runs.
"
    }
}

// ---- calls that try, or have a time

fn write_trying<S: Sink>(it: &Calls, out: &mut S) -> Result<(), SinkFailed>
    ensures { Wrote (S.seen out.old) (S.seen out.new) result (trying_docs (method_seen it.now)) }
{
    write_doing(it, out)?;
    write_refusals(it, out)
}

// What a method does for calls that may be refused.
fn write_doing<S: Sink>(it: &Calls, out: &mut S) -> Result<(), SinkFailed>
    ensures { Wrote (S.seen out.old) (S.seen out.new) result (doing_text (method_seen it.now)) }
{
    if asserts(it.way) {
        return write_asserting(it, out);
    }
    write_likeness(it, out)
}

fn write_asserting<S: Sink>(it: &Calls, out: &mut S) -> Result<(), SinkFailed>
    ensures { Wrote (S.seen out.old) (S.seen out.new) result (asserting_text (method_seen it.now)) }
{
    write_own_comments(it, out)?;
    write_piece(going_bytes(0), out)
}

// When calls fail that may be refused.
fn write_refusals<S: Sink>(it: &Calls, out: &mut S) -> Result<(), SinkFailed>
    ensures { Wrote (S.seen out.old) (S.seen out.new) result (refusal_docs (method_seen it.now)) }
{
    write_piece(errors_head(), out)?;
    write_piece(refused_by(it.fails), out)?;
    write_piece(when_bytes(it.way), out)?;
    write_guard(it.method, out)?;
    write_piece(b"` is false. Then nothing changes.\n", out)?;
    write_other_error(it, out)
}

fn write_likeness<S: Sink>(it: &Calls, out: &mut S) -> Result<(), SinkFailed>
    ensures { Wrote (S.seen out.old) (S.seen out.new) result (likeness_text (method_seen it.now)) }
{
    write_piece(b"    /// As [`", out)?;
    write_member(it.source.tree, Style::Snake, &it.method.name, out)?;
    write_piece(b"`](Self::", out)?;
    write_member(it.source.tree, Style::Snake, &it.method.name, out)?;
    write_piece(unlike_bytes(it.way), out)?;
    write_guard(it.method, out)?;
    write_piece(longest_bytes(it.way), out)
}

fn unlike_bytes(way: Way) -> &'static [u8]
    ensures { result.now ≡ unlike_text way }
{
    match way {
        Way::Waits | Way::Asserts => b"",
        Way::Tries => b"), but does not wait until `",
        Way::Until => b"), but waits for `",
        Way::For => b"), but waits for `",
    }
}

fn longest_bytes(way: Way) -> &'static [u8]
    ensures { result.now ≡ longest_text way }
{
    match way {
        Way::Waits | Way::Asserts => b"",
        Way::Tries => b"`.\n",
        Way::Until => b"` no longer than until `end`.\n",
        Way::For => b"` no longer than `time`.\n",
    }
}

// The guard of a method's first block.
fn write_guard<S: Sink>(method: &MethodTree, out: &mut S) -> Result<(), SinkFailed>
    ensures { Wrote (S.seen out.old) (S.seen out.new) result (first_guard method.now) }
{
    match method.blocks.items().get(0) {
        Some(block) => write_around(&[], &block.guard, b"", out),
        None => Ok(()),
    }
}

fn errors_head() -> &'static [u8]
    ensures { result.now ≡ ERRORS }
{
    b"    ///\n    /// # Errors\n    ///\n"
}

fn refused_by(fails: bool) -> &'static [u8]
    ensures { result.now ≡ refused_by fails }
{
    if fails {
        b"    /// [`Failed::Refused`] where "
    } else {
        b"    /// [`Refused`] where "
    }
}

fn when_bytes(way: Way) -> &'static [u8]
    ensures { result.now ≡ when_text way }
{
    match way {
        Way::Waits => b"",
        Way::Asserts | Way::Tries => b"`",
        Way::Until => b"its time is over and `",
        Way::For => b"its time is over and `",
    }
}

fn write_other_error<S: Sink>(it: &Calls, out: &mut S) -> Result<(), SinkFailed>
    ensures { Wrote (S.seen out.old) (S.seen out.new) result
        (other_error it.now.fails (length it.now.method.now.blocks)) }
{
    write_piece(other_bytes(it.fails, it.method.blocks.items().len()), out)
}

fn other_bytes(fails: bool, blocks: usize) -> &'static [u8]
    ensures { result.now ≡ other_error fails blocks }
{
    if !fails {
        return b"";
    }
    if blocks <= 1 {
        b"    ///
    /// [`Failed::Overflow`] where a number would leave 64 bits. Then nothing changes.
"
    } else {
        b"    ///
    /// [`Failed::Overflow`] where a number would leave 64 bits. Its block then changes nothing, and no later one runs.
"
    }
}

// ---- calls that are given a function

fn write_work_docs<S: Sink>(it: &Calls, out: &mut S) -> Result<(), SinkFailed>
    ensures { Wrote (S.seen out.old) (S.seen out.new) result (work_docs (method_seen it.now)) }
{
    write_work_likeness(it, out)?;
    write_failures(it, out)
}

fn write_work_likeness<S: Sink>(it: &Calls, out: &mut S) -> Result<(), SinkFailed>
    ensures { Wrote (S.seen out.old) (S.seen out.new) result (work_likeness (method_seen it.now)) }
{
    write_piece(b"    /// As [`", out)?;
    write_plain_called(it, out)?;
    write_piece(b"`](Self::", out)?;
    write_plain_called(it, out)?;
    write_piece(b"), and calls `f` with ", out)?;
    write_piece(handed_bytes(it.answer), out)?;
    write_panics(it, out)?;
    write_piece(b"`f` must not call this monitor.\n", out)
}

fn handed_bytes(answer: Option<Kind>) -> &'static [u8]
    ensures { result.now ≡ handed_text answer }
{
    match answer {
        None => b"the data",
        Some(_) => b"the data and the answer",
    }
}

// When the function is called, and what stays where it panics.
fn write_panics<S: Sink>(it: &Calls, out: &mut S) -> Result<(), SinkFailed>
    ensures { Wrote (S.seen out.old) (S.seen out.new) result
        (panics_text (length it.now.method.now.blocks)) }
{
    write_piece(panics_bytes(it.method.blocks.items().len()), out)
}

fn panics_bytes(blocks: usize) -> &'static [u8]
    ensures { result.now ≡ panics_text blocks }
{
    if blocks <= 1 {
        b" under the same lock.
    ///
    /// Where `f` panics no field changes. "
    } else {
        b" under the same lock, in its last block.
    ///
    /// Where `f` panics that block changes no field. "
    }
}

fn write_failures<S: Sink>(it: &Calls, out: &mut S) -> Result<(), SinkFailed>
    ensures { Wrote (S.seen out.old) (S.seen out.new) result (failure_docs (method_seen it.now)) }
{
    if may_refuse(it.way) {
        return write_refusals(it, out);
    }
    write_errors(it, out)
}
