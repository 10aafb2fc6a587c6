//! The last block of a method that is given a function.

ghost use Rattle.std.specs.Prelude.{◌≡◌, ◌+◌, ◌-◌, ◌<◌, ◌^◌, ◌==◌, ◌&&◌, ◌||◌, ◌++◌, [], codes};
ghost use Rattle.std.specs.Prelude.{if◌then◌else◌, length};
ghost use Rattle.machine_events.specs.Configurations.{block_condition};
ghost use Rattle.emit_code.specs.Code.{overflow_notes};
ghost use Rattle.base_io.specs.Writing.{Wrote};
ghost use Rattle.emit_statements.specs.Statements.{failing_text, fails_at, forget_text, given_text};
ghost use Rattle.emit_statements.specs.Statements.{hand_text, method_seen, work_end, work_text};
ghost use Rattle.emit_statements.specs.Statements.{works_at};
ghost use Rattle.emit_statements.specs.Sources.{answer_of, seen};

use crate::source::{Calls, answer_of};
use crate::statements::{fails_at, waits_at, write_around_own_name, write_let, write_own_call};
use base_io::{Sink, SinkFailed, write_piece};
use emit_expressions::Reach;
use lang_base::Kind;

/// Whether the block of this number calls a function: it is the last of a method that is given one.
pub(crate) fn works_at(it: &Calls, block: usize) -> bool
    requires { block < 2 ^ 63 }
    ensures { result ≡ works_at (method_seen it.now) block }
{
    let number = (block + 1).saturating_sub(it.first as usize);
    is_last_with(it.works, number, it.method.blocks.items().len())
}

fn is_last_with(works: bool, number: usize, blocks: usize) -> bool
    ensures { result ≡ (works && (number == blocks)) }
{
    works && number == blocks
}

/// Writes the body of a block that calls a function.
pub(crate) fn write_work<S: Sink>(it: &Calls, block: usize, out: &mut S) -> Result<(), SinkFailed>
    requires { block < 2 ^ 63 }
    ensures { Wrote (S.seen out.old) (S.seen out.new) result (work_text (method_seen it.now) block
        (overflow_notes it.now.source.now.monitor.now block)) }
{
    write_hand(it, block, out)?;
    write_piece(b"        let mut next = inner.state;\n", out)?;
    write_let(it, block, out)?;
    write_piece(b"next.", out)?;
    write_own_call(it, b"run", block, Reach::Lent, out)?;
    write_failing(it, block, out)?;
    write_piece(b"        let result = f(&mut inner.data", out)?;
    write_given(it, block, out)?;
    write_forget(it, block, out)?;
    write_piece(b"        inner.state = next;\n", out)
}

// What is dropped where the block ends without having changed anything.
fn write_hand<S: Sink>(it: &Calls, block: usize, out: &mut S) -> Result<(), SinkFailed>
    ensures { Wrote (S.seen out.old) (S.seen out.new) result (hand_text (seen it.now.source.now)
        (overflow_notes it.now.source.now.monitor.now block)) }
{
    if !waits_at(it, block) {
        return Ok(());
    }
    write_around_own_name(it, b"        let hand = HandOn(&self.", block, b");\n", out)
}

fn write_forget<S: Sink>(it: &Calls, block: usize, out: &mut S) -> Result<(), SinkFailed>
    ensures { Wrote (S.seen out.old) (S.seen out.new) result
        (forget_text (overflow_notes it.now.source.now.monitor.now block)) }
{
    if !waits_at(it, block) {
        return Ok(());
    }
    write_piece(b"        std::mem::forget(hand);\n", out)
}

fn write_failing<S: Sink>(it: &Calls, block: usize, out: &mut S) -> Result<(), SinkFailed>
    ensures { Wrote (S.seen out.old) (S.seen out.new) result
        (failing_text (fails_at (method_seen it.now) block)) }
{
    write_piece(failing_bytes(fails_at(it, block)), out)
}

fn failing_bytes(fails: bool) -> &'static [u8]
    ensures { result.now ≡ failing_text fails }
{
    if fails { b"?;\n" } else { b";\n" }
}

fn write_given<S: Sink>(it: &Calls, block: usize, out: &mut S) -> Result<(), SinkFailed>
    ensures { Wrote (S.seen out.old) (S.seen out.new) result
        (given_text (answer_of it.now.source.now.monitor.now block)) }
{
    write_piece(given_bytes(answer_of(it.source.monitor, block)), out)
}

fn given_bytes(answer: Option<Kind>) -> &'static [u8]
    ensures { result.now ≡ given_text answer }
{
    match answer {
        None => b");\n",
        Some(_) => b", answer);\n",
    }
}

/// The last line of such a method, by whether it may fail, and whether its calls may be refused.
pub(crate) fn work_end(fails: bool, refused: bool) -> &'static [u8]
    ensures { result.now ≡ work_end fails refused }
{
    if fails || refused {
        b"        Ok(result)\n"
    } else {
        b"        result\n"
    }
}
