//! The statements of a method: one for each operation of its code.

ghost use Rattle.std.specs.Prelude.{◌≡◌, ◌++◌, ◌+◌, ◌<◌, ◌^◌, ◌==◌, codes, if◌then◌else◌, not};
ghost use Rattle.std.specs.Prelude.{◌&&◌, ◌||◌, None, Some};
ghost use Rattle.std.specs.List.{enumerate_from, flat_map, list_any};
ghost use Rattle.machine_events.specs.Configurations.{block_condition};
ghost use Rattle.base_io.specs.Writing.{Wrote};
ghost use Rattle.emit_statements.specs.Sources.{answer_of, seen};
ghost use Rattle.emit_statements.specs.Conditions.{around_name};
ghost use Rattle.emit_statements.specs.Statements.{answer_name, block_fails, block_shortens};
ghost use Rattle.emit_statements.specs.Statements.{blocks_ops, call_text, end_at, end_text};
ghost use Rattle.emit_statements.specs.Statements.{fails_at, sleep_start, wait_end, wait_start};
ghost use Rattle.emit_statements.specs.Statements.{let_text, method_fails, method_seen};
ghost use Rattle.emit_statements.specs.Statements.{method_shortens, note_test, note_text};
ghost use Rattle.emit_statements.specs.Statements.{notify_call, notify_text, op_text, own_call};
ghost use Rattle.emit_statements.specs.Statements.{own_end, plain_end, plain_run, refusal_text};
ghost use Rattle.emit_statements.specs.Statements.{release_text, sleep_text, test_text};
ghost use Rattle.emit_statements.specs.Ways.{ends, may_refuse, tries};
ghost use Rattle.emit_statements.specs.inner.Parts.{block_ops, guarded_end, guarded_run};
ghost use Rattle.emit_statements.specs.inner.Parts.{heard_text, own_run};
ghost use Rattle.emit_statements.specs.inner.Parts.{heard_texts, run_op, test_ops, told_ops};
ghost use Rattle.emit_code.specs.Code.{is_waited_on};
ghost use Rattle.emit_code.specs.LivePlans.{heard_notes};
ghost use Rattle.emit_code.specs.Code.Op.{ElseRefuse, WaitUntil};

use crate::conditions::{write_arguments, write_around_count, write_around_name};
use crate::source::{
    Calls, Source, answer_of, are_heard, condition_of, first_of, is_guarded, is_waited_on,
    is_whole, notes_of, tests_alone,
};
use crate::ways::{Way, ends, may_refuse, tries};
use crate::working::{work_end, works_at, write_work};
use base_io::{Sink, SinkFailed, write_piece, write_pieces};
use emit_bodies::{fails, shortens, write_block_name};
use emit_expressions::Reach;
use lang_base::Kind;
use lang_tree::{BlockTree, MethodTree};
use machine_events::Note;

// ---- whether a call may fail

/// Whether some block of a method may fail, by its number.
pub fn method_fails(source: &Source, number: usize, method: &MethodTree) -> bool
    ensures { result ≡ method_fails (seen source.now) number method.now }
{
    let first = first_of(source.monitor, number);
    any_fails(source, method, first, method.blocks.items())
}

fn any_fails(source: &Source, method: &MethodTree, first: u32, blocks: &[BlockTree]) -> bool
    ensures { result ≡ list_any
        (λ one. block_fails (seen source.now) method.now (first + one.0) one.1)
        (enumerate_from 0 blocks.now) }
{
    let mut found = false;
    for (place, block) in blocks.iter().enumerate() {
        let here = block_fails(source, method, first as usize + place, block);
        found = either(found, here);
    }
    found
}

fn either(one: bool, other: bool) -> bool
    ensures { result ≡ (one || other) }
{
    one || other
}

fn block_fails(source: &Source, method: &MethodTree, block: usize, parts: &BlockTree) -> bool
    ensures { result ≡ block_fails (seen source.now) method.now block parts.now }
{
    fails(
        source.tree,
        method,
        parts.body.items(),
        is_whole(source, block),
    )
}

/// Whether some block of a method, by its number, has a number that is known to have 64 bits, and
/// is worked out in 128.
pub fn method_shortens(source: &Source, number: usize, method: &MethodTree) -> bool
    ensures { result ≡ method_shortens (seen source.now) number method.now }
{
    let first = first_of(source.monitor, number);
    any_shortens(source, method, first, method.blocks.items())
}

fn any_shortens(source: &Source, method: &MethodTree, first: u32, blocks: &[BlockTree]) -> bool
    ensures { result ≡ list_any
        (λ one. block_shortens (seen source.now) method.now (first + one.0) one.1)
        (enumerate_from 0 blocks.now) }
{
    let mut found = false;
    for (place, block) in blocks.iter().enumerate() {
        let here = block_shortens(source, method, first as usize + place, block);
        found = either(found, here);
    }
    found
}

fn block_shortens(source: &Source, method: &MethodTree, block: usize, parts: &BlockTree) -> bool
    ensures { result ≡ block_shortens (seen source.now) method.now block parts.now }
{
    shortens(
        source.tree,
        method,
        parts.body.items(),
        is_whole(source, block),
    )
}

// Whether the body of the block of this number may fail.
pub(crate) fn fails_at(it: &Calls, block: usize) -> bool
    ensures { result ≡ fails_at (method_seen it.now) block }
{
    let place = block.saturating_sub(it.first as usize);
    match it.method.blocks.items().get(place) {
        Some(parts) => block_fails(it.source, it.method, block, parts),
        None => false,
    }
}

// ---- the blocks

/// Writes the statements of so many blocks of a method, from its first on. It takes no memory.
///
/// After `SinkFailed` the first bytes were taken, fewer than all and maybe none.
pub fn write_blocks<S: Sink>(it: &Calls, count: u32, out: &mut S) -> Result<(), SinkFailed>
    ensures { Wrote (S.seen out.old) (S.seen out.new) result
        (blocks_ops (method_seen it.now) count) }
{
    for index in 0..count {
        write_block(it, index, out)?;
    }
    Ok(())
}

// A block, by its number in the method, from 0.
fn write_block<S: Sink>(it: &Calls, index: u32, out: &mut S) -> Result<(), SinkFailed>
    ensures { Wrote (S.seen out.old) (S.seen out.new) result
        (block_ops (method_seen it.now) (tries it.now.way && (index == 0)) (it.now.first + index)) }
{
    write_statements(it, tries_at(it.way, index), block_at(it.first, index), out)
}

// A call that tries does so at the first block alone.
fn tries_at(way: Way, index: u32) -> bool
    ensures { result ≡ (tries way && (index == 0)) }
{
    tries(way) && index == 0
}

fn block_at(first: u32, index: u32) -> usize
    ensures number { result ≡ first + index }
    ensures small { result < 2 ^ 63 }
{
    first as usize + index as usize
}

fn write_statements<S: Sink>(
    it: &Calls,
    tries: bool,
    block: usize,
    out: &mut S,
) -> Result<(), SinkFailed>
    requires { block < 2 ^ 63 }
    ensures { Wrote (S.seen out.old) (S.seen out.new) result
        (block_ops (method_seen it.now) tries block) }
{
    write_piece(b"        let mut inner = lock(&self.inner);\n", out)?;
    write_test(it, tries, block, out)?;
    write_run(it, block, out)?;
    write_told(it, block, out)
}

// ---- the test of a block's guard

fn write_test<S: Sink>(it: &Calls, tries: bool, block: usize, out: &mut S) -> Result<(), SinkFailed>
    requires { block < 2 ^ 63 }
    ensures { Wrote (S.seen out.old) (S.seen out.new) result
        (test_ops (method_seen it.now) tries block) }
{
    if !is_guarded(it.source.monitor, block) {
        return Ok(());
    }
    if refuses_at(it, tries, block) {
        return write_refusal(it, block, out);
    }
    write_loop(it, block, out)
}

// Whether the call is refused where the guard is false: it tries, or nobody waits for the guard.
fn refuses_at(it: &Calls, tries: bool, block: usize) -> bool
    ensures { result ≡
        (tries || (block_condition it.now.source.now.monitor.now block == 0)) }
{
    let condition = condition_of(it.source.monitor, block);
    tries || condition == 0
}

// Whether someone may wait for the guard of the block of this number.
pub(crate) fn waits_at(it: &Calls, block: usize) -> bool
    ensures { result ≡ is_waited_on it.now.source.now.monitor.now
        (block_condition it.now.source.now.monitor.now block) }
{
    is_waited_on(it.source.monitor, condition_of(it.source.monitor, block))
}

fn write_refusal<S: Sink>(it: &Calls, block: usize, out: &mut S) -> Result<(), SinkFailed>
    requires { block < 2 ^ 63 }
    ensures { Wrote (S.seen out.old) (S.seen out.new) result
        (op_text (method_seen it.now) (ElseRefuse block)) }
{
    write_piece(b"        if !inner.state.", out)?;
    write_call_of_test(it, block, out)?;
    write_piece(refusal_bytes(it.fails), out)
}

fn refusal_bytes(fails: bool) -> &'static [u8]
    ensures { result.now ≡ refusal_text fails }
{
    if fails {
        b" {\n            return Err(Failed::Refused);\n        }\n"
    } else {
        b" {\n            return Err(Refused);\n        }\n"
    }
}

fn write_loop<S: Sink>(it: &Calls, block: usize, out: &mut S) -> Result<(), SinkFailed>
    requires { block < 2 ^ 63 }
    ensures { Wrote (S.seen out.old) (S.seen out.new) result (op_text (method_seen it.now)
        (WaitUntil block (block_condition it.now.source.now.monitor.now block))) }
{
    write_piece(b"        while !inner.state.", out)?;
    write_call_of_test(it, block, out)?;
    write_own_sleep(it, block, out)
}

// What is done where the guard of a block is false.
fn write_own_sleep<S: Sink>(it: &Calls, block: usize, out: &mut S) -> Result<(), SinkFailed>
    ensures { Wrote (S.seen out.old) (S.seen out.new) result (sleep_text (seen it.now.source.now)
        (end_at (method_seen it.now) block)
        (block_condition it.now.source.now.monitor.now block)) }
{
    let condition = condition_of(it.source.monitor, block);
    write_sleep(it.source, end_at(it, block), condition, out)
}

// Whether the loop ends where the time of the call is over, and then whether its method may fail.
fn end_at(it: &Calls, block: usize) -> Option<bool>
    ensures { result ≡ end_at (method_seen it.now) block }
{
    end_by(ends(it.way), block == it.first as usize, it.fails)
}

fn end_by(ends: bool, first: bool, fails: bool) -> Option<bool>
    ensures { result ≡ if ends && first then Some fails else None }
{
    if ends && first { Some(fails) } else { None }
}

fn write_sleep<S: Sink>(
    source: &Source,
    end: Option<bool>,
    condition: u32,
    out: &mut S,
) -> Result<(), SinkFailed>
    ensures { Wrote (S.seen out.old) (S.seen out.new) result
        (sleep_text (seen source.now) end condition) }
{
    write_around_count(source, sleep_start(end), condition, b" += 1;\n", out)?;
    write_around_name(source, wait_start(end), condition, wait_end(end), out)?;
    write_around_count(
        source,
        b"            inner.",
        condition,
        b" -= 1;\n        }\n",
        out,
    )
}

fn sleep_start(end: Option<bool>) -> &'static [u8]
    ensures { result.now ≡ sleep_start end }
{
    match end {
        None => b" {\n            inner.",
        Some(true) => {
            b" {
            let Some(left) = time_left(end) else {
                return Err(Failed::Refused);
            };
            inner."
        }
        Some(false) => {
            b" {
            let Some(left) = time_left(end) else {
                return Err(Refused);
            };
            inner."
        }
    }
}

fn wait_start(end: Option<bool>) -> &'static [u8]
    ensures { result.now ≡ wait_start end }
{
    match end {
        None => b"            inner = wait(&self.",
        Some(_) => b"            inner = wait_for(&self.",
    }
}

fn wait_end(end: Option<bool>) -> &'static [u8]
    ensures { result.now ≡ wait_end end }
{
    match end {
        None => b", inner);\n",
        Some(_) => b", inner, left);\n",
    }
}

// The name of a block's condition between two pieces.
pub(crate) fn write_around_own_name<S: Sink>(
    it: &Calls,
    before: &[u8],
    block: usize,
    after: &[u8],
    out: &mut S,
) -> Result<(), SinkFailed>
    ensures { Wrote (S.seen out.old) (S.seen out.new) result
        (around_name (seen it.now.source.now) before.now
        (block_condition it.now.source.now.monitor.now block) after.now) }
{
    let condition = condition_of(it.source.monitor, block);
    write_around_name(it.source, before, condition, after, out)
}

// `can_put()`
fn write_call_of_test<S: Sink>(it: &Calls, block: usize, out: &mut S) -> Result<(), SinkFailed>
    requires { block < 2 ^ 63 }
    ensures { Wrote (S.seen out.old) (S.seen out.new) result
        (test_text (method_seen it.now) block) }
{
    if tests_alone(it.source.monitor, condition_of(it.source.monitor, block)) {
        return write_own_call(it, b"can", block, Reach::Held, out);
    }
    write_around_own_name(it, b"", block, b"()", out)
}

// A call of a block's own function, after a word.
pub(crate) fn write_own_call<S: Sink>(
    it: &Calls,
    word: &[u8],
    block: usize,
    reach: Reach,
    out: &mut S,
) -> Result<(), SinkFailed>
    requires { block < 2 ^ 63 }
    ensures { Wrote (S.seen out.old) (S.seen out.new) result
        (own_call (method_seen it.now) word.now block reach) }
{
    let number = (block + 1).saturating_sub(it.first as usize);
    write_block_name(it.source.tree, it.method, word, number, out)?;
    write_piece(b"(", out)?;
    write_arguments(it.method, reach, out)?;
    write_piece(b")", out)
}

// ---- the body of a block

fn write_run<S: Sink>(it: &Calls, block: usize, out: &mut S) -> Result<(), SinkFailed>
    requires { block < 2 ^ 63 }
    ensures { Wrote (S.seen out.old) (S.seen out.new) result (run_op (method_seen it.now) block) }
{
    if works_at(it, block) {
        return write_work(it, block, out);
    }
    write_own_run(it, block, out)
}

fn write_own_run<S: Sink>(it: &Calls, block: usize, out: &mut S) -> Result<(), SinkFailed>
    requires { block < 2 ^ 63 }
    ensures { Wrote (S.seen out.old) (S.seen out.new) result (own_run (method_seen it.now) block) }
{
    if !fails_at(it, block) {
        return write_plain_run(it, block, b";\n", out);
    }
    if !waits_at(it, block) {
        return write_plain_run(it, block, b"?;\n", out);
    }
    write_guarded_run(it, block, out)
}

fn write_plain_run<S: Sink>(
    it: &Calls,
    block: usize,
    ending: &[u8],
    out: &mut S,
) -> Result<(), SinkFailed>
    requires { block < 2 ^ 63 }
    ensures { Wrote (S.seen out.old) (S.seen out.new) result
        (plain_run (method_seen it.now) block ending.now) }
{
    write_let(it, block, out)?;
    write_call(it, block, out)?;
    write_piece(ending, out)
}

pub(crate) fn write_let<S: Sink>(it: &Calls, block: usize, out: &mut S) -> Result<(), SinkFailed>
    ensures { Wrote (S.seen out.old) (S.seen out.new) result
        (let_text (answer_of it.now.source.now.monitor.now block)) }
{
    write_piece(let_bytes(answer_of(it.source.monitor, block)), out)
}

fn let_bytes(answer: Option<Kind>) -> &'static [u8]
    ensures { result.now ≡ let_text answer }
{
    match answer {
        None => b"        ",
        Some(_) => b"        let answer = ",
    }
}

// `inner.state.run_put(amount)`
fn write_call<S: Sink>(it: &Calls, block: usize, out: &mut S) -> Result<(), SinkFailed>
    requires { block < 2 ^ 63 }
    ensures { Wrote (S.seen out.old) (S.seen out.new) result
        (call_text (method_seen it.now) block) }
{
    write_piece(b"inner.state.", out)?;
    write_own_call(it, b"run", block, Reach::Lent, out)
}

// A body that may fail in a block that waits.
fn write_guarded_run<S: Sink>(it: &Calls, block: usize, out: &mut S) -> Result<(), SinkFailed>
    requires { block < 2 ^ 63 }
    ensures { Wrote (S.seen out.old) (S.seen out.new) result
        (guarded_run (method_seen it.now) block) }
{
    write_let_ok(it, block, out)?;
    write_call(it, block, out)?;
    write_overflow(it, block, out)
}

fn write_overflow<S: Sink>(it: &Calls, block: usize, out: &mut S) -> Result<(), SinkFailed>
    ensures { Wrote (S.seen out.old) (S.seen out.new) result
        (around_name (seen it.now.source.now) (codes " else {\n            self.")
        (block_condition it.now.source.now.monitor.now block)
        (guarded_end (may_refuse it.now.way))) }
{
    write_around_own_name(
        it,
        b" else {\n            self.",
        block,
        guarded_end(may_refuse(it.way)),
        out,
    )
}

fn guarded_end(refused: bool) -> &'static [u8]
    ensures { result.now ≡ guarded_end refused }
{
    if refused {
        b".notify_one();\n            return Err(Failed::Overflow);\n        };\n"
    } else {
        b".notify_one();\n            return Err(Overflow);\n        };\n"
    }
}

fn write_let_ok<S: Sink>(it: &Calls, block: usize, out: &mut S) -> Result<(), SinkFailed>
    ensures { Wrote (S.seen out.old) (S.seen out.new) result
        (codes "        let Ok(" ++ answer_name (answer_of it.now.source.now.monitor.now block)
        ++ codes ") = ") }
{
    let name = answer_bytes(answer_of(it.source.monitor, block));
    write_pieces(&[b"        let Ok(", name, b") = "], out)
}

fn answer_bytes(answer: Option<Kind>) -> &'static [u8]
    ensures { result.now ≡ answer_name answer }
{
    match answer {
        None => b"()",
        Some(_) => b"answer",
    }
}

// ---- what comes after the body

// The mutex is given back, and the notes come next.
fn write_told<S: Sink>(it: &Calls, block: usize, out: &mut S) -> Result<(), SinkFailed>
    ensures { Wrote (S.seen out.old) (S.seen out.new) result (told_ops (method_seen it.now) block) }
{
    write_release(it.source, notes_of(it.source.plan, block), out)
}

fn write_release<S: Sink>(source: &Source, notes: &[Note], out: &mut S) -> Result<(), SinkFailed>
    ensures { Wrote (S.seen out.old) (S.seen out.new) result
        (release_text (seen source.now) (heard_notes source.now.monitor.now notes.now)) }
{
    if !are_heard(source, notes) {
        return write_piece(b"        drop(inner);\n", out);
    }
    write_copy(source, notes, out)
}

// With a copy of what the mutex guarded.
fn write_copy<S: Sink>(source: &Source, notes: &[Note], out: &mut S) -> Result<(), SinkFailed>
    ensures { Wrote (S.seen out.old) (S.seen out.new) result
        (codes "        let copy = inner.copy();\n        drop(inner);\n"
        ++ heard_texts (seen source.now) notes.now) }
{
    write_piece(
        b"        let copy = inner.copy();\n        drop(inner);\n",
        out,
    )?;
    write_heard_notes(source, notes, out)
}

// Those notes that someone may hear.
fn write_heard_notes<S: Sink>(
    source: &Source,
    notes: &[Note],
    out: &mut S,
) -> Result<(), SinkFailed>
    ensures { Wrote (S.seen out.old) (S.seen out.new) result
        (heard_texts (seen source.now) notes.now) }
{
    for note in notes {
        write_heard(source, *note, out)?;
    }
    Ok(())
}

fn write_heard<S: Sink>(source: &Source, note: Note, out: &mut S) -> Result<(), SinkFailed>
    ensures { Wrote (S.seen out.old) (S.seen out.new) result (heard_text (seen source.now) note) }
{
    if !is_waited_on(source.monitor, note.condition) {
        return Ok(());
    }
    write_note(source, note, out)
}

fn write_note<S: Sink>(source: &Source, note: Note, out: &mut S) -> Result<(), SinkFailed>
    ensures { Wrote (S.seen out.old) (S.seen out.new) result (note_text (seen source.now) note) }
{
    write_around_count(source, b"        if copy.", note.condition, b" > 0", out)?;
    write_note_test(source, note, out)?;
    write_piece(b" {\n    ", out)?;
    write_notify(source, note, out)?;
    write_piece(b"        }\n", out)
}

// A tested note reads the copy of the state.
fn write_note_test<S: Sink>(source: &Source, note: Note, out: &mut S) -> Result<(), SinkFailed>
    ensures { Wrote (S.seen out.old) (S.seen out.new) result (note_test (seen source.now) note) }
{
    if note.tested {
        return write_around_name(source, b" && copy.state.", note.condition, b"()", out);
    }
    Ok(())
}

// `self.can_get.notify_one();`
fn write_notify<S: Sink>(source: &Source, note: Note, out: &mut S) -> Result<(), SinkFailed>
    ensures { Wrote (S.seen out.old) (S.seen out.new) result (notify_text (seen source.now) note) }
{
    write_around_name(
        source,
        b"        self.",
        note.condition,
        notify_bytes(note.all),
        out,
    )
}

fn notify_bytes(all: bool) -> &'static [u8]
    ensures { result.now ≡ notify_call all }
{
    if all {
        b".notify_all();\n"
    } else {
        b".notify_one();\n"
    }
}

// ---- the end of a method

/// Writes what a method answers at its end. It takes no memory.
///
/// After `SinkFailed` the first bytes were taken, fewer than all and maybe none.
pub fn write_end<S: Sink>(it: &Calls, out: &mut S) -> Result<(), SinkFailed>
    ensures { Wrote (S.seen out.old) (S.seen out.new) result (end_text (method_seen it.now)) }
{
    if it.works {
        return write_piece(work_end(it.fails, may_refuse(it.way)), out);
    }
    write_own_end(it.fails, may_refuse(it.way), it.answer, out)
}

// By whether it may fail, and whether its calls may be refused, where it is given no function.
fn write_own_end<S: Sink>(
    fails: bool,
    refused: bool,
    answer: Option<Kind>,
    out: &mut S,
) -> Result<(), SinkFailed>
    ensures { Wrote (S.seen out.old) (S.seen out.new) result (own_end fails refused answer) }
{
    if !is_wrapped(fails, refused) {
        return write_piece(plain_end(answer), out);
    }
    write_wrapped_end(answer, out)
}

// Whether the answer is a `Result`.
fn is_wrapped(fails: bool, refused: bool) -> bool
    ensures { result ≡ (fails || refused) }
{
    fails || refused
}

fn write_wrapped_end<S: Sink>(answer: Option<Kind>, out: &mut S) -> Result<(), SinkFailed>
    ensures { Wrote (S.seen out.old) (S.seen out.new) result
        (codes "        Ok(" ++ answer_name answer ++ codes ")\n") }
{
    write_pieces(&[b"        Ok(", answer_bytes(answer), b")\n"], out)
}

fn plain_end(answer: Option<Kind>) -> &'static [u8]
    ensures { result.now ≡ plain_end answer }
{
    match answer {
        None => b"",
        Some(_) => b"        answer\n",
    }
}
