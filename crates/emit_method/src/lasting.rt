//! The methods whose calls wait for a time: each is one of two others.

ghost use Rattle.std.specs.Prelude.{◌≡◌, length};
ghost use Rattle.base_io.specs.Writing.{Wrote};
ghost use Rattle.emit_statements.specs.Conditions.{comma_text};
ghost use Rattle.emit_statements.specs.Statements.{method_seen};
ghost use Rattle.emit_method.specs.Lasting.{after_call, answers_by, before_call, end_given};
ghost use Rattle.emit_method.specs.Lasting.{ending_call, function_given, lasting_lines};
ghost use Rattle.emit_method.specs.Lasting.{parameters_given, waiting_call};

use crate::called::write_name_of;
use base_io::{Sink, SinkFailed, write_piece};
use emit_statements::{Calls, Way, comma_bytes, write_handed_parameters};
use lang_base::Kind;
use lang_tree::MethodTree;

/// Writes the lines of a method whose calls wait for a time.
pub(crate) fn write_lasting_lines<S: Sink>(it: &Calls, out: &mut S) -> Result<(), SinkFailed>
    ensures { Wrote (S.seen out.old) (S.seen out.new) result (lasting_lines (method_seen it.now)) }
{
    write_piece(
        b"        let Some(end) = Instant::now().checked_add(time) else {\n",
        out,
    )?;
    write_before(it, out)?;
    write_waiting_call(it, out)?;
    write_after(it, out)?;
    write_piece(b"        self.", out)?;
    write_ending_call(it, out)?;
    write_piece(b"\n", out)
}

fn write_before<S: Sink>(it: &Calls, out: &mut S) -> Result<(), SinkFailed>
    ensures { Wrote (S.seen out.old) (S.seen out.new) result
        (before_call (answers_by it.now.works it.now.answer)) }
{
    write_piece(before_call(answers_by(it.works, it.answer)), out)
}

fn write_after<S: Sink>(it: &Calls, out: &mut S) -> Result<(), SinkFailed>
    ensures { Wrote (S.seen out.old) (S.seen out.new) result
        (after_call (answers_by it.now.works it.now.answer) it.now.fails) }
{
    write_piece(after_call(answers_by(it.works, it.answer), it.fails), out)
}

// Whether such a call answers something.
fn answers_by(works: bool, answer: Option<Kind>) -> bool
    ensures { result ≡ answers_by works answer }
{
    if works {
        return true;
    }
    match answer {
        None => false,
        Some(_) => true,
    }
}

fn before_call(answers: bool) -> &'static [u8]
    ensures { result.now ≡ before_call answers }
{
    if answers {
        b"            return Ok(self."
    } else {
        b"            self."
    }
}

fn after_call(answers: bool, fails: bool) -> &'static [u8]
    ensures { result.now ≡ after_call answers fails }
{
    match (answers, fails) {
        (true, true) => b"?);\n        };\n",
        (true, false) => b");\n        };\n",
        (false, true) => b"?;\n            return Ok(());\n        };\n",
        (false, false) => b";\n            return Ok(());\n        };\n",
    }
}

// `put(amount)`
fn write_waiting_call<S: Sink>(it: &Calls, out: &mut S) -> Result<(), SinkFailed>
    ensures { Wrote (S.seen out.old) (S.seen out.new) result (waiting_call (method_seen it.now)) }
{
    write_name_of(it, Way::Waits, out)?;
    write_piece(b"(", out)?;
    write_parameters_given(it.method, out)?;
    write_function_given(it, out)?;
    write_piece(b")", out)
}

// `put_until(amount, end)`
fn write_ending_call<S: Sink>(it: &Calls, out: &mut S) -> Result<(), SinkFailed>
    ensures { Wrote (S.seen out.old) (S.seen out.new) result (ending_call (method_seen it.now)) }
{
    write_name_of(it, Way::Until, out)?;
    write_piece(b"(", out)?;
    write_parameters_given(it.method, out)?;
    write_comma(it.method, out)?;
    write_piece(end_given(it.works), out)?;
    write_piece(b")", out)
}

fn write_parameters_given<S: Sink>(method: &MethodTree, out: &mut S) -> Result<(), SinkFailed>
    ensures { Wrote (S.seen out.old) (S.seen out.new) result (parameters_given method.now) }
{
    write_handed_parameters(method, method.inputs.items(), out)
}

// After the parameters.
fn write_comma<S: Sink>(method: &MethodTree, out: &mut S) -> Result<(), SinkFailed>
    ensures { Wrote (S.seen out.old) (S.seen out.new) result
        (comma_text (length method.now.inputs)) }
{
    write_piece(comma_bytes(method.inputs.items().len()), out)
}

fn write_function_given<S: Sink>(it: &Calls, out: &mut S) -> Result<(), SinkFailed>
    ensures { Wrote (S.seen out.old) (S.seen out.new) result
        (function_given it.now.works (length it.now.method.now.inputs)) }
{
    write_piece(
        function_given(it.works, it.method.inputs.items().len()),
        out,
    )
}

fn function_given(works: bool, inputs: usize) -> &'static [u8]
    ensures { result.now ≡ function_given works inputs }
{
    if !works {
        return b"";
    }
    if inputs == 0 { b"f" } else { b", f" }
}

fn end_given(works: bool) -> &'static [u8]
    ensures { result.now ≡ end_given works }
{
    if works { b"end, f" } else { b"end" }
}
