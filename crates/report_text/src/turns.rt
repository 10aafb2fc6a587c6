//! The text of a run by rounds.

ghost use Rattle.std.specs.Prelude.{◌≡◌, ◌-◌, ◌++◌, codes, map, slice_get};
ghost use Rattle.std.specs.List.{flat_map};
ghost use Rattle.std.specs.Option.{option_copied, option_map_or};
ghost use Rattle.base_io.specs.Writing.{Wrote};
ghost use Rattle.lang_printer.specs.Canonical.{joined};
ghost use Rattle.machine_implicit.specs.Scripted.{blocks_in, calls_of};
ghost use Rattle.report_text.specs.TurnsText.{value_text, client_name, called_text};
ghost use Rattle.report_text.specs.TurnsText.{numbers_text, call_text, commit_text, fields_text};
ghost use Rattle.report_text.specs.TurnsText.{state_text, ended_text, last_of, turns_text};

use crate::ending::{Left, write_end};
use crate::naming::{method_bytes, write_mark};
use crate::values::{reply_bytes, value_bytes};
use base_io::{Sink, SinkFailed, write_piece, write_pieces};
use itoa::Buffer;
use lang_base::Value;
use lang_monitor::{Field, Monitor};
use lang_printer::try_bytes;
use machine_implicit::{Call, Client, Commit, Scripts, State, Turns};

/// Writes a run: a line for each commit, then how it ended, then the last state. It takes no
/// memory.
///
/// After `SinkFailed` the first bytes of the text were taken, fewer than all and maybe none.
pub fn write_turns<S: Sink>(
    monitor: &Monitor,
    scripts: &Scripts,
    turns: &Turns,
    out: &mut S,
) -> Result<(), SinkFailed>
    ensures { Wrote (S.seen out.old) (S.seen out.new) result
        (turns_text monitor.now scripts.now turns.now) }
{
    let clients = scripts.clients();
    write_commits(monitor, clients, turns.history.items(), out)?;
    write_ended(monitor, clients, turns, out)
}

// How a run ended, then the last state.
fn write_ended<S: Sink>(
    monitor: &Monitor,
    clients: &[Client],
    turns: &Turns,
    out: &mut S,
) -> Result<(), SinkFailed>
    ensures { Wrote (S.seen out.old) (S.seen out.new) result
        (ended_text monitor.now clients.now (last_of turns.now) turns.now.finished) }
{
    let left = Left::Run(turns.places.items());
    write_end(monitor, clients, &left, turns.finished, out)?;
    write_state(monitor, &turns.state, out)
}

// A line for each commit.
fn write_commits<S: Sink>(
    monitor: &Monitor,
    clients: &[Client],
    history: &[Commit],
    out: &mut S,
) -> Result<(), SinkFailed>
    ensures { Wrote (S.seen out.old) (S.seen out.new) result
        (flat_map (commit_text monitor.now clients.now) history.now) }
{
    for commit in history {
        write_commit(monitor, clients, commit, out)?;
    }
    Ok(())
}

// `A.1 put(3, true) = -` and a line feed.
fn write_commit<S: Sink>(
    monitor: &Monitor,
    clients: &[Client],
    commit: &Commit,
    out: &mut S,
) -> Result<(), SinkFailed>
    ensures { Wrote (S.seen out.old) (S.seen out.new) result
        (commit_text monitor.now clients.now commit.now) }
{
    let (client, call) = (commit.client as usize, commit.call as usize);
    write_call(monitor, clients, client, call, commit.block as usize, out)?;
    let mut digits = Buffer::new();
    write_pieces(
        &[b" = ", reply_bytes(commit.reply, &mut digits), b"\n"],
        out,
    )
}

// `A.1 put(3, true)`, or `A.1.2 pair()`: a client, its call and the block of that call, by their
// numbers from 1.
pub(crate) fn write_call<S: Sink>(
    monitor: &Monitor,
    clients: &[Client],
    client: usize,
    number: usize,
    block: usize,
    out: &mut S,
) -> Result<(), SinkFailed>
    ensures { Wrote (S.seen out.old) (S.seen out.new) result
        (call_text monitor.now clients.now client number block) }
{
    let call = called(clients, client, number);
    write_pieces(&[name_of(clients, client), b"."], out)?;
    write_numbers(blocks_of(monitor, call), number, block, out)?;
    write_piece(b" ", out)?;
    write_called(monitor, call, out)
}

// `1`, or `1.2` for a method of several blocks: a call and its block.
fn write_numbers<S: Sink>(
    count: u32,
    number: usize,
    block: usize,
    out: &mut S,
) -> Result<(), SinkFailed>
    ensures { Wrote (S.seen out.old) (S.seen out.new) result (numbers_text count number block) }
{
    let mut digits = Buffer::new();
    write_piece(digits.format(number).as_bytes(), out)?;
    write_mark(count, block, out)
}

// How many blocks a call has, and none where there is no call.
fn blocks_of(monitor: &Monitor, call: Option<&Call>) -> u32
    ensures { result ≡ option_map_or (blocks_in monitor.now) (option_copied call.entry) 0 }
{
    let Some(call) = call else {
        return 0;
    };
    match monitor.methods().get(call.method as usize) {
        Some(method) => method.count,
        None => 0,
    }
}

// `put(3, true)` or `try put(3, true)`: a method's name and the inputs of the call, or `()` where
// there is no call.
fn write_called<S: Sink>(
    monitor: &Monitor,
    call: Option<&Call>,
    out: &mut S,
) -> Result<(), SinkFailed>
    ensures { Wrote (S.seen out.old) (S.seen out.new) result
        (called_text monitor.now (option_copied call.entry)) }
{
    match call {
        Some(call) => {
            let name = method_bytes(monitor, call.method);
            write_begun(try_bytes(call.tries), name, out)?;
            write_inputs(call.inputs.items(), out)?;
            write_piece(b")", out)
        }
        None => write_piece(b"()", out),
    }
}

// `put(` or `try put(`.
fn write_begun<'a, S: Sink>(tries: &'a [u8], name: &'a [u8], out: &mut S) -> Result<(), SinkFailed>
    ensures { Wrote (S.seen out.old) (S.seen out.new) result
        (tries.now ++ (name.now ++ codes "(")) }
{
    write_pieces(&[tries, name, b"("], out)
}

// `3, true`: inputs with `, ` between them.
fn write_inputs<S: Sink>(inputs: &[Value], out: &mut S) -> Result<(), SinkFailed>
    ensures { Wrote (S.seen out.old) (S.seen out.new) result
        (joined (codes ", ") (map value_text inputs.now)) }
{
    let [first, rest @ ..] = inputs else {
        return Ok(());
    };
    let mut digits = Buffer::new();
    write_piece(value_bytes(*first, &mut digits), out)?;
    write_more_inputs(rest, out)
}

// `, true` for each of these inputs.
fn write_more_inputs<S: Sink>(inputs: &[Value], out: &mut S) -> Result<(), SinkFailed>
    ensures { Wrote (S.seen out.old) (S.seen out.new) result
        (flat_map (λ input. codes ", " ++ value_text input) inputs.now) }
{
    for input in inputs {
        let mut digits = Buffer::new();
        write_pieces(&[b", ", value_bytes(*input, &mut digits)], out)?;
    }
    Ok(())
}

// The name of a client, or nothing where there is none.
pub(crate) fn name_of(clients: &[Client], client: usize) -> &[u8]
    ensures { result.now ≡ client_name (slice_get clients.now client) }
{
    match clients.get(client) {
        Some(client) => client.name.bytes(),
        None => b"",
    }
}

// The calls of a client, or none where there is no such client.
pub(crate) fn calls(clients: &[Client], client: usize) -> &[Call]
    ensures { result.now ≡ calls_of clients.now client }
{
    match clients.get(client) {
        Some(client) => client.calls.items(),
        None => &[],
    }
}

// A client's call, by its number from 1, where there is one.
fn called(clients: &[Client], client: usize, number: usize) -> Option<&Call>
    ensures { option_copied result ≡ slice_get (calls_of clients.now client) (number - 1) }
{
    calls(clients, client).get(number.saturating_sub(1))
}

// `state x=1 b=true` and a line feed.
pub(crate) fn write_state<S: Sink>(
    monitor: &Monitor,
    state: &State,
    out: &mut S,
) -> Result<(), SinkFailed>
    ensures { Wrote (S.seen out.old) (S.seen out.new) result (state_text monitor.now state.now) }
{
    write_piece(b"state", out)?;
    write_fields(monitor.fields(), state.values(), out)?;
    write_piece(b"\n", out)
}

// ` name=value` for each field, as far as there are values.
fn write_fields<S: Sink>(fields: &[Field], values: &[Value], out: &mut S) -> Result<(), SinkFailed>
    ensures { Wrote (S.seen out.old) (S.seen out.new) result (fields_text fields.now values.now) }
{
    for (field, value) in fields.iter().zip(values) {
        write_field(field, *value, out)?;
    }
    Ok(())
}

// ` name=value`
fn write_field<S: Sink>(field: &Field, value: Value, out: &mut S) -> Result<(), SinkFailed>
    ensures { Wrote (S.seen out.old) (S.seen out.new) result
        (codes " " ++ field.now.name ++ codes "=" ++ value_text value) }
{
    let mut digits = Buffer::new();
    let value = value_bytes(value, &mut digits);
    write_pieces(&[b" ", field.name.bytes(), b"=", value], out)
}
