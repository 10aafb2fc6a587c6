//! The canonical form of a client file, written to a sink.

ghost use Rattle.std.specs.Prelude.{◌≡◌, ◌++◌, codes, decimal};
ghost use Rattle.std.specs.List.{flat_map};
ghost use Rattle.lang_printer.specs.Canonical.{indent, literal_text};
ghost use Rattle.lang_printer.specs.CanonicalClients.{argument_text, arguments_text, client_text};
ghost use Rattle.lang_printer.specs.CanonicalClients.{clients_text, item_text, try_text};
ghost use Rattle.lang_printer.specs.Printing.{body_text, items_text};
ghost use Rattle.lang_printer.specs.Depths.{levels};
ghost use Rattle.base_io.specs.Writing.{Wrote};

use super::depth::{Depth, write_indent};
use super::expressions::truth_bytes;
use super::minus_bytes;
use base_io::{Sink, SinkFailed, write_piece, write_pieces};
use itoa::Buffer;
use lang_base::Name;
use lang_tree::{Arg, ClientTree, ClientsTree, Item, Lit};

/// Writes a client file in canonical form, piece by piece. It takes no memory.
///
/// After `SinkFailed` the first bytes were taken, fewer than all and maybe none.
pub fn print_clients<S: Sink>(tree: &ClientsTree, out: &mut S) -> Result<(), SinkFailed>
    ensures { Wrote (S.seen out.old) (S.seen out.new) result (clients_text tree.now) }
{
    write_clients(tree.clients.items(), out)
}

fn write_clients<S: Sink>(clients: &[ClientTree], out: &mut S) -> Result<(), SinkFailed>
    ensures { Wrote (S.seen out.old) (S.seen out.new) result (flat_map client_text clients.now) }
{
    for client in clients {
        write_client(client, out)?;
    }
    Ok(())
}

fn write_client<S: Sink>(client: &ClientTree, out: &mut S) -> Result<(), SinkFailed>
    ensures { Wrote (S.seen out.old) (S.seen out.new) result (client_text client.now) }
{
    write_pieces(&[b"client ", client.name.bytes(), b" {\n"], out)?;
    write_body(client.items.items(), &Depth::Margin, out)
}

// ---- items

// Items one level deeper, and the line that ends them.
#[cycle(write_item)]
fn write_body<S: Sink>(items: &[Item], depth: &Depth, out: &mut S) -> Result<(), SinkFailed>
    ensures { Wrote (S.seen out.old) (S.seen out.new) result
        (body_text (levels depth.now) items.now) }
{
    write_items(items, &Depth::Below(&*depth), out)?;
    write_indent(depth, out)?;
    write_piece(b"}\n", out)
}

#[cycle(write_item)]
fn write_items<S: Sink>(items: &[Item], depth: &Depth, out: &mut S) -> Result<(), SinkFailed>
    ensures { Wrote (S.seen out.old) (S.seen out.new) result
        (items_text (levels depth.now) items.now) }
{
    for item in items {
        write_item(item, depth, out)?;
    }
    Ok(())
}

#[cycle(write_item)]
fn write_item<S: Sink>(item: &Item, depth: &Depth, out: &mut S) -> Result<(), SinkFailed>
    ensures { Wrote (S.seen out.old) (S.seen out.new) result
        (item_text item.now (levels depth.now)) }
{
    match item {
        Item::Call {
            tries,
            name,
            args,
            ..
        } => write_call(*tries, name, args.items(), depth, out),
        Item::Repeat { times, items, .. } => {
            write_times(*times, depth, out)?;
            write_body(items.items(), depth, out)
        }
    }
}

// The line that a repeat begins with.
fn write_times<S: Sink>(times: u128, depth: &Depth, out: &mut S) -> Result<(), SinkFailed>
    ensures { Wrote (S.seen out.old) (S.seen out.new) result
        (indent (levels depth.now) ++ (codes "repeat " ++ decimal times ++ codes " {\n")) }
{
    write_indent(depth, out)?;
    let mut buffer = Buffer::new();
    let digits = buffer.format(times).as_bytes();
    write_pieces(&[b"repeat ", digits, b" {\n"], out)
}

// ---- calls

fn write_call<S: Sink>(
    tries: bool,
    name: &Name,
    given: &[Arg],
    depth: &Depth,
    out: &mut S,
) -> Result<(), SinkFailed>
    ensures { Wrote (S.seen out.old) (S.seen out.new) result
        (indent (levels depth.now)
        ++ (try_text tries ++ (name.now ++ codes "(")) ++ arguments_text given.now
        ++ codes ");\n") }
{
    write_indent(depth, out)?;
    write_called(try_bytes(tries), name, out)?;
    write_arguments(given, out)?;
    write_piece(b");\n", out)
}

// A call's name after what stands before it.
fn write_called<'a, S: Sink>(word: &'a [u8], name: &'a Name, out: &mut S) -> Result<(), SinkFailed>
    ensures { Wrote (S.seen out.old) (S.seen out.new) result
        (word.now ++ (name.now ++ codes "(")) }
{
    write_pieces(&[word, name.bytes(), b"("], out)
}

/// What stands before the name of a call.
pub fn try_bytes(tries: bool) -> &'static [u8]
    ensures { result.now ≡ try_text tries }
{
    if tries { b"try " } else { b"" }
}

fn write_arguments<S: Sink>(given: &[Arg], out: &mut S) -> Result<(), SinkFailed>
    ensures { Wrote (S.seen out.old) (S.seen out.new) result (arguments_text given.now) }
{
    let [first, rest @ ..] = given else {
        return Ok(());
    };
    write_argument(b"", first, out)?;
    for argument in rest {
        write_argument(b", ", argument, out)?;
    }
    Ok(())
}

// An argument after what separates it from the one before.
fn write_argument<S: Sink>(sign: &[u8], argument: &Arg, out: &mut S) -> Result<(), SinkFailed>
    ensures { Wrote (S.seen out.old) (S.seen out.new) result
        (sign.now ++ argument_text argument.now) }
{
    match argument {
        Arg::Int { value, .. } => write_signed(sign, *value, out),
        Arg::Bool { value, .. } => write_separated(sign, b"", truth_bytes(*value), out),
    }
}

fn write_signed<S: Sink>(sign: &[u8], value: Lit, out: &mut S) -> Result<(), SinkFailed>
    ensures { Wrote (S.seen out.old) (S.seen out.new) result (sign.now ++ literal_text value) }
{
    let mut buffer = Buffer::new();
    let digits = buffer.format(value.digits).as_bytes();
    write_separated(sign, minus_bytes(value.minus), digits, out)
}

fn write_separated<'a, S: Sink>(
    sign: &'a [u8],
    minus: &'a [u8],
    value: &'a [u8],
    out: &mut S,
) -> Result<(), SinkFailed>
    ensures { Wrote (S.seen out.old) (S.seen out.new) result
        (sign.now ++ (minus.now ++ value.now)) }
{
    write_pieces(&[sign, minus, value], out)
}
