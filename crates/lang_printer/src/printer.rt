//! The canonical form of a monitor, written to a sink.

ghost use Rattle.std.specs.Prelude.{◌≡◌, ◌++◌, codes};
ghost use Rattle.std.specs.List.{flat_map};
ghost use Rattle.lang_printer.specs.Canonical.{tree_text, declared_text, guarded_text, lines_text};
ghost use Rattle.lang_printer.specs.Canonical.{blocks_text, method_text, input_texts, kind_text};
ghost use Rattle.lang_printer.specs.Canonical.{literal_text, minus_text, opening_text, joined};
ghost use Rattle.lang_printer.specs.Canonical.{limit_sign_text, limit_text};
ghost use Rattle.lang_printer.specs.Depths.{levels};
ghost use Rattle.base_io.specs.Writing.{Wrote};

pub(crate) mod clients;
mod depth;
pub(crate) mod expressions;
pub(crate) mod shown;
mod statements;

use base_io::{Sink, SinkFailed, write_piece, write_pieces};
use depth::Depth;
use expressions::{truth_bytes, write_around};
use itoa::Buffer;
use lang_base::{Kind, Name};
use lang_tree::{BlockTree, Decl, InputTree, LimitSign, LimitTree, Lit, MethodTree, MonitorTree};
use statements::write_block;

/// Writes a monitor in canonical form, piece by piece. It takes no memory.
///
/// After `SinkFailed` the first bytes were taken, fewer than all and maybe none.
pub fn print_monitor<S: Sink>(tree: &MonitorTree, out: &mut S) -> Result<(), SinkFailed>
    ensures { Wrote (S.seen out.old) (S.seen out.new) result (tree_text tree.now) }
{
    write_pieces(&[b"monitor ", tree.name.bytes(), b" {\n"], out)?;
    write_declarations(b"  ", tree.decls.items(), out)?;
    write_methods(tree.methods.items(), out)?;
    write_piece(b"}\n", out)
}

// ---- declarations

// Each after the same first bytes.
fn write_declarations<S: Sink>(
    lead: &[u8],
    declarations: &[Decl],
    out: &mut S,
) -> Result<(), SinkFailed>
    ensures { Wrote (S.seen out.old) (S.seen out.new) result
        (flat_map (λ declaration. lead.now ++ declared_text declaration) declarations.now) }
{
    for declaration in declarations {
        write_declaration(lead, declaration, out)?;
    }
    Ok(())
}

fn write_declaration<S: Sink>(
    lead: &[u8],
    declaration: &Decl,
    out: &mut S,
) -> Result<(), SinkFailed>
    ensures { Wrote (S.seen out.old) (S.seen out.new) result
        (lead.now ++ declared_text declaration.now) }
{
    write_piece(lead, out)?;
    write_declared(declaration, out)
}

fn write_declared<S: Sink>(declaration: &Decl, out: &mut S) -> Result<(), SinkFailed>
    ensures { Wrote (S.seen out.old) (S.seen out.new) result (declared_text declaration.now) }
{
    match declaration {
        Decl::Const { name, value, .. } => write_number(b"const ", name, *value, b";\n", out),
        Decl::Param {
            name,
            value,
            limit,
            ..
        } => write_parameter(name, *value, limit, out),
        Decl::Int { name, value, .. } => write_number(b"int ", name, *value, b";\n", out),
        Decl::Copied { name, source, .. } => {
            write_valued(b"int ", name, b"", source.name.bytes(), b";\n", out)
        }
        Decl::Flag { name, value, .. } => {
            write_valued(b"bool ", name, b"", truth_bytes(*value), b";\n", out)
        }
    }
}

fn write_parameter<S: Sink>(
    name: &Name,
    value: Lit,
    limit: &LimitTree,
    out: &mut S,
) -> Result<(), SinkFailed>
    ensures { Wrote (S.seen out.old) (S.seen out.new) result
        (codes "param " ++ name.now ++ codes " = " ++ literal_text value ++ codes " where ("
        ++ limit_text limit.now ++ codes ");\n") }
{
    write_number(b"param ", name, value, b" where (", out)?;
    write_limit(&limit.subject.name, limit.sign, limit.bound, out)
}

// The condition of a parameter, and what ends its line.
fn write_limit<S: Sink>(
    subject: &Name,
    sign: LimitSign,
    bound: Lit,
    out: &mut S,
) -> Result<(), SinkFailed>
    ensures { Wrote (S.seen out.old) (S.seen out.new) result
        (subject.now ++ limit_sign_text sign ++ literal_text bound ++ codes ");\n") }
{
    let mut buffer = Buffer::new();
    let digits = buffer.format(bound.digits).as_bytes();
    write_compared(
        subject,
        limit_sign_bytes(sign),
        minus_bytes(bound.minus),
        digits,
        out,
    )
}

fn write_compared<'a, S: Sink>(
    subject: &'a Name,
    sign: &'a [u8],
    minus: &'a [u8],
    digits: &'a [u8],
    out: &mut S,
) -> Result<(), SinkFailed>
    ensures { Wrote (S.seen out.old) (S.seen out.new) result
        (subject.now ++ sign.now ++ (minus.now ++ digits.now) ++ codes ");\n") }
{
    write_pieces(&[subject.bytes(), sign, minus, digits, b");\n"], out)
}

/// The sign of a parameter's condition, between spaces: ` == `, ` < `, ` <= `, ` > ` or ` >= `.
pub fn limit_sign_bytes(sign: LimitSign) -> &'static [u8]
    ensures { result.now ≡ limit_sign_text sign }
{
    match sign {
        LimitSign::Equal => b" == ",
        LimitSign::Less => b" < ",
        LimitSign::AtMost => b" <= ",
        LimitSign::More => b" > ",
        LimitSign::AtLeast => b" >= ",
    }
}

// A name and a number, with what stands before and after them.
fn write_number<S: Sink>(
    kind: &[u8],
    name: &Name,
    value: Lit,
    after: &[u8],
    out: &mut S,
) -> Result<(), SinkFailed>
    ensures { Wrote (S.seen out.old) (S.seen out.new) result
        (kind.now ++ name.now ++ codes " = " ++ literal_text value ++ after.now) }
{
    let mut buffer = Buffer::new();
    let digits = buffer.format(value.digits).as_bytes();
    write_valued(kind, name, minus_bytes(value.minus), digits, after, out)
}

fn write_valued<'a, S: Sink>(
    kind: &'a [u8],
    name: &'a Name,
    minus: &'a [u8],
    value: &'a [u8],
    after: &'a [u8],
    out: &mut S,
) -> Result<(), SinkFailed>
    ensures { Wrote (S.seen out.old) (S.seen out.new) result
        (kind.now ++ name.now ++ codes " = " ++ (minus.now ++ value.now) ++ after.now) }
{
    write_pieces(&[kind, name.bytes(), b" = ", minus, value, after], out)
}

fn minus_bytes(minus: bool) -> &'static [u8]
    ensures { result.now ≡ minus_text minus }
{
    if minus { b"-" } else { b"" }
}

// ---- methods

fn write_methods<S: Sink>(methods: &[MethodTree], out: &mut S) -> Result<(), SinkFailed>
    ensures { Wrote (S.seen out.old) (S.seen out.new) result (flat_map method_text methods.now) }
{
    for method in methods {
        write_method(method, out)?;
    }
    Ok(())
}

fn write_method<S: Sink>(method: &MethodTree, out: &mut S) -> Result<(), SinkFailed>
    ensures { Wrote (S.seen out.old) (S.seen out.new) result (method_text method.now) }
{
    write_pieces(&[b"  method ", method.name.bytes(), b"("], out)?;
    write_inputs(method.inputs.items(), out)?;
    write_piece(b")", out)?;
    let opening = opening_bytes(method.asserts);
    write_blocks(opening, method.locals.items(), method.blocks.items(), out)
}

// What stands before a guard.
fn opening_bytes(asserts: bool) -> &'static [u8]
    ensures { result.now ≡ opening_text asserts }
{
    if asserts {
        b"asserts ("
    } else {
        b"waituntil ("
    }
}

// The locals and blocks of a method. One block without locals goes on in the method's line.
fn write_blocks<S: Sink>(
    opening: &[u8],
    locals: &[Decl],
    blocks: &[BlockTree],
    out: &mut S,
) -> Result<(), SinkFailed>
    ensures { Wrote (S.seen out.old) (S.seen out.new) result
        (blocks_text opening.now locals.now blocks.now) }
{
    if locals.is_empty() && blocks.len() == 1 {
        return write_guarded(
            b" ",
            opening,
            &blocks[0],
            &Depth::Below(&Depth::Margin),
            out,
        );
    }
    write_lines(opening, locals, blocks, out)
}

// Locals and blocks on lines of their own.
fn write_lines<S: Sink>(
    opening: &[u8],
    locals: &[Decl],
    blocks: &[BlockTree],
    out: &mut S,
) -> Result<(), SinkFailed>
    ensures { Wrote (S.seen out.old) (S.seen out.new) result
        (lines_text opening.now locals.now blocks.now) }
{
    write_piece(b"\n", out)?;
    write_declarations(b"    local ", locals, out)?;
    write_each(
        opening,
        blocks,
        &Depth::Below(&Depth::Below(&Depth::Margin)),
        out,
    )
}

fn write_each<S: Sink>(
    opening: &[u8],
    blocks: &[BlockTree],
    depth: &Depth,
    out: &mut S,
) -> Result<(), SinkFailed>
    ensures { Wrote (S.seen out.old) (S.seen out.new) result
        (flat_map (λ block. codes "    " ++ guarded_text opening.now (levels depth.now) block)
        blocks.now) }
{
    for block in blocks {
        write_guarded(b"    ", opening, block, depth, out)?;
    }
    Ok(())
}

// A block at this depth, after what stands before it in its line and what opens it.
fn write_guarded<'a, S: Sink>(
    lead: &'a [u8],
    opening: &'a [u8],
    block: &BlockTree,
    depth: &Depth,
    out: &mut S,
) -> Result<(), SinkFailed>
    ensures { Wrote (S.seen out.old) (S.seen out.new) result
        (lead.now ++ guarded_text opening.now (levels depth.now) block.now) }
{
    write_around(&[lead, opening], &block.guard, b") {\n", out)?;
    write_block(block.body.items(), depth, out)?;
    write_piece(b"\n", out)
}

fn write_inputs<S: Sink>(inputs: &[InputTree], out: &mut S) -> Result<(), SinkFailed>
    ensures { Wrote (S.seen out.old) (S.seen out.new) result
        (joined (codes ", ") (input_texts inputs.now)) }
{
    let [first, rest @ ..] = inputs else {
        return Ok(());
    };
    write_input(b"", kind_bytes(first.kind), &first.name, out)?;
    for input in rest {
        write_input(b", ", kind_bytes(input.kind), &input.name, out)?;
    }
    Ok(())
}

// An input after what separates it from the one before.
fn write_input<'a, S: Sink>(
    sign: &'a [u8],
    kind: &'a [u8],
    name: &'a Name,
    out: &mut S,
) -> Result<(), SinkFailed>
    ensures { Wrote (S.seen out.old) (S.seen out.new) result (sign.now ++ (kind.now ++ name.now)) }
{
    write_pieces(&[sign, kind, name.bytes()], out)
}

fn kind_bytes(kind: Kind) -> &'static [u8]
    ensures { result.now ≡ kind_text kind }
{
    match kind {
        Kind::Int => b"int ",
        Kind::Bool => b"bool ",
    }
}
