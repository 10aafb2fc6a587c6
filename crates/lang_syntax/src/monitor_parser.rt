//! The parser of monitor files: one function for each production.

ghost use Rattle.std.specs.Prelude.{◌≡◌, ℕ, ◌≤◌, List, IfOk, IfErr, length};
ghost use Rattle.lang_base.specs.Limits.{FILE_BYTES};
ghost use Rattle.lang_tokens.specs.Spelling.{Spells};
ghost use Rattle.lang_tokens.specs.Words.{words};
ghost use Rattle.lang_syntax.specs.Grammar.{IsMonitorFile, Derives};
ghost use Rattle.lang_syntax.specs.Fault.{AnswersEach, IsFault};
ghost use Rattle.lang_cursor.specs.Reading.{AreTokens, Gives};
ghost use Rattle.lang_syntax.specs.inner.Reading.{asserted_at, blocks_at, guarded_at, head_at};
ghost use Rattle.lang_syntax.specs.inner.Reading.{input_at, inputs_at, later_blocks_at};
ghost use Rattle.lang_syntax.specs.inner.Reading.{later_input_at, later_inputs_at, local_at};
ghost use Rattle.lang_syntax.specs.inner.Reading.{locals_at, method_at, method_blocks_at};
ghost use Rattle.lang_syntax.specs.inner.Reading.{methods_at, monitor_at, monitor_file};
ghost use Rattle.lang_syntax.specs.inner.Reading.{some_inputs_at};
ghost use Rattle.lang_cursor.specs.Takes.{Takes};

use super::declaration_parser::{declarations, variable};
use super::statement_parser::{block, condition};
use base_list::Seq;
use lang_base::SourceError;
use lang_base::limits::LEVELS;
use lang_cursor::{Cursor, Stop, fault_of, many, with_first};
use lang_tokens::{Token, TokenKind};
use lang_tree::{BlockTree, Decl, InputTree, MethodTree, MonitorTree, PlacedName};
use std::alloc::Global;

// ---- methods

/// input = ("int" | "bool") ID
#[tactic(auto, unfolding(crate::specs::inner::Reading::input_at))]
fn method_input(alloc: Global, input: &mut Cursor<'_>) -> Result<InputTree, Stop>
    ensures { Takes result input.new (input_at input.old) }
{
    let kind = input.input_kind()?;
    let PlacedName { at, name } = input.ident(alloc)?;
    Ok(InputTree { at, kind, name })
}

/// "," input
#[tactic(auto, unfolding(crate::specs::inner::Reading::later_input_at))]
fn later_input(alloc: Global, input: &mut Cursor<'_>) -> Result<InputTree, Stop>
    ensures { Takes result input.new (later_input_at input.old) }
{
    input.mark(TokenKind::Comma)?;
    method_input(alloc, input)
}

/// ("," input)*
fn later_inputs(alloc: Global, input: &mut Cursor<'_>) -> Result<Seq<InputTree>, Stop>
    ensures { Takes result input.new (later_inputs_at input.old) }
{
    many(
        alloc,
        input,
        |input| input.begins(TokenKind::Comma),
        |input| later_input(alloc, input),
    )
}

/// input ("," input)*
#[tactic(auto, unfolding(crate::specs::inner::Reading::some_inputs_at))]
fn some_inputs(alloc: Global, input: &mut Cursor<'_>) -> Result<Seq<InputTree>, Stop>
    ensures { Takes result input.new (some_inputs_at input.old) }
{
    let first = method_input(alloc, input)?;
    let later = later_inputs(alloc, input)?;
    Ok(with_first(first, later)?)
}

/// [input ("," input)*]
#[tactic(auto, unfolding(crate::specs::inner::Reading::inputs_at))]
fn inputs(alloc: Global, input: &mut Cursor<'_>) -> Result<Seq<InputTree>, Stop>
    ensures { Takes result input.new (inputs_at input.old) }
{
    if !input.begins_input() {
        return Ok(Seq::of(Vec::new(alloc)));
    }
    some_inputs(alloc, input)
}

/// "method" ID "(" inputs ")"
#[tactic(auto, unfolding(crate::specs::inner::Reading::head_at))]
fn head(alloc: Global, input: &mut Cursor<'_>) -> Result<(PlacedName, Seq<InputTree>), Stop>
    ensures { Takes result input.new (head_at input.old) }
{
    input.mark(TokenKind::KeyMethod)?;
    let name = input.ident(alloc)?;
    input.mark(TokenKind::OpenParen)?;
    let inputs = inputs(alloc, input)?;
    input.mark(TokenKind::CloseParen)?;
    Ok((name, inputs))
}

/// local = "local" variable
#[tactic(auto, unfolding(crate::specs::inner::Reading::local_at))]
fn local(alloc: Global, input: &mut Cursor<'_>) -> Result<Decl, Stop>
    ensures { Takes result input.new (local_at input.old) }
{
    input.mark(TokenKind::KeyLocal)?;
    variable(alloc, input)
}

/// local*
fn locals(alloc: Global, input: &mut Cursor<'_>) -> Result<Seq<Decl>, Stop>
    ensures { Takes result input.new (locals_at input.old) }
{
    many(
        alloc,
        input,
        |input| input.begins(TokenKind::KeyLocal),
        |input| local(alloc, input),
    )
}

/// guarded = "waituntil" condition block
#[tactic(auto, unfolding(crate::specs::inner::Reading::guarded_at))]
fn guarded(alloc: Global, input: &mut Cursor<'_>) -> Result<BlockTree, Stop>
    ensures { Takes result input.new (guarded_at input.old) }
{
    let at = input.placed(TokenKind::KeyWaituntil)?;
    let guard = condition(alloc, LEVELS, input)?;
    let body = block(alloc, LEVELS, input)?;
    Ok(BlockTree { at, guard, body })
}

/// guarded*
fn later_blocks(alloc: Global, input: &mut Cursor<'_>) -> Result<Seq<BlockTree>, Stop>
    ensures { Takes result input.new (later_blocks_at input.old) }
{
    many(
        alloc,
        input,
        |input| input.begins(TokenKind::KeyWaituntil),
        |input| guarded(alloc, input),
    )
}

/// guarded guarded*
#[tactic(auto, unfolding(crate::specs::inner::Reading::blocks_at))]
fn blocks(alloc: Global, input: &mut Cursor<'_>) -> Result<Seq<BlockTree>, Stop>
    ensures { Takes result input.new (blocks_at input.old) }
{
    let first = guarded(alloc, input)?;
    let later = later_blocks(alloc, input)?;
    Ok(with_first(first, later)?)
}

/// asserted = "asserts" condition block
#[tactic(auto, unfolding(crate::specs::inner::Reading::asserted_at))]
fn asserted(alloc: Global, input: &mut Cursor<'_>) -> Result<BlockTree, Stop>
    ensures { Takes result input.new (asserted_at input.old) }
{
    let at = input.spelled(b"asserts")?;
    let guard = condition(alloc, LEVELS, input)?;
    let body = block(alloc, LEVELS, input)?;
    Ok(BlockTree { at, guard, body })
}

/// (guarded guarded* | asserted), with whether it asserts
#[tactic(auto, unfolding(crate::specs::inner::Reading::method_blocks_at))]
fn method_blocks(alloc: Global, input: &mut Cursor<'_>) -> Result<(bool, Seq<BlockTree>), Stop>
    ensures { Takes result input.new (method_blocks_at input.old) }
{
    if input.begins_spelled(b"asserts") {
        let block = asserted(alloc, input)?;
        return Ok((true, with_first(block, Seq::of(Vec::new(alloc)))?));
    }
    let blocks = blocks(alloc, input)?;
    Ok((false, blocks))
}

/// method = head local* (guarded guarded* | asserted)
#[tactic(auto, unfolding(crate::specs::inner::Reading::method_at))]
fn method(alloc: Global, input: &mut Cursor<'_>) -> Result<MethodTree, Stop>
    ensures { Takes result input.new (method_at input.old) }
{
    let (PlacedName { at, name }, inputs) = head(alloc, input)?;
    let locals = locals(alloc, input)?;
    let (asserts, blocks) = method_blocks(alloc, input)?;
    Ok(MethodTree {
        at,
        name,
        inputs,
        locals,
        asserts,
        blocks,
    })
}

/// method*
fn methods(alloc: Global, input: &mut Cursor<'_>) -> Result<Seq<MethodTree>, Stop>
    ensures { Takes result input.new (methods_at input.old) }
{
    many(
        alloc,
        input,
        |input| input.begins(TokenKind::KeyMethod),
        |input| method(alloc, input),
    )
}

// ---- files

/// monitor_file = "monitor" ID "{" declaration* method* "}"
#[tactic(auto, unfolding(crate::specs::inner::Reading::monitor_at))]
fn monitor(alloc: Global, input: &mut Cursor<'_>) -> Result<MonitorTree, Stop>
    ensures { Takes result input.new (monitor_at input.old) }
{
    input.mark(TokenKind::KeyMonitor)?;
    let PlacedName { name, .. } = input.ident(alloc)?;
    input.mark(TokenKind::OpenBrace)?;
    let decls = declarations(alloc, input)?;
    let methods = methods(alloc, input)?;
    input.mark(TokenKind::CloseBrace)?;
    Ok(MonitorTree {
        name,
        decls,
        methods,
    })
}

#[tactic(auto, unfolding(crate::specs::inner::Reading::monitor_file))]
fn whole(alloc: Global, bytes: &[u8], tokens: &[Token]) -> Result<MonitorTree, Stop>
    requires { AreTokens bytes.now tokens.now }
    ensures { Gives result (monitor_file (words bytes.now tokens.now)) }
{
    let mut input = Cursor::new(bytes, tokens);
    let tree = monitor(alloc, &mut input)?;
    if !input.is_empty() {
        return Err(input.stop());
    }
    Ok(tree)
}

/// The tree of a monitor file, from its bytes and the tokens that spell them.
///
/// A parenthesis, a unary operator, and the braces of `if` and `else` open a level each, and no
/// more than 64 may be open; the recursion is bounded by them.
///
/// # Errors
///
/// Where the grammar derives no tree a fault by `Refusal::Syntax`, at the first token that doesn't
/// fit, or at the file's end; or out of memory.
pub fn parse_monitor(
    alloc: Global,
    bytes: &[u8],
    tokens: &[Token],
) -> Result<MonitorTree, SourceError>
    requires small { length bytes.now ≤ FILE_BYTES }
    requires spelled { Spells bytes.now tokens.now }
    // The tree is the one that the grammar derives.
    ensures derived { IfOk result (λ tree. Derives bytes.now tokens.now tree) }
    // Where the grammar derives a tree, it is answered, unless memory runs out.
    ensures complete { AnswersEach result (Derives bytes.now tokens.now) }
    // A fault stands at the first token that doesn't fit, or at the end where more is wanted.
    ensures place { IfErr result (IsFault IsMonitorFile bytes.now tokens.now) }
{
    match whole(alloc, bytes, tokens) {
        Ok(tree) => Ok(tree),
        Err(stop) => Err(fault_of(bytes, tokens, stop)),
    }
}
