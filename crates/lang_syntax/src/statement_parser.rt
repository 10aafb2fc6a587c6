//! The parser of statements and blocks. The recursion is as deep as the levels that are left.

ghost use Rattle.std.specs.Prelude.{◌≡◌, ◌<◌, ◌-◌, ℕ, List};
ghost use Rattle.lang_cursor.specs.Reading.{each_at};
ghost use Rattle.lang_syntax.specs.inner.Reading.{begins_statement, condition_at};
ghost use Rattle.lang_syntax.specs.inner.Reading.{block_at, else_at, set_at, return_at, if_at};
ghost use Rattle.lang_syntax.specs.inner.Reading.{simple_at, statement_at};
ghost use Rattle.lang_cursor.specs.Takes.{Takes};

use super::expression_parser::expression;
use base_list::Seq;
use lang_cursor::{Cursor, Stop, many};
use lang_tokens::TokenKind;
use lang_tree::{Expr, PlacedName, StmtTree};
use std::alloc::Global;

#[tactic(auto, unfolding(crate::specs::inner::Reading::begins_statement))]
fn begins_statement(input: &Cursor<'_>) -> bool
    ensures { result ≡ begins_statement input.now }
{
    input.begins_ident() || input.begins(TokenKind::KeyIf) || input.begins(TokenKind::KeyReturn)
}

/// "(" expression ")"
#[tactic(auto, unfolding(crate::specs::inner::Reading::condition_at))]
pub fn condition(alloc: Global, levels: u32, input: &mut Cursor<'_>) -> Result<Expr, Stop>
    ensures { Takes result input.new (condition_at levels input.old) }
{
    input.mark(TokenKind::OpenParen)?;
    let inner = expression(alloc, levels, input)?;
    input.mark(TokenKind::CloseParen)?;
    Ok(inner)
}

/// ID "=" expression ";"
#[tactic(auto, unfolding(crate::specs::inner::Reading::set_at))]
fn set(alloc: Global, levels: u32, input: &mut Cursor<'_>) -> Result<StmtTree, Stop>
    ensures { Takes result input.new (set_at levels input.old) }
{
    let PlacedName { at, name } = input.ident(alloc)?;
    input.mark(TokenKind::Assign)?;
    let value = expression(alloc, levels, input)?;
    input.mark(TokenKind::Semicolon)?;
    Ok(StmtTree::Set { at, name, value })
}

/// "return" expression ";"
#[tactic(auto, unfolding(crate::specs::inner::Reading::return_at))]
fn return_value(alloc: Global, levels: u32, input: &mut Cursor<'_>) -> Result<StmtTree, Stop>
    ensures { Takes result input.new (return_at levels input.old) }
{
    let at = input.placed(TokenKind::KeyReturn)?;
    let value = expression(alloc, levels, input)?;
    input.mark(TokenKind::Semicolon)?;
    Ok(StmtTree::Return { at, value })
}

/// A statement that holds no other.
#[tactic(auto, unfolding(crate::specs::inner::Reading::simple_at))]
fn simple(alloc: Global, levels: u32, input: &mut Cursor<'_>) -> Result<StmtTree, Stop>
    ensures { Takes result input.new (simple_at levels input.old) }
{
    if input.begins(TokenKind::KeyReturn) {
        return return_value(alloc, levels, input);
    }
    set(alloc, levels, input)
}

/// statement*
#[cycle(statement)]
fn statements(alloc: Global, levels: u32, input: &mut Cursor<'_>) -> Result<Seq<StmtTree>, Stop>
    ensures { Takes result input.new (each_at begins_statement (statement_at levels) input.old) }
{
    let item = |input: &mut Cursor<'_>|
        ensures { Takes result input.new (statement_at levels input.old) }
    { statement(alloc, levels, input) };
    many(alloc, input, begins_statement, item)
}

/// "{" statement* "}", with the levels that are left inside
#[cycle(statement)]
#[tactic(auto, unfolding(crate::specs::inner::Reading::block_at))]
pub fn block(alloc: Global, levels: u32, input: &mut Cursor<'_>) -> Result<Seq<StmtTree>, Stop>
    ensures { Takes result input.new (block_at (statement_at levels) input.old) }
{
    input.mark(TokenKind::OpenBrace)?;
    let body = statements(alloc, levels, input)?;
    input.mark(TokenKind::CloseBrace)?;
    Ok(body)
}

/// ["else" block], with the levels that are left inside
#[cycle(statement)]
#[tactic(auto, unfolding(crate::specs::inner::Reading::else_at))]
fn otherwise(alloc: Global, levels: u32, input: &mut Cursor<'_>) -> Result<Seq<StmtTree>, Stop>
    ensures { Takes result input.new (else_at (statement_at levels) input.old) }
{
    if !input.begins(TokenKind::KeyElse) {
        return Ok(Seq::of(Vec::new(alloc)));
    }
    input.mark(TokenKind::KeyElse)?;
    block(alloc, levels, input)
}

/// "if" condition block ["else" block], with a level left for the blocks
#[cycle(statement)]
#[tactic(auto, unfolding(crate::specs::inner::Reading::if_at))]
fn branch(alloc: Global, levels: u32, input: &mut Cursor<'_>) -> Result<StmtTree, Stop>
    requires { 0 < levels }
    ensures { Takes result input.new (if_at levels (statement_at (levels - 1)) input.old) }
{
    let at = input.placed(TokenKind::KeyIf)?;
    let when = condition(alloc, levels, input)?;
    let then = block(alloc, levels - 1, input)?;
    let other = otherwise(alloc, levels - 1, input)?;
    Ok(StmtTree::If {
        at,
        when,
        then,
        other,
    })
}

/// A statement, where so many levels may still be opened.
#[cycle(statement)]
#[tactic(auto, unfolding(crate::specs::inner::Reading::statement_at))]
fn statement(alloc: Global, levels: u32, input: &mut Cursor<'_>) -> Result<StmtTree, Stop>
    ensures { Takes result input.new (statement_at levels input.old) }
{
    if 0 < levels && input.begins(TokenKind::KeyIf) {
        return branch(alloc, levels, input);
    }
    simple(alloc, levels, input)
}
