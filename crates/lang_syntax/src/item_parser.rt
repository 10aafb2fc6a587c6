//! The parser of a client's items. The recursion is as deep as the levels that are left.

ghost use Rattle.std.specs.Prelude.{◌≡◌, ◌<◌, ◌-◌, ℕ, List};
ghost use Rattle.lang_syntax.specs.inner.Reading.{argument_at, arguments_at, begins_item, call_at};
ghost use Rattle.lang_cursor.specs.Reading.{each_at};
ghost use Rattle.lang_syntax.specs.inner.Reading.{called_at, item_at, items_at};
ghost use Rattle.lang_syntax.specs.inner.Reading.{later_argument_at, later_arguments_at};
ghost use Rattle.lang_syntax.specs.inner.Reading.{negative_argument_at, repeat_at};
ghost use Rattle.lang_syntax.specs.inner.Reading.{some_arguments_at, tried_at};
ghost use Rattle.lang_cursor.specs.Takes.{Takes};

use base_list::Seq;
use lang_base::Name;
use lang_cursor::{Cursor, PlacedNumber, Stop, many, with_first};
use lang_tokens::TokenKind;
use lang_tree::{Arg, Item, Lit, PlacedName};
use std::alloc::Global;

// ---- calls

/// "-" NUM
#[tactic(auto, unfolding(crate::specs::inner::Reading::negative_argument_at))]
fn negative_argument(input: &mut Cursor<'_>) -> Result<Arg, Stop>
    ensures { Takes result input.new (negative_argument_at input.old) }
{
    let at = input.placed(TokenKind::Minus)?;
    let PlacedNumber { at: place, value } = input.numeral()?;
    let value = Lit {
        at: place,
        minus: true,
        digits: value,
    };
    Ok(Arg::Int { at, value })
}

/// argument = ["-"] NUM | "true" | "false"
#[tactic(auto, unfolding(crate::specs::inner::Reading::argument_at))]
fn argument(input: &mut Cursor<'_>) -> Result<Arg, Stop>
    ensures { Takes result input.new (argument_at input.old) }
{
    if input.begins(TokenKind::Minus) {
        return negative_argument(input);
    }
    input.plain_argument()
}

/// "," argument
#[tactic(auto, unfolding(crate::specs::inner::Reading::later_argument_at))]
fn later_argument(input: &mut Cursor<'_>) -> Result<Arg, Stop>
    ensures { Takes result input.new (later_argument_at input.old) }
{
    input.mark(TokenKind::Comma)?;
    argument(input)
}

/// ("," argument)*
fn later_arguments(alloc: Global, input: &mut Cursor<'_>) -> Result<Seq<Arg>, Stop>
    ensures { Takes result input.new (later_arguments_at input.old) }
{
    many(
        alloc,
        input,
        |input| input.begins(TokenKind::Comma),
        |input| later_argument(input),
    )
}

/// argument ("," argument)*
#[tactic(auto, unfolding(crate::specs::inner::Reading::some_arguments_at))]
fn some_arguments(alloc: Global, input: &mut Cursor<'_>) -> Result<Seq<Arg>, Stop>
    ensures { Takes result input.new (some_arguments_at input.old) }
{
    let first = argument(input)?;
    let later = later_arguments(alloc, input)?;
    Ok(with_first(first, later)?)
}

/// [argument ("," argument)*], before a parenthesis
#[tactic(auto, unfolding(crate::specs::inner::Reading::arguments_at))]
fn arguments(alloc: Global, input: &mut Cursor<'_>) -> Result<Seq<Arg>, Stop>
    ensures { Takes result input.new (arguments_at input.old) }
{
    if input.begins(TokenKind::CloseParen) {
        return Ok(Seq::of(Vec::new(alloc)));
    }
    some_arguments(alloc, input)
}

/// What a call begins with, and where: with the name, or with `try` and then the name.
#[derive(Debug, Drop)]
pub struct CallHead {
    pub at: u32,
    pub tries: bool,
    pub name_at: u32,
    pub name: Name,
}

/// "try" ID
#[tactic(auto, unfolding(crate::specs::inner::Reading::tried_at))]
fn tried(alloc: Global, input: &mut Cursor<'_>) -> Result<CallHead, Stop>
    ensures { Takes result input.new (tried_at input.old) }
{
    let at = input.placed(TokenKind::KeyTry)?;
    let PlacedName { at: name_at, name } = input.ident(alloc)?;
    Ok(CallHead {
        at,
        tries: true,
        name_at,
        name,
    })
}

/// ["try"] ID
#[tactic(auto, unfolding(crate::specs::inner::Reading::called_at))]
fn called(alloc: Global, input: &mut Cursor<'_>) -> Result<CallHead, Stop>
    ensures { Takes result input.new (called_at input.old) }
{
    if input.begins(TokenKind::KeyTry) {
        return tried(alloc, input);
    }
    let PlacedName { at, name } = input.ident(alloc)?;
    Ok(CallHead {
        at,
        tries: false,
        name_at: at,
        name,
    })
}

/// ["try"] ID "(" arguments ")" ";"
#[tactic(auto, unfolding(crate::specs::inner::Reading::call_at))]
fn call(alloc: Global, input: &mut Cursor<'_>) -> Result<Item, Stop>
    ensures { Takes result input.new (call_at input.old) }
{
    let CallHead {
        at,
        tries,
        name_at,
        name,
    } = called(alloc, input)?;
    input.mark(TokenKind::OpenParen)?;
    let args = arguments(alloc, input)?;
    input.mark(TokenKind::CloseParen)?;
    input.mark(TokenKind::Semicolon)?;
    Ok(Item::Call {
        at,
        tries,
        name_at,
        name,
        args,
    })
}

// ---- items

#[tactic(auto, unfolding(crate::specs::inner::Reading::begins_item))]
fn begins_item(input: &Cursor<'_>) -> bool
    ensures { result ≡ begins_item input.now }
{
    input.begins_ident() || input.begins(TokenKind::KeyRepeat) || input.begins(TokenKind::KeyTry)
}

/// item*
#[cycle(item)]
fn items(alloc: Global, levels: u32, input: &mut Cursor<'_>) -> Result<Seq<Item>, Stop>
    ensures { Takes result input.new (each_at begins_item (item_at levels) input.old) }
{
    let one = |input: &mut Cursor<'_>|
        ensures { Takes result input.new (item_at levels input.old) }
    { item(alloc, levels, input) };
    many(alloc, input, begins_item, one)
}

/// "{" item* "}", with the levels that are left inside
#[cycle(item)]
#[tactic(auto, unfolding(crate::specs::inner::Reading::items_at))]
pub fn item_block(alloc: Global, levels: u32, input: &mut Cursor<'_>) -> Result<Seq<Item>, Stop>
    ensures { Takes result input.new (items_at (item_at levels) input.old) }
{
    input.mark(TokenKind::OpenBrace)?;
    let body = items(alloc, levels, input)?;
    input.mark(TokenKind::CloseBrace)?;
    Ok(body)
}

/// "repeat" NUM "{" item* "}", with a level left for the brace
#[cycle(item)]
#[tactic(auto, unfolding(crate::specs::inner::Reading::repeat_at))]
fn repeat(alloc: Global, levels: u32, input: &mut Cursor<'_>) -> Result<Item, Stop>
    requires { 0 < levels }
    ensures { Takes result input.new (repeat_at (item_at (levels - 1)) input.old) }
{
    let at = input.placed(TokenKind::KeyRepeat)?;
    let PlacedNumber { value: times, .. } = input.numeral()?;
    let items = item_block(alloc, levels - 1, input)?;
    Ok(Item::Repeat { at, times, items })
}

/// An item, where so many levels may still be opened.
#[cycle(item)]
#[tactic(auto, unfolding(crate::specs::inner::Reading::item_at))]
fn item(alloc: Global, levels: u32, input: &mut Cursor<'_>) -> Result<Item, Stop>
    ensures { Takes result input.new (item_at levels input.old) }
{
    if 0 < levels && input.begins(TokenKind::KeyRepeat) {
        return repeat(alloc, levels, input);
    }
    call(alloc, input)
}
