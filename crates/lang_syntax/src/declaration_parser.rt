//! The parser of declarations: one function for each production.

ghost use Rattle.std.specs.Prelude.{◌≡◌};
ghost use Rattle.lang_syntax.specs.inner.Reading.{begins_declaration, constant_at};
ghost use Rattle.lang_syntax.specs.inner.Reading.{declaration_at, declarations_at, flag_at, int_at};
ghost use Rattle.lang_syntax.specs.inner.Reading.{limit_at, literal_at, parameter_at, start_at};
ghost use Rattle.lang_syntax.specs.inner.Reading.{started, started_at, stateful_at, variable_at};
ghost use Rattle.lang_cursor.specs.Takes.{Takes};

use base_list::Seq;
use lang_base::Name;
use lang_cursor::{Cursor, PlacedNumber, Stop, many};
use lang_tokens::TokenKind;
use lang_tree::{Decl, LimitTree, Lit, PlacedName};
use std::alloc::Global;

/// literal = ["-"] NUM
#[tactic(auto, unfolding(crate::specs::inner::Reading::literal_at))]
fn literal(input: &mut Cursor<'_>) -> Result<Lit, Stop>
    ensures { Takes result input.new (literal_at input.old) }
{
    if input.begins(TokenKind::Minus) {
        input.mark(TokenKind::Minus)?;
        let PlacedNumber { at, value } = input.numeral()?;
        return Ok(Lit {
            at,
            minus: true,
            digits: value,
        });
    }
    let PlacedNumber { at, value } = input.numeral()?;
    Ok(Lit {
        at,
        minus: false,
        digits: value,
    })
}

/// "const" ID "=" literal ";"
#[tactic(auto, unfolding(crate::specs::inner::Reading::constant_at))]
fn constant(alloc: Global, input: &mut Cursor<'_>) -> Result<Decl, Stop>
    ensures { Takes result input.new (constant_at input.old) }
{
    input.mark(TokenKind::KeyConst)?;
    let PlacedName { at, name } = input.ident(alloc)?;
    input.mark(TokenKind::Assign)?;
    let value = literal(input)?;
    input.mark(TokenKind::Semicolon)?;
    Ok(Decl::Const { at, name, value })
}

/// "int" ID "=" literal ";"
#[tactic(auto, unfolding(crate::specs::inner::Reading::int_at))]
fn int(alloc: Global, input: &mut Cursor<'_>) -> Result<Decl, Stop>
    ensures { Takes result input.new (int_at input.old) }
{
    input.mark(TokenKind::KeyInt)?;
    let PlacedName { at, name } = input.ident(alloc)?;
    input.mark(TokenKind::Assign)?;
    let value = literal(input)?;
    input.mark(TokenKind::Semicolon)?;
    Ok(Decl::Int { at, name, value })
}

/// limit = "where" "(" ID ("==" | "<" | "<=" | ">" | ">=") literal ")"
#[tactic(auto, unfolding(crate::specs::inner::Reading::limit_at))]
fn limit(alloc: Global, input: &mut Cursor<'_>) -> Result<LimitTree, Stop>
    ensures { Takes result input.new (limit_at input.old) }
{
    input.spelled(b"where")?;
    input.mark(TokenKind::OpenParen)?;
    let subject = input.ident(alloc)?;
    let sign = input.limit_sign()?;
    let bound = literal(input)?;
    input.mark(TokenKind::CloseParen)?;
    Ok(LimitTree {
        subject,
        sign,
        bound,
    })
}

/// "param" ID "=" literal limit ";"
#[tactic(auto, unfolding(crate::specs::inner::Reading::parameter_at))]
fn parameter(alloc: Global, input: &mut Cursor<'_>) -> Result<Decl, Stop>
    ensures { Takes result input.new (parameter_at input.old) }
{
    input.spelled(b"param")?;
    let PlacedName { at, name } = input.ident(alloc)?;
    input.mark(TokenKind::Assign)?;
    let value = literal(input)?;
    let limit = limit(alloc, input)?;
    input.mark(TokenKind::Semicolon)?;
    Ok(Decl::Param {
        at,
        name,
        value,
        limit,
    })
}

/// What an int starts as.
#[derive(Debug, Drop)]
pub enum Start {
    Number { value: Lit },
    Copy { source: PlacedName },
}

/// start = literal | ID
#[tactic(auto, unfolding(crate::specs::inner::Reading::start_at))]
fn start_value(alloc: Global, input: &mut Cursor<'_>) -> Result<Start, Stop>
    ensures { Takes result input.new (start_at input.old) }
{
    if input.begins_ident() {
        let source = input.ident(alloc)?;
        return Ok(Start::Copy { source });
    }
    let value = literal(input)?;
    Ok(Start::Number { value })
}

fn started(at: u32, name: Name, start: Start) -> Decl
    ensures { result ≡ started at name start }
{
    match start {
        Start::Number { value } => Decl::Int { at, name, value },
        Start::Copy { source } => Decl::Copied { at, name, source },
    }
}

/// "int" ID "=" start ";"
#[tactic(auto, unfolding(crate::specs::inner::Reading::started_at))]
fn started_int(alloc: Global, input: &mut Cursor<'_>) -> Result<Decl, Stop>
    ensures { Takes result input.new (started_at input.old) }
{
    input.mark(TokenKind::KeyInt)?;
    let PlacedName { at, name } = input.ident(alloc)?;
    input.mark(TokenKind::Assign)?;
    let start = start_value(alloc, input)?;
    input.mark(TokenKind::Semicolon)?;
    Ok(started(at, name, start))
}

/// "bool" ID "=" ("true" | "false") ";"
#[tactic(auto, unfolding(crate::specs::inner::Reading::flag_at))]
fn flag(alloc: Global, input: &mut Cursor<'_>) -> Result<Decl, Stop>
    ensures { Takes result input.new (flag_at input.old) }
{
    input.mark(TokenKind::KeyBool)?;
    let PlacedName { at, name } = input.ident(alloc)?;
    input.mark(TokenKind::Assign)?;
    let value = input.truth()?;
    input.mark(TokenKind::Semicolon)?;
    Ok(Decl::Flag { at, name, value })
}

#[tactic(auto, unfolding(crate::specs::inner::Reading::begins_declaration))]
fn begins_declaration(input: &Cursor<'_>) -> bool
    ensures { result ≡ begins_declaration input.now }
{
    input.begins(TokenKind::KeyConst)
        || input.begins(TokenKind::KeyInt)
        || input.begins(TokenKind::KeyBool)
        || input.begins_spelled(b"param")
}

/// variable = int | flag: what a method keeps too
#[tactic(auto, unfolding(crate::specs::inner::Reading::variable_at))]
pub fn variable(alloc: Global, input: &mut Cursor<'_>) -> Result<Decl, Stop>
    ensures { Takes result input.new (variable_at input.old) }
{
    if input.begins(TokenKind::KeyInt) {
        return int(alloc, input);
    }
    flag(alloc, input)
}

/// stateful = "int" ID "=" start ";" | flag
#[tactic(auto, unfolding(crate::specs::inner::Reading::stateful_at))]
fn stateful(alloc: Global, input: &mut Cursor<'_>) -> Result<Decl, Stop>
    ensures { Takes result input.new (stateful_at input.old) }
{
    if input.begins(TokenKind::KeyInt) {
        return started_int(alloc, input);
    }
    flag(alloc, input)
}

/// declaration = constant | parameter | stateful
#[tactic(auto, unfolding(crate::specs::inner::Reading::declaration_at))]
fn declaration(alloc: Global, input: &mut Cursor<'_>) -> Result<Decl, Stop>
    ensures { Takes result input.new (declaration_at input.old) }
{
    if input.begins(TokenKind::KeyConst) {
        return constant(alloc, input);
    }
    if input.begins_spelled(b"param") {
        return parameter(alloc, input);
    }
    stateful(alloc, input)
}

/// declaration*
pub fn declarations(alloc: Global, input: &mut Cursor<'_>) -> Result<Seq<Decl>, Stop>
    ensures { Takes result input.new (declarations_at input.old) }
{
    many(alloc, input, begins_declaration, |input| {
        declaration(alloc, input)
    })
}
