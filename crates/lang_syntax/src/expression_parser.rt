//! The parser of expressions: one function for each level of precedence. The recursion is as deep
//! as the levels that are left, so no input overflows the stack.

ghost use Rattle.std.specs.Prelude.{◌≡◌, ◌≢◌, [], IfOk};
ghost use Rattle.lang_cursor.specs.Reading.{IsMarkKind};
ghost use Rattle.lang_syntax.specs.inner.Reading.{addend_at, addends_at, chain_of};
ghost use Rattle.lang_syntax.specs.inner.Reading.{comparison_at, expression_at, factor_at};
ghost use Rattle.lang_syntax.specs.inner.Reading.{factors_at, group_at, inner_at, joined_at};
ghost use Rattle.lang_syntax.specs.inner.Reading.{minus_unary_at, node_of, not_unary_at, part_at};
ghost use Rattle.lang_syntax.specs.inner.Reading.{parts_at, product_at, sign_of, sum_at, unary_at};
ghost use Rattle.lang_cursor.specs.Takes.{Takes};

use base_list::{Boxed, Seq};
use lang_cursor::{Cursor, Stop, many, with_first};
use lang_tokens::TokenKind;
use lang_tree::{Addend, Expr, Factor};
use std::alloc::{AllocError, Global};

// ---- what opens a level, with the levels that are left inside

/// "-" unary
#[cycle(expression)]
#[tactic(auto, unfolding(crate::specs::inner::Reading::minus_unary_at))]
fn minus_unary(alloc: Global, levels: u32, input: &mut Cursor<'_>) -> Result<Expr, Stop>
    ensures { Takes result input.new (minus_unary_at (unary_at levels) input.old) }
{
    let at = input.placed(TokenKind::Minus)?;
    let of = Boxed::new(alloc, unary(alloc, levels, input)?)?;
    Ok(Expr::Minus { at, of })
}

/// "!" unary
#[cycle(expression)]
#[tactic(auto, unfolding(crate::specs::inner::Reading::not_unary_at))]
fn not_unary(alloc: Global, levels: u32, input: &mut Cursor<'_>) -> Result<Expr, Stop>
    ensures { Takes result input.new (not_unary_at (unary_at levels) input.old) }
{
    let at = input.placed(TokenKind::Not)?;
    let of = Boxed::new(alloc, unary(alloc, levels, input)?)?;
    Ok(Expr::Not { at, of })
}

/// "(" expression ")"
#[cycle(expression)]
#[tactic(auto, unfolding(crate::specs::inner::Reading::group_at, crate::specs::inner::Reading::disjunction_at))]
fn group(alloc: Global, levels: u32, input: &mut Cursor<'_>) -> Result<Expr, Stop>
    ensures { Takes result input.new (group_at (unary_at levels) input.old) }
{
    input.mark(TokenKind::OpenParen)?;
    let inner = joined(alloc, Join::Or, levels, input)?;
    input.mark(TokenKind::CloseParen)?;
    Ok(inner)
}

/// A unary expression or an atom, where so many levels may still be opened.
#[cycle(expression)]
#[tactic(auto, unfolding(crate::specs::inner::Reading::unary_at, crate::specs::inner::Reading::opened_at))]
fn unary(alloc: Global, levels: u32, input: &mut Cursor<'_>) -> Result<Expr, Stop>
    ensures { Takes result input.new (unary_at levels input.old) }
{
    if levels == 0 {
        return input.atom(alloc);
    }
    if input.begins(TokenKind::Minus) {
        return minus_unary(alloc, levels - 1, input);
    }
    if input.begins(TokenKind::Not) {
        return not_unary(alloc, levels - 1, input);
    }
    if input.begins(TokenKind::OpenParen) {
        return group(alloc, levels - 1, input);
    }
    input.atom(alloc)
}

// ---- levels of precedence

/// "*" unary
#[cycle(expression)]
#[tactic(auto, unfolding(crate::specs::inner::Reading::factor_at))]
fn factor(alloc: Global, levels: u32, input: &mut Cursor<'_>) -> Result<Factor, Stop>
    ensures { Takes result input.new (factor_at (unary_at levels) input.old) }
{
    let at = input.placed(TokenKind::Star)?;
    let of = unary(alloc, levels, input)?;
    Ok(Factor { at, of })
}

/// factor*
#[cycle(expression)]
#[tactic(auto, unfolding(crate::specs::inner::Reading::factors_at))]
fn factors(alloc: Global, levels: u32, input: &mut Cursor<'_>) -> Result<Seq<Factor>, Stop>
    ensures { Takes result input.new (factors_at (unary_at levels) input.old) }
{
    many(
        alloc,
        input,
        |input| input.begins(TokenKind::Star),
        |input|
            ensures { Takes result input.new (factor_at (unary_at levels) input.old) }
        { factor(alloc, levels, input) },
    )
}

/// product = unary ("*" unary)*
#[cycle(expression)]
#[tactic(auto, unfolding(crate::specs::inner::Reading::product_at))]
fn product(alloc: Global, levels: u32, input: &mut Cursor<'_>) -> Result<Expr, Stop>
    ensures { Takes result input.new (product_at (unary_at levels) input.old) }
{
    let first = unary(alloc, levels, input)?;
    let rest = factors(alloc, levels, input)?;
    if rest.items().is_empty() {
        return Ok(first);
    }
    let first = Boxed::new(alloc, first)?;
    Ok(Expr::Product { first, rest })
}

/// ("+" | "-") product
#[cycle(expression)]
#[tactic(auto, unfolding(crate::specs::inner::Reading::addend_at))]
fn addend(alloc: Global, levels: u32, input: &mut Cursor<'_>) -> Result<Addend, Stop>
    ensures { Takes result input.new (addend_at (unary_at levels) input.old) }
{
    let minus = input.sum_sign()?;
    let of = product(alloc, levels, input)?;
    Ok(Addend { minus, of })
}

/// addend*
#[cycle(expression)]
#[tactic(auto, unfolding(crate::specs::inner::Reading::addends_at))]
fn addends(alloc: Global, levels: u32, input: &mut Cursor<'_>) -> Result<Seq<Addend>, Stop>
    ensures { Takes result input.new (addends_at (unary_at levels) input.old) }
{
    many(
        alloc,
        input,
        |input| input.begins_sum_sign(),
        |input|
            ensures { Takes result input.new (addend_at (unary_at levels) input.old) }
        { addend(alloc, levels, input) },
    )
}

/// sum = product (("+" | "-") product)*
#[cycle(expression)]
#[tactic(auto, unfolding(crate::specs::inner::Reading::sum_at))]
fn sum(alloc: Global, levels: u32, input: &mut Cursor<'_>) -> Result<Expr, Stop>
    ensures { Takes result input.new (sum_at (unary_at levels) input.old) }
{
    let first = product(alloc, levels, input)?;
    let rest = addends(alloc, levels, input)?;
    if rest.items().is_empty() {
        return Ok(first);
    }
    let first = Boxed::new(alloc, first)?;
    Ok(Expr::Sum { first, rest })
}

/// comparison = sum [op sum]
#[cycle(expression)]
#[tactic(auto, unfolding(crate::specs::inner::Reading::comparison_at, crate::specs::inner::Reading::compared_at))]
fn comparison(alloc: Global, levels: u32, input: &mut Cursor<'_>) -> Result<Expr, Stop>
    ensures { Takes result input.new (comparison_at (unary_at levels) input.old) }
{
    let left = sum(alloc, levels, input)?;
    if !input.begins_op() {
        return Ok(left);
    }
    let op = input.op()?;
    let right = sum(alloc, levels, input)?;
    let left = Boxed::new(alloc, left)?;
    let right = Boxed::new(alloc, right)?;
    Ok(Expr::Compare { op, left, right })
}

// ---- chains of parts with a sign between them

/// The sign between the parts of a chain.
#[derive(Clone, Copy, Debug)]
enum Join {
    And,
    Or,
}

fn sign_of(join: Join) -> TokenKind
    ensures sign { result ≡ sign_of join }
    ensures marks { IsMarkKind result }
{
    match join {
        Join::And => TokenKind::And,
        Join::Or => TokenKind::Or,
    }
}

/// The node of these parts.
fn node_of(join: Join, first: Expr, rest: Seq<Expr>) -> Result<Expr, AllocError>
    requires { rest ≢ [] }
    ensures { IfOk result (λ node. node ≡ chain_of (node_of join) (first, rest)) }
{
    let parts = with_first(first, rest)?;
    match join {
        Join::And => Ok(Expr::Both { parts }),
        Join::Or => Ok(Expr::Either { parts }),
    }
}

/// What stands between the signs.
#[cycle(expression)]
#[tactic(auto, unfolding(crate::specs::inner::Reading::conjunction_at))]
fn inner(alloc: Global, join: Join, levels: u32, input: &mut Cursor<'_>) -> Result<Expr, Stop>
    ensures { Takes result input.new (inner_at join levels input.old) }
{
    match join {
        Join::And => comparison(alloc, levels, input),
        Join::Or => joined(alloc, Join::And, levels, input),
    }
}

/// The sign and a part.
#[cycle(expression)]
#[tactic(auto, unfolding(crate::specs::inner::Reading::part_at))]
fn part(alloc: Global, join: Join, levels: u32, input: &mut Cursor<'_>) -> Result<Expr, Stop>
    ensures { Takes result input.new (part_at join (inner_at join levels) input.old) }
{
    input.mark(sign_of(join))?;
    inner(alloc, join, levels, input)
}

/// The later parts of a chain.
#[cycle(expression)]
fn parts(alloc: Global, join: Join, levels: u32, input: &mut Cursor<'_>) -> Result<Seq<Expr>, Stop>
    ensures { Takes result input.new (parts_at join (inner_at join levels) input.old) }
{
    many(
        alloc,
        input,
        |input| input.begins(sign_of(join)),
        |input|
            ensures { Takes result input.new (part_at join (inner_at join levels) input.old) }
        { part(alloc, join, levels, input) },
    )
}

/// conjunction = comparison ("&&" comparison)*, disjunction = conjunction ("||" conjunction)*
#[cycle(expression)]
#[tactic(auto, unfolding(crate::specs::inner::Reading::joined_at))]
fn joined(alloc: Global, join: Join, levels: u32, input: &mut Cursor<'_>) -> Result<Expr, Stop>
    ensures { Takes result input.new (joined_at join (inner_at join levels) input.old) }
{
    let first = inner(alloc, join, levels, input)?;
    let rest = parts(alloc, join, levels, input)?;
    if rest.items().is_empty() {
        return Ok(first);
    }
    Ok(node_of(join, first, rest)?)
}

/// An expression, where so many levels may still be opened.
#[tactic(auto, unfolding(crate::specs::inner::Reading::expression_at, crate::specs::inner::Reading::disjunction_at))]
pub fn expression(alloc: Global, levels: u32, input: &mut Cursor<'_>) -> Result<Expr, Stop>
    ensures { Takes result input.new (expression_at levels input.old) }
{
    joined(alloc, Join::Or, levels, input)
}
