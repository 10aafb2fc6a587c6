//! How many constants, fields, methods, inputs, locals, blocks and statements there are.
//! A fault is at the first one over the limit.

ghost use Rattle.std.specs.Prelude.{◌≡◌, map, slice_get};
ghost use Rattle.std.specs.List.{flat_map};
ghost use Rattle.lang_base.specs.Limits.{CONSTANTS, FIELDS, INPUTS, LOCALS, METHODS, METHOD_BLOCKS};
ghost use Rattle.lang_base.specs.Limits.{STATEMENTS};
ghost use Rattle.lang_tree.specs.declared.tree.StmtTree.{out-StmtTree};
ghost use Rattle.lang_base.specs.declared.counted.Counted.TheVariants.{Blocks, Constants, Fields};
ghost use Rattle.lang_base.specs.declared.counted.Counted.TheVariants.{Locals, Methods, Parameters};
ghost use Rattle.lang_base.specs.declared.counted.Counted.TheVariants.{Statements};
ghost use Rattle.lang_base.specs.SourceFaults.{least};
ghost use Rattle.lang_rules.specs.Rules.{constant_place, declared_at, field_place, over, over_at};
ghost use Rattle.lang_rules.specs.Rules.{places_in, statement_places};
ghost use Rattle.lang_rules.specs.inner.Counting.{counted, declares_constant, statement_place};

use crate::names::place_of_name;
use lang_base::{Counted, Refusal, SourceFault, limits};
use lang_tree::{BlockTree, Decl, InputTree, MethodTree, StmtTree};

/// There are no more constants than a monitor may have.
pub(crate) fn over_constants(decls: &[Decl]) -> Option<SourceFault>
    ensures { result ≡ least (over CONSTANTS Constants (flat_map constant_place decls.now)) }
{
    over_at(Counted::Constants, constant_at(decls, limits::CONSTANTS))
}

/// There are no more fields than a monitor may have.
pub(crate) fn over_fields(decls: &[Decl]) -> Option<SourceFault>
    ensures { result ≡ least (over FIELDS Fields (flat_map field_place decls.now)) }
{
    over_at(Counted::Fields, field_at(decls, limits::FIELDS))
}

/// There are no more methods than a monitor may have.
pub(crate) fn over_methods(methods: &[MethodTree]) -> Option<SourceFault>
    ensures { result ≡ least (over METHODS Methods (map (λ method. method.at) methods.now)) }
{
    over_at(Counted::Methods, method_at(methods, limits::METHODS))
}

/// There are no more inputs than a method may have.
pub(crate) fn over_inputs(inputs: &[InputTree]) -> Option<SourceFault>
    ensures { result ≡ least (over INPUTS Parameters (map (λ input. input.at) inputs.now)) }
{
    over_at(Counted::Parameters, input_at(inputs, limits::INPUTS))
}

/// There are no more locals than a method may have.
pub(crate) fn over_locals(locals: &[Decl]) -> Option<SourceFault>
    ensures { result ≡ least (over LOCALS Locals (map declared_at locals.now)) }
{
    over_at(Counted::Locals, local_at(locals, limits::LOCALS))
}

/// There are no more blocks than a method may have.
pub(crate) fn over_blocks(blocks: &[BlockTree]) -> Option<SourceFault>
    ensures { result ≡ least (over METHOD_BLOCKS Blocks (map (λ block. block.at) blocks.now)) }
{
    over_at(Counted::Blocks, block_at(blocks, limits::METHOD_BLOCKS))
}

/// There are no more statements than a body may have, inner ones counted.
pub(crate) fn over_statements(body: &[StmtTree]) -> Option<SourceFault>
    ensures { result ≡ least (over STATEMENTS Statements (places_in body.now)) }
{
    over_at(Counted::Statements, statement_at(body, limits::STATEMENTS))
}

fn over_at(what: Counted, place: Option<u32>) -> Option<SourceFault>
    ensures { result ≡ least (over_at what place) }
{
    match place {
        Some(at) => Some(SourceFault {
            at,
            what: Refusal::TooMany(what),
        }),
        None => None,
    }
}

/// Where the method with this number stands, counted from 0.
fn method_at(methods: &[MethodTree], number: usize) -> Option<u32>
    ensures { result ≡ slice_get (map (λ method. method.at) methods.now) number }
{
    match methods.get(number) {
        Some(method) => Some(method.at),
        None => None,
    }
}

/// Where the input with this number stands, counted from 0.
fn input_at(inputs: &[InputTree], number: usize) -> Option<u32>
    ensures { result ≡ slice_get (map (λ input. input.at) inputs.now) number }
{
    match inputs.get(number) {
        Some(input) => Some(input.at),
        None => None,
    }
}

/// Where the local with this number stands, counted from 0.
fn local_at(locals: &[Decl], number: usize) -> Option<u32>
    ensures { result ≡ slice_get (map declared_at locals.now) number }
{
    match locals.get(number) {
        Some(local) => Some(place_of_name(local)),
        None => None,
    }
}

/// Where the block with this number stands, counted from 0.
fn block_at(blocks: &[BlockTree], number: usize) -> Option<u32>
    ensures { result ≡ slice_get (map (λ block. block.at) blocks.now) number }
{
    match blocks.get(number) {
        Some(block) => Some(block.at),
        None => None,
    }
}

/// Where the statement with this number stands, counted from 0 and with inner ones.
fn statement_at(body: &[StmtTree], number: usize) -> Option<u32>
    ensures { result ≡ slice_get (places_in body.now) number }
{
    match count_statements(body, number) {
        Ok(_) => None,
        Err(at) => Some(at),
    }
}

/// Where the constant with this number stands, counted from 0.
fn constant_at(decls: &[Decl], number: usize) -> Option<u32>
    ensures { result ≡ slice_get (flat_map constant_place decls.now) number }
{
    let mut left = number;
    for decl in decls {
        if declares_constant(decl) {
            if left == 0 {
                return Some(place_of_name(decl));
            }
            left -= 1;
        }
    }
    None
}

/// Where the field with this number stands, counted from 0.
fn field_at(decls: &[Decl], number: usize) -> Option<u32>
    ensures { result ≡ slice_get (flat_map field_place decls.now) number }
{
    let mut left = number;
    for decl in decls {
        if !declares_constant(decl) {
            if left == 0 {
                return Some(place_of_name(decl));
            }
            left -= 1;
        }
    }
    None
}

fn declares_constant(decl: &Decl) -> bool
    ensures { result ≡ declares_constant decl.now }
{
    matches!(decl, Decl::Const { .. })
}

/// Counts a statement and its inner ones down from how many are left: the place of the one for
/// which none is left, or how many are left after all.
#[cycle(count_statement)]
fn count_statement(statement: &StmtTree, left: usize) -> Result<usize, u32>
    ensures { result ≡ counted (statement_places statement.now) left }
{
    if left == 0 {
        return Err(place_of_statement(statement));
    }
    match statement {
        StmtTree::Set { .. } => Ok(left - 1),
        StmtTree::If { then, other, .. } => {
            let left = count_statements(then.items(), left - 1)?;
            count_statements(other.items(), left)
        }
        StmtTree::Return { .. } => Ok(left - 1),
    }
}

#[cycle(count_statement)]
fn count_statements(statements: &[StmtTree], left: usize) -> Result<usize, u32>
    ensures { result ≡ counted (places_in statements.now) left }
{
    let mut rest = left;
    for statement in statements {
        rest = count_statement(statement, rest)?;
    }
    Ok(rest)
}

/// The offset of a statement's first token.
fn place_of_statement(statement: &StmtTree) -> u32
    ensures { result ≡ statement_place (out-StmtTree statement.now) }
{
    match statement {
        StmtTree::Set { at, .. } => *at,
        StmtTree::If { at, .. } => *at,
        StmtTree::Return { at, .. } => *at,
    }
}
