//! The blocks of a monitor, and their conditions.

ghost use Rattle.std.specs.Prelude.{◌≡◌, ◌+◌, ◌≤◌, [], All, IfOk, OnOk, length};
ghost use Rattle.lang_forms.specs.Scope.{field_count, scope_of};
ghost use Rattle.lang_rules.specs.Rules.{method_faults};
ghost use Rattle.lang_base.specs.Limits.{CONDITIONS, FIELDS, FILE_BYTES, METHODS, METHOD_BLOCKS};
ghost use Rattle.lang_types.specs.inner.Making.{AreNumbered, AreOfMethod, HasNumber};
ghost use Rattle.lang_types.specs.inner.Making.{IsBlockScope, IsMethodScope};
ghost use Rattle.lang_types.specs.Typed.{AreBlocksOf, IsBlockOf, blocks_from};

use super::conditions::wait_number;
use super::statements::{result_of, statements_of};
use base_list::Seq;
use lang_forms::{Entry, formula_of, scope_of};
use lang_monitor::{Block, Condition};
use lang_tree::{BlockTree, Decl, MethodTree};
use std::alloc::{AllocError, Global};

/// The blocks of these trees, one method after the other, and their conditions.
pub(crate) fn blocks_of(
    alloc: Global,
    decls: &[Decl],
    trees: &[MethodTree],
    known: &mut Vec<Condition>,
) -> Result<Vec<Block>, AllocError>
    requires none { known.old.items ≡ [] }
    requires fields { field_count decls.now ≤ FIELDS }
    requires decls { length decls.now ≤ FILE_BYTES }
    requires few { length trees.now ≤ METHODS }
    requires fine { All (λ tree. method_faults decls.now tree ≡ []) trees.now }
    ensures blocks { IfOk result (λ it. AreBlocksOf decls.now (blocks_from 0 trees.now) it.items) }
    ensures conditions { IfOk result (λ it. AreNumbered trees.now it.items known.new.items) }
{
    let mut blocks = Vec::new(alloc);
    for (number, tree) in trees.iter().enumerate() {
        push_blocks(alloc, decls, number as u32, tree, known, &mut blocks)?;
    }
    Ok(blocks)
}

/// Adds the blocks of a method.
fn push_blocks(
    alloc: Global,
    decls: &[Decl],
    number: u32,
    tree: &MethodTree,
    known: &mut Vec<Condition>,
    to: &mut Vec<Block>,
) -> Result<(), AllocError>
    requires fields { field_count decls.now ≤ FIELDS }
    requires decls { length decls.now ≤ FILE_BYTES }
    requires few { length known.old.items + METHOD_BLOCKS ≤ CONDITIONS }
    requires fine { method_faults decls.now tree.now ≡ [] }
    ensures { OnOk result (AreOfMethod decls.now number tree.now to.old.items to.new.items
        known.old.items known.new.items) }
{
    let scope = method_scope(alloc, decls, tree)?;
    let entries = scope.items();
    let blocks = tree.blocks.items();
    for block in blocks {
        let made = block_of(alloc, entries, number, tree.asserts, block, known)?;
        to.push(made)?;
    }
    Ok(())
}

/// The block of a tree, by whether its method asserts.
fn block_of(
    alloc: Global,
    scope: &[Entry],
    number: u32,
    asserts: bool,
    tree: &BlockTree,
    known: &mut Vec<Condition>,
) -> Result<Block, AllocError>
    requires few { length known.old.items ≤ CONDITIONS }
    requires fine { IsBlockScope tree.now scope.now }
    ensures block { IfOk result (λ block. IsBlockOf scope.now number tree.now block) }
    ensures condition { IfOk result (λ it. HasNumber asserts tree.now it known.old.items
        known.new.items) }
{
    let statements = tree.body.items();
    let guard = formula_of(alloc, scope, &tree.guard)?;
    let body = statements_of(alloc, scope, statements)?;
    let result = result_of(alloc, scope, statements)?;
    let condition = wait_number(alloc, asserts, known, &guard, &tree.guard)?;
    Ok(Block {
        method: number,
        guard,
        body: Seq::of(body),
        result,
        condition,
    })
}

/// The scope of a method.
fn method_scope(alloc: Global, decls: &[Decl], tree: &MethodTree) -> Result<Seq<Entry>, AllocError>
    requires fields { field_count decls.now ≤ FIELDS }
    requires decls { length decls.now ≤ FILE_BYTES }
    requires fine { method_faults decls.now tree.now ≡ [] }
    ensures exact { IfOk result (λ scope. scope ≡ scope_of decls.now tree.now) }
    ensures fine { IfOk result (λ scope. IsMethodScope tree.now scope) }
{
    scope_of(alloc, decls, tree)
}
