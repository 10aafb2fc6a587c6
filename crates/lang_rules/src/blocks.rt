//! The rules of blocks.

ghost use Rattle.std.specs.Prelude.{◌≡◌, IfOk, IsTrue, List};
ghost use Rattle.std.specs.List.{flat_map};
ghost use Rattle.lang_base.specs.SourceFaults.{least};
ghost use Rattle.lang_forms.specs.declared.scope.Entry.{Entry};
ghost use Rattle.lang_forms.specs.Making.{has_small_numbers};
ghost use Rattle.lang_rules.specs.Rules.{block_faults, early_in_blocks, faults_in_blocks};
ghost use Rattle.lang_rules.specs.Rules.{return_faults};

use crate::limits::over_statements;
use crate::statements::{any_return, early_return, fault_in_each, fault_in_expected};
use lang_base::{Kind, SourceFault, earlier_of};
use lang_forms::Entry;
use lang_tree::BlockTree;
use std::alloc::{AllocError, Global};

/// The first fault in the guards and bodies of a method's blocks.
pub(crate) fn fault_in_blocks(
    alloc: Global,
    scope: &[Entry],
    blocks: &[BlockTree],
) -> Result<Option<SourceFault>, AllocError>
    requires numbers { IsTrue (has_small_numbers scope.now) }
    ensures { IfOk result (λ fault. fault ≡ least (faults_in_blocks scope.now blocks.now)) }
{
    let mut fault = None;
    for block in blocks {
        fault = earlier_of(fault, fault_in_block(alloc, scope, block)?);
    }
    Ok(fault)
}

fn fault_in_block(
    alloc: Global,
    scope: &[Entry],
    block: &BlockTree,
) -> Result<Option<SourceFault>, AllocError>
    requires numbers { IsTrue (has_small_numbers scope.now) }
    ensures { IfOk result (λ fault. fault ≡ least (block_faults scope.now block.now)) }
{
    let body = block.body.items();
    let guard = fault_in_expected(alloc, scope, Some(Kind::Bool), &block.guard)?;
    let inner = fault_in_each(alloc, scope, body)?;
    Ok(earlier_of(earlier_of(guard, inner), over_statements(body)))
}

/// The first `return` that is not the last statement of the last block.
pub(crate) fn early_return_in(blocks: &[BlockTree]) -> Option<SourceFault>
    ensures { (scope : List Entry) → result ≡ least (early_in_blocks scope blocks.now) }
{
    match blocks.len().checked_sub(1) {
        None => None,
        Some(last) => earlier_of(
            any_return_in(&blocks[..last]),
            early_return(blocks[last].body.items()),
        ),
    }
}

/// The first `return` of blocks in which none may stand.
fn any_return_in(blocks: &[BlockTree]) -> Option<SourceFault>
    ensures { (scope : List Entry) → result
        ≡ least (flat_map (λ block. return_faults scope block.body) blocks.now) }
{
    let mut fault = None;
    for block in blocks {
        fault = earlier_of(fault, any_return(block.body.items()));
    }
    fault
}
