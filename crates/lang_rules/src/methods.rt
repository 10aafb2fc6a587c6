//! The rules of methods.

ghost use Rattle.std.specs.Prelude.{◌≡◌, ◌≤◌, All, IfOk, length};
ghost use Rattle.lang_base.specs.Limits.{FILE_BYTES};
ghost use Rattle.lang_base.specs.SourceFaults.{least};
ghost use Rattle.lang_rules.specs.Rules.{faults_in_methods, method_faults, own_faults};

use crate::blocks::{early_return_in, fault_in_blocks};
use crate::limits::{over_blocks, over_inputs, over_locals};
use crate::names::repeated_own;
use crate::numbers::large_literal;
use lang_base::{SourceFault, earlier_of};
use lang_forms::{scope_numbers_are_small, scope_of};
use lang_tree::{Decl, MethodTree};
use std::alloc::{AllocError, Global};

/// The first fault in methods.
pub(crate) fn fault_in_methods(
    alloc: Global,
    decls: &[Decl],
    methods: &[MethodTree],
) -> Result<Option<SourceFault>, AllocError>
    requires declared { length decls.now ≤ FILE_BYTES }
    requires taken { All (λ method. length method.inputs ≤ FILE_BYTES) methods.now }
    requires locals { All (λ method. length method.locals ≤ FILE_BYTES) methods.now }
    ensures { IfOk result (λ fault. fault ≡ least (faults_in_methods decls.now methods.now)) }
{
    let mut fault = None;
    for method in methods {
        fault = earlier_of(fault, fault_in_method(alloc, decls, method)?);
    }
    Ok(fault)
}

fn fault_in_method(
    alloc: Global,
    decls: &[Decl],
    method: &MethodTree,
) -> Result<Option<SourceFault>, AllocError>
    requires declared { length decls.now ≤ FILE_BYTES }
    requires taken { length method.now.inputs ≤ FILE_BYTES }
    requires locals { length method.now.locals ≤ FILE_BYTES }
    ensures { IfOk result (λ fault. fault ≡ least (method_faults decls.now method.now)) }
{
    let scope = scope_of(alloc, decls, method)?;
    scope_numbers_are_small(); // as the rules of expressions ask of a scope
    let blocks = method.blocks.items();
    let inner = fault_in_blocks(alloc, scope.items(), blocks)?;
    let first = earlier_of(own_fault(decls, method), inner);
    Ok(earlier_of(first, early_return_in(blocks)))
}

/// The first fault in a method's parameters and locals, or that it has too many blocks.
fn own_fault(decls: &[Decl], method: &MethodTree) -> Option<SourceFault>
    ensures { result ≡ least (own_faults decls.now method.now) }
{
    let inputs = method.inputs.items();
    let locals = method.locals.items();
    let first = earlier_of(repeated_own(decls, inputs, locals), over_inputs(inputs));
    let first = earlier_of(first, over_locals(locals));
    let first = earlier_of(first, over_blocks(method.blocks.items()));
    earlier_of(first, large_literal(locals))
}
