//! The first fault in a monitor file.

ghost use Rattle.std.specs.Prelude.{◌≡◌, IfOk};
ghost use Rattle.lang_base.specs.SourceFaults.{least};
ghost use Rattle.lang_rules.specs.Rules.{HasFewNames, faults_of};

use crate::limits::{over_constants, over_fields, over_methods};
use crate::methods::fault_in_methods;
use crate::names::repeated_name;
use crate::numbers::large_literal;
use crate::starts::fault_in_starts;
use lang_base::{SourceFault, earlier_of};
use lang_tree::MonitorTree;
use std::alloc::{AllocError, Global};

/// The first rule that the tree of a monitor file breaks: the one at the least place, and at one
/// place the first in the order of [`Refusal`](lang_base::Refusal). There is none only where the
/// tree keeps all the rules.
///
/// # Errors
///
/// Out of memory.
pub fn fault_in_monitor(
    alloc: Global,
    tree: &MonitorTree,
) -> Result<Option<SourceFault>, AllocError>
    requires few { HasFewNames tree.now }
    ensures { IfOk result (λ fault. fault ≡ least (faults_of tree.now)) }
{
    let decls = tree.decls.items();
    let methods = tree.methods.items();
    let inner = fault_in_methods(alloc, decls, methods)?;
    let first = earlier_of(large_literal(decls), fault_in_starts(decls));
    let first = earlier_of(first, repeated_name(decls, methods));
    let first = earlier_of(first, over_constants(decls));
    let first = earlier_of(first, over_fields(decls));
    let first = earlier_of(first, over_methods(methods));
    Ok(earlier_of(first, inner))
}
