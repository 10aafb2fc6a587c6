//! From the tree of a file that breaks no rule to a monitor.

ghost use Rattle.std.specs.Prelude.{◌≡◌, [], All, IfOk};
ghost use Rattle.lang_base.specs.Identifiers.{IsIdentifier};
ghost use Rattle.lang_tree.specs.Names.{names_in};
ghost use Rattle.lang_rules.specs.Rules.{faults_of};
ghost use Rattle.lang_types.specs.Typed.{IsTyped};
ghost use Rattle.lang_types.specs.inner.Making.{HasBlocks};

mod blocks;
mod conditions;
mod fields;
mod methods;
mod statements;

use blocks::blocks_of;
use fields::fields_of;
use lang_monitor::Monitor;
use lang_tree::MonitorTree;
use methods::methods_of;
use std::alloc::{AllocError, Global};

/// The monitor that a tree of identifiers stands for, where the tree breaks no rule and each of its
/// methods has a block, and just one where it asserts. It fails only for want of memory.
pub(crate) fn monitor_of(alloc: Global, tree: &MonitorTree) -> Result<Monitor, AllocError>
    requires fine { faults_of tree.now ≡ [] }
    requires names { All IsIdentifier (names_in tree.now) }
    requires blocks { All HasBlocks tree.now.methods }
    ensures { IfOk result (λ monitor. IsTyped tree.now monitor) }
{
    let decls = tree.decls.items();
    let trees = tree.methods.items();
    let name = tree.name.clone()?;
    let fields = fields_of(alloc, decls)?;
    let methods = methods_of(alloc, trees)?;
    let mut conditions = Vec::new(alloc);
    let blocks = blocks_of(alloc, decls, trees, &mut conditions)?;
    Ok(Monitor::of(name, fields, methods, blocks, conditions))
}
