//! The methods of a monitor.

ghost use Rattle.std.specs.Prelude.{◌≡◌, ◌≤◌, All, IfOk, length, map};
ghost use Rattle.lang_base.specs.Limits.{METHODS};
ghost use Rattle.lang_types.specs.Typed.{method_of, methods_from};
ghost use Rattle.lang_types.specs.inner.Making.{HasSmallParts};

use super::fields::starts_of;
use base_list::Seq;
use lang_base::Kind;
use lang_monitor::Method;
use lang_tree::{InputTree, MethodTree};
use std::alloc::{AllocError, Global};

/// The methods of these trees, whose blocks follow one another.
pub(crate) fn methods_of(alloc: Global, trees: &[MethodTree]) -> Result<Vec<Method>, AllocError>
    requires few { length trees.now ≤ METHODS }
    requires small { All HasSmallParts trees.now }
    ensures { IfOk result (λ methods. methods.items ≡ methods_from 0 trees.now) }
{
    let mut methods = Vec::new(alloc);
    let mut first = 0;
    for tree in trees {
        let method = method_of(alloc, tree, first)?;
        first += method.count;
        methods.push(method)?;
    }
    Ok(methods)
}

/// The method of a tree, whose first block has this number.
fn method_of(alloc: Global, tree: &MethodTree, first: u32) -> Result<Method, AllocError>
    requires { HasSmallParts tree.now }
    ensures { IfOk result (λ method. method ≡ method_of first tree.now) }
{
    Ok(Method {
        name: tree.name.clone()?,
        inputs: Seq::of(kinds_of(alloc, tree.inputs.items())?),
        locals: Seq::of(starts_of(alloc, tree.locals.items())?),
        asserts: tree.asserts,
        first,
        count: tree.blocks.items().len() as u32,
    })
}

/// The kinds of these inputs.
fn kinds_of(alloc: Global, inputs: &[InputTree]) -> Result<Vec<Kind>, AllocError>
    ensures { IfOk result (λ kinds. kinds.items ≡ map (λ input. input.kind) inputs.now) }
{
    let mut kinds = Vec::new(alloc);
    for input in inputs {
        kinds.push(input.kind)?;
    }
    Ok(kinds)
}
