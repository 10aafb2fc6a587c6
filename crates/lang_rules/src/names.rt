//! Names that are those of earlier declarations, methods, inputs or locals.

ghost use Rattle.std.specs.Prelude.{◌≡◌, ◌↔◌, ◌<◌, [], ◌++◌, Contains, IsTrue, Some, None};
ghost use Rattle.std.specs.Prelude.{if◌then◌else◌, length, map, slice_get, take};
ghost use Rattle.lang_tree.specs.Names.{declared_name as bare_name};
ghost use Rattle.lang_base.specs.declared.source_fault.Refusal.TheVariants as refusals;
ghost use Rattle.lang_base.specs.SourceFaults.{fault_at, least};
ghost use Rattle.lang_rules.specs.Rules.{declared_name, declared_names, input_names, method_names};
ghost use Rattle.lang_rules.specs.Rules.{repeated};

use lang_base::{Named, Refusal, SourceFault, earlier_of, is_among, is_repeated};
use lang_tree::{Decl, InputTree, MethodTree};

/// The first of the declarations and methods with the name of an earlier one.
pub(crate) fn repeated_name(decls: &[Decl], methods: &[MethodTree]) -> Option<SourceFault>
    ensures { result ≡ least (repeated [] (declared_names decls.now ++ method_names methods.now)) }
{
    earlier_of(repeated_declaration(decls), repeated_method(decls, methods))
}

fn repeated_declaration(decls: &[Decl]) -> Option<SourceFault>
    ensures { result ≡ least (repeated [] (declared_names decls.now)) }
{
    let mut fault = None;
    for (i, decl) in decls.iter().enumerate() {
        let again = is_repeated(decls, i);
        fault = earlier_of(fault, repeated_at(again, place_of_name(decl)));
    }
    fault
}

fn repeated_method(decls: &[Decl], methods: &[MethodTree]) -> Option<SourceFault>
    ensures { result ≡ least (repeated (declared_names decls.now) (method_names methods.now)) }
{
    let mut fault = None;
    for (i, method) in methods.iter().enumerate() {
        let again = is_taken(decls, methods, i);
        fault = earlier_of(fault, repeated_at(again, method.at));
    }
    fault
}

/// The first of a method's inputs and locals with the name of a declaration or an earlier one.
pub(crate) fn repeated_own(
    decls: &[Decl],
    inputs: &[InputTree],
    locals: &[Decl],
) -> Option<SourceFault>
    ensures { result ≡ least (repeated (declared_names decls.now)
        (input_names inputs.now ++ declared_names locals.now)) }
{
    earlier_of(
        repeated_input(decls, inputs),
        repeated_local(decls, inputs, locals),
    )
}

fn repeated_input(decls: &[Decl], inputs: &[InputTree]) -> Option<SourceFault>
    ensures { result ≡ least (repeated (declared_names decls.now) (input_names inputs.now)) }
{
    let mut fault = None;
    for (i, input) in inputs.iter().enumerate() {
        let again = is_taken(decls, inputs, i);
        fault = earlier_of(fault, repeated_at(again, input.at));
    }
    fault
}

fn repeated_local(decls: &[Decl], inputs: &[InputTree], locals: &[Decl]) -> Option<SourceFault>
    ensures { result ≡ least (repeated (declared_names decls.now ++ input_names inputs.now)
        (declared_names locals.now)) }
{
    let mut fault = None;
    for (i, local) in locals.iter().enumerate() {
        let again = is_local_taken(decls, inputs, locals, i);
        fault = earlier_of(fault, repeated_at(again, place_of_name(local)));
    }
    fault
}

/// The name that stands here repeats one.
fn repeated_at(again: bool, at: u32) -> Option<SourceFault>
    ensures { result ≡ (if again then Some (fault_at refusals.Duplicate at) else None) }
{
    if again {
        Some(SourceFault {
            at,
            what: Refusal::Duplicate,
        })
    } else {
        None
    }
}

/// The name at this place is that of a declaration, or also stands earlier.
fn is_taken<T: Named>(decls: &[Decl], items: &[T], place: usize) -> bool
    requires { place < length items.now }
    ensures { (item : _) → slice_get items.now place ≡ Some item → IsTrue result
        ↔ Contains (map bare_name decls.now ++ map T.name_of (take place items.now))
        (T.name_of item) }
{
    is_repeated(items, place) || is_among(decls, items[place].name())
}

/// The name of the local at this place is a declaration's or an input's, or also stands earlier.
fn is_local_taken(decls: &[Decl], inputs: &[InputTree], locals: &[Decl], place: usize) -> bool
    requires { place < length locals.now }
    ensures { (local : _) → slice_get locals.now place ≡ Some local → IsTrue result
        ↔ Contains (map bare_name decls.now ++ map (λ input. input.name) inputs.now
        ++ map bare_name (take place locals.now)) (bare_name local) }
{
    is_taken(decls, locals, place) || is_among(inputs, locals[place].name())
}

/// The offset of the name that a declaration declares.
pub(crate) fn place_of_name(decl: &Decl) -> u32
    ensures { result ≡ (declared_name decl.now).at }
{
    match decl {
        Decl::Const { at, .. } => *at,
        Decl::Param { at, .. } => *at,
        Decl::Int { at, .. } => *at,
        Decl::Copied { at, .. } => *at,
        Decl::Flag { at, .. } => *at,
    }
}
