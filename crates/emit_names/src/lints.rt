//! The names of which rustc's lints would speak.

ghost use Rattle.std.specs.Prelude.{◌≡◌, ◌++◌, ◌||◌, map};
ghost use Rattle.std.specs.List.{list_any};
ghost use Rattle.emit_names.specs.Lints.{any_odd, begins_underlined, has_double, has_odd_name};
ghost use Rattle.emit_names.specs.Lints.{is_odd};
ghost use Rattle.emit_names.specs.Names.{inputs_of};

use crate::names::is_met;
use lang_base::Named;
use lang_tree::{MethodTree, MonitorTree};

/// Whether rustc's lints would speak of some name of a monitor: one that is written as it stands,
/// begins with `_` or has two in a row.
pub fn has_odd_name(tree: &MonitorTree) -> bool
    ensures { result ≡ has_odd_name tree.now }
{
    let members = any_odd(tree.decls.items(), tree.methods.items());
    let inputs = any_odd_input(tree.methods.items());
    members || inputs
}

fn any_odd_input(methods: &[MethodTree]) -> bool
    ensures { result ≡ list_any (λ method. any_odd (inputs_of method)) methods.now }
{
    methods.iter().any(|method| has_odd_input(method))
}

fn has_odd_input(method: &MethodTree) -> bool
    ensures { result ≡ any_odd (inputs_of method.now) }
{
    any_odd(method.inputs.items(), method.locals.items())
}

// Whether some name of a scope of two lists is odd.
fn any_odd<T: Named, U: Named>(first: &[T], more: &[U]) -> bool
    ensures { result ≡ any_odd (map T.name_of first.now ++ map U.name_of more.now) }
{
    let one = any_odd_of(first, first, more);
    let other = any_odd_of(more, first, more);
    one || other
}

fn any_odd_of<V: Named, T: Named, U: Named>(items: &[V], first: &[T], more: &[U]) -> bool
    ensures { result ≡ list_any (λ item. is_odd (map T.name_of first.now ++ map U.name_of more.now)
        (V.name_of item)) items.now }
{
    items
        .iter()
        .any(|item| is_odd(first, more, item.name().bytes()))
}

fn is_odd<T: Named, U: Named>(first: &[T], more: &[U], name: &[u8]) -> bool
    ensures { result ≡ is_odd (map T.name_of first.now ++ map U.name_of more.now) name.now }
{
    let met = is_met(first, name);
    let met_later = is_met(more, name);
    let begins = begins_underlined(name);
    let doubled = has_double(name);
    odd_by(met, met_later, begins, doubled)
}

fn odd_by(met: bool, met_later: bool, begins: bool, doubled: bool) -> bool
    ensures { result ≡ ((met || met_later) || (begins || doubled)) }
{
    (met || met_later) || (begins || doubled)
}

fn begins_underlined(name: &[u8]) -> bool
    ensures { result ≡ begins_underlined name.now }
{
    match name {
        [b, ..] => *b == b'_',
        _ => false,
    }
}

#[cycle(has_double)]
fn has_double(name: &[u8]) -> bool
    ensures { result ≡ has_double name.now }
{
    let [b, more @ ..] = name else {
        return false;
    };
    (*b == b'_' && begins_underlined(more)) || has_double(more)
}
