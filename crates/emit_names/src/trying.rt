//! The names of the methods that try, and of those whose calls are given a function or have a time.

ghost use Rattle.std.specs.Prelude.{◌≡◌, ◌&&◌, ◌||◌, not};
ghost use Rattle.std.specs.List.{list_any};
ghost use Rattle.std.specs.Str.{bytes_eq};
ghost use Rattle.emit_names.specs.Names.{are_lasting_free, are_lasting_with_free, declared_style};
ghost use Rattle.emit_names.specs.Names.{declared_text, ended_name, is_ended_free, is_try_free};
ghost use Rattle.emit_names.specs.Names.{is_try_with_free, is_with_free, member_names, method_name};
ghost use Rattle.emit_names.specs.Names.{try_name, try_with_name};
ghost use Rattle.emit_names.specs.declared.style.Style.TheVariants as styles;
ghost use Rattle.emit_names.specs.inner.Spellings.{spelling_text};
ghost use Rattle.base_io.specs.Writing.{Wrote};

use crate::endings::{Ending, ending_bytes};
use crate::names::{ended_spelling, member_spelling, write_member};
use crate::spelling::{Spelling, is_same};
use crate::style::Style;
use base_io::{Sink, SinkFailed, write_piece};
use lang_base::{Name, Named};
use lang_tree::{Decl, MethodTree, MonitorTree};

/// Writes the name of the method that tries what the method of this name waits for. It takes no
/// memory.
///
/// After `SinkFailed` the first bytes were taken, fewer than all and maybe none.
pub fn write_try_name<S: Sink>(
    tree: &MonitorTree,
    name: &Name,
    out: &mut S,
) -> Result<(), SinkFailed>
    ensures { Wrote (S.seen out.old) (S.seen out.new) result (try_name tree.now name.now) }
{
    write_piece(b"try_", out)?;
    write_member(tree, Style::Snake, name, out)
}

/// Whether no constant, field or method of the monitor is written as the method that tries.
pub fn is_try_free(tree: &MonitorTree, name: &Name) -> bool
    ensures { result ≡ is_try_free tree.now name.now }
{
    let tried = member_spelling(tree, b"try_", Style::Snake, name);
    !is_member(tree, tried)
}

/// Writes the name of the method that does what the method of this name does and calls a function,
/// has a time, or both. It takes no memory.
///
/// After `SinkFailed` the first bytes were taken, fewer than all and maybe none.
pub fn write_ended_name<S: Sink>(
    tree: &MonitorTree,
    ending: Ending,
    name: &Name,
    out: &mut S,
) -> Result<(), SinkFailed>
    ensures { Wrote (S.seen out.old) (S.seen out.new) result
        (ended_name tree.now ending name.now) }
{
    write_member(tree, Style::Snake, name, out)?;
    write_piece(ending_bytes(ending), out)
}

/// Writes the name of the method that tries what the one waits for that calls a function. It takes
/// no memory.
///
/// After `SinkFailed` the first bytes were taken, fewer than all and maybe none.
pub fn write_try_with_name<S: Sink>(
    tree: &MonitorTree,
    name: &Name,
    out: &mut S,
) -> Result<(), SinkFailed>
    ensures { Wrote (S.seen out.old) (S.seen out.new) result (try_with_name tree.now name.now) }
{
    write_piece(b"try_", out)?;
    write_ended_name(tree, Ending::With, name, out)
}

/// Whether nothing else is written as the method whose calls are given a function.
pub fn is_with_free(tree: &MonitorTree, name: &Name) -> bool
    ensures { result ≡ is_with_free tree.now name.now }
{
    is_ended_free(tree, Ending::With, name)
}

fn is_ended_free(tree: &MonitorTree, ending: Ending, name: &Name) -> bool
    ensures { result ≡ is_ended_free tree.now ending name.now }
{
    let ended = ended_spelling(tree, b"", name, ending);
    let member = is_member(tree, ended);
    let tries = any_try_is(tree, tree.methods.items(), ended);
    is_neither(member, tries)
}

/// Whether nothing else is written as the methods that wait until a time, and for one.
pub fn are_lasting_free(tree: &MonitorTree, name: &Name) -> bool
    ensures { result ≡ are_lasting_free tree.now name.now }
{
    let until = is_ended_free(tree, Ending::Until, name);
    let lasts = is_ended_free(tree, Ending::For, name);
    until && lasts
}

/// Whether nothing else is written as those whose calls are given a function too, and as the one
/// that has no time.
pub fn are_lasting_with_free(tree: &MonitorTree, name: &Name) -> bool
    ensures { result ≡ are_lasting_with_free tree.now name.now }
{
    let with = is_with_free(tree, name);
    let until = is_ended_free(tree, Ending::UntilWith, name);
    let lasts = is_ended_free(tree, Ending::ForWith, name);
    with && (until && lasts)
}

/// Whether nothing else is written as that method for calls that try.
pub fn is_try_with_free(tree: &MonitorTree, name: &Name) -> bool
    ensures { result ≡ is_try_with_free tree.now name.now }
{
    let member = is_member(tree, ended_spelling(tree, b"try_", name, Ending::With));
    let tries = is_try_free(tree, name);
    let with = is_with_free(tree, name);
    are_free(member, tries, with)
}

fn are_free(member: bool, tries: bool, with: bool) -> bool
    ensures { result ≡ (not member && (tries && with)) }
{
    !member && (tries && with)
}

fn is_neither(one: bool, other: bool) -> bool
    ensures { result ≡ not (one || other) }
{
    !(one || other)
}

// Whether a constant, a field or a method of the monitor is written so.
fn is_member(tree: &MonitorTree, it: Spelling) -> bool
    ensures { result ≡ list_any (bytes_eq (spelling_text it.entry)) (member_names tree.now) }
{
    let declared = any_declared_is(tree, tree.decls.items(), it);
    let method = any_method_is(tree, tree.methods.items(), it);
    either(declared, method)
}

fn either(one: bool, other: bool) -> bool
    ensures { result ≡ (one || other) }
{
    one || other
}

fn any_declared_is(tree: &MonitorTree, declared: &[Decl], it: Spelling) -> bool
    ensures { result ≡ list_any
        (λ one. bytes_eq (spelling_text it.entry) (declared_text tree.now one)) declared.now }
{
    declared.iter().any(|one| declared_is(tree, one, it))
}

fn declared_is(tree: &MonitorTree, declared: &Decl, it: Spelling) -> bool
    ensures { result ≡ bytes_eq (spelling_text it.entry) (declared_text tree.now declared.now) }
{
    let style = declared_style(declared);
    is_same(it, member_spelling(tree, b"", style, declared.name()))
}

fn declared_style(declared: &Decl) -> Style
    ensures { result ≡ declared_style declared.now }
{
    match declared {
        Decl::Const { .. } => Style::Upper,
        Decl::Param { .. } | Decl::Int { .. } | Decl::Copied { .. } | Decl::Flag { .. } => {
            Style::Snake
        }
    }
}

fn any_method_is(tree: &MonitorTree, methods: &[MethodTree], it: Spelling) -> bool
    ensures { result ≡ list_any
        (λ method. bytes_eq (spelling_text it.entry) (method_name tree.now method)) methods.now }
{
    methods.iter().any(|method| method_is(tree, method, it))
}

fn method_is(tree: &MonitorTree, method: &MethodTree, it: Spelling) -> bool
    ensures { result ≡ bytes_eq (spelling_text it.entry) (method_name tree.now method.now) }
{
    is_same(it, member_spelling(tree, b"", Style::Snake, &method.name))
}

fn any_try_is(tree: &MonitorTree, methods: &[MethodTree], it: Spelling) -> bool
    ensures { result ≡ list_any
        (λ method. bytes_eq (spelling_text it.entry) (try_name tree.now method.name)) methods.now }
{
    methods.iter().any(|method| try_is(tree, method, it))
}

fn try_is(tree: &MonitorTree, method: &MethodTree, it: Spelling) -> bool
    ensures { result ≡ bytes_eq (spelling_text it.entry) (try_name tree.now method.now.name) }
{
    is_same(
        it,
        member_spelling(tree, b"try_", Style::Snake, &method.name),
    )
}
