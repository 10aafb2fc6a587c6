//! What a name of an expression is written as.

ghost use Rattle.std.specs.Prelude.{◌≡◌, ◌++◌, codes};
ghost use Rattle.std.specs.List.{list_any};
ghost use Rattle.emit_expressions.specs.Scopes.{constant_name, declares, is_constant, is_reached};
ghost use Rattle.emit_expressions.specs.Scopes.{lent_text, meaning_by, meaning_of, meaning_text};
ghost use Rattle.emit_expressions.specs.Scopes.{name_text, is_variable_name, reaches_inputs, seen};
ghost use Rattle.emit_expressions.specs.Scopes.{is_read, varies};
ghost use Rattle.emit_names.specs.Names.{input_name, member_name};
ghost use Rattle.emit_names.specs.declared.style.Style.TheVariants as styles;
ghost use Rattle.base_io.specs.Writing.{Wrote};

use base_io::{Sink, SinkFailed, write_piece, write_pieces};
use emit_names::{Style, write_input, write_member, write_type};
use lang_base::{Name, Named};
use lang_tree::{Decl, MethodTree, MonitorTree};

/// How an expression reaches the parameters and locals of its method.
#[derive(Clone, Copy, Debug, PartialEq, Eq)]
pub enum Reach {
    /// By value, as a guard does.
    Held,
    /// Locals through a reference, as a body does.
    Lent,
    /// Not at all, as the guard of a condition that reads no inputs.
    Unread,
}

/// Where an expression stands: its monitor, its method, the word before fields, how inputs are
/// reached, and whether it is known that no value that is stored or answered there leaves 64 bits.
#[derive(Clone, Copy)]
pub struct Scope<'a> {
    pub tree: &'a MonitorTree,
    pub method: &'a MethodTree,
    pub receiver: &'a [u8],
    pub reach: Reach,
    pub whole: bool,
}

/// What a name stands for.
#[derive(Clone, Copy, Debug, PartialEq, Eq)]
pub(crate) enum Meaning {
    Constant,
    Field,
    Local,
    Parameter,
}

/// Writes what a name is in Rust. It takes no memory.
///
/// After `SinkFailed` the first bytes were taken, fewer than all and maybe none.
pub fn write_name<S: Sink>(scope: &Scope, name: &Name, out: &mut S) -> Result<(), SinkFailed>
    ensures { Wrote (S.seen out.old) (S.seen out.new) result (name_text (seen scope.now) name.now) }
{
    let meaning = meaning_of(scope.tree, scope.method, name);
    write_meaning(scope, name, meaning, out)
}

fn write_meaning<S: Sink>(
    scope: &Scope,
    name: &Name,
    meaning: Meaning,
    out: &mut S,
) -> Result<(), SinkFailed>
    ensures { Wrote (S.seen out.old) (S.seen out.new) result
        (meaning_text (seen scope.now) name.now meaning) }
{
    match meaning {
        Meaning::Constant => write_constant(scope.tree, name, out),
        Meaning::Field => write_field(scope, name, out),
        Meaning::Local => write_local(scope, name, out),
        Meaning::Parameter => write_input(scope.method, name, out),
    }
}

/// Writes what a constant is in Rust: `Buffer::CAP`. It takes no memory.
///
/// After `SinkFailed` the first bytes were taken, fewer than all and maybe none.
pub fn write_constant<S: Sink>(
    tree: &MonitorTree,
    name: &Name,
    out: &mut S,
) -> Result<(), SinkFailed>
    ensures { Wrote (S.seen out.old) (S.seen out.new) result (constant_name tree.now name.now) }
{
    write_type(tree, out)?;
    write_piece(b"::", out)?;
    write_member(tree, Style::Upper, name, out)
}

// `self.count`
fn write_field<S: Sink>(scope: &Scope, name: &Name, out: &mut S) -> Result<(), SinkFailed>
    ensures { Wrote (S.seen out.old) (S.seen out.new) result
        (scope.now.receiver.now ++ codes "."
        ++ member_name scope.now.tree.now styles.Snake name.now) }
{
    write_pieces(&[scope.receiver, b"."], out)?;
    write_member(scope.tree, Style::Snake, name, out)
}

// `seen` in a guard, and `*seen` in a body
fn write_local<S: Sink>(scope: &Scope, name: &Name, out: &mut S) -> Result<(), SinkFailed>
    ensures { Wrote (S.seen out.old) (S.seen out.new) result
        (lent_text scope.now.reach ++ input_name scope.now.method.now name.now) }
{
    write_piece(lent_bytes(scope.reach), out)?;
    write_input(scope.method, name, out)
}

fn lent_bytes(reach: Reach) -> &'static [u8]
    ensures { result.now ≡ lent_text reach }
{
    match reach {
        Reach::Lent => b"*",
        Reach::Held | Reach::Unread => b"",
    }
}

/// Whether a name has a text where the expression stands.
pub(crate) fn is_read(scope: &Scope, name: &Name) -> bool
    ensures { result ≡ is_read (seen scope.now) name.now }
{
    is_reached(scope.reach, meaning_of(scope.tree, scope.method, name))
}

fn is_reached(reach: Reach, meaning: Meaning) -> bool
    ensures { result ≡ is_reached reach meaning }
{
    match meaning {
        Meaning::Constant | Meaning::Field => true,
        Meaning::Local | Meaning::Parameter => reaches_inputs(reach),
    }
}

fn reaches_inputs(reach: Reach) -> bool
    ensures { result ≡ reaches_inputs reach }
{
    match reach {
        Reach::Held | Reach::Lent => true,
        Reach::Unread => false,
    }
}

/// Whether a name is that of a field, an argument or a local.
pub(crate) fn is_variable_name(scope: &Scope, name: &Name) -> bool
    ensures { result ≡ is_variable_name (seen scope.now) name.now }
{
    varies(meaning_of(scope.tree, scope.method, name))
}

fn varies(meaning: Meaning) -> bool
    ensures { result ≡ varies meaning }
{
    match meaning {
        Meaning::Constant => false,
        Meaning::Field | Meaning::Local | Meaning::Parameter => true,
    }
}

fn meaning_of(tree: &MonitorTree, method: &MethodTree, name: &Name) -> Meaning
    ensures { result ≡ meaning_of tree.now method.now name.now }
{
    let bytes = name.bytes();
    let constant = any_is_constant(tree.decls.items(), bytes);
    let declared = any_declares(tree.decls.items(), bytes);
    let local = any_declares(method.locals.items(), bytes);
    meaning_by(constant, declared, local)
}

fn meaning_by(constant: bool, declared: bool, local: bool) -> Meaning
    ensures { result ≡ meaning_by constant declared local }
{
    if constant {
        return Meaning::Constant;
    }
    if declared {
        return Meaning::Field;
    }
    if local {
        Meaning::Local
    } else {
        Meaning::Parameter
    }
}

/// Whether a name is that of a constant among these declarations.
pub fn any_is_constant(declared: &[Decl], name: &[u8]) -> bool
    ensures { result ≡ list_any (is_constant name.now) declared.now }
{
    declared.iter().any(|one| is_constant(name, one))
}

fn is_constant(name: &[u8], declared: &Decl) -> bool
    ensures { result ≡ is_constant name.now declared.now }
{
    match declared {
        Decl::Const { name: other, .. } => other.bytes() == name,
        Decl::Param { .. } | Decl::Int { .. } | Decl::Copied { .. } | Decl::Flag { .. } => false,
    }
}

fn any_declares(declared: &[Decl], name: &[u8]) -> bool
    ensures { result ≡ list_any (declares name.now) declared.now }
{
    declared.iter().any(|one| one.name().bytes() == name)
}
