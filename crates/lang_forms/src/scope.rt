//! What names stand for.

ghost use Rattle.std.specs.Prelude.{◌≡◌, ◌++◌, ◌≤◌, [], ◌∷◌, IfOk, length};
ghost use Rattle.std.specs.Str.{bytes_eq};
ghost use Rattle.lang_base.specs.Limits.{FILE_BYTES, FIRST_LOCAL, GREATEST_NUMBER};
ghost use Rattle.lang_forms.specs.Forms.{meaning_place};
ghost use Rattle.lang_forms.specs.Scope.{constant_value, declared_from, field_count, index_of};
ghost use Rattle.lang_forms.specs.Scope.{input_entries, input_meaning, literal_value, scope_of};

use base_list::Seq;
use lang_base::{Kind, Name, limits};
use lang_tree::{Decl, InputTree, Lit, MethodTree};
use std::alloc::{AllocError, Global};

/// What a name stands for: a constant's number, or the place of an int or a bool.
#[derive(Clone, Copy, Debug)]
pub enum Meaning {
    Number(i64),
    Int { place: u32 },
    Flag { place: u32 },
}

impl Meaning {
    /// The place, or 0 for a number.
    pub(crate) fn place(self) -> u32
        ensures { result ≡ meaning_place self }
    {
        match self {
            Meaning::Number(_) => 0,
            Meaning::Int { place } => place,
            Meaning::Flag { place } => place,
        }
    }
}

/// A name of a scope. A variable, a field or a local, may be assigned; a parameter has a field's
/// place and is none.
#[derive(Debug, Drop)]
pub struct Entry {
    pub name: Name,
    pub meaning: Meaning,
    pub is_variable: bool,
}

/// The names that a method and its blocks see: of declarations, where field `k` has place `k`, of
/// its inputs, where input `k` has place `FIRST_INPUT + k`, and of its locals, where local `k` has
/// place `FIRST_LOCAL + k`. It fails only for want of memory.
pub fn scope_of(
    alloc: Global,
    decls: &[Decl],
    method: &MethodTree,
) -> Result<Seq<Entry>, AllocError>
    requires decls { length decls.now ≤ FILE_BYTES }
    requires inputs { length method.now.inputs ≤ FILE_BYTES }
    requires locals { length method.now.locals ≤ FILE_BYTES }
    ensures { IfOk result (λ scope. scope ≡ scope_of decls.now method.now) }
{
    let mut scope = Vec::new(alloc);
    push_declared(&mut scope, 0, decls)?;
    push_inputs(&mut scope, method.inputs.items())?;
    push_declared(&mut scope, limits::FIRST_LOCAL, method.locals.items())?;
    Ok(Seq::of(scope))
}

/// The parameters and variables among the declarations have the places from the first one on.
fn push_declared(scope: &mut Vec<Entry>, first: u32, decls: &[Decl]) -> Result<(), AllocError>
    requires few { length decls.now ≤ FILE_BYTES }
    requires low { first ≤ FIRST_LOCAL }
    ensures { IfOk result (λ _.
        scope.new.items ≡ scope.old.items ++ declared_from first decls.now) }
{
    let mut place = first;
    for decl in decls {
        let entry = declared_entry(decl, place)?;
        place += places_of(decl);
        scope.push(entry)?;
    }
    Ok(())
}

/// How many places a declaration takes. A constant takes none.
pub fn places_of(decl: &Decl) -> u32
    ensures { result ≡ field_count (decl.now ∷ []) }
{
    match decl {
        Decl::Const { .. } => 0,
        Decl::Param { .. } => 1,
        Decl::Int { .. } => 1,
        Decl::Copied { .. } => 1,
        Decl::Flag { .. } => 1,
    }
}

/// The entry of a declaration, at this place if it is no constant.
fn declared_entry(decl: &Decl, place: u32) -> Result<Entry, AllocError>
    ensures { IfOk result (λ entry. declared_from place (decl.now ∷ []) ≡ entry ∷ []) }
{
    match decl {
        Decl::Const { name, value, .. } => Ok(Entry {
            name: name.clone()?,
            meaning: Meaning::Number(constant_value(value)),
            is_variable: false,
        }),
        Decl::Param { name, .. } => Ok(Entry {
            name: name.clone()?,
            meaning: Meaning::Int { place },
            is_variable: false,
        }),
        Decl::Int { name, .. } => Ok(Entry {
            name: name.clone()?,
            meaning: Meaning::Int { place },
            is_variable: true,
        }),
        Decl::Copied { name, .. } => Ok(Entry {
            name: name.clone()?,
            meaning: Meaning::Int { place },
            is_variable: true,
        }),
        Decl::Flag { name, .. } => Ok(Entry {
            name: name.clone()?,
            meaning: Meaning::Flag { place },
            is_variable: true,
        }),
    }
}

fn push_inputs(scope: &mut Vec<Entry>, inputs: &[InputTree]) -> Result<(), AllocError>
    requires { length inputs.now ≤ FILE_BYTES }
    ensures { IfOk result (λ _. scope.new.items ≡ scope.old.items ++ input_entries inputs.now) }
{
    for (index, input) in inputs.iter().enumerate() {
        scope.push(Entry {
            name: input.name.clone()?,
            meaning: input_meaning(input.kind, limits::FIRST_INPUT + index as u32),
            is_variable: false,
        })?;
    }
    Ok(())
}

fn input_meaning(kind: Kind, place: u32) -> Meaning
    ensures { result ≡ input_meaning kind place }
{
    match kind {
        Kind::Int => Meaning::Int { place },
        Kind::Bool => Meaning::Flag { place },
    }
}

/// The meaning of a constant. A number that is too large stands for 0 here.
fn constant_value(literal: &Lit) -> i64
    ensures { result ≡ constant_value literal.now }
{
    match i64::try_from(literal.digits) {
        Ok(number) => if literal.minus { -number } else { number },
        Err(_) => 0,
    }
}

/// The number that a literal stands for, where it is not too large.
pub fn number_of(literal: &Lit) -> i64
    requires { literal.now.digits ≤ GREATEST_NUMBER }
    ensures { result ≡ literal_value literal.now }
{
    let magnitude = literal.digits as i64;
    if literal.minus { -magnitude } else { magnitude }
}

/// The index of the first entry of a name.
pub fn find(scope: &[Entry], name: &[u8]) -> Option<usize>
    ensures { result ≡ index_of scope.now name.now }
{
    scope.iter().position(|entry| is_named(entry, name))
}

fn is_named(entry: &Entry, name: &[u8]) -> bool
    ensures { result ≡ bytes_eq entry.now.name name.now }
{
    entry.name.bytes() == name
}
