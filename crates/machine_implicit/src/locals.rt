//! The locals of a call.

ghost use Rattle.std.specs.Prelude.{◌≡◌, ◌≤◌, ◌<◌, [], ◌∷◌, ◌++◌, length, take, slice_set};
ghost use Rattle.lang_base.specs.Limits.{LOCALS};

use lang_base::Value;
use lang_base::limits::LOCALS;
use std::marker::Model;

/// The value of each local of a method, at most 4 of them, held inline: a copy takes no memory.
#[derive(Debug, Drop)]
pub struct Locals {
    values: [Value; LOCALS],
    len: usize,
}

impl Model for Locals {
    ghost use Rattle.std.specs.Prelude.{List, take, ◌≤◌};
    ghost use Rattle.lang_base.specs.Limits.{LOCALS};
    ghost use Rattle.lang_base.specs.declared.value.Value.{Value as Held};

    ghost Value = { List Held };

    ghost view = { λ held. take held.len held.values };

    ghost invariant = { λ held. held.len ≤ LOCALS };
}

impl Locals {
    /// The values, in the order of the locals.
    pub fn values(&self) -> &[Value]
        ensures values { result.now ≡ self.now }
        ensures few { length self.now ≤ LOCALS }
    {
        &self.values[..self.len]
    }

    /// The locals of a method with none.
    pub(crate) fn empty() -> Locals
        ensures { result ≡ [] }
    {
        Locals {
            values: [Value::Int(0); LOCALS],
            len: 0,
        }
    }

    /// No local any more.
    pub(crate) fn clear(&mut self)
        ensures { self.new ≡ [] }
    {
        self.len = 0;
    }

    /// One more local's value.
    pub(crate) fn push(&mut self, value: Value)
        requires { length self.old < LOCALS }
        ensures { self.new ≡ self.old ++ value ∷ [] }
    {
        self.values[self.len] = value;
        self.len += 1;
    }

    /// Puts a value at a place.
    pub(crate) fn set(&mut self, place: usize, value: Value)
        requires within { place < length self.old }
        requires few { length self.old ≤ LOCALS }
        ensures { self.new ≡ slice_set self.old place value }
    {
        self.values[place] = value;
    }

    /// A copy. It takes no memory.
    pub fn duplicate(&self) -> Locals
        ensures { result ≡ self.now }
    {
        Locals {
            values: self.values,
            len: self.len,
        }
    }
}
