//! A state: a value for each field.

ghost use Rattle.std.specs.Prelude.{◌≡◌, ◌≤◌, ◌<◌, [], ◌∷◌, ◌++◌, length, take, slice_set};
ghost use Rattle.lang_base.specs.Limits.{FIELDS};

use lang_base::Value;
use lang_base::limits::FIELDS;
use std::marker::Model;

/// The value of each field, at most 16 of them, held inline: a copy takes no memory.
#[derive(Debug, Drop)]
pub struct State {
    values: [Value; FIELDS],
    len: usize,
}

impl Model for State {
    ghost use Rattle.std.specs.Prelude.{List, take, ◌≤◌};
    ghost use Rattle.lang_base.specs.Limits.{FIELDS};
    ghost use Rattle.lang_base.specs.declared.value.Value.{Value as Held};

    ghost Value = { List Held };

    ghost view = { λ state. take state.len state.values };

    ghost invariant = { λ state. state.len ≤ FIELDS };
}

impl State {
    /// The values, in the order of the fields.
    pub fn values(&self) -> &[Value]
        ensures values { result.now ≡ self.now }
        ensures few { length self.now ≤ FIELDS }
    {
        &self.values[..self.len]
    }

    /// The state with no field.
    pub(crate) fn empty() -> State
        ensures { result ≡ [] }
    {
        State {
            values: [Value::Int(0); FIELDS],
            len: 0,
        }
    }

    /// One more field's value.
    pub(crate) fn push(&mut self, value: Value)
        requires { length self.old < FIELDS }
        ensures { self.new ≡ self.old ++ value ∷ [] }
    {
        self.values[self.len] = value;
        self.len += 1;
    }

    /// Puts a value at a place.
    pub(crate) fn set(&mut self, place: usize, value: Value)
        requires within { place < length self.old }
        requires few { length self.old ≤ FIELDS }
        ensures { self.new ≡ slice_set self.old place value }
    {
        self.values[place] = value;
    }

    /// A copy. It takes no memory.
    pub fn duplicate(&self) -> State
        ensures { result ≡ self.now }
    {
        State {
            values: self.values,
            len: self.len,
        }
    }
}
