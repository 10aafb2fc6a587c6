//! Rows of 128 bits.

ghost use Rattle.std.specs.Prelude.{◌≡◌, IfOk};
ghost use Rattle.logic_linear.specs.Linear.{IsRising};
ghost use Rattle.logic_cert.specs.Refutes.{is_absurd};

use base_list::Seq;
use logic_linear::{Lin, Term};
use std::alloc::{AllocError, Global};
use std::marker::Model;

/// A row `form <= 0` whose numbers have 128 bits. The places of its terms rise strictly.
#[derive(Debug, Drop)]
pub struct WideRow {
    terms: Seq<Term>,
    constant: i128,
}

impl Model for WideRow {
    ghost use Rattle.logic_linear.specs.Linear.{Linear, IsRising};

    ghost Value = { Linear };

    ghost view = { λ row. record { terms = row.terms; constant = row.constant } };

    ghost invariant = { λ row. IsRising row.terms };
}

impl WideRow {
    /// The row of a form. It fails only for want of memory.
    pub fn of_form(alloc: Global, form: &Lin) -> Result<WideRow, AllocError>
        ensures { IfOk result (λ row. row ≡ form.now) }
    {
        let terms = Vec::from_slice(alloc, form.terms())?;
        Ok(WideRow::of(Seq::of(terms), form.constant()))
    }

    /// The row of these terms and this constant.
    pub(crate) fn of(terms: Seq<Term>, constant: i128) -> WideRow
        requires { IsRising terms }
        ensures terms { result.terms ≡ terms }
        ensures constant { result.constant ≡ constant }
    {
        WideRow { terms, constant }
    }

    /// Its terms, by rising place.
    pub fn terms(&self) -> &[Term]
        ensures terms { result.now ≡ self.now.terms }
        ensures rule { IsRising self.now.terms }
    {
        self.terms.items()
    }

    /// Its constant.
    pub fn constant(&self) -> i128
        ensures { result ≡ self.now.constant }
    {
        self.constant
    }

    /// Whether the row has no variable and a constant above 0, so that it is true nowhere.
    pub fn is_absurd(&self) -> bool
        ensures { result ≡ is_absurd self.now }
    {
        match self.terms.items() {
            [] => self.constant > 0,
            _ => false,
        }
    }
}
