//! Linear forms.

ghost use Rattle.std.specs.Prelude.{◌≡◌, ◌↔◌, IfOk, IsTrue, All, map};
ghost use Rattle.std.specs.Cmp.{partial_equiv_from_equiv};
ghost use Rattle.logic_linear.specs.Linear.{IsLinear, IsTerm, same_linear, same_linear_equiv};
ghost use Rattle.logic_linear.specs.Negation.{can_negate_linear, negative_term, one_less};

use std::alloc::{AllocError, Global};
use std::marker::Model;

/// A variable's place, and how many times its value counts.
#[derive(Clone, Copy, Debug, PartialEq, Eq)]
pub struct Term {
    pub place: u32,
    pub times: i128,
}

/// A sum of terms and a constant. The places of the terms rise strictly, no variable counts 0
/// times, and each number is from `-2^95` to `2^95 - 1`.
#[derive(Debug, Drop)]
pub struct Lin {
    terms: Vec<Term>,
    constant: i128,
}

impl Model for Lin {
    ghost use Rattle.logic_linear.specs.Linear.{Linear, IsLinear};

    ghost Value = { Linear };

    ghost view = { λ form. record { terms = form.terms.items; constant = form.constant } };

    ghost invariant = { λ form. IsLinear (record { terms = form.terms.items; constant = form.constant }) };
}

impl Lin {
    /// The form of these terms and this constant. It takes no memory.
    pub fn of(terms: Vec<Term>, constant: i128) -> Lin
        requires { IsLinear (record { terms = terms.items; constant = constant }) }
        ensures terms { result.terms ≡ terms.items }
        ensures constant { result.constant ≡ constant }
    {
        Lin { terms, constant }
    }

    /// Its terms, by rising place.
    pub fn terms(&self) -> &[Term]
        ensures terms { result.now ≡ self.now.terms }
        ensures rule { IsLinear self.now }
    {
        self.terms.as_slice()
    }

    /// Its constant.
    pub fn constant(&self) -> i128
        ensures constant { result ≡ self.now.constant }
        ensures rule { IsLinear self.now }
    {
        self.constant
    }

    /// 1 minus the form. It fails only for want of memory.
    pub(crate) fn one_less(&self, alloc: Global) -> Result<Lin, AllocError>
        requires { IsTrue (can_negate_linear self.now) }
        ensures { IfOk result (λ form. form ≡ one_less self.now) }
    {
        let terms = negatives(alloc, self.terms())?;
        Ok(Lin::of(terms, 1 - self.constant()))
    }

    /// Whether the two are the same form, as `==` tells too.
    pub fn is_same(&self, other: &Lin) -> bool
        ensures { IsTrue result ↔ (self.now ≡ other.now) }
    {
        self == other
    }
}

impl Clone for Lin {
    ghost is_clone = { λ form copy. copy ≡ form };

    /// A copy, with the same allocator. It fails only for want of memory.
    fn clone(&self) -> Result<Lin, AllocError> {
        Ok(Lin::of(self.terms.clone()?, self.constant))
    }
}

impl PartialEq for Lin {
    ghost eq = { same_linear };

    ghost laws = { partial_equiv_from_equiv same_linear_equiv };

    fn eq(&self, other: &Lin) -> bool {
        self.terms() == other.terms() && self.constant() == other.constant()
    }
}

impl Eq for Lin {
    ghost laws = { same_linear_equiv };
}

/// The terms with each number's sign turned.
pub(crate) fn negatives(alloc: Global, terms: &[Term]) -> Result<Vec<Term>, AllocError>
    requires { All IsTerm terms.now }
    ensures { IfOk result (λ negatives. negatives.items ≡ map negative_term terms.now) }
{
    let mut negatives = Vec::new(alloc);
    for term in terms {
        negatives.push(Term {
            place: term.place,
            times: -term.times,
        })?;
    }
    Ok(negatives)
}
