//! What follows from the definitions alone.

ghost use Rattle.std.specs.Prelude.{◌≡◌, ◌+ℤ◌, ◌*ℤ◌, ℤ, not};
ghost use Rattle.logic_linear.specs.declared.formula.Formula.{Formula};
ghost use Rattle.logic_linear.specs.declared.substitution.Put.{Put};
ghost use Rattle.logic_linear.specs.Linear.{Linear};
ghost use Rattle.logic_linear.specs.Negation.{negation};
ghost use Rattle.logic_linear.specs.Substitution.{assigned, substituted};
ghost use Rattle.logic_linear.specs.Sums.{sum_of_multiples};
ghost use Rattle.logic_linear.specs.Truth.{Valuation, truth_of, value_of};

/// A negation is true exactly where the formula is not.
pub fn negation_is_exact()
    ensures { (valuation : Valuation) (formula : Formula)
        → truth_of valuation (negation formula) ≡ not (truth_of valuation formula) }
{}

/// A sum of multiples of two forms has the sum of the multiples of their values.
pub fn multiples_add_up()
    ensures { (valuation : Valuation)
        (left_times : ℤ) (left : Linear) (right_times : ℤ) (right : Linear)
        → value_of valuation (sum_of_multiples left_times left right_times right)
        ≡ left_times *ℤ value_of valuation left +ℤ right_times *ℤ value_of valuation right }
{}

/// A substituted formula is true exactly where the formula is after the assignment.
pub fn substitution_keeps_truth()
    ensures { (put : Put) (valuation : Valuation) (formula : Formula)
        → truth_of valuation (substituted put formula) ≡ truth_of (assigned put valuation) formula }
{}
