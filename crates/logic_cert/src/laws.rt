//! What follows from the definitions alone.

ghost use Rattle.std.specs.Prelude.{◌≡◌, false};
ghost use Rattle.logic_linear.specs.declared.formula.Formula.{Formula};
ghost use Rattle.logic_linear.specs.Truth.{Valuation, truth_of};
ghost use Rattle.logic_cert.specs.declared.cert.Cert.{Cert};
ghost use Rattle.logic_cert.specs.Refutes.{Refutes};

/// A refuted formula is true at no valuation.
pub fn refuted_formula_is_false()
    ensures { (formula : Formula) (cert : Cert) (valuation : Valuation)
        → Refutes formula cert → truth_of valuation formula ≡ false }
{}
