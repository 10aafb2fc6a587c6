//! What follows from the definitions alone.

ghost use Rattle.std.specs.Prelude.{◌≡◌, ◌↔◌, ℕ, List, map, Some, true};
ghost use Rattle.logic_linear.specs.Linear.{Linear};
ghost use Rattle.logic_cert.specs.declared.cert.Combine.{Combine};
ghost use Rattle.logic_cert.specs.Refutes.{chain_closes};
ghost use Rattle.logic_elim.specs.Eliminations.{eliminated};
ghost use Rattle.logic_linear.specs.Fractions.{HasFractionalSolution};

/// Rows have a solution in fractions exactly where those have one that are left when a variable is
/// eliminated.
pub fn elimination_keeps_solutions()
    ensures { (place : ℕ) (rows : List Linear)
        → HasFractionalSolution (eliminated place rows) ↔ HasFractionalSolution rows }
{}

/// Rows that a chain refutes have no solution in fractions.
pub fn chains_leave_no_solution()
    ensures { (combines : List Combine) (rows : List Linear)
        → chain_closes combines (map Some rows) ≡ true → HasFractionalSolution rows → ⊥ }
{}
