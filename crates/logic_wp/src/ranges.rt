//! Whether formulas keep within the limits.

ghost use Rattle.std.specs.Prelude.{◌≡◌, map, true};
ghost use Rattle.std.specs.List.{list_all};
ghost use Rattle.logic_linear.specs.Substitution.{is_formula_in_range, is_formula_within};
ghost use Rattle.logic_linear.specs.Substitution.{is_linear_in_range};
ghost use Rattle.logic_wp.specs.Limits.{has_few_nodes};
ghost use Rattle.logic_wp.specs.inner.Choices.{formula_within};

use logic_linear::{Formula, Lin, MOST_NODES, nodes};

/// The numbers of a form are in range by its rule, which a read of them tells.
fn read_form(form: &Lin)
    ensures { is_linear_in_range form.now ≡ true }
{
    form.terms();
    form.constant();
}

/// The numbers of a formula are in range, as those of each form.
#[cycle(ranges)]
fn read_formula(formula: &Formula)
    ensures { is_formula_in_range formula.now ≡ true }
{
    match formula {
        Formula::Row(form) => read_form(form),
        Formula::Flag { .. } => {}
        Formula::All(parts) => read_parts(parts.items()),
        Formula::Any(parts) => read_parts(parts.items()),
    }
}

#[cycle(ranges)]
fn read_parts(parts: &[Formula])
    ensures { list_all (λ part. part) (map is_formula_in_range parts.now) ≡ true }
{
    for part in parts {
        read_formula(part);
    }
}

/// Whether a formula has no more than the most nodes.
pub(crate) fn has_few_nodes(formula: &Formula) -> bool
    ensures { result ≡ has_few_nodes formula.now }
{
    nodes(formula) <= MOST_NODES
}

/// Whether a formula keeps within the limits: its numbers do by their types' rule, its nodes are
/// counted.
pub(crate) fn is_within(formula: &Formula) -> bool
    ensures { result ≡ is_formula_within formula.now }
{
    read_formula(formula);
    has_few_nodes(formula)
}

/// The formula, where it keeps within the limits.
pub(crate) fn where_within(formula: Formula) -> Option<Formula>
    ensures { result ≡ formula_within formula }
{
    if is_within(&formula) {
        Some(formula)
    } else {
        None
    }
}
