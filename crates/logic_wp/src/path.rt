//! Paths.

ghost use Rattle.std.specs.Prelude.{◌≡◌};

use super::step::Step;
use std::marker::Model;

/// One way through a body: its steps, which contracts see as a list.
#[derive(Debug, Drop)]
pub struct Path {
    steps: Vec<Step>,
}

impl Model for Path {
    ghost use Rattle.std.specs.Prelude.{List};
    ghost use Rattle.std.specs.Coded.{coded_list};
    ghost use Rattle.logic_wp.specs.declared.step.Step.{Step};
    ghost use Rattle.logic_wp.specs.contracts.step.Step as step;

    ghost Value = { List Step };

    ghost coded = { coded_list step.the_row.coded };

    ghost view = { λ path. path.steps.items };
}

impl Path {
    /// The path of these steps. It takes no memory.
    pub fn of(steps: Vec<Step>) -> Path
        ensures { result ≡ steps.items }
    {
        Path { steps }
    }

    /// Its steps, from the first.
    pub fn steps(&self) -> &[Step]
        ensures { result.now ≡ self.now }
    {
        self.steps.as_slice()
    }
}
