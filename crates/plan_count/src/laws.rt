//! What follows from the definitions alone.

ghost use Rattle.plan_count.specs.Questions.{AnswersCount};

use logic_wp::guard_without_inputs_stays;

/// A condition that reads no inputs is counted by a row of its guard where each block has a
/// broadcast on it, or no note and leaves it counted with none, or a note and leaves it counted
/// with one.
pub fn answers_count()
    ensures { AnswersCount }
{
    guard_without_inputs_stays(); // a client that waits has the condition's own guard
}
