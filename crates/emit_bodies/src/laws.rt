//! What follows from the definitions alone.

ghost use Rattle.emit_bodies.specs.Laws.{BlockNamesAreNoKeywords, BlockNamesStayApart};

/// No two functions of the state that test guards (`can_put`) or run bodies (`run_put`) are named
/// alike, and no two counts of those that sleep (`asleep_put`). Condition variables are named as
/// tests are. None of these names is a keyword, or that of
/// what else stands there. The methods of the type that threads share stand elsewhere, and have
/// laws of their own (`emit_names::names_stay_apart`).
pub fn block_names_stay_apart()
    ensures names { BlockNamesStayApart }
    ensures words { BlockNamesAreNoKeywords }
{}
