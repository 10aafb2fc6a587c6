//! Which plan the words of a command ask for.

ghost use Rattle.std.specs.Prelude.{◌≡◌};
ghost use Rattle.front_command.specs.CommandLine.{choice_of};

/// Which plan a command prints, and runs clients under.
#[derive(Clone, Copy, Debug)]
pub enum PlanChoice {
    /// The plan that is placed for the monitor.
    Placed,
    /// That plan with its signals relayed.
    Relayed,
    /// That plan, counted.
    Counted,
    /// That plan, counted, with the signals relayed on each condition that is not counted.
    CountedAndRelayed,
}

/// The plan that is asked for: with relayed signals where `--relay` is used, and counted where
/// `--count` is.
pub(crate) fn choice_of(relay: bool, count: bool) -> PlanChoice
    ensures { result ≡ choice_of relay count }
{
    match (relay, count) {
        (false, false) => PlanChoice::Placed,
        (true, false) => PlanChoice::Relayed,
        (false, true) => PlanChoice::Counted,
        (true, true) => PlanChoice::CountedAndRelayed,
    }
}
