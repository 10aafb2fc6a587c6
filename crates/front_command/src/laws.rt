//! What follows from the definitions alone.

ghost use Rattle.std.specs.Prelude.{◌≡◌, ℕ, false, true, List, [], ◌∷◌, codes};
ghost use Rattle.front_command.specs.CommandLine.{Command, Takes, TakesNone, block, check, compile};
ghost use Rattle.front_command.specs.CommandLine.{explain, report, run, version};
ghost use Rattle.front_command.specs.CommandLine.{DEFAULT_WORKERS};
ghost use Rattle.front_command.specs.declared.plan_choice.PlanChoice.TheVariants.{Counted, Placed};
ghost use Rattle.front_command.specs.declared.plan_choice.PlanChoice.TheVariants.{Relayed};
ghost use Rattle.front_command.specs.declared.plan_choice.PlanChoice.TheVariants.{CountedAndRelayed};

/// Words are at most one command.
pub fn one_command()
    ensures { (words : List (List ℕ)) (command other : Command)
        → Takes words command → Takes words other → command ≡ other }
{}

/// What some words are: an option left out, before the values, as one word, twice, or without the
/// other that it wants; `--` before a value; an asked help text; a number out of range; an option
/// without a text, used and where it may not be; the version, in either form and beside a command;
/// no words.
pub fn words_taken()
    ensures default_workers { Takes
        (codes "expresso" ∷ codes "run" ∷ codes "M" ∷ codes "C" ∷ [])
        (run (codes "M") (codes "C") DEFAULT_WORKERS Placed) }
    ensures options_first { Takes
        (codes "expresso" ∷ codes "run" ∷ codes "--workers" ∷ codes "2"
        ∷ codes "M" ∷ codes "C" ∷ [])
        (run (codes "M") (codes "C") 2 Placed) }
    ensures one_word { Takes
        (codes "expresso" ∷ codes "run" ∷ codes "M" ∷ codes "C" ∷ codes "--workers=2" ∷ [])
        (run (codes "M") (codes "C") 2 Placed) }
    ensures hyphen { Takes
        (codes "expresso" ∷ codes "check" ∷ codes "--" ∷ codes "-m" ∷ [])
        (check (codes "-m")) }
    ensures twice { TakesNone (codes "expresso" ∷ codes "run" ∷ codes "M" ∷ codes "C"
        ∷ codes "--workers=2" ∷ codes "--workers=2" ∷ []) }
    ensures help { TakesNone (codes "expresso" ∷ codes "check" ∷ codes "M"
        ∷ codes "--help" ∷ []) }
    ensures no_seed { TakesNone (codes "expresso" ∷ codes "simulate" ∷ codes "M" ∷ codes "C"
        ∷ codes "--spurious" ∷ codes "2" ∷ []) }
    ensures too_many { TakesNone (codes "expresso" ∷ codes "run" ∷ codes "M" ∷ codes "C"
        ∷ codes "--workers" ∷ codes "17" ∷ []) }
    ensures relayed { Takes
        (codes "expresso" ∷ codes "compile" ∷ codes "--relay" ∷ codes "M" ∷ [])
        (compile (codes "M") Relayed) }
    ensures no_relay { TakesNone (codes "expresso" ∷ codes "check" ∷ codes "M"
        ∷ codes "--relay" ∷ []) }
    ensures both { Takes
        (codes "expresso" ∷ codes "compile" ∷ codes "--relay" ∷ codes "M" ∷ codes "--count" ∷ [])
        (compile (codes "M") CountedAndRelayed) }
    ensures counted { Takes
        (codes "expresso" ∷ codes "block" ∷ codes "M" ∷ codes "C" ∷ codes "--count" ∷ [])
        (block (codes "M") (codes "C") Counted) }
    ensures relayed_block { TakesNone (codes "expresso" ∷ codes "block" ∷ codes "M" ∷ codes "C"
        ∷ codes "--count" ∷ codes "--relay" ∷ []) }
    ensures no_count { TakesNone (codes "expresso" ∷ codes "check" ∷ codes "M"
        ∷ codes "--count" ∷ []) }
    ensures fits { Takes
        (codes "expresso" ∷ codes "report" ∷ codes "M" ∷ codes "--fits" ∷ [])
        (report (codes "M") false true) }
    ensures counted_fits { Takes
        (codes "expresso" ∷ codes "explain" ∷ codes "M" ∷ codes "--fits" ∷ codes "--count" ∷ [])
        (explain (codes "M") true true) }
    ensures no_fits { TakesNone (codes "expresso" ∷ codes "recheck" ∷ codes "M" ∷ codes "R"
        ∷ codes "--fits" ∷ []) }
    ensures long_version { Takes (codes "expresso" ∷ codes "--version" ∷ []) version }
    ensures short_version { Takes (codes "expresso" ∷ codes "-V" ∷ []) version }
    ensures no_version { TakesNone (codes "expresso" ∷ codes "check" ∷ codes "M"
        ∷ codes "--version" ∷ []) }
    ensures no_command { TakesNone (codes "expresso" ∷ []) }
{}
