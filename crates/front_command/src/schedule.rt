//! The schedule that the options of a simulation ask for.

ghost use Rattle.std.specs.Prelude.{◌≡◌, None, Some, if◌then◌else◌, option_map};
ghost use Rattle.front_command.specs.inner.Asked.{schedule_if, spurious_if};

use crate::numbers::number_of;
use lang_base::limits::MOST_SPURIOUS;

/// Which client acts next in a simulation.
#[derive(Clone, Copy, Debug)]
pub enum Schedule {
    /// Clients act by rounds, and no wake-up is spurious.
    Rounds,
    /// Clients are drawn by the words of a seed, with at most so many spurious wake-ups, from 0 to
    /// `MOST_SPURIOUS`.
    Drawn { seed: u64, spurious: u32 },
}

/// The schedule that `--seed` and `--spurious` ask for; nothing where they break a rule.
pub(crate) fn schedule_of(seed: Option<&str>, spurious: Option<&str>) -> Option<Schedule>
    ensures { result ≡ schedule_if (option_map (λ word. word.now) seed.entry)
        (option_map (λ word. word.now) spurious.entry) }
{
    match seed {
        Some(seed) => {
            let seed = number_of(seed, u64::MAX)?;
            let spurious = spurious_of(spurious)?;
            Some(Schedule::Drawn { seed, spurious })
        }
        None => rounds_unless(spurious.is_some()),
    }
}

/// The schedule where no seed is given.
fn rounds_unless(spurious: bool) -> Option<Schedule>
    ensures { result ≡ (if spurious then None else Some Schedule.Rounds) }
{
    if spurious {
        None
    } else {
        Some(Schedule::Rounds)
    }
}

/// The number of spurious wake-ups that is asked for.
fn spurious_of(word: Option<&str>) -> Option<u32>
    ensures { result ≡ spurious_if (option_map (λ word. word.now) word.entry) }
{
    match word {
        Some(word) => {
            let spurious = number_of(word, MOST_SPURIOUS)?;
            Some(spurious as u32)
        }
        None => Some(0),
    }
}
