//! The drawn schedule.

ghost use Rattle.std.specs.Prelude.{◌≡◌, ◌+◌, ◌≤◌};
ghost use Rattle.machine_events.specs.Logs.{IsClosed};
ghost use Rattle.machine_explicit.specs.Sections.{HasEnded, HoldsAlways, spurious_in};
ghost use Rattle.machine_simulate.specs.Schedules.{Extends, IsDrawn, IsTurn, wakes_at};
ghost use Rattle.machine_simulate.specs.inner.Turns.{drawing};

use super::acting::{act, wake};
use super::picking::{Who, count, picked};
use machine_explicit::FreeMonitor;
use rand_core::utils::NextWord;
use rand_pcg::Lcg64Xsh32;

/// Where a drawn schedule stands, beside the monitor.
#[derive(Drop)]
struct Draws {
    generator: Lcg64Xsh32,
    /// How many spurious wake-ups may still be made.
    left: u32,
}

/// Runs a monitor by the words that a seed draws, with at most so many spurious wake-ups, which the
/// monitor must have left. It ends when the monitor is closed. The words are those of the generator
/// PCG XSH RR 64/32, made of the seed and stream 1.
///
/// A turn draws a word `x`, from 0 to 2^32 - 1. Its remainder `x mod 4` says what the turn is.
/// Where that is 0, a spurious wake-up is left and some client waits, a second word `y` is drawn,
/// and of the `w` clients that wait the one at position `y mod w` is woken by nothing. Else the
/// quotient `x / 4`, rounded down, picks: of the `r` clients that can make a section the one at
/// position `(x / 4) mod r` makes one. Clients stand in file order, and positions are counted from
/// 0.
pub fn drawn(free: &mut FreeMonitor, seed: u64, spurious: u32)
    requires left { spurious_in free.old.log + spurious ≤ free.old.extra }
    ensures drawn { IsDrawn seed spurious free.old free.new }
    ensures closed { IsClosed free.new.system free.new.now }
    ensures extends { Extends free.old free.new }
    ensures spurious { spurious_in free.new.log ≤ spurious_in free.old.log + spurious }
    ensures always { HoldsAlways free.new }
    ensures ends { HasEnded free.new }
{
    let mut draws = Draws {
        generator: Lcg64Xsh32::new(seed, 1),
        left: spurious,
    };
    while !free.closed() {
        turn(free, &mut draws);
    }
}

/// A turn.
fn turn(free: &mut FreeMonitor, draws: &mut Draws)
    requires always { HoldsAlways free.old }
    requires open { IsClosed free.old.system free.old.now → ⊥ }
    requires left { spurious_in free.old.log + draws.old.left ≤ free.old.extra }
    ensures turn { IsTurn (drawing free.old draws.old) (drawing free.new draws.new) }
    ensures always { HoldsAlways free.new }
{
    let word = draws.generator.next_word();
    if wakes(free, draws.left, word) {
        let client = picked(free, Who::Waiting, draws.generator.next_word());
        wake(free, client);
        draws.left -= 1;
    } else {
        let client = picked(free, Who::Ready, word / 4);
        act(free, client);
    }
}

/// Whether a spurious wake-up is made at this word.
fn wakes(free: &FreeMonitor, left: u32, word: u32) -> bool
    ensures { result ≡ wakes_at word left free.now }
{
    word % 4 == 0 && left > 0 && count(free, Who::Waiting) > 0
}
