//! The large input.

ghost use Rattle.std.specs.Prelude.{◌≡◌, IfOk};
ghost use Rattle.machine_implicit.specs.Scripted.{FitsScripts};
ghost use Rattle.machine_stress.specs.LargeInput.{buffer_of, capacity_of, producers_and_consumers};

use crate::buffer::buffer;
use crate::clients::producers_and_consumers;
use lang_monitor::Monitor;
use machine_implicit::Scripts;
use std::alloc::{AllocError, Global};

/// A buffer has room for 1 to so many.
pub const MOST_ROOM: u64 = 7;

/// The monitor and the clients of a large run.
#[derive(Debug, Drop)]
pub struct LargeInput {
    pub monitor: Monitor,
    pub scripts: Scripts,
}

/// The large input that a number names: a buffer with room for `1 + number % 7`, 16 clients that
/// each put 512 times, named `P` with a number from 1, and then 16 that each get 512 times, named
/// `G` so. It fails only for want of memory.
pub fn large_input(alloc: Global, number: u64) -> Result<LargeInput, AllocError>
    ensures monitor { IfOk result (λ input. input.monitor ≡ buffer_of (capacity_of number)) }
    ensures scripts { IfOk result (λ input. input.scripts ≡ producers_and_consumers) }
    ensures fits { IfOk result (λ input. FitsScripts input.monitor input.scripts) }
{
    Ok(LargeInput {
        monitor: buffer(alloc, 1 + number % MOST_ROOM)?,
        scripts: producers_and_consumers(alloc)?,
    })
}
