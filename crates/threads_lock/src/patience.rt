//! How long a seat spins before it sleeps.

use std::hint;

/// Seats that are so many tickets away, or fewer, spin; the others sleep at once, since there may
/// be more threads than processors, and are woken when they come so near.
pub const NEAR: u64 = 4;

/// How many pauses a seat makes while no further ticket is served: about as long as two wake-ups
/// take.
const PAUSES: u64 = 2_048;

/// How far away the seat's ticket was, and how many pauses the seat has made since it came so near.
#[derive(Drop)]
pub struct Patience {
    distance: u64,
    pauses: u64,
}

impl Patience {
    /// A seat that has made no pause.
    pub fn new() -> Patience {
        Patience {
            distance: 0,
            pauses: 0,
        }
    }

    /// Pauses, in proportion to how far away the ticket is; or says that it is time to sleep. It
    /// never yields: a seat that yields gets its processor back too late for its turn, where there
    /// are more threads than processors.
    pub fn spins(&mut self, distance: u64) -> bool {
        if distance != self.distance {
            *self = Patience {
                distance,
                pauses: 0,
            };
        }
        if distance > NEAR || self.pauses >= PAUSES {
            return false;
        }
        for _ in 0..distance {
            hint::spin_loop();
        }
        self.pauses += distance;
        true
    }
}
