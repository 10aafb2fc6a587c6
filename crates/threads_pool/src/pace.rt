//! How many sections a worker that leads makes at a turn. No clause rests on it.
//!
//! A turn with a ticket costs more than a look at a client that rests. So where most turns find
//! clients that rest, what such a turn costs is spread over several sections.

/// From so many turns in vain on a worker makes several sections of a client.
const MANY_IN_VAIN: u32 = 8;

/// The most sections of a client at one turn.
const MOST_IN_A_ROW: u32 = 8;

/// What came of a worker's last turns.
#[derive(Drop)]
pub struct Pace {
    /// How many turns in a row made no section.
    idle: u32,
    /// How many turns made none of late: a turn that makes one halves it.
    vain: u32,
}

impl Pace {
    /// That of a worker that had no turn yet.
    pub fn new() -> Pace {
        Pace { idle: 0, vain: 0 }
    }

    /// The most sections that it makes at its next turn.
    pub fn most(&self) -> u32 {
        if self.vain < MANY_IN_VAIN {
            1
        } else {
            MOST_IN_A_ROW
        }
    }

    /// It had a turn, and made a section or none. There are so many clients.
    pub fn note(&mut self, made: bool, clients: u32) {
        if made {
            self.idle = 0;
            self.vain /= 2;
        } else {
            self.idle = self.idle.saturating_add(1);
            self.vain = self.vain.saturating_add(1).min(clients);
        }
    }

    /// Whether it went round all clients in vain. Then it begins another round.
    pub fn is_round(&mut self, clients: u32) -> bool {
        let round = self.idle >= clients;
        if round {
            self.idle = 0;
        }
        round
    }
}
