//! The right to try a section of a client.

ghost use Rattle.std.specs.Prelude.{◌≡◌};

use std::marker::Model;

/// The right to try a section of a client. Contracts see it as the client's number. A queue makes
/// one for each client when it is opened; nothing else makes or copies one.
#[derive(Debug, Drop)]
pub struct Ticket {
    client: u32,
}

impl Model for Ticket {
    ghost use Rattle.std.specs.Prelude.{ℕ};

    ghost Value = { ℕ };

    ghost view = { λ ticket. ticket.client };
}

impl Ticket {
    pub(crate) fn of(client: u32) -> Ticket
        ensures { result ≡ client }
    {
        Ticket { client }
    }

    /// The client whose section may be tried.
    pub fn client(&self) -> u32
        ensures client { result ≡ self.now }
    {
        self.client
    }
}
