//! Sets of clients.

ghost use Rattle.std.specs.Prelude.{◌≡◌, ◌<◌};
ghost use Rattle.std.specs.Int.RustNames.{bit_or};
ghost use Rattle.lang_base.specs.Limits.{CLIENTS};
ghost use Rattle.machine_explicit.specs.inner.Waiting.{AreBits};

/// A set of clients: the bit of each that is in it.
#[derive(Clone, Copy)]
pub struct Clients {
    pub bits: u32,
}

impl Clients {
    /// No client.
    pub fn none() -> Clients
        ensures { result.bits ≡ 0 }
    {
        Clients { bits: 0 }
    }

    /// One client.
    pub fn one(client: u32) -> Clients
        requires { client < CLIENTS }
        ensures { AreBits (λ other. other ≡ client) result.bits }
    {
        Clients { bits: 1 << client }
    }

    /// The clients of both sets.
    pub fn with(self, others: Clients) -> Clients
        ensures { result.bits ≡ bit_or self.bits others.bits }
    {
        Clients {
            bits: self.bits | others.bits,
        }
    }
}
