//! Stages of clients, and events.

ghost use Rattle.std.specs.Prelude.{◌≡◌};
ghost use Rattle.machine_events.specs.Stages.{is_waiting_stage};

/// At which stage a client is. A condition is numbered from 1.
///
/// Who speaks of stages chooses how the notes that are to come are said: a configuration has their
/// list, a view their number.
#[derive(Clone, Copy, Debug, PartialEq, Eq)]
pub enum Stage<N> {
    /// It has not begun its next block.
    Idle,
    /// It has begun its block, and wants the lock.
    Entering,
    /// It waits on the condition.
    Waiting(u32),
    /// It was woken on the condition, and wants the lock.
    Woken(u32),
    /// It owns the lock, and its guard is still to be tested.
    Inside,
    /// It owns the lock, its block has run or its call was refused, and its notes are made one by
    /// one: these are to come.
    Notifying(N),
}

impl<N: Copy> Stage<N> {
    /// Whether a client at this stage waits.
    pub fn is_waiting(self) -> bool
        ensures { result ≡ is_waiting_stage self }
    {
        match self {
            Stage::Waiting(_) => true,
            _ => false,
        }
    }
}

/// What may happen next, to a client that is numbered from 0.
#[derive(Clone, Copy, Debug, PartialEq, Eq)]
pub enum Event {
    /// An idle client with a call left begins its next block.
    Begin { client: u32 },
    /// A client that enters, or was woken, takes the free lock.
    Lock { client: u32 },
    /// A client whose guard is false gives the lock back and waits, in one step. At the first block
    /// of a call that tries the call is refused instead, and the client keeps the lock.
    Wait { client: u32 },
    /// A client whose guard is true runs its block.
    Run { client: u32 },
    /// A client makes its first note to come. A signal that fires, where some client waits on its
    /// condition, names one of these, which it wakes. Every other note names none.
    Notify { client: u32, target: Option<u32> },
    /// A client with no note to come gives the lock back.
    Unlock { client: u32 },
    /// A client that waits is woken by nothing.
    Spurious { client: u32 },
}
