//! What a run of the implicit machine did.

use super::place::Place;
use super::state::State;
use base_list::Seq;

/// What a block answered.
#[derive(Clone, Copy, Debug, PartialEq, Eq)]
pub enum Reply {
    /// The block has no result.
    Unit,
    Int(i64),
    Bool(bool),
    /// A value left 64 bits, and the state stayed.
    Overflow,
    /// The guard of the first block of a `try` call was false, and the state stayed.
    Refused,
}

/// One step of a run: a client, counted from 0, the number of its call, counted from 1, the block
/// of that call, counted from 1 within its method, and the reply.
#[derive(Clone, Copy, Debug, PartialEq, Eq)]
pub struct Commit {
    pub client: u32,
    pub call: u32,
    pub block: u32,
    pub reply: Reply,
}

/// A run by rounds: its commits, its last state, where each client is then, and whether every
/// client's calls are done.
#[derive(Debug, Drop)]
pub struct Turns {
    pub history: Seq<Commit>,
    pub state: State,
    pub places: Seq<Place>,
    pub finished: bool,
}
