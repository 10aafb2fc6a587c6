//! What a thread passes ahead of what it does for a client.

use std::sync::Wait;
use std::thread::Threads;

/// A call ahead of each section that a worker tries, or ahead of each call that blocks, with no
/// lock held.
pub trait Gate: Sync {
    /// A worker has this client's ticket and has made so many sections. It tries a section of the
    /// client next, unless it knows that the client rests. Or a caller of this client was given so
    /// many replies, and calls next.
    fn before<R: Threads + Wait + Sync>(&self, rt: &R, client: u32, sections: u64);
}

/// A gate that holds nobody.
#[derive(Clone, Copy, Debug)]
pub struct OpenGate;

impl Gate for OpenGate {
    fn before<R: Threads + Wait + Sync>(&self, rt: &R, client: u32, sections: u64) {
        let _rt = rt;
        let _section = (client, sections);
    }
}
