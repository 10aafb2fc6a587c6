//! Whoever wakes clients makes their sections, while their callers still sleep.
//!
//! So no call waits for a thread to be woken before it can go on. A section that was made so wakes
//! others in turn, and whoever made it goes on with theirs, behind the door, up to a limit. Then it
//! comes back through the door, and unparks the clients that were woken: each caller has its answer
//! in hand, or makes its section itself. No clause rests on it.
//!
//! A client that was woken in vain waits again, and its caller sleeps on: so do most after a
//! broadcast.
//! Whoever wakes the client next finds no pass in its berth, and so unparks it. And where all come
//! to rest, the caller of the last reply looks whether the monitor is closed, as after any reply:
//! it is never one of those that sleep on.

use super::lobby::Lobby;
use machine_explicit::{Entry, Outcome};
use std::sync::Wait;

/// How many of the clients that were woken it sees to, one after the other.
const MOST_FOLLOWED: u32 = 64;

/// Makes the sections of the clients that a section woke, comes back through the door, and unparks
/// them.
pub fn hand_on<R: Wait>(rt: &R, lobby: &Lobby, entry: &Entry) {
    let unparked = follow(rt, lobby, woken_by(entry));
    lobby.parkers.leave();
    lobby.parkers.unpark(unparked);
}

/// Makes the sections of these clients, and of those that are woken so. The clients to be unparked.
fn follow<R: Wait>(rt: &R, lobby: &Lobby, first: u32) -> u32 {
    let mut unparked = 0;
    let mut left = first;
    for _ in 0..MOST_FOLLOWED {
        if left == 0 {
            return unparked;
        }
        let client = left.trailing_zeros();
        // The lowest bit is done.
        left &= left.wrapping_sub(1);
        if let Some(woken) = make_for(rt, lobby, client) {
            unparked |= 1u32.wrapping_shl(client);
            left |= woken;
        }
    }
    unparked | left
}

/// Makes the section for which a caller of the client has lent its pass, and says whom it woke.
/// Nothing is answered where the client waits again.
fn make_for<R: Wait>(rt: &R, lobby: &Lobby, client: u32) -> Option<u32> {
    let Some(berth) = lobby.berth_for(client, true) else {
        return Some(0);
    };
    let Ok((made, _repayment)) = lobby.monitor.section_for(rt, berth) else {
        return Some(0);
    };
    lobby.parkers.note(made);
    match made {
        Ok(receipt) => woken_unless_waiting(&receipt.entry),
        Err(_) => Some(0),
    }
}

/// The bits of the clients that a section woke, unless its own client waits again.
fn woken_unless_waiting(entry: &Entry) -> Option<u32> {
    match entry.outcome {
        Outcome::Waits => None,
        _ => Some(woken_by(entry)),
    }
}

/// The bits of the clients that a section woke.
fn woken_by(entry: &Entry) -> u32 {
    match entry.outcome {
        Outcome::Replies { reply: _, woken } => woken,
        _ => 0,
    }
}
