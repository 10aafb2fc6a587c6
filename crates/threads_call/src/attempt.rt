//! One attempt of a call that blocks: a section, and where it doesn't reply a look at how the
//! client stands. A caller whose client waits rests, and whoever wakes the client may make the
//! client's section for it meanwhile.

ghost use Rattle.std.specs.Prelude.{◌≡◌, ◌<◌, ℕ, MatchOption, length};
ghost use Rattle.threads_lock.specs.declared.receipt.Receipt.{Receipt};
ghost use Rattle.threads_lock.specs.declared.view.Knowledge.{Knowledge};
ghost use Rattle.threads_lock.specs.Loans.{lock_of};
ghost use Rattle.threads_lock.specs.Passes.{IsKnown, Looks, SectionsShared};
ghost use Rattle.threads_call.specs.Commits.{Commits, HasReplied, HasWaited};
ghost use Rattle.threads_call.specs.inner.Attempts.{end_of, reply_in, reply_of};

use super::chain::hand_on;
use super::commit_end::CommitEnd;
use super::lobby::Lobby;
use super::parkers::Pause;
use machine_explicit::{NotReady, Outcome};
use std::sync::Wait;
use threads_lock::{Berth, LoanEnd, Pass, Receipt, Standing};

/// Makes a section of the client, and looks how the client stands where it gave no reply. Nothing
/// is answered where the caller should try again.
pub fn attempt<R: Wait>(rt: &R, lobby: &Lobby, caller: &mut Pass, client: u32) -> Option<CommitEnd>
    requires own { caller.old.lock ≡ lobby.now.monitor.lock }
    requires client { client < length caller.old.known.front.system.clients }
    ensures own { caller.new.lock ≡ caller.old.lock }
    ensures attempts { MatchOption result (HasWaited client caller.old.known caller.new.known)
        (λ end. Commits client caller.old.known caller.new.known end) }
    ensures always { IsKnown caller.new.known }
{
    match make_section(rt, lobby, caller, client) {
        Some(receipt) => Some(end_with(rt, lobby, caller, receipt)),
        None => look(rt, lobby, caller, client),
    }
}

/// Makes a section of the client. The receipt is answered of a reply.
fn make_section<R: Wait>(rt: &R, lobby: &Lobby, caller: &mut Pass, client: u32) -> Option<Receipt>
    requires own { caller.old.lock ≡ lobby.now.monitor.lock }
    requires client { client < length caller.old.known.front.system.clients }
    ensures own { caller.new.lock ≡ caller.old.lock }
    ensures made { MatchOption result (HasWaited client caller.old.known caller.new.known)
        (λ receipt. HasReplied client caller.old.known caller.new.known receipt) }
    ensures always { IsKnown caller.new.known }
{
    lobby.parkers.enter(rt);
    let unparked = lobby.parkers.unparked(client);
    let made = lobby.monitor.section(rt, caller, client);
    lobby.parkers.note(made);
    settle(rt, lobby, caller, client, made, unparked)
}

/// What comes of a section, behind the door: after a reply the sections of the clients that it woke
/// are made, and a caller whose client waits rests, unless all clients rest.
fn settle<R: Wait>(
    rt: &R,
    lobby: &Lobby,
    caller: &mut Pass,
    client: u32,
    made: Result<Receipt, NotReady>,
    unparked: u64,
) -> Option<Receipt>
    requires own { caller.old.lock ≡ lobby.now.monitor.lock }
    requires client { client < length caller.old.known.front.system.clients }
    requires always { IsKnown caller.old.known }
    ensures own { caller.new.lock ≡ caller.old.lock }
    ensures settled { (before : Knowledge)
        → SectionsShared client before caller.old.known made
        → MatchOption result (HasWaited client before caller.new.known)
        (λ receipt. HasReplied client before caller.new.known receipt) }
    ensures always { IsKnown caller.new.known }
{
    match reply_of(made) {
        Some(receipt) => {
            hand_on(rt, lobby, &receipt.entry);
            Some(receipt)
        }
        None => rest(
            rt,
            lobby,
            caller,
            client,
            lobby.parkers.may_rest(made),
            unparked,
        ),
    }
}

/// Comes back through the door; and where the caller may rest it lends its pass, and rests until
/// its client is unparked, or was since it was unparked so often. The receipt is answered of a
/// reply that it was given meanwhile.
#[tactic(auto, using(crate::proofs::Committing::waited_none))]
fn rest<R: Wait>(
    rt: &R,
    lobby: &Lobby,
    caller: &mut Pass,
    client: u32,
    may_rest: bool,
    unparked: u64,
) -> Option<Receipt>
    requires own { caller.old.lock ≡ lobby.now.monitor.lock }
    requires client { client < length caller.old.known.front.system.clients }
    requires always { IsKnown caller.old.known }
    ensures own { caller.new.lock ≡ caller.old.lock }
    ensures rested { MatchOption result (HasWaited client caller.old.known caller.new.known)
        (λ receipt. HasReplied client caller.old.known caller.new.known receipt) }
    ensures always { IsKnown caller.new.known }
{
    match lobby.berth_for(client, may_rest) {
        Some(berth) => {
            let pause = Pause {
                parkers: &lobby.parkers,
                client,
                unparked,
            };
            lend(rt, lobby, caller, client, berth, &pause)
        }
        None => {
            lobby.parkers.leave();
            None
        }
    }
}

/// Lends the pass while the caller rests.
fn lend<R: Wait>(
    rt: &R,
    lobby: &Lobby,
    caller: &mut Pass,
    client: u32,
    berth: &Berth,
    pause: &Pause<'_>,
) -> Option<Receipt>
    requires own { caller.old.lock ≡ lobby.now.monitor.lock }
    requires berth { lock_of berth.now ≡ lobby.now.monitor.lock }
    requires client { client < length caller.old.known.front.system.clients }
    ensures own { caller.new.lock ≡ caller.old.lock }
    ensures lent { MatchOption result (HasWaited client caller.old.known caller.new.known)
        (λ receipt. HasReplied client caller.old.known caller.new.known receipt) }
    ensures always { IsKnown caller.new.known }
{
    match lobby.monitor.lend(rt, caller, client, berth, pause) {
        LoanEnd::Made(receipt) => reply_in(receipt),
        LoanEnd::Rested(_fault) => None,
        LoanEnd::Kept(_kept) => None,
    }
}

/// The receipt of a section that was made and replied.
fn reply_of(made: Result<Receipt, NotReady>) -> Option<Receipt>
    ensures { result ≡ reply_of made }
{
    match made {
        Ok(receipt) => reply_in(receipt),
        Err(_) => None,
    }
}

/// The receipt, where its section replied.
fn reply_in(receipt: Receipt) -> Option<Receipt>
    ensures { result ≡ reply_in receipt }
{
    match receipt.entry.outcome {
        Outcome::Replies { reply: _, woken: _ } => Some(receipt),
        _ => None,
    }
}

/// How a call ends that was given this reply.
fn end_with<R: Wait>(rt: &R, lobby: &Lobby, caller: &mut Pass, receipt: Receipt) -> CommitEnd
    requires own { caller.old.lock ≡ lobby.now.monitor.lock }
    requires always { IsKnown caller.old.known }
    ensures own { caller.new.lock ≡ caller.old.lock }
    ensures ends { (client : ℕ) (before : Knowledge)
        → HasReplied client before caller.old.known receipt
        → Commits client before caller.new.known result }
    ensures always { IsKnown caller.new.known }
{
    tell_last(rt, lobby, caller, receipt);
    CommitEnd::Replied(receipt)
}

/// Unparks all clients where the monitor is closed after a reply. It looks only where it may be.
#[tactic(auto, using(crate::proofs::Committing::replied_looks))]
fn tell_last<R: Wait>(rt: &R, lobby: &Lobby, caller: &mut Pass, receipt: Receipt)
    requires own { caller.old.lock ≡ lobby.now.monitor.lock }
    requires always { IsKnown caller.old.known }
    ensures own { caller.new.lock ≡ caller.old.lock }
    ensures replied { (client : ℕ) (before : Knowledge) (told : Receipt)
        → HasReplied client before caller.old.known told
        → HasReplied client before caller.new.known told }
    ensures always { IsKnown caller.new.known }
{
    if lobby.parkers.is_of_last_call(&receipt.entry) {
        tell_closed(rt, lobby, caller);
    }
}

/// Unparks all clients where the monitor is closed.
fn tell_closed<R: Wait>(rt: &R, lobby: &Lobby, caller: &mut Pass)
    requires own { caller.old.lock ≡ lobby.now.monitor.lock }
    ensures own { caller.new.lock ≡ caller.old.lock }
    ensures looks { Looks caller.old.known caller.new.known }
    ensures always { IsKnown caller.new.known }
{
    lobby.parkers.enter(rt);
    let closed = lobby.monitor.is_closed(rt, caller);
    lobby.parkers.leave();
    if closed {
        lobby.parkers.unpark_all();
    }
}

/// Looks how the client stands, unless it was woken since it waited. A caller whose client waits
/// rests, and where the client is stalled all are unparked.
#[tactic(auto, using(crate::proofs::Committing::waited_none))]
fn look<R: Wait>(rt: &R, lobby: &Lobby, caller: &mut Pass, client: u32) -> Option<CommitEnd>
    requires own { caller.old.lock ≡ lobby.now.monitor.lock }
    requires client { client < length caller.old.known.front.system.clients }
    requires always { IsKnown caller.old.known }
    ensures own { caller.new.lock ≡ caller.old.lock }
    ensures looks { MatchOption result (HasWaited client caller.old.known caller.new.known)
        (λ end. Commits client caller.old.known caller.new.known end) }
    ensures always { IsKnown caller.new.known }
{
    if !lobby.parkers.rests(client) {
        return None;
    }
    lobby.parkers.enter(rt);
    let unparked = lobby.parkers.unparked(client);
    let standing = lobby.monitor.standing(rt, caller, client);
    match end_of(standing, caller.seen()) {
        Some(end) => {
            lobby.parkers.leave_at(standing);
            Some(end)
        }
        None => rest_on(rt, lobby, caller, client, standing, unparked),
    }
}

/// Rests where the client waits, after a look behind the door.
fn rest_on<R: Wait>(
    rt: &R,
    lobby: &Lobby,
    caller: &mut Pass,
    client: u32,
    standing: Standing,
    unparked: u64,
) -> Option<CommitEnd>
    requires own { caller.old.lock ≡ lobby.now.monitor.lock }
    requires client { client < length caller.old.known.front.system.clients }
    requires always { IsKnown caller.old.known }
    ensures own { caller.new.lock ≡ caller.old.lock }
    ensures rested { MatchOption result (HasWaited client caller.old.known caller.new.known)
        (λ end. Commits client caller.old.known caller.new.known end) }
    ensures always { IsKnown caller.new.known }
{
    let waits = standing == Standing::Waits;
    match rest(rt, lobby, caller, client, waits, unparked) {
        Some(receipt) => Some(end_with(rt, lobby, caller, receipt)),
        None => None,
    }
}

/// How a call ends whose client stands so, after a log of so many entries.
fn end_of(standing: Standing, entries: u64) -> Option<CommitEnd>
    ensures { result ≡ end_of standing entries }
{
    match standing {
        Standing::Over => Some(CommitEnd::Over { entries }),
        Standing::Stalled => Some(CommitEnd::Stalled { entries }),
        _ => None,
    }
}
