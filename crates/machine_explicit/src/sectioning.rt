//! A section, made of the events of one client.

ghost use Rattle.std.specs.Prelude.{◌≡◌, ◌<◌, MatchOption, length};
ghost use Rattle.machine_explicit.specs.inner.Rings.{HaveLines};
ghost use Rattle.machine_explicit.specs.inner.Waiting.{HasNote, IsInside, IsNotifying};
ghost use Rattle.machine_explicit.specs.inner.Waiting.{IsSettled, MadeNoteOf, MadeNotesOf};
ghost use Rattle.machine_explicit.specs.inner.Waiting.{MakesSectionOf};
ghost use Rattle.machine_explicit.specs.inner.Waiting.{NotStarted, WentOnOf};

use super::clients::Clients;
use super::config::{Config, Went};
use super::rings::Rings;
use machine_events::{Entry, Outcome};
use machine_implicit::Reply;

/// Makes a section of a client, or changes nothing where it waits, or has no call left. The rings
/// list who waits.
pub fn make_section(config: &mut Config, rings: &mut Rings, client: u32) -> Option<Entry>
    requires settled { IsSettled config.old.now }
    requires lines { HaveLines config.old.system config.old.now.standings rings.old }
    requires within { client < length config.old.system.clients }
    ensures { MatchOption result
        (NotStarted config.old client config.new × (rings.new ≡ rings.old))
        (λ entry. MakesSectionOf client config.old rings.old config.new rings.new entry) }
{
    if config.start(client).is_err() {
        return None;
    }
    let place = config.place(client);
    let (call, block) = (place.past + 1, place.block + 1);
    let outcome = go_on(config, rings, client);
    Some(Entry {
        client,
        call,
        block,
        outcome,
    })
}

/// A client inside runs its block, makes its notes and gives the lock back, where its guard is
/// true. Where it is false it is refused and gives the lock back, if its call tries, and else
/// waits.
fn go_on(config: &mut Config, rings: &mut Rings, client: u32) -> Outcome
    requires inside { IsInside config.old client }
    requires lines { HaveLines config.old.system config.old.now.standings rings.old }
    ensures { WentOnOf client config.old rings.old config.new rings.new result }
{
    match config.go_on(client) {
        Went::Waits(condition) => {
            rings.push(condition, client);
            Outcome::Waits
        }
        Went::Ran(reply) => {
            let woken = make_notes(config, rings, client);
            config.release(client);
            Outcome::Replies {
                reply,
                woken: woken.bits,
            }
        }
        Went::GaveUp => {
            config.release(client);
            Outcome::Replies {
                reply: Reply::Refused,
                woken: 0,
            }
        }
    }
}

/// A client makes its notes, one by one. The answer is whom they wake.
fn make_notes(config: &mut Config, rings: &mut Rings, client: u32) -> Clients
    requires lines { HaveLines config.old.system config.old.now.standings rings.old }
    requires notifying { IsNotifying config.old client }
    ensures { MadeNotesOf client config.old rings.old config.new rings.new result.bits }
{
    let mut woken = Clients::none();
    for _made in 0..config.notes_left(client) {
        let more = make_note(config, rings, client);
        woken = woken.with(more);
    }
    woken
}

/// A client makes its first note to come. The answer is whom it wakes.
fn make_note(config: &mut Config, rings: &mut Rings, client: u32) -> Clients
    requires lines { HaveLines config.old.system config.old.now.standings rings.old }
    requires coming { HasNote config.old client }
    ensures { MadeNoteOf client config.old rings.old config.new rings.new result.bits }
{
    let Some(coming) = config.coming(client) else {
        unreachable!()
    };
    let next = coming.next;
    if !coming.fires {
        config.pass(client, next);
        return Clients::none();
    }
    let Some(target) = rings.first(next.note.condition) else {
        config.pass(client, next);
        return Clients::none();
    };
    if next.note.all {
        let woken = rings.clients(next.note.condition);
        config.wake_each(client, next);
        rings.clear(next.note.condition);
        return woken;
    }
    config.wake_one(client, next, target);
    rings.pop(next.note.condition);
    Clients::one(target)
}
