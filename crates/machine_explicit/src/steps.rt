//! The step of a client inside, by what its test found.

ghost use Rattle.std.specs.Prelude.{◌≡◌, ◌<◌, List, false, true, length};
ghost use Rattle.lang_base.specs.declared.value.Value.{Value};
ghost use Rattle.machine_implicit.specs.Places.{FitsPlace, guard_at, tries_at};
ghost use Rattle.machine_implicit.specs.Scripted.{AreClients, FitsScripts};
ghost use Rattle.machine_implicit.specs.Steps.{FitsState};
ghost use Rattle.machine_explicit.specs.inner.Positions.{HasStepped};

use super::notes::to_come_after;
use super::position::{Position, ToCome};
use lang_monitor::Monitor;
use machine_events::Stage;
use machine_implicit::{
    Client, Commit, Reply, State, begin_call, block_number, go_to_next, run_block,
};

/// Makes the step of a client whose guard is true. It is then at its next place, and its notes are
/// to come.
pub fn run_step(
    monitor: &Monitor,
    clients: &[Client],
    client: u32,
    state: &mut State,
    position: &mut Position,
) -> Commit
    requires client { client < length clients.now }
    requires clients { AreClients clients.now }
    requires scripts { FitsScripts monitor.now clients.now }
    requires state { FitsState monitor.now state.old }
    requires place { FitsPlace monitor.now clients.now client position.old.place }
    requires guard { guard_at monitor.now clients.now state.old client position.old.place ≡ true }
    ensures { HasStepped monitor.now clients.now client state.old state.new position.old
        position.new result }
{
    let place = &mut position.place;
    let call = &clients[client as usize].calls.items()[place.past as usize];
    let block = block_number(monitor, call, place);
    let reply = run_block(
        monitor,
        state,
        block,
        call.inputs.items(),
        &mut place.locals,
    );
    let commit = Commit {
        client,
        call: place.past + 1,
        block: place.block + 1,
        reply,
    };
    go_to_next(monitor, clients, client as usize, call, reply, place);
    position.stage = Stage::Notifying(to_come_after(monitor, block, reply));
    commit
}

/// Makes the step of a client whose call is refused. It is then at its next call, with no note to
/// come.
pub fn refuse_step(
    monitor: &Monitor,
    clients: &[Client],
    client: u32,
    position: &mut Position,
) -> Commit
    requires client { client < length clients.now }
    requires clients { AreClients clients.now }
    requires scripts { FitsScripts monitor.now clients.now }
    requires tries { tries_at clients.now client position.old.place ≡ true }
    ensures step { (state : List Value)
        → guard_at monitor.now clients.now state client position.old.place ≡ false
        → HasStepped monitor.now clients.now client state state position.old position.new result }
    ensures refused { result.reply ≡ Reply.Refused }
{
    let commit = Commit {
        client,
        call: position.place.past + 1,
        block: position.place.block + 1,
        reply: Reply::Refused,
    };
    begin_call(
        monitor,
        clients,
        client as usize,
        position.place.past + 1,
        &mut position.place,
    );
    position.stage = Stage::Notifying(ToCome::Nothing);
    commit
}
