//! Steps of clients, from one place to the next: both machines make them by this module.

ghost use Rattle.std.specs.Prelude.{◌≡◌, ◌<◌, ◌≤◌, None, Some, true, IfNone, IfSome, length};
ghost use Rattle.std.specs.Prelude.{slice_get};
ghost use Rattle.lang_base.specs.Limits.{CALLS, METHOD_BLOCKS};
ghost use Rattle.machine_implicit.specs.Steps.{guard_truth, FitsBlock, FitsState};
ghost use Rattle.machine_implicit.specs.Scripted.{calls_of, FitsCall, FitsScripts};
ghost use Rattle.machine_implicit.specs.Places.{block_at, first_place, inputs_at, is_last};
ghost use Rattle.machine_implicit.specs.Places.{gives_up, next_place};
ghost use Rattle.machine_implicit.specs.Places.{may_step, FitsPlace, FitsPlaceAt, IsStep};

use super::commit::Reply;
use super::locals::Locals;
use super::place::Place;
use super::script::{Call, Client};
use super::state::State;
use super::step::{guard_holds, method_of, restart_locals, run_block};
use lang_monitor::Monitor;

/// The call of a client that is past so many, where it has one left.
fn call_of<'a>(
    monitor: &Monitor,
    clients: &'a [Client],
    client: usize,
    past: u32,
) -> Option<&'a Call>
    requires client { client < length clients.now }
    requires scripts { FitsScripts monitor.now clients.now }
    ensures none { IfNone result (slice_get (calls_of clients.now client) past ≡ None) }
    ensures call { IfSome result (λ call.
        slice_get (calls_of clients.now client) past ≡ Some call.now) }
    ensures fits { IfSome result (λ call. FitsCall monitor.now call.now) }
{
    clients[client].calls.items().get(past as usize)
}

/// The place at which a client begins the call after so many.
pub fn place_at_start(monitor: &Monitor, clients: &[Client], client: usize, past: u32) -> Place
    requires client { client < length clients.now }
    requires scripts { FitsScripts monitor.now clients.now }
    ensures { result ≡ first_place monitor.now clients.now client past }
{
    let mut place = Place {
        past,
        block: 0,
        locals: Locals::empty(),
    };
    begin_call(monitor, clients, client, past, &mut place);
    place
}

/// A client begins the call after so many: it leaves the place where it was.
pub fn begin_call(
    monitor: &Monitor,
    clients: &[Client],
    client: usize,
    past: u32,
    place: &mut Place,
)
    requires client { client < length clients.now }
    requires scripts { FitsScripts monitor.now clients.now }
    ensures { place.new ≡ first_place monitor.now clients.now client past }
{
    place.past = past;
    place.block = 0;
    match call_of(monitor, clients, client, past) {
        Some(call) => restart_locals(monitor, call.method, &mut place.locals),
        None => place.locals.clear(),
    }
}

/// The number in the monitor of the block that a client is at.
pub fn block_number(monitor: &Monitor, call: &Call, place: &Place) -> u32
    requires call { FitsCall monitor.now call.now }
    requires place { FitsPlaceAt monitor.now place.now (Some call.now) }
    ensures number { result ≡ block_at monitor.now call.now place.now }
    ensures fits { FitsBlock monitor.now result (inputs_at call.now place.now) }
    ensures few { place.now.block < METHOD_BLOCKS }
{
    method_of(monitor, call.method).first + place.block
}

/// Takes a client, after the reply of the block that it is at, to its next call, where this one is
/// done, or to the call's next block. The locals are those that the block left.
pub fn go_to_next(
    monitor: &Monitor,
    clients: &[Client],
    client: usize,
    call: &Call,
    reply: Reply,
    place: &mut Place,
)
    requires client { client < length clients.now }
    requires scripts { FitsScripts monitor.now clients.now }
    requires call { FitsCall monitor.now call.now }
    requires past { place.old.past < CALLS }
    requires block { place.old.block < METHOD_BLOCKS }
    ensures { place.new
        ≡ next_place monitor.now clients.now client call.now place.old reply place.old.locals }
{
    if ends_call(reply) || is_at_last(monitor, call, place.block) {
        begin_call(monitor, clients, client, place.past + 1, place);
    } else {
        place.block += 1;
    }
}

/// Whether a block of a call, counted from 0, is the last one of its method.
fn is_at_last(monitor: &Monitor, call: &Call, block: u32) -> bool
    requires call { FitsCall monitor.now call.now }
    requires block { block < METHOD_BLOCKS }
    ensures { result ≡ is_last monitor.now call.now block }
{
    method_of(monitor, call.method).count <= block + 1
}

/// Whether a call is done after a reply, whatever blocks are left.
fn ends_call(reply: Reply) -> bool
    ensures { result ≡ gives_up reply }
{
    matches!(reply, Reply::Overflow | Reply::Refused)
}

/// Whether the guard of the block that a client is at is true.
pub fn guard_of_call(monitor: &Monitor, state: &State, call: &Call, place: &Place) -> bool
    requires call { FitsCall monitor.now call.now }
    requires state { FitsState monitor.now state.now }
    requires place { FitsPlaceAt monitor.now place.now (Some call.now) }
    ensures { result ≡ guard_truth monitor.now state.now (block_at monitor.now call.now place.now)
        (inputs_at call.now place.now) }
{
    let block = block_number(monitor, call, place);
    guard_holds(monitor, state, block, call.inputs.items(), &place.locals)
}

/// Whether a client may step.
pub fn can_step(
    monitor: &Monitor,
    clients: &[Client],
    client: usize,
    state: &State,
    place: &Place,
) -> bool
    requires client { client < length clients.now }
    requires scripts { FitsScripts monitor.now clients.now }
    requires state { FitsState monitor.now state.now }
    requires place { FitsPlace monitor.now clients.now client place.now }
    ensures { result ≡ may_step monitor.now clients.now state.now client place.now }
{
    match call_of(monitor, clients, client, place.past) {
        Some(call) => {
            guard_of_call(monitor, state, call, place) || (call.tries && place.block == 0)
        }
        None => false,
    }
}

/// Makes the step of a client that may step: its block's, or a refusal. It is then at its next
/// place. It takes no memory.
pub fn make_step(
    monitor: &Monitor,
    clients: &[Client],
    client: usize,
    state: &mut State,
    place: &mut Place,
) -> Reply
    requires client { client < length clients.now }
    requires scripts { FitsScripts monitor.now clients.now }
    requires few { place.old.past < CALLS }
    requires state { FitsState monitor.now state.old }
    requires place { FitsPlace monitor.now clients.now client place.old }
    requires may { may_step monitor.now clients.now state.old client place.old ≡ true }
    ensures step { IsStep monitor.now clients.now client place.old state.old result
        state.new place.new }
{
    let Some(call) = call_of(monitor, clients, client, place.past) else {
        unreachable!()
    };
    let block = block_number(monitor, call, place);
    if !guard_holds(monitor, state, block, call.inputs.items(), &place.locals) {
        begin_call(monitor, clients, client, place.past + 1, place);
        return Reply::Refused;
    }
    let reply = run_block(
        monitor,
        state,
        block,
        call.inputs.items(),
        &mut place.locals,
    );
    go_to_next(monitor, clients, client, call, reply, place);
    reply
}
