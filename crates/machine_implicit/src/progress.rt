//! A run so far.

ghost use Rattle.std.specs.Prelude.{◌≡◌, ◌<◌, ◌↔◌, IsTrue, IfOk, OnOk, length};
ghost use Rattle.lang_monitor.specs.MonitorParts.{IsMonitor};
ghost use Rattle.machine_implicit.specs.Scripted.{AreClients, FitsScripts};
ghost use Rattle.machine_implicit.specs.Runs.{first_places, CanAct, FitsSituation, IsFinished};
ghost use Rattle.machine_implicit.specs.Runs.{IsNextCommit};
ghost use Rattle.machine_implicit.specs.inner.Progress.{blocks_left, now_of, stands_at, CanStep};
ghost use Rattle.machine_implicit.specs.inner.Progress.{HasNoCall, IsProgress, StepsNext};

use super::commit::Commit;
use super::moves::{can_step, make_step, place_at_start};
use super::place::Place;
use super::script::Client;
use super::state::State;
use super::step::start;
use lang_monitor::Monitor;
use std::alloc::{AllocError, Global};

/// A run by rounds so far.
#[derive(Drop)]
pub struct Progress {
    pub history: Vec<Commit>,
    /// Where each client is.
    pub places: Vec<Place>,
    /// The client that is asked first for the next step, or the number of clients where that is
    /// client 0.
    pub next_asked: usize,
    pub state: State,
}

/// A run with no step yet, or an error where memory runs out.
pub fn begun(alloc: Global, monitor: &Monitor, clients: &[Client]) -> Result<Progress, AllocError>
    requires { FitsScripts monitor.now clients.now }
    ensures { IfOk result (λ run. IsProgress monitor.now clients.now run) }
{
    let _methods = monitor.methods();
    Ok(Progress {
        history: Vec::new(alloc),
        places: places_at_start(alloc, monitor, clients)?,
        next_asked: 0,
        state: start(monitor),
    })
}

/// Each client at its first place, or an error where memory runs out.
fn places_at_start(
    alloc: Global,
    monitor: &Monitor,
    clients: &[Client],
) -> Result<Vec<Place>, AllocError>
    requires { FitsScripts monitor.now clients.now }
    ensures { IfOk result (λ places.
        places.items ≡ first_places monitor.now clients.now 0 clients.now) }
{
    let mut places = Vec::with_capacity(alloc, clients.len())?;
    for client in 0..clients.len() {
        places.push(place_at_start(monitor, clients, client, 0))?;
    }
    Ok(places)
}

/// Whether a client may step.
pub fn can_act(monitor: &Monitor, clients: &[Client], run: &Progress, client: usize) -> bool
    requires client { client < length clients.now }
    requires scripts { FitsScripts monitor.now clients.now }
    requires run { IsProgress monitor.now clients.now run.now }
    ensures { IsTrue result ↔ CanStep monitor.now clients.now run.now client }
{
    can_step(monitor, clients, client, &run.state, &run.places[client])
}

/// Makes the step of the next actor. Where memory runs out, the run so far is of no further use.
pub fn act(
    monitor: &Monitor,
    clients: &[Client],
    run: &mut Progress,
    client: usize,
) -> Result<(), AllocError>
    requires clients { AreClients clients.now }
    requires scripts { FitsScripts monitor.now clients.now }
    requires run { IsProgress monitor.now clients.now run.old }
    requires next { StepsNext monitor.now clients.now run.old client }
    ensures run { OnOk result (IsProgress monitor.now clients.now run.new) }
    ensures fewer { OnOk result (blocks_left monitor.now clients.now run.new
        < blocks_left monitor.now clients.now run.old) }
{
    let commit = commit_of(
        monitor,
        clients,
        client as u32,
        &mut run.state,
        &mut run.places,
    );
    run.history.push(commit)?;
    run.next_asked = client + 1;
    Ok(())
}

/// Makes the step of a client that may step, and answers its commit.
fn commit_of(
    monitor: &Monitor,
    clients: &[Client],
    client: u32,
    state: &mut State,
    places: &mut [Place],
) -> Commit
    requires clients { AreClients clients.now }
    requires scripts { FitsScripts monitor.now clients.now }
    requires one_each { length places.old ≡ length clients.now }
    requires fits { FitsSituation monitor.now clients.now (stands_at state.old places.old) }
    requires can { CanAct monitor.now clients.now (stands_at state.old places.old) client }
    ensures rule { IsMonitor monitor.now }
    ensures own { result.client ≡ client }
    ensures next { IsNextCommit monitor.now clients.now (stands_at state.old places.old) result
        (stands_at state.new places.new) }
    ensures each { length places.new ≡ length places.old }
{
    let _methods = monitor.methods();
    let call = places[client as usize].past + 1;
    let block = places[client as usize].block + 1;
    let reply = make_step(
        monitor,
        clients,
        client as usize,
        state,
        &mut places[client as usize],
    );
    Commit {
        client,
        call,
        block,
        reply,
    }
}

/// Whether no client has a call left.
pub fn is_finished(clients: &[Client], run: &Progress) -> bool
    requires { length run.now.places.items ≡ length clients.now }
    ensures { IsTrue result ↔ IsFinished clients.now (now_of run.now) }
{
    for client in 0..clients.len() {
        if !is_done(clients, run, client) {
            return false;
        }
    }
    true
}

/// Whether a client has no call left.
fn is_done(clients: &[Client], run: &Progress, client: usize) -> bool
    requires client { client < length clients.now }
    requires one_each { length run.now.places.items ≡ length clients.now }
    ensures { IsTrue result ↔ HasNoCall clients.now run.now client }
{
    let past = run.places[client].past;
    clients[client].calls.items().len() <= past as usize
}
