//! Runs by rounds.

ghost use Rattle.std.specs.Prelude.{◌≤◌, IfNone, IfOk, IfSome, length};
ghost use Rattle.machine_implicit.specs.Steps.{FitsState};
ghost use Rattle.machine_implicit.specs.Scripted.{FitsScripts};
ghost use Rattle.machine_implicit.specs.Rounds.{AreTurnsByRounds};
ghost use Rattle.machine_implicit.specs.inner.Progress.{HasEnded, IsFirstActor};
ghost use Rattle.machine_implicit.specs.inner.Progress.{IsProgress, NoneActs};
ghost use Rattle.machine_implicit.specs.inner.Progress.{StepsNext};

use super::commit::Turns;
use super::progress::{Progress, act, begun, can_act, is_finished};
use super::script::{Client, Scripts};
use base_list::Seq;
use lang_monitor::Monitor;
use std::alloc::{AllocError, Global};

/// The run by rounds of clients that call the monitor's methods. It passes over the clients in file
/// order, again and again; in a pass each client that may step at that moment makes one step. It
/// ends where no client may step.
/// [`scripts_fit`](crate::scripts_fit) tests what it requires.
///
/// # Errors
///
/// Where memory runs out.
pub fn turns(alloc: Global, monitor: &Monitor, scripts: &Scripts) -> Result<Turns, AllocError>
    requires { FitsScripts monitor.now scripts.now }
    ensures rounds { IfOk result (λ turns. AreTurnsByRounds monitor.now scripts.now turns) }
    ensures fits { IfOk result (λ turns. FitsState monitor.now turns.state) }
{
    let clients = scripts.clients();
    let mut run = begun(alloc, monitor, clients)?;
    while let Some(client) = next_actor(monitor, clients, &run) {
        act(monitor, clients, &mut run, client)?;
    }
    let finished = is_finished(clients, &run);
    let Progress {
        history,
        state,
        places,
        ..
    } = run;
    Ok(Turns {
        history: Seq::of(history),
        state,
        places: Seq::of(places),
        finished,
    })
}

/// The first client that can act, in cyclic order from the one that is asked first.
fn next_actor(monitor: &Monitor, clients: &[Client], run: &Progress) -> Option<usize>
    requires scripts { FitsScripts monitor.now clients.now }
    requires run { IsProgress monitor.now clients.now run.now }
    ensures none { IfNone result (HasEnded monitor.now clients.now run.now) }
    ensures actor { IfSome result (λ client. StepsNext monitor.now clients.now run.now client) }
{
    match first_actor(monitor, clients, run, run.next_asked, clients.len()) {
        Some(client) => Some(client),
        None => first_actor(monitor, clients, run, 0, run.next_asked),
    }
}

/// The first client of a range that can act.
fn first_actor(
    monitor: &Monitor,
    clients: &[Client],
    run: &Progress,
    from: usize,
    to: usize,
) -> Option<usize>
    requires range { to ≤ length clients.now }
    requires scripts { FitsScripts monitor.now clients.now }
    requires run { IsProgress monitor.now clients.now run.now }
    ensures none { IfNone result (NoneActs monitor.now clients.now run.now from to) }
    ensures first { IfSome result (λ it. IsFirstActor monitor.now clients.now run.now from to it) }
{
    for client in from..to {
        if can_act(monitor, clients, run, client) {
            return Some(client);
        }
    }
    None
}
