//! The event machine.

ghost use Rattle.std.specs.Prelude.{◌≡◌, ◌<◌, ◌↔◌, false, true, IfOk, IsSomeAnd, IsTrue};
ghost use Rattle.std.specs.Prelude.{MatchOption, MatchResult, None, Some};
ghost use Rattle.std.specs.Prelude.{length, map};
ghost use Rattle.std.specs.Prelude.{slice_get};
ghost use Rattle.machine_implicit.specs.declared.place.Place.{Place};
ghost use Rattle.machine_implicit.specs.Runs.{first_places};
ghost use Rattle.machine_implicit.specs.Scripted.{FitsScripts, all_blocks};
ghost use Rattle.machine_events.specs.Configurations.{StandsAt};
ghost use Rattle.machine_events.specs.declared.event.Stage.TheVariants.{Waiting};
ghost use Rattle.machine_events.specs.Events.{fires};
ghost use Rattle.machine_events.specs.Plans.{FitsPlan};
ghost use Rattle.machine_explicit.specs.Machines.{Happened, IsMachine, KeepsWakeUps, Steps};
ghost use Rattle.machine_explicit.specs.Machines.{opened, shown_stage};
ghost use Rattle.machine_explicit.specs.inner.Positions.{idle_position};
ghost use Rattle.machine_explicit.specs.Sections.{can_start};
ghost use Rattle.machine_explicit.specs.inner.Waiting.{CanUnlock, Comes, CountsNotes, EachRests};
ghost use Rattle.machine_explicit.specs.inner.Waiting.{Goes, HasRun, HasWaited};
ghost use Rattle.machine_explicit.specs.inner.Waiting.{IsComing, IsInside, IsSettled, NoneComes};
ghost use Rattle.machine_explicit.specs.inner.Waiting.{NotStarted, Passes};
ghost use Rattle.machine_explicit.specs.inner.Waiting.{Started, WaitsOn, WasRefused, WentIn};

use super::calls::{all_blocks, calls, condition_of, is_first_try};
use super::notes::{Next, count_notes, finished, fires, next_note, shown};
use super::position::{Position, idle, inside, ready, some_waits, waiting, waiting_on, wake_all};
use super::steps::{refuse_step, run_step};
use super::waiting::{all_rest, starts};
use lang_monitor::Monitor;
use machine_events::{Event, Plan, Stage};
use machine_implicit::{
    Client, Commit, Place, Reply, Scripts, State, block_number, guard_of_call, place_at_start,
    start,
};
use std::alloc::{AllocError, Global};
use std::marker::Model;
use thiserror::Error;

/// The event isn't allowed now.
#[derive(Clone, Copy, Debug, Drop, PartialEq, Eq, Error)]
#[error("the event isn't allowed now")]
pub struct NotEnabled;

/// What a client inside may do.
#[derive(Clone, Copy)]
pub enum Way {
    /// Its guard is true: it runs its block.
    Runs,
    /// Its guard is false at the first block of a call that tries: its call is refused.
    GivesUp,
    /// Its guard is false elsewhere: it waits.
    Waits,
}

/// What a client inside did: it waits on a condition, it ran its block with a reply, or its call
/// was refused.
#[derive(Clone, Copy)]
pub enum Went {
    Waits(u32),
    Ran(Reply),
    GaveUp,
}

/// A client's first note to come, and whether it fires.
#[derive(Clone, Copy)]
pub struct Coming {
    pub next: Next,
    pub fires: bool,
}

/// A configuration of the explicit machine, and what it runs: a monitor, a plan for it, and what
/// its clients call.
#[derive(Drop)]
pub struct Config {
    monitor: Monitor,
    plan: Plan,
    scripts: Scripts,
    state: State,
    owner: Option<u32>,
    commits: Vec<Commit>,
    positions: Vec<Position>,
}

impl Model for Config {
    ghost use Rattle.std.specs.Prelude.{vec_capacity};
    ghost use Rattle.std.specs.Coded.{codes};
    ghost use Rattle.logic_linear.specs.contracts.formula.Formula as formula;
    ghost use Rattle.lang_monitor.specs.contracts.monitor.Stmt as statement;
    ghost use Rattle.machine_explicit.specs.Machines.{Machine, IsMachine};
    ghost use Rattle.machine_explicit.specs.inner.Positions.{HasRoom, machine_of};

    ghost Value = { Machine };

    ghost coded = { Prim.hlevel (codes, formula.the_row.coded, statement.the_row.coded) };

    ghost view = { λ c. machine_of c.monitor c.plan c.scripts c.state c.owner c.commits.items c.positions.items };

    ghost invariant = { λ c.
        IsMachine (machine_of c.monitor c.plan c.scripts c.state c.owner c.commits.items c.positions.items)
        × HasRoom c.monitor c.scripts (vec_capacity c.commits) };
}

impl Config {
    /// The configuration at the start: no owner, no commits, and every client idle at its first
    /// place. It makes room for a commit of each block of all calls and no more, so no later call
    /// takes memory. It fails only for want of memory.
    pub fn open(
        alloc: Global,
        monitor: Monitor,
        plan: Plan,
        scripts: Scripts,
    ) -> Result<Config, AllocError>
        requires scripts { FitsScripts monitor scripts }
        requires plan { FitsPlan monitor plan }
        ensures opened { IfOk result (λ config. config ≡ opened monitor plan scripts) }
        ensures rule { IfOk result IsMachine }
        ensures wakes { IfOk result KeepsWakeUps }
    {
        let config = Config::starting(alloc, monitor, plan, scripts)?;
        // A reading call says what the rule of the machine gives.
        let _owner = config.owner();
        Ok(config)
    }

    /// The machine at the start, with room for every commit.
    fn starting(
        alloc: Global,
        monitor: Monitor,
        plan: Plan,
        scripts: Scripts,
    ) -> Result<Config, AllocError>
        requires scripts { FitsScripts monitor scripts }
        requires plan { FitsPlan monitor plan }
        ensures { IfOk result (λ config. config ≡ opened monitor plan scripts) }
    {
        let clients = scripts.clients();
        let room = all_blocks(&monitor, clients);
        let positions = all_idle(alloc, &monitor, clients)?;
        let commits = Vec::with_capacity(alloc, room)?;
        let state = start(&monitor);
        Ok(Config {
            monitor,
            plan,
            scripts,
            state,
            owner: None,
            commits,
            positions,
        })
    }

    /// Makes an event. `NotEnabled` comes exactly where the event isn't allowed, and then all is as
    /// before. Under a lawful plan no wake-up is lost, whatever events come. It takes no memory.
    pub fn step(&mut self, event: Event) -> Result<(), NotEnabled>
        ensures steps { Steps event self.old self.new result }
        ensures rule { IsMachine self.new }
        ensures wakes { KeepsWakeUps self.new }
    {
        let outcome = self.make(event);
        // A reading call says what the rule of the machine gives.
        let _owner = self.owner();
        outcome
    }

    /// Makes an event, by the kind of it.
    fn make(&mut self, event: Event) -> Result<(), NotEnabled>
        ensures { Steps event self.old self.new result }
    {
        match event {
            Event::Begin { client } => self.begin(client),
            Event::Lock { client } => self.lock(client),
            Event::Wait { client } => self.wait(client),
            Event::Run { client } => self.run(client),
            Event::Notify { client, target } => match target {
                None => self.notify_none(client),
                Some(target) => self.notify_one(client, target),
            },
            Event::Unlock { client } => self.unlock(client),
            Event::Spurious { client } => self.spurious(client),
        }
    }

    /// The client that owns the lock.
    pub fn owner(&self) -> Option<u32>
        ensures owner { result ≡ self.now.now.owner }
        ensures rule { IsMachine self.now }
        ensures wakes { KeepsWakeUps self.now }
    {
        self.owner
    }

    /// The stage of a client; where it is notifying, with how many notes are to come.
    pub fn stage(&self, client: u32) -> Stage<usize>
        requires { client < length self.now.system.clients }
        ensures stage { IsSomeAnd (slice_get self.now.now.standings client)
            (λ standing. result ≡ shown_stage standing.stage) }
        ensures rule { IsMachine self.now }
        ensures wakes { KeepsWakeUps self.now }
    {
        let stage = self.stage_now(client);
        // A reading call says what the rule of the machine gives.
        let _owner = self.owner();
        stage
    }

    /// The stage of a client, as its position has it.
    fn stage_now(&self, client: u32) -> Stage<usize>
        requires { client < length self.now.system.clients }
        ensures { IsSomeAnd (slice_get self.now.now.standings client)
            (λ standing. result ≡ shown_stage standing.stage) }
    {
        shown(&self.plan, self.positions[client as usize].stage)
    }

    /// The commits so far, in order. They are a run of the implicit machine to the state and the
    /// clients' places.
    pub fn commits(&self) -> &[Commit]
        ensures commits { result.now ≡ self.now.now.commits }
        ensures rule { IsMachine self.now }
        ensures wakes { KeepsWakeUps self.now }
    {
        &self.commits
    }

    /// For how many commits there is room: one of each block of all calls.
    pub fn room(&self) -> usize
        ensures room { result ≡ all_blocks self.now.system.monitor self.now.system.clients }
        ensures rule { IsMachine self.now }
        ensures wakes { KeepsWakeUps self.now }
    {
        self.commits.capacity()
    }

    /// The state.
    pub fn state(&self) -> &State
        ensures state { result.now ≡ self.now.now.state }
        ensures rule { IsMachine self.now }
        ensures wakes { KeepsWakeUps self.now }
    {
        &self.state
    }

    /// The monitor that it runs.
    pub(crate) fn monitor(&self) -> &Monitor
        ensures { result.now ≡ self.now.system.monitor }
    {
        &self.monitor
    }

    /// The plan under which it runs.
    pub(crate) fn plan(&self) -> &Plan
        ensures { result.now ≡ self.now.system.plan }
    {
        &self.plan
    }

    /// What its clients call.
    pub(crate) fn scripts(&self) -> &Scripts
        ensures { result.now ≡ self.now.system.clients }
    {
        &self.scripts
    }

    /// Where a client is in its script.
    pub(crate) fn place(&self, client: u32) -> &Place
        requires { client < length self.now.system.clients }
        ensures place { IsSomeAnd (slice_get self.now.now.standings client)
            (λ standing. result.now ≡ standing.place) }
        ensures rule { IsMachine self.now }
    {
        &self.positions[client as usize].place
    }

    /// Whether a client is idle with a call left, or was woken.
    pub(crate) fn starts(&self, client: u32) -> bool
        requires { client < length self.now.system.clients }
        ensures { IsSomeAnd (slice_get self.now.now.standings client)
            (λ standing. result ≡ can_start self.now.system client standing.place standing.stage) }
    {
        starts(&self.scripts, client, &self.positions[client as usize])
    }

    /// Whether each client waits, or is idle with no call left.
    pub(crate) fn all_rest(&self) -> bool
        ensures { IsTrue result ↔ EachRests self.now }
    {
        all_rest(&self.scripts, &self.positions)
    }

    /// How many notes of a client are to come.
    pub(crate) fn notes_left(&self, client: u32) -> usize
        ensures { CountsNotes self.now.now.standings client result }
    {
        count_notes(&self.plan, &self.positions, client)
    }

    /// The first note to come of a client, and whether it fires.
    pub(crate) fn coming(&self, client: u32) -> Option<Coming>
        ensures comes { MatchOption result (NoneComes self.now client)
            (λ coming. Comes self.now client coming) }
        ensures rule { IsMachine self.now }
    {
        let Some(next) = next_note(&self.plan, &self.positions, client) else {
            return None;
        };
        let fires = fires(&self.monitor, &self.state, next.note);
        Some(Coming { next, fires })
    }

    /// What a client inside may do. It tests its guard, once.
    fn test(&self, client: u32) -> Option<Way>
        ensures { MatchOption result (IsInside self.now client → ⊥)
            (λ way. Goes self.now client way) }
    {
        let Some(place) = inside(&self.positions, client) else {
            return None;
        };
        let call = &calls(&self.scripts, client)[place.past as usize];
        if guard_of_call(&self.monitor, &self.state, call, place) {
            return Some(Way::Runs);
        }
        if is_first_try(call, place) {
            return Some(Way::GivesUp);
        }
        Some(Way::Waits)
    }

    /// An idle client with a call left begins, and one that was woken goes on; it takes the lock.
    pub(crate) fn start(&mut self, client: u32) -> Result<(), NotEnabled>
        requires settled { IsSettled self.old.now }
        requires within { client < length self.old.system.clients }
        ensures { MatchResult result (λ _. Started self.old client self.new)
            (λ _. NotStarted self.old client self.new) }
    {
        if !self.starts(client) {
            return Err(NotEnabled);
        }
        self.owner = Some(client);
        self.positions[client as usize].stage = Stage::Inside;
        Ok(())
    }

    /// An idle client with a call left enters.
    fn begin(&mut self, client: u32) -> Result<(), NotEnabled>
        ensures { Steps (Event.Begin client) self.old self.new result }
    {
        let Some(place) = idle(&self.positions, client) else {
            return Err(NotEnabled);
        };
        if place.past as usize >= calls(&self.scripts, client).len() {
            return Err(NotEnabled);
        }
        self.positions[client as usize].stage = Stage::Entering;
        Ok(())
    }

    /// A client that enters, or was woken, takes the free lock.
    fn lock(&mut self, client: u32) -> Result<(), NotEnabled>
        ensures { Steps (Event.Lock client) self.old self.new result }
    {
        if self.owner.is_some() {
            return Err(NotEnabled);
        }
        let Some(_place) = ready(&self.positions, client) else {
            return Err(NotEnabled);
        };
        self.owner = Some(client);
        self.positions[client as usize].stage = Stage::Inside;
        Ok(())
    }

    /// A client inside makes its step where its guard is true, and is refused or waits where it is
    /// false.
    pub(crate) fn go_on(&mut self, client: u32) -> Went
        requires { IsInside self.old client }
        ensures { WentIn client self.old self.new result }
    {
        let Some(way) = self.test(client) else {
            unreachable!()
        };
        match way {
            Way::Runs => Went::Ran(self.run_inside(client)),
            Way::GivesUp => {
                self.refuse_inside(client);
                Went::GaveUp
            }
            Way::Waits => Went::Waits(self.wait_inside(client)),
        }
    }

    /// A client inside whose guard is false waits, or is refused where its call tries.
    fn wait(&mut self, client: u32) -> Result<(), NotEnabled>
        ensures { Steps (Event.Wait client) self.old self.new result }
    {
        let Some(way) = self.test(client) else {
            return Err(NotEnabled);
        };
        match way {
            Way::Runs => Err(NotEnabled),
            Way::GivesUp => {
                self.refuse_inside(client);
                Ok(())
            }
            Way::Waits => {
                let _condition = self.wait_inside(client);
                Ok(())
            }
        }
    }

    /// A client inside whose guard is true makes its step.
    fn run(&mut self, client: u32) -> Result<(), NotEnabled>
        ensures { Steps (Event.Run client) self.old self.new result }
    {
        let Some(way) = self.test(client) else {
            return Err(NotEnabled);
        };
        match way {
            Way::Runs => {
                let _reply = self.run_inside(client);
                Ok(())
            }
            Way::GivesUp => Err(NotEnabled),
            Way::Waits => Err(NotEnabled),
        }
    }

    /// A client inside that waits gives the lock back; on which condition it waits.
    fn wait_inside(&mut self, client: u32) -> u32
        requires { Goes self.old client Way.Waits }
        ensures waited { HasWaited client self.old self.new }
        ensures condition { WaitsOn self.new client result }
        ensures rule { IsMachine self.new }
    {
        let position = &mut self.positions[client as usize];
        let call = &calls(&self.scripts, client)[position.place.past as usize];
        let block = block_number(&self.monitor, call, &position.place);
        let condition = condition_of(&self.monitor, block);
        position.stage = Stage::Waiting(condition);
        self.owner = None;
        condition
    }

    /// A client inside whose guard is true makes its step, with this reply.
    fn run_inside(&mut self, client: u32) -> Reply
        requires { Goes self.old client Way.Runs }
        ensures { HasRun client self.old self.new result }
    {
        let commit = run_step(
            &self.monitor,
            self.scripts.clients(),
            client,
            &mut self.state,
            &mut self.positions[client as usize],
        );
        self.commits.push_reserved(commit);
        commit.reply
    }

    /// A client inside is refused, and has no note to make.
    fn refuse_inside(&mut self, client: u32)
        requires { Goes self.old client Way.GivesUp }
        ensures { WasRefused client self.old self.new }
    {
        let commit = refuse_step(
            &self.monitor,
            self.scripts.clients(),
            client,
            &mut self.positions[client as usize],
        );
        self.commits.push_reserved(commit);
    }

    /// A client makes its first note to come, which wakes nobody.
    pub(crate) fn pass(&mut self, client: u32, next: Next)
        requires next { IsComing self.old client next }
        requires nobody { Passes self.old client }
        ensures { Happened (Event.Notify client None) self.old self.new }
    {
        self.positions[client as usize].stage = Stage::Notifying(next.rest);
    }

    /// A client makes its first note to come, a broadcast that fires: it wakes each client that
    /// waits.
    pub(crate) fn wake_each(&mut self, client: u32, next: Next)
        requires next { IsComing self.old client next }
        requires fires { fires self.old.system self.old.now.state next.note ≡ true }
        requires each { next.note.all ≡ true }
        ensures { Happened (Event.Notify client None) self.old self.new }
    {
        wake_all(&mut self.positions, next.note.condition);
        self.positions[client as usize].stage = Stage::Notifying(next.rest);
    }

    /// A client makes its first note to come, a signal that fires: it wakes this client, which
    /// waits.
    pub(crate) fn wake_one(&mut self, client: u32, next: Next, target: u32)
        requires next { IsComing self.old client next }
        requires fires { fires self.old.system self.old.now.state next.note ≡ true }
        requires one { next.note.all ≡ false }
        requires waits { (place : Place)
            × StandsAt self.old.now.standings target place (Waiting next.note.condition) }
        ensures { Happened (Event.Notify client (Some target)) self.old self.new }
    {
        self.positions[target as usize].stage = Stage::Woken(next.note.condition);
        self.positions[client as usize].stage = Stage::Notifying(next.rest);
    }

    /// A note of a client that names no target: it wakes each client that waits, or nobody.
    fn notify_none(&mut self, client: u32) -> Result<(), NotEnabled>
        ensures { Steps (Event.Notify client None) self.old self.new result }
    {
        let Some(coming) = self.coming(client) else {
            return Err(NotEnabled);
        };
        let next = coming.next;
        if !coming.fires {
            self.pass(client, next);
            return Ok(());
        }
        if next.note.all {
            self.wake_each(client, next);
            return Ok(());
        }
        if some_waits(&self.positions, next.note.condition) {
            return Err(NotEnabled);
        }
        self.pass(client, next);
        Ok(())
    }

    /// A signal of a client, which wakes a target that waits.
    fn notify_one(&mut self, client: u32, target: u32) -> Result<(), NotEnabled>
        ensures { Steps (Event.Notify client (Some target)) self.old self.new result }
    {
        let Some(coming) = self.coming(client) else {
            return Err(NotEnabled);
        };
        let next = coming.next;
        if next.note.all {
            return Err(NotEnabled);
        }
        if !coming.fires {
            return Err(NotEnabled);
        }
        let Some(_place) = waiting_on(&self.positions, target, next.note.condition) else {
            return Err(NotEnabled);
        };
        self.wake_one(client, next, target);
        Ok(())
    }

    /// A client with no note to come gives the lock back.
    fn unlock(&mut self, client: u32) -> Result<(), NotEnabled>
        ensures { Steps (Event.Unlock client) self.old self.new result }
    {
        let Some(_place) = finished(&self.plan, &self.positions, client) else {
            return Err(NotEnabled);
        };
        self.release(client);
        Ok(())
    }

    /// A client that has made all its notes gives the lock back.
    pub(crate) fn release(&mut self, client: u32)
        requires { CanUnlock self.old client }
        ensures { Happened (Event.Unlock client) self.old self.new }
    {
        self.owner = None;
        self.positions[client as usize].stage = Stage::Idle;
    }

    /// A client that waits is woken by nothing.
    pub(crate) fn spurious(&mut self, client: u32) -> Result<(), NotEnabled>
        ensures { Steps (Event.Spurious client) self.old self.new result }
    {
        let Some((_place, condition)) = waiting(&self.positions, client) else {
            return Err(NotEnabled);
        };
        self.positions[client as usize].stage = Stage::Woken(condition);
        Ok(())
    }
}

/// Each client idle at its first place, or an error where memory runs out.
fn all_idle(
    alloc: Global,
    monitor: &Monitor,
    clients: &[Client],
) -> Result<Vec<Position>, AllocError>
    requires { FitsScripts monitor.now clients.now }
    ensures { IfOk result (λ positions. positions.items
        ≡ map idle_position (first_places monitor.now clients.now 0 clients.now)) }
{
    let mut positions = Vec::with_capacity(alloc, clients.len())?;
    for client in 0..clients.len() {
        positions.push(Position {
            place: place_at_start(monitor, clients, client, 0),
            stage: Stage::Idle,
        })?;
    }
    Ok(positions)
}
