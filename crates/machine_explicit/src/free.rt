//! A monitor that runs by sections.

ghost use Rattle.std.specs.Prelude.{◌≡◌, ◌≤◌, ◌<◌, ◌↔◌, ◌+◌, ◌*◌, IsTrue, IfOk, IsSomeAnd};
ghost use Rattle.std.specs.Prelude.{length, slice_get};
ghost use Rattle.machine_implicit.specs.Scripted.{AreClients, FitsScripts, all_blocks};
ghost use Rattle.machine_events.specs.Plans.{FitsPlan};
ghost use Rattle.machine_events.specs.Logs.{IsClosed};
ghost use Rattle.machine_explicit.specs.Machines.{shown_stage};
ghost use Rattle.machine_explicit.specs.Sections.{MOST_SPURIOUS, HoldsAlways, HasEnded, Sections};
ghost use Rattle.machine_explicit.specs.Sections.{WakesByNothing, is_ready, opened_free, room_of};
ghost use Rattle.machine_explicit.specs.inner.Waiting.{stage_condition};

use super::calls::all_blocks;
use super::config::Config;
use super::rings::Rings;
use super::section::{NotReady, Section, SpuriousFault};
use super::sectioning::make_section;
use lang_monitor::Monitor;
use machine_events::{Entry, Outcome, Plan, Stage};
use machine_implicit::{Client, Place, Scripts, State};
use std::alloc::{AllocError, Global};
use std::marker::Model;

/// A monitor that runs by sections, with a plan for it, what its clients call, and the log so far,
/// which is legal at every moment. Between sections no one owns the lock.
#[derive(Drop)]
pub struct FreeMonitor {
    config: Config,
    log: Vec<Entry>,
    /// For each condition the clients that wait on it, in the order of their last `waits` entries.
    rings: Rings,
    /// How many spurious entries the log has.
    spurious: u64,
    /// How many spurious entries it may have.
    extra: u64,
}

impl Model for FreeMonitor {
    ghost use Rattle.std.specs.Prelude.{vec_capacity};
    ghost use Rattle.std.specs.Coded.{codes};
    ghost use Rattle.logic_linear.specs.contracts.formula.Formula as formula;
    ghost use Rattle.lang_monitor.specs.contracts.monitor.Stmt as statement;
    ghost use Rattle.machine_explicit.specs.Sections.{FreeMachine};
    ghost use Rattle.machine_explicit.specs.inner.Waiting.{free_of, IsKept};

    ghost Value = { FreeMachine };

    ghost coded = { Prim.hlevel (codes, formula.the_row.coded, statement.the_row.coded) };

    ghost view = { λ f. free_of f.config f.log.items f.extra };

    ghost invariant = { λ f.
        IsKept (free_of f.config f.log.items f.extra) (vec_capacity f.log) f.rings f.spurious };
}

impl FreeMonitor {
    /// The monitor at the start: an empty log, and every client idle at its first place. The log
    /// may have so many spurious entries, at most 16,384. It makes room for the longest log and no
    /// more, so no later call takes memory. It fails only for want of memory.
    pub fn open(
        alloc: Global,
        monitor: Monitor,
        plan: Plan,
        scripts: Scripts,
        extra: u64,
    ) -> Result<FreeMonitor, AllocError>
        requires scripts { FitsScripts monitor scripts }
        requires plan { FitsPlan monitor plan }
        requires extra { extra ≤ MOST_SPURIOUS }
        ensures opened { IfOk result (λ free. free ≡ opened_free monitor plan scripts extra) }
        ensures always { IfOk result HoldsAlways }
    {
        let free = FreeMonitor::starting(alloc, monitor, plan, scripts, extra)?;
        // A reading call says what the rule of the monitor gives.
        let _extra = free.extra();
        Ok(free)
    }

    /// The monitor at the start, with room for the whole log.
    fn starting(
        alloc: Global,
        monitor: Monitor,
        plan: Plan,
        scripts: Scripts,
        extra: u64,
    ) -> Result<FreeMonitor, AllocError>
        requires scripts { FitsScripts monitor scripts }
        requires plan { FitsPlan monitor plan }
        requires extra { extra ≤ MOST_SPURIOUS }
        ensures { IfOk result (λ free. free ≡ opened_free monitor plan scripts extra) }
    {
        // Conditions are numbered from 1; the ring of 0 stays empty.
        let rings = Rings::open(alloc, monitor.conditions().len() + 1)?;
        let log = Vec::with_capacity(alloc, room(&monitor, scripts.clients(), extra))?;
        let config = Config::open(alloc, monitor, plan, scripts)?;
        Ok(FreeMonitor {
            config,
            log,
            rings,
            spurious: 0,
            extra,
        })
    }

    /// Makes a section of a client: it begins its next block, or goes on where it was woken, takes
    /// the lock, and runs its block, makes its notes and gives the lock back, where its guard is
    /// true. Where it is false the client waits, or at the first block of a call that tries, is
    /// refused and gives the lock back. A signal wakes the client that has waited longest in its
    /// condition. `NotReady` comes exactly where the client waits, or has no call left, and then
    /// all is as before. It takes no memory.
    pub fn section(&mut self, client: u32) -> Result<Section, NotReady>
        requires { client < length self.old.system.clients }
        ensures section { Sections client self.old self.new result }
        ensures always { HoldsAlways self.new }
    {
        let section = self.make(client);
        // A reading call says what the rule of the monitor gives.
        let _extra = self.extra();
        section
    }

    /// Makes a section of a client, and its entry.
    fn make(&mut self, client: u32) -> Result<Section, NotReady>
        requires { client < length self.old.system.clients }
        ensures { Sections client self.old self.new result }
    {
        let place = self.log.len() as u64;
        let Some(entry) = make_section(&mut self.config, &mut self.rings, client) else {
            return Err(NotReady { entries: place });
        };
        self.log.push_reserved(entry);
        Ok(Section { place, entry })
    }

    /// Wakes a client by nothing. `NotReady` comes exactly where it doesn't wait, and `Spent`
    /// exactly where it waits and the log has as many spurious entries as it may have; then all is
    /// as before. It takes no memory.
    pub fn spurious(&mut self, client: u32) -> Result<(), SpuriousFault>
        requires { client < length self.old.system.clients }
        ensures spurious { WakesByNothing client self.old self.new result }
        ensures always { HoldsAlways self.new }
    {
        let woken = self.wake(client);
        // A reading call says what the rule of the monitor gives.
        let _extra = self.extra();
        woken
    }

    /// Wakes a client by nothing, and makes the entry of it.
    fn wake(&mut self, client: u32) -> Result<(), SpuriousFault>
        requires { client < length self.old.system.clients }
        ensures { WakesByNothing client self.old self.new result }
    {
        let Some(condition) = waited(self.config.stage(client)) else {
            let entries = self.log.len() as u64;
            return Err(SpuriousFault::NotReady { entries });
        };
        if self.spurious >= self.extra {
            return Err(SpuriousFault::Spent);
        }
        let place = self.config.place(client);
        let (call, block) = (place.past + 1, place.block + 1);
        if self.config.spurious(client).is_err() {
            unreachable!()
        }
        self.rings.remove(condition, client);
        self.spurious += 1;
        self.log.push_reserved(Entry {
            client,
            call,
            block,
            outcome: Outcome::Spurious,
        });
        Ok(())
    }

    /// Whether each client waits, or is idle with no call left. Under a lawful plan no client may
    /// step then.
    pub fn closed(&self) -> bool
        ensures closed { IsTrue result ↔ IsClosed self.now.system self.now.now }
        ensures ends { IsTrue result → HasEnded self.now }
        ensures always { HoldsAlways self.now }
    {
        self.config.all_rest()
    }

    /// Whether a client can make a section: it is idle with a call left, or was woken.
    pub fn is_ready(&self, client: u32) -> bool
        requires { client < length self.now.system.clients }
        ensures ready { result ≡ is_ready self.now client }
        ensures always { HoldsAlways self.now }
    {
        self.config.starts(client)
    }

    /// The log so far.
    pub fn log(&self) -> &[Entry]
        ensures log { result.now ≡ self.now.log }
        ensures always { HoldsAlways self.now }
    {
        &self.log
    }

    /// The state.
    pub fn state(&self) -> &State
        ensures state { result.now ≡ self.now.now.state }
        ensures always { HoldsAlways self.now }
    {
        self.config.state()
    }

    /// The stage of a client: idle, waiting or woken.
    pub fn stage(&self, client: u32) -> Stage<usize>
        requires { client < length self.now.system.clients }
        ensures stage { IsSomeAnd (slice_get self.now.now.standings client)
            (λ standing. result ≡ shown_stage standing.stage) }
        ensures always { HoldsAlways self.now }
    {
        self.config.stage(client)
    }

    /// The monitor that it runs.
    pub fn monitor(&self) -> &Monitor
        ensures monitor { result.now ≡ self.now.system.monitor }
        ensures always { HoldsAlways self.now }
    {
        self.config.monitor()
    }

    /// The plan under which it runs.
    pub fn plan(&self) -> &Plan
        ensures plan { result.now ≡ self.now.system.plan }
        ensures always { HoldsAlways self.now }
    {
        self.config.plan()
    }

    /// Where a client is in its script.
    pub fn place(&self, client: u32) -> &Place
        requires { client < length self.now.system.clients }
        ensures place { IsSomeAnd (slice_get self.now.now.standings client)
            (λ standing. result.now ≡ standing.place) }
        ensures always { HoldsAlways self.now }
    {
        self.config.place(client)
    }

    /// What its clients call.
    pub fn scripts(&self) -> &Scripts
        ensures scripts { result.now ≡ self.now.system.clients }
        ensures always { HoldsAlways self.now }
    {
        self.config.scripts()
    }

    /// For how many entries there is room: exactly the most that its log may have.
    pub fn room(&self) -> usize
        ensures room { result ≡ room_of self.now }
        ensures always { HoldsAlways self.now }
    {
        self.log.capacity()
    }

    /// How many spurious entries its log may have.
    pub fn extra(&self) -> u64
        ensures extra { result ≡ self.now.extra }
        ensures always { HoldsAlways self.now }
    {
        self.extra
    }
}

/// The most entries of a log.
fn room(monitor: &Monitor, clients: &[Client], extra: u64) -> usize
    requires clients { AreClients clients.now }
    requires extra { extra ≤ MOST_SPURIOUS }
    ensures { result ≡ all_blocks monitor.now clients.now * length clients.now + 2 * extra }
{
    all_blocks(monitor, clients) * clients.len() + 2 * extra as usize
}

/// The condition on which a client at this stage waits.
fn waited(stage: Stage<usize>) -> Option<u32>
    ensures { result ≡ stage_condition stage }
{
    match stage {
        Stage::Waiting(condition) => Some(condition),
        _ => None,
    }
}
