//! The event machine on monitors and clients that are read from texts, by plans that were worked
//! out by hand.

ghost use Rattle.std.specs.Prelude.{◌≡◌, length};

use super::reading::{clients_of, fitting_plan, monitor_of};
use lang_base::Value;
use machine_events::{CondKind, Event, Note, NoteList, Plan, Stage};
use machine_explicit::Config;
use machine_implicit::{Commit, Reply};
use samples::clients::{TWO_LOCKS, TWO_PAIRS, TWO_TAKE};
use samples::monitors::{GATE, LOCK, TWICE};
use samples::plans::signal;
use std::alloc::Global;
use std::process::Abort;
use std::test::Fail;

const WAITS_TO_ACQUIRE: &[u8] = b"client A { acquire(); release(); } client B { acquire(); }";

const WAITS_TO_RELEASE: &[u8] = b"client A { acquire(); release(); } client B { release(); }";

const SIGNALS: [CondKind; 2] = [CondKind::Signal, CondKind::Signal];

// The clients' numbers.
const A: u32 = 0;

const B: u32 = 1;

const C: u32 = 2;

/// A machine, and how many clients it has.
#[derive(Drop)]
struct Machine {
    config: Config,
    clients: usize,
    ghost counted: { clients ≡ length config.system.clients },
}

impl Machine {
    /// Makes an event, and says whether it was allowed.
    fn step(&mut self, event: Event) -> bool {
        match self.config.step(event) {
            Ok(()) => true,
            Err(_) => false,
        }
    }

    /// Makes the events up to the first that isn't allowed, and says whether all are.
    fn makes(&mut self, events: &[Event]) -> bool {
        for event in events {
            if !self.step(*event) {
                return false;
            }
        }
        true
    }

    /// Whether the events of a client, with notes that name nobody and that name the target, are
    /// refused, all but this one.
    fn allows_only(&mut self, client: u32, target: u32, allowed: Option<Event>) -> bool {
        let events = [
            Event::Begin { client },
            Event::Lock { client },
            Event::Wait { client },
            Event::Run { client },
            notes_to(client, None),
            notes_to(client, Some(target)),
            Event::Unlock { client },
            Event::Spurious { client },
        ];
        for event in events {
            if Some(event) != allowed && self.step(event) {
                return false;
            }
        }
        true
    }

    /// The stage of a client, where there is one of this number.
    fn stage(&self, client: u32) -> Option<Stage<usize>> {
        if (client as usize) < self.clients {
            Some(self.config.stage(client))
        } else {
            None
        }
    }
}

fn notes_to(client: u32, target: Option<u32>) -> Event {
    Event::Notify { client, target }
}

/// A monitor and its clients, and a plan: the kinds of its conditions, and one note or none for
/// each block.
#[derive(Clone, Copy)]
struct Start<'a> {
    monitor: &'a [u8],
    clients: &'a [u8],
    kinds: &'a [CondKind],
    notes: &'a [Option<Note>],
}

/// The machine at its start.
fn opened(alloc: Global, start: Start<'_>) -> Result<Machine, Fail> {
    let monitor = monitor_of(alloc, start.monitor)?;
    let scripts = clients_of(alloc, start.clients, &monitor)?;
    let plan = fitting_plan(alloc, &monitor, start.kinds, start.notes)?;
    let clients = scripts.clients().len();
    let config = Config::open(alloc, monitor, plan, scripts)?;
    Ok(Machine { config, clients })
}

/// What is asked of a machine after what came before.
#[derive(Clone, Copy)]
enum Check<'a> {
    /// It makes these events.
    Makes(&'a [Event]),
    /// It refuses the event.
    Refuses(Event),
    /// Of a client's events, with notes that name nobody and that name a target, it allows this one
    /// alone.
    Allows(u32, u32, Option<Event>),
    /// A client's stage, with how many of its notes are to come.
    Stage(u32, Stage<usize>),
    /// Who has the lock.
    Owner(Option<u32>),
    /// The values of the fields.
    Values(&'a [Value]),
    /// The calls that were answered.
    Commits(&'a [Commit]),
    /// For how many commits there is room.
    Room(usize),
    /// The client of the event is at the stage, has this event alone, and makes it.
    MakesItsOwn(Stage<usize>, Event),
}

impl Machine {
    /// Whether it is as is asked.
    fn is_as(&mut self, check: &Check) -> bool {
        match check {
            Check::Makes(events) => self.makes(events),
            Check::Refuses(event) => !self.step(*event),
            Check::Allows(client, target, allowed) => self.allows_only(*client, *target, *allowed),
            Check::Stage(client, stage) => self.stage(*client) == Some(*stage),
            Check::Owner(owner) => self.config.owner() == *owner,
            Check::Values(values) => self.config.state().values() == *values,
            Check::Commits(commits) => self.config.commits() == *commits,
            Check::Room(commits) => self.config.room() == *commits,
            Check::MakesItsOwn(stage, event) => self.makes_its_own(*stage, *event),
        }
    }

    /// Whether the client of the event is at the stage, has this event alone, and makes it.
    fn makes_its_own(&mut self, stage: Stage<usize>, event: Event) -> bool {
        let client = client_of(event);
        let other = if client == A { B } else { A };
        self.stage(client) == Some(stage)
            && self.allows_only(client, other, Some(event))
            && self.step(event)
    }

    /// The place from 0 of the first check that it is not as.
    fn first_wrong(&mut self, checks: &[Check]) -> Option<usize> {
        for (place, check) in checks.iter().enumerate() {
            if !self.is_as(check) {
                return Some(place);
            }
        }
        None
    }
}

/// Demands of the machine at this start that it is as each check asks.
fn meets(
    rt: &(impl Abort + AllocGlobal),
    start: Start<'_>,
    checks: &[Check<'_>],
) -> Result<(), Fail> {
    let mut machine = opened(rt.alloc(), start)?;
    let wrong = machine.first_wrong(checks);
    assert_eq!(rt; wrong, None);
    Ok(())
}

/// The lock with these clients and notes, both of whose conditions are of kind signal.
fn signalled_lock<'a>(clients: &'a [u8], notes: &'a [Option<Note>]) -> Start<'a> {
    Start {
        monitor: LOCK,
        clients,
        kinds: &SIGNALS,
        notes,
    }
}

/// The notes of blocks that signal each other's condition.
fn mutual() -> [Option<Note>; 2] {
    [Some(signal(2, false)), Some(signal(1, false))]
}

const ACQUIRES: [Event; 5] = [
    Event::Begin { client: A },
    Event::Lock { client: A },
    Event::Run { client: A },
    Event::Notify {
        client: A,
        target: None,
    },
    Event::Unlock { client: A },
];

#[test]
fn a_client_waits_for_the_lock_and_is_woken_by_nothing(rt: HostRuntime) -> Result<(), Fail> {
    let notes = mutual();
    let waits = [
        Event::Begin { client: B },
        Event::Lock { client: B },
        Event::Wait { client: B },
        Event::Spurious { client: B },
    ];
    let checks = [
        Check::Refuses(Event::Lock { client: A }),
        Check::Makes(&ACQUIRES),
        Check::Refuses(Event::Unlock { client: A }),
        Check::Makes(&waits),
        Check::Stage(B, Stage::Woken(1)),
        Check::Owner(None),
        Check::Values(&[Value::Bool(true)]),
    ];
    meets(&rt, signalled_lock(TWO_LOCKS, &notes), &checks)
}

/// The plan of a text that wakes everyone.
fn plan_for_everyone(alloc: Global, text: &[u8]) -> Result<Plan, Fail> {
    let monitor = monitor_of(alloc, text)?;
    Ok(Plan::everyone(alloc, &monitor)?)
}

/// Demands of a block that it has a broadcast on each of two conditions, untested.
fn broadcasts_on_both(rt: &impl Abort, list: &NoteList) {
    let broadcasts = [1, 2].map(|condition| Note {
        condition,
        all: true,
        tested: false,
    });
    assert_eq!(rt; list.notes(), broadcasts.as_slice());
}

/// Demands of a plan that it has two conditions of kind broadcast, and two blocks with a broadcast
/// on each.
fn wakes_everyone(rt: &impl Abort, plan: &Plan) {
    assert_eq!(rt; plan.kinds.items(), [CondKind::Broadcast; 2].as_slice());
    assert_eq!(rt; plan.notes.items().len(), 2);
    for list in plan.notes.items() {
        broadcasts_on_both(rt, list);
    }
}

#[test]
fn everyone_has_a_broadcast_on_both_conditions_of_the_lock(rt: HostRuntime) -> Result<(), Fail> {
    let plan = plan_for_everyone(rt.alloc(), LOCK)?;
    wakes_everyone(&rt, &plan);
    Ok(())
}

/// The events of a client that waits.
fn wait_of(client: u32) -> [Event; 3] {
    [
        Event::Begin { client },
        Event::Lock { client },
        Event::Wait { client },
    ]
}

#[test]
fn an_overflow_wakes_the_next_waiter(rt: HostRuntime) -> Result<(), Fail> {
    // What fires signals those who wait to take.
    let kinds = [CondKind::Signal, CondKind::Broadcast];
    let notes = [None, Some(signal(1, false))];
    let start = Start {
        monitor: GATE,
        clients: TWO_TAKE,
        kinds: &kinds,
        notes: &notes,
    };
    let fires = [
        Event::Begin { client: C },
        Event::Lock { client: C },
        Event::Run { client: C },
        notes_to(C, Some(A)),
        Event::Unlock { client: C },
    ];
    let overflows = [Event::Lock { client: A }, Event::Run { client: A }];
    let commits = [
        first_call(C, 1, Reply::Unit),
        first_call(A, 1, Reply::Overflow),
    ];
    let checks = [
        Check::Makes(&wait_of(A)),
        Check::Stage(A, Stage::Waiting(1)),
        Check::Makes(&wait_of(B)),
        Check::Stage(B, Stage::Waiting(1)),
        Check::Makes(&fires),
        Check::Makes(&overflows),
        Check::Allows(A, B, Some(notes_to(A, Some(B)))),
        Check::Makes(&[notes_to(A, Some(B))]),
        Check::Stage(B, Stage::Woken(1)),
        Check::Commits(&commits),
    ];
    meets(&rt, start, &checks)
}

#[test]
fn each_stage_allows_its_own_events_alone(rt: HostRuntime) -> Result<(), Fail> {
    let notes = mutual();
    let checks = [
        Check::MakesItsOwn(Stage::Idle, Event::Begin { client: A }),
        Check::MakesItsOwn(Stage::Entering, Event::Lock { client: A }),
        Check::MakesItsOwn(Stage::Inside, Event::Run { client: A }),
        Check::MakesItsOwn(Stage::Notifying(1), notes_to(A, None)),
        Check::MakesItsOwn(Stage::Notifying(0), Event::Unlock { client: A }),
        Check::MakesItsOwn(Stage::Idle, Event::Begin { client: B }),
        Check::MakesItsOwn(Stage::Entering, Event::Lock { client: B }),
        Check::MakesItsOwn(Stage::Inside, Event::Wait { client: B }),
        Check::MakesItsOwn(Stage::Waiting(1), Event::Spurious { client: B }),
        Check::MakesItsOwn(Stage::Woken(1), Event::Lock { client: B }),
        Check::MakesItsOwn(Stage::Inside, Event::Wait { client: B }),
        Check::MakesItsOwn(Stage::Idle, Event::Begin { client: A }),
        Check::MakesItsOwn(Stage::Entering, Event::Lock { client: A }),
        Check::MakesItsOwn(Stage::Inside, Event::Run { client: A }),
        Check::MakesItsOwn(Stage::Notifying(1), notes_to(A, Some(B))),
        // The lock is taken, and then A has no call left.
        Check::Allows(B, A, None),
        Check::Makes(&[Event::Unlock { client: A }]),
        Check::Allows(A, B, None),
        Check::Allows(C, A, None),
    ];
    meets(&rt, signalled_lock(TWO_LOCKS, &notes), &checks)
}

fn client_of(event: Event) -> u32 {
    match event {
        Event::Begin { client }
        | Event::Lock { client }
        | Event::Wait { client }
        | Event::Run { client }
        | Event::Notify { client, .. }
        | Event::Unlock { client }
        | Event::Spurious { client } => client,
    }
}

#[test]
fn a_note_names_no_client_that_it_does_not_wake(rt: HostRuntime) -> Result<(), Fail> {
    let acquires = [
        Event::Begin { client: A },
        Event::Lock { client: A },
        Event::Run { client: A },
        Event::Unlock { client: A },
    ];
    let waits = wait_of(B);
    let releases = [
        Event::Begin { client: A },
        Event::Lock { client: A },
        Event::Run { client: A },
    ];
    let nobody = Check::Allows(A, B, Some(notes_to(A, None)));
    // B waits to acquire, and the note on the other condition is for nobody. Or B waits to release,
    // and the note's guard, which was true before the body, is false after it.
    let acquired = [
        Check::Makes(&acquires),
        Check::Makes(&waits),
        Check::Makes(&releases),
        nobody,
    ];
    // What releases signals those who wait to release.
    let untested = [None, Some(signal(2, false))];
    meets(&rt, signalled_lock(WAITS_TO_ACQUIRE, &untested), &acquired)?;
    let waited = [
        Check::Makes(&waits),
        Check::Makes(&acquires),
        Check::Makes(&releases),
        nobody,
    ];
    let tested = [None, Some(signal(2, true))];
    meets(&rt, signalled_lock(WAITS_TO_RELEASE, &tested), &waited)
}

const TRIES: &[u8] = b"client A { try release(); } client B { acquire(); }";

#[test]
fn a_call_that_tries_is_refused_inside(rt: HostRuntime) -> Result<(), Fail> {
    let notes = mutual();
    let start = signalled_lock(TRIES, &notes);
    let commits = [first_call(A, 1, Reply::Refused)];
    let checks = [
        Check::Makes(&wait_of(A)),
        Check::Owner(Some(A)),
        Check::Allows(A, B, Some(Event::Unlock { client: A })),
        Check::Stage(A, Stage::Notifying(0)),
        Check::MakesItsOwn(Stage::Notifying(0), Event::Unlock { client: A }),
        Check::Stage(A, Stage::Idle),
        Check::Refuses(Event::Begin { client: A }),
        Check::Values(&[Value::Bool(false)]),
        Check::Commits(&commits),
    ];
    meets(&rt, start, &checks)
}

/// The events of a block that runs, of a client that has not begun it, and whose plan has no note
/// for it.
fn runs(client: u32) -> [Event; 4] {
    [
        Event::Begin { client },
        Event::Lock { client },
        Event::Run { client },
        Event::Unlock { client },
    ]
}

/// The commit of a block of a client's first call.
fn first_call(client: u32, block: u32, reply: Reply) -> Commit {
    Commit {
        client,
        call: 1,
        block,
        reply,
    }
}

#[test]
fn a_client_goes_from_block_to_block(rt: HostRuntime) -> Result<(), Fail> {
    let kinds = [CondKind::Broadcast, CondKind::Broadcast];
    let notes = [None, None];
    let start = Start {
        monitor: TWICE,
        clients: TWO_PAIRS,
        kinds: &kinds,
        notes: &notes,
    };
    let commits = [
        first_call(A, 1, Reply::Unit),
        first_call(B, 1, Reply::Unit),
        first_call(A, 2, Reply::Int(0)),
    ];
    let checks = [
        // Two calls of two blocks.
        Check::Room(4),
        Check::Makes(&runs(A)),
        Check::Makes(&runs(B)),
        Check::Makes(&runs(A)),
        Check::Refuses(Event::Begin { client: A }),
        Check::Makes(&wait_of(B)),
        Check::Stage(B, Stage::Waiting(2)),
        Check::Values(&[Value::Int(2)]),
        Check::Commits(&commits),
    ];
    meets(&rt, start, &checks)
}
