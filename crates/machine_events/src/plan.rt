//! Plans.

ghost use Rattle.std.specs.Prelude.{◌≡◌, ◌≤◌, IfOk, length};
ghost use Rattle.lang_base.specs.Limits.{CONDITIONS};
ghost use Rattle.machine_events.specs.Rising.{AreRising};
ghost use Rattle.machine_events.specs.Plans.{FitsPlan, IsLawful, broadcasts_from, everyone};
ghost use Rattle.machine_events.specs.Plans.{all_broadcast, broadcasts_of_each};

use base_list::Seq;
use lang_monitor::{Block, Candidate, Condition, Monitor};
use std::alloc::{AllocError, Global};
use std::marker::Model;

/// The kind of a condition. No event looks at it: it says by which rule a lawful plan places its
/// notes on the condition (`specs/Plans`, `IsLawful`; `specs/Counts`, `IsLawfulByCounting`).
#[derive(Clone, Copy, Debug, PartialEq, Eq)]
pub enum CondKind {
    /// Each block of the condition leaves its guard false, or has a note on it; or the condition is
    /// counted.
    Signal,
    /// Each note on the condition is a broadcast.
    Broadcast,
}

/// A note on a condition, numbered from 1: a broadcast (`all`) or a signal. A tested one wakes
/// nobody where the condition's guard is false at that moment.
#[derive(Clone, Copy, Debug, PartialEq, Eq)]
pub struct Note {
    pub condition: u32,
    pub all: bool,
    pub tested: bool,
}

/// The notes of a block, in rising order of conditions, each condition at most once.
#[derive(Debug, Drop)]
pub struct NoteList {
    notes: Seq<Note>,
}

impl Model for NoteList {
    ghost use Rattle.std.specs.Prelude.{List};
    ghost use Rattle.machine_events.specs.declared.plan.Note.{Note};
    ghost use Rattle.machine_events.specs.Rising.{AreRising};

    ghost Value = { List Note };

    ghost view = { λ list. list.notes };

    ghost invariant = { λ list. AreRising list.notes };
}

impl NoteList {
    /// The list of these notes. It takes no memory.
    pub fn of(notes: Vec<Note>) -> NoteList
        requires { AreRising notes.items }
        ensures { result ≡ notes.items }
    {
        NoteList {
            notes: Seq::of(notes),
        }
    }

    /// The notes.
    pub fn notes(&self) -> &[Note]
        ensures notes { result.now ≡ self.now }
        ensures rule { AreRising self.now }
    {
        self.notes.items()
    }
}

/// A plan: the candidates that are kept as an invariant, a kind for each condition, and notes for
/// each block.
#[derive(Debug, Drop)]
pub struct Plan {
    pub kept: Seq<Candidate>,
    pub kinds: Seq<CondKind>,
    pub notes: Seq<NoteList>,
}

impl Plan {
    /// The plan under which everyone is woken: no candidate is kept, every condition is of kind
    /// broadcast, and every block has an untested broadcast on every condition. It is lawful. It
    /// fails only for want of memory.
    pub fn everyone(alloc: Global, monitor: &Monitor) -> Result<Plan, AllocError>
        ensures plan { IfOk result (λ plan. plan ≡ everyone monitor.now) }
        ensures fits { IfOk result (λ plan. FitsPlan monitor.now plan) }
        ensures lawful { IfOk result (λ plan. IsLawful monitor.now plan) }
    {
        let kinds = all_broadcast(alloc, monitor.conditions())?;
        let notes = broadcasts_of_each(alloc, monitor.blocks(), monitor.conditions())?;
        Ok(Plan {
            kept: Seq::of(Vec::new(alloc)),
            kinds: Seq::of(kinds),
            notes: Seq::of(notes),
        })
    }
}

/// Kind broadcast for each condition.
fn all_broadcast(alloc: Global, conditions: &[Condition]) -> Result<Vec<CondKind>, AllocError>
    ensures { IfOk result (λ kinds. kinds.items ≡ all_broadcast conditions.now) }
{
    let mut kinds = Vec::new(alloc);
    for _condition in conditions {
        kinds.push(CondKind::Broadcast)?;
    }
    Ok(kinds)
}

/// For each block an untested broadcast on each condition.
fn broadcasts_of_each(
    alloc: Global,
    blocks: &[Block],
    conditions: &[Condition],
) -> Result<Vec<NoteList>, AllocError>
    requires { length conditions.now ≤ CONDITIONS }
    ensures { IfOk result (λ all. all.items ≡ broadcasts_of_each blocks.now conditions.now) }
{
    let mut all = Vec::new(alloc);
    for _block in blocks {
        all.push(broadcasts(alloc, conditions)?)?;
    }
    Ok(all)
}

/// An untested broadcast on each condition.
fn broadcasts(alloc: Global, conditions: &[Condition]) -> Result<NoteList, AllocError>
    requires { length conditions.now ≤ CONDITIONS }
    ensures { IfOk result (λ list. list ≡ broadcasts_from 1 conditions.now) }
{
    let mut notes = Vec::new(alloc);
    let mut number = 1;
    for _condition in conditions {
        notes.push(Note {
            condition: number,
            all: true,
            tested: false,
        })?;
        number += 1;
    }
    Ok(NoteList::of(notes))
}
