//! The event machine: a monitor whose clients wait on conditions and are woken by notes.
//!
//! A [`Config`] is a configuration of the explicit machine with what it runs. [`Config::step`]
//! makes one event, or refuses it where it isn't allowed. A [`FreeMonitor`] runs by whole sections
//! and keeps a log of them. Definitions: those of `machine_events` (plans, configurations, events,
//! what every configuration keeps, legal logs), `specs/Machines`, and `specs/Sections`.
#![tactic(auto)]

mod calls;
mod clients;
mod config;
mod free;
mod notes;
mod position;
mod rings;
mod section;
mod sectioning;
mod steps;
mod waiting;

pub use config::{Config, NotEnabled};
pub use free::FreeMonitor;
pub use machine_events::{CondKind, Entry, Event, Note, NoteList, Outcome, Plan, Stage};
pub use section::{NotReady, Section, SpuriousFault};
