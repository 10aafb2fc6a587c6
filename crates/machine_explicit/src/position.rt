//! Where a client stands, as a configuration keeps it.

ghost use Rattle.std.specs.Prelude.{◌≡◌, ℕ, MatchOption, map};
ghost use Rattle.std.specs.List.{list_any};
ghost use Rattle.machine_implicit.specs.declared.place.Place.{Place};
ghost use Rattle.machine_events.specs.Events.{waits_on};
ghost use Rattle.machine_explicit.specs.inner.Positions.{PositionAt, WantsLockAt};
ghost use Rattle.machine_explicit.specs.inner.Positions.{position_waits, waking_position};
ghost use Rattle.machine_explicit.specs.inner.Positions.{waking_stage};

use machine_events::Stage;
use machine_implicit::Place;

/// Which notes of a client are to come. They take no memory.
#[derive(Clone, Copy, Debug)]
pub enum ToCome {
    /// Those of a block, from one on.
    Block { block: u32, from: usize },
    /// After an overflow, a signal.
    Signal { condition: u32 },
    /// None: it gives the lock back.
    Nothing,
}

/// Where a client is in its script, and its stage there.
#[derive(Debug, Drop)]
pub struct Position {
    pub place: Place,
    pub stage: Stage<ToCome>,
}

/// The place of an idle client.
pub fn idle(positions: &[Position], client: u32) -> Option<&Place>
    ensures { MatchOption result
        ((place : Place) → PositionAt positions.now client place Stage.Idle → ⊥)
        (λ place. PositionAt positions.now client place.now Stage.Idle) }
{
    match positions.get(client as usize) {
        Some(one) => match one.stage {
            Stage::Idle => Some(&one.place),
            _ => None,
        },
        None => None,
    }
}

/// The place of a client that enters or was woken.
pub fn ready(positions: &[Position], client: u32) -> Option<&Place>
    ensures { MatchOption result
        ((place : Place) → WantsLockAt positions.now client place → ⊥)
        (λ place. WantsLockAt positions.now client place.now) }
{
    match positions.get(client as usize) {
        Some(one) => match one.stage {
            Stage::Entering => Some(&one.place),
            Stage::Woken(_) => Some(&one.place),
            _ => None,
        },
        None => None,
    }
}

/// The place of a client inside.
pub fn inside(positions: &[Position], client: u32) -> Option<&Place>
    ensures { MatchOption result
        ((place : Place) → PositionAt positions.now client place Stage.Inside → ⊥)
        (λ place. PositionAt positions.now client place.now Stage.Inside) }
{
    match positions.get(client as usize) {
        Some(one) => match one.stage {
            Stage::Inside => Some(&one.place),
            _ => None,
        },
        None => None,
    }
}

/// The place of a client that waits, and its condition.
pub fn waiting(positions: &[Position], client: u32) -> Option<(&Place, u32)>
    ensures { MatchOption result
        ((place : Place) (condition : ℕ)
        → PositionAt positions.now client place (Stage.Waiting condition) → ⊥)
        (λ found. PositionAt positions.now client found.0.now (Stage.Waiting found.1)) }
{
    match positions.get(client as usize) {
        Some(one) => match one.stage {
            Stage::Waiting(condition) => Some((&one.place, condition)),
            _ => None,
        },
        None => None,
    }
}

/// The place of a client that waits on a condition.
pub fn waiting_on(positions: &[Position], client: u32, condition: u32) -> Option<&Place>
    ensures { MatchOption result
        ((place : Place) → PositionAt positions.now client place (Stage.Waiting condition) → ⊥)
        (λ place. PositionAt positions.now client place.now (Stage.Waiting condition)) }
{
    match waiting(positions, client) {
        Some((place, on)) => { if on == condition { Some(place) } else { None } }
        None => None,
    }
}

/// Whether a client waits on a condition.
fn waits_on(stage: Stage<ToCome>, condition: u32) -> bool
    ensures { result ≡ waits_on condition stage }
{
    match stage {
        Stage::Waiting(on) => on == condition,
        _ => false,
    }
}

/// Whether some client waits on a condition.
pub fn some_waits(positions: &[Position], condition: u32) -> bool
    ensures { result ≡ list_any (position_waits condition) positions.now }
{
    for one in positions {
        if waits_on(one.stage, condition) {
            return true;
        }
    }
    false
}

/// The stage of a client after it is woken, if it waits on the condition.
fn woken(stage: Stage<ToCome>, condition: u32) -> Stage<ToCome>
    ensures { result ≡ waking_stage condition stage }
{
    if waits_on(stage, condition) {
        Stage::Woken(condition)
    } else {
        stage
    }
}

/// Wakes each client that waits on the condition.
pub fn wake_all(positions: &mut [Position], condition: u32)
    ensures { positions.new ≡ map (waking_position condition) positions.old }
{
    for i in 0..positions.len() {
        positions[i].stage = woken(positions[i].stage, condition);
    }
}
