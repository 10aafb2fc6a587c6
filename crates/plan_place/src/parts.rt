//! Of which kind a plan has a condition.

ghost use Rattle.std.specs.Prelude.{◌≡◌, ◌-◌, slice_get};
ghost use Rattle.plan_place.specs.Relayed.{is_broadcast};

use machine_events::CondKind;

/// Whether the condition, which is numbered from 1, is of kind broadcast.
pub fn is_broadcast_at(kinds: &[CondKind], condition: u32) -> bool
    ensures { result ≡ is_broadcast (slice_get kinds.now (condition - 1)) }
{
    let place = condition.saturating_sub(1) as usize;
    match kinds.get(place) {
        Some(CondKind::Broadcast) => true,
        Some(CondKind::Signal) => false,
        None => false,
    }
}
