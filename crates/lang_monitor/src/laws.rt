//! What follows from the definitions alone.

ghost use Rattle.std.specs.Prelude.{◌≡◌, ◌↔◌, ℕ, ◌<◌, ◌≤◌, true, All, Any, Some, length, slice_get, List};
ghost use Rattle.lang_monitor.specs.declared.monitor.Block.{Block};
ghost use Rattle.lang_monitor.specs.Conditions.{IsFirstBlock, ShareCondition};
ghost use Rattle.lang_monitor.specs.MonitorParts.{MonitorParts, IsMonitor, asserts_in};
ghost use Rattle.lang_monitor.specs.MonitorParts.{opened_with, start_of};
ghost use Rattle.lang_base.specs.declared.value.Value.{Value};
ghost use Rattle.lang_monitor.specs.declared.candidate.Candidate.{Candidate};
ghost use Rattle.lang_monitor.specs.Starts.{IsStart};
ghost use Rattle.lang_monitor.specs.Triples.{IsInductive};

/// Conditions are the classes of the blocks that wait and have equal guards, and are numbered from
/// 1 by their first blocks: two such blocks have one condition exactly where their guards are
/// equal, the numbers from 1 to the number of conditions are those that blocks have, of two
/// conditions the one with the lower number is the one whose first block comes first, and a block
/// has no condition, but the number 0, exactly where its method asserts.
pub fn conditions_are_classes()
    ensures classes { (monitor : MonitorParts) → IsMonitor monitor
        → All (λ block. All (ShareCondition block) monitor.blocks) monitor.blocks }
    ensures numbers { (monitor : MonitorParts) (number : ℕ) → IsMonitor monitor → 1 ≤ number
        → (number ≤ length monitor.conditions)
        ↔ Any (λ block. block.condition ≡ number) monitor.blocks }
    ensures order { (monitor : MonitorParts) (number other first later : ℕ) → IsMonitor monitor
        → 1 ≤ number → 1 ≤ other
        → IsFirstBlock monitor.blocks number first → IsFirstBlock monitor.blocks other later
        → (number < other) ↔ (first < later) }
    ensures asserts { (monitor : MonitorParts) (number : ℕ) (block : Block) → IsMonitor monitor
        → slice_get monitor.blocks number ≡ Some block
        → (block.condition ≡ 0) ↔ (asserts_in (slice_get monitor.methods block.method) ≡ true) }
{}

/// What a monitor is opened with may be chosen: opened with values with which it may be opened, it
/// is a monitor that starts with these, and what is inductive stays so.
pub fn monitors_may_be_opened()
    ensures monitor { (monitor : MonitorParts) (start : List Value) → IsMonitor monitor
        → IsStart monitor.fields start → IsMonitor (opened_with monitor start) }
    ensures start { (monitor : MonitorParts) (start : List Value)
        → IsStart monitor.fields start → start_of (opened_with monitor start) ≡ start }
    ensures inductive { (monitor : MonitorParts) (start : List Value) (kept : List Candidate)
        → IsStart monitor.fields start → IsInductive monitor kept
        → IsInductive (opened_with monitor start) kept }
{}
