//! What follows from the definitions alone.

ghost use Rattle.std.specs.Prelude.{◌≡◌, ℕ, [], All, Some, slice_get};
ghost use Rattle.lang_tree.specs.declared.tree.LimitTree.{LimitTree};
ghost use Rattle.lang_tree.specs.declared.tree.MonitorTree.{MonitorTree};
ghost use Rattle.logic_linear.specs.Truth.{Valuation, truth_of};
ghost use Rattle.lang_rules.specs.Rules.{faults_of};
ghost use Rattle.lang_monitor.specs.declared.monitor.Block.{Block};
ghost use Rattle.lang_monitor.specs.MonitorParts.{MonitorParts};
ghost use Rattle.lang_types.specs.Typed.{IsTyped, LimitsAsWritten, PlacedBlock, blocks_from};
ghost use Rattle.lang_types.specs.KeptMeaning.{BodyKeepsMeaning, plain_guard};
ghost use Rattle.lang_types.specs.PlainRuns.{MonitorRunsAsWritten};

/// The monitor of a tree that breaks no rule means what the tree says: each guard and condition has
/// the truth, and each value that is assigned or returned the value or truth, that ordinary
/// arithmetic and logic give its expression.
pub fn forms_keep_meaning()
    ensures guards { (tree : MonitorTree) (monitor : MonitorParts) (number : ℕ)
        (placed : PlacedBlock) (block : Block) (valuation : Valuation)
        → faults_of tree ≡ [] → IsTyped tree monitor
        → slice_get (blocks_from 0 tree.methods) number ≡ Some placed
        → slice_get monitor.blocks number ≡ Some block
        → truth_of valuation block.guard ≡ plain_guard tree.decls placed valuation }
    ensures values { (tree : MonitorTree) → faults_of tree ≡ []
        → All (BodyKeepsMeaning tree.decls) (blocks_from 0 tree.methods) }
{}

/// The blocks of a tree that breaks no rule do what the tree's statements say: from each state and
/// locals, the body of a block reaches the state and the locals that ordinary arithmetic and logic
/// give, name by name, and its result is what the statements return. What names stand for as a
/// function, and statements as functions of that: Glynn Winskel, *The Formal Semantics of
/// Programming Languages*, chapter 5.
pub fn bodies_keep_meaning()
    ensures { (tree : MonitorTree) (monitor : MonitorParts)
        → faults_of tree ≡ [] → IsTyped tree monitor → MonitorRunsAsWritten tree monitor }
{}

/// A parameter may have exactly the numbers that meet its condition as it is written.
pub fn limits_are_conditions()
    ensures { (limit : LimitTree) → LimitsAsWritten limit }
{}
