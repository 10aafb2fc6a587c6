//! What a module is printed of.

ghost use Rattle.std.specs.Prelude.{◌≡◌, ◌-◌, ◌==◌, false, not, position, slice_get};
ghost use Rattle.std.specs.List.{list_any};
ghost use Rattle.std.specs.Option.{option_map_or};
ghost use Rattle.lang_monitor.specs.MonitorParts.{count_in, first_in};
ghost use Rattle.machine_events.specs.Configurations.{block_condition};
ghost use Rattle.machine_events.specs.Plans.{notes_at};
ghost use Rattle.emit_code.specs.Code.{is_always, is_guarded, is_waited_on};
ghost use Rattle.emit_statements.specs.Sources.{answer_of, is_whole, kind_answered, reads_inputs};
ghost use Rattle.emit_statements.specs.Sources.{seen, tests_alone};
ghost use Rattle.emit_statements.specs.Conditions.{first_block, is_of};
ghost use Rattle.emit_statements.specs.inner.Parts.{are_none};

use crate::ways::Way;
use lang_base::Kind;
use lang_monitor::{Block, Monitor, Ret};
use lang_tree::{MethodTree, MonitorTree};
use logic_linear::Formula;
use machine_events::{Note, Plan};

/// A monitor as it is written and as it was checked, and its plan.
#[derive(Clone, Copy)]
pub struct Source<'a> {
    /// The text that the tree was read from.
    pub text: &'a [u8],
    /// The monitor as it is written.
    pub tree: &'a MonitorTree,
    /// The monitor as it was checked.
    pub monitor: &'a Monitor,
    /// Its plan.
    pub plan: &'a Plan,
    /// Of each block, whether it is known that no number of it leaves 64 bits.
    pub whole: &'a [bool],
}

/// A method, for calls that wait, try or have a time, with a function or with none.
#[derive(Clone, Copy)]
pub struct Calls<'a> {
    /// What its module is printed of.
    pub source: &'a Source<'a>,
    /// The method as it is written.
    pub method: &'a MethodTree,
    /// The number of its first block.
    pub first: u32,
    /// What its last block answers.
    pub answer: Option<Kind>,
    /// Whether some block of it may fail.
    pub fails: bool,
    /// How its calls wait for the guard of that block.
    pub way: Way,
    /// Whether its last block calls a function with the data.
    pub works: bool,
}

/// The number of the first block of the method of this number.
pub fn first_of(monitor: &Monitor, method: usize) -> u32
    ensures { result ≡ first_in (slice_get monitor.now.methods method) }
{
    match monitor.methods().get(method) {
        Some(method) => method.first,
        None => 0,
    }
}

/// How many blocks the method of this number has.
pub fn count_of(monitor: &Monitor, method: usize) -> u32
    ensures { result ≡ count_in (slice_get monitor.now.methods method) }
{
    match monitor.methods().get(method) {
        Some(method) => method.count,
        None => 0,
    }
}

/// The condition of the block of this number, from 1; 0 where there is no such block.
pub fn condition_of(monitor: &Monitor, block: usize) -> u32
    ensures { result ≡ block_condition monitor.now block }
{
    match monitor.blocks().get(block) {
        Some(block) => block.condition,
        None => 0,
    }
}

/// The number of the first block of a condition.
pub fn first_block(monitor: &Monitor, condition: u32) -> Option<usize>
    ensures { result ≡ first_block monitor.now condition }
{
    first_of_condition(monitor.blocks(), condition)
}

fn first_of_condition(blocks: &[Block], condition: u32) -> Option<usize>
    ensures { result ≡ position (is_of condition) blocks.now }
{
    blocks.iter().position(|block| block.condition == condition)
}

/// Whether a guard is `true` as it is written.
pub fn is_always(guard: &Formula) -> bool
    ensures { result ≡ is_always guard.now }
{
    match guard {
        Formula::All(parts) => are_none(parts.items()),
        Formula::Row(_) | Formula::Flag { .. } | Formula::Any(_) => false,
    }
}

fn are_none(parts: &[Formula]) -> bool
    ensures { result ≡ are_none parts.now }
{
    match parts {
        [_, ..] => false,
        _ => true,
    }
}

/// Whether anyone ever waits on a condition: there is one of this number, and its guard is not
/// `true`.
pub fn is_waited_on(monitor: &Monitor, condition: u32) -> bool
    ensures { result ≡ is_waited_on monitor.now condition }
{
    let guarded = has_guard(monitor, condition);
    condition != 0 && guarded
}

// Whether the guard of a condition is not `true`.
fn has_guard(monitor: &Monitor, condition: u32) -> bool
    ensures { result ≡ option_map_or (λ which. not (is_always which.guard))
        (slice_get monitor.now.conditions (condition - 1)) false }
{
    match monitor
        .conditions()
        .get((condition as usize).saturating_sub(1))
    {
        Some(which) => !is_always(&which.guard),
        None => false,
    }
}

/// Whether the guard of the block of this number is tested: it is not `true`.
pub fn is_guarded(monitor: &Monitor, block: usize) -> bool
    ensures { result ≡ is_guarded monitor.now block }
{
    match monitor.blocks().get(block) {
        Some(block) => !is_always(&block.guard),
        None => false,
    }
}

/// Whether each block of a condition has a test of its own: its guard reads inputs or locals, or
/// there is no condition, as of blocks that assert.
pub fn tests_alone(monitor: &Monitor, condition: u32) -> bool
    ensures { result ≡ tests_alone monitor.now condition }
{
    let reads = reads_inputs(monitor, condition);
    condition == 0 || reads
}

// Whether the guard of a condition reads inputs or locals.
fn reads_inputs(monitor: &Monitor, condition: u32) -> bool
    ensures { result ≡ reads_inputs monitor.now condition }
{
    match monitor
        .conditions()
        .get((condition as usize).saturating_sub(1))
    {
        Some(which) => which.reads_inputs,
        None => false,
    }
}

/// Whether it is known that no number of the block of this number leaves 64 bits.
pub fn is_whole(source: &Source, block: usize) -> bool
    ensures { result ≡ is_whole (seen source.now) block }
{
    match source.whole.get(block) {
        Some(is) => *is,
        None => false,
    }
}

/// The notes of the block of this number.
pub(crate) fn notes_of(plan: &Plan, block: usize) -> &[Note]
    ensures { result.now ≡ notes_at plan.now block }
{
    match plan.notes.items().get(block) {
        Some(list) => list.notes(),
        None => &[],
    }
}

/// The kind of what the block of this number answers.
pub fn answer_of(monitor: &Monitor, block: usize) -> Option<Kind>
    ensures { result ≡ answer_of monitor.now block }
{
    match monitor.blocks().get(block) {
        Some(block) => kind_answered(&block.result),
        None => None,
    }
}

fn kind_answered(answered: &Ret) -> Option<Kind>
    ensures { result ≡ kind_answered answered.now }
{
    match answered {
        Ret::Nothing => None,
        Ret::Int(_) => Some(Kind::Int),
        Ret::Bool(_) => Some(Kind::Bool),
    }
}

/// Whether someone may hear one of these notes.
pub(crate) fn are_heard(source: &Source, notes: &[Note]) -> bool
    ensures { result ≡
        list_any (λ note. is_waited_on source.now.monitor.now note.condition) notes.now }
{
    notes
        .iter()
        .any(|note| is_waited_on(source.monitor, note.condition))
}
