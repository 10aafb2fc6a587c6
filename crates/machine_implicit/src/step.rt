//! The start, a guard, and a step.

ghost use Rattle.std.specs.Prelude.{◌≡◌, ◌-◌, true, false, ◌<◌, ◌≤◌, length, slice_get, IsTrue};
ghost use Rattle.std.specs.Prelude.{[], ◌∷◌, IfOk, IfSome, OnOk, OnErr, Some};
ghost use Rattle.lang_base.specs.Limits.{LOCALS};
ghost use Rattle.lang_monitor.specs.MonitorParts.{locals_in, IsMonitor, fits_block, fits_result};
ghost use Rattle.lang_monitor.specs.Bodies.{overflows_in, after, block_result};
ghost use Rattle.machine_implicit.specs.Steps.{start_of, guard_truth, condition_truth, reply_of};
ghost use Rattle.machine_implicit.specs.Steps.{given, held, FitsState, FitsBlock, ReadsNoInputs};
ghost use Rattle.machine_implicit.specs.Steps.{IsBlockStep, SameKinds};
ghost use Rattle.machine_implicit.specs.inner.Held.{held_places, is_short_in, reply_in, AreFew};
ghost use Rattle.machine_implicit.specs.inner.Placed.{IsPlaced};

use super::commit::Reply;
use super::evaluate::{formula_truth, is_true};
use super::locals::Locals;
use super::run::{Overflow, form_value, run_alone, run_statements};
use super::state::State;
use lang_base::Value;
use lang_monitor::{Block, Method, Monitor, Ret, Stmt};

/// The state at the start: each field has its start value. It takes no memory.
pub fn start(monitor: &Monitor) -> State
    ensures start { result ≡ start_of monitor.now }
    ensures fits { FitsState monitor.now result }
{
    let mut state = State::empty();
    for field in monitor.fields() {
        state.push(field.start);
    }
    state
}

/// The locals of a method at the start of a call. `method` is a method's number. It takes no
/// memory.
pub fn start_locals(monitor: &Monitor, method: u32) -> Locals
    requires { method < length monitor.now.methods }
    ensures { result ≡ locals_in (slice_get monitor.now.methods method) }
{
    let mut locals = Locals::empty();
    restart_locals(monitor, method, &mut locals);
    locals
}

/// The locals of a method at the start of a call, in place of those of the call before.
pub fn restart_locals(monitor: &Monitor, method: u32, locals: &mut Locals)
    requires { method < length monitor.now.methods }
    ensures { locals.new ≡ locals_in (slice_get monitor.now.methods method) }
{
    let method = method_of(monitor, method);
    locals.clear();
    for value in method.locals.items() {
        locals.push(*value);
    }
}

/// The method of this number.
pub fn method_of(monitor: &Monitor, method: u32) -> &Method
    requires { method < length monitor.now.methods }
    ensures method { slice_get monitor.now.methods method ≡ Some result.now }
    ensures few { length result.now.locals ≤ LOCALS }
    ensures rule { IsMonitor monitor.now }
{
    &monitor.methods()[method as usize]
}

/// Whether the guard of a block holds in a state, at the arguments and the locals of a call.
/// `block` is a block's number.
pub fn guard_holds(
    monitor: &Monitor,
    state: &State,
    block: u32,
    inputs: &[Value],
    locals: &Locals,
) -> bool
    requires state { FitsState monitor.now state.now }
    requires inputs { FitsBlock monitor.now block (given inputs.now locals.now) }
    ensures { result ≡ guard_truth monitor.now state.now block (given inputs.now locals.now) }
{
    is_true(
        &block_of(monitor, block).guard,
        state.values(),
        inputs,
        locals.values(),
    )
}

/// Whether the guard of a condition that reads no inputs holds in a state of the monitor.
/// `condition` is a condition's number, from 1.
pub fn condition_holds(monitor: &Monitor, state: &State, condition: u32) -> bool
    requires state { FitsState monitor.now state.now }
    requires range { 1 ≤ condition }
    requires alone { ReadsNoInputs (slice_get monitor.now.conditions (condition - 1)) }
    ensures { result ≡ condition_truth monitor.now state.now condition }
{
    let guard = &monitor.conditions()[condition as usize - 1].guard;
    formula_truth(guard, state.values(), &[], &[])
}

/// The block of this number.
fn block_of(monitor: &Monitor, block: u32) -> &Block
    requires { block < length monitor.now.blocks }
    ensures block { slice_get monitor.now.blocks block ≡ Some result.now }
    ensures placed { IsPlaced monitor.now result.now }
{
    &monitor.blocks()[block as usize]
}

/// Makes the step of a block whose guard holds, and answers its reply. The body's statements run
/// one after the other, and the reply is the result after them; where a value that one assigns, or
/// the result, leaves 64 bits, the reply is [`Reply::Overflow`], and the state and the locals stay.
/// It takes no memory.
pub fn run_block(
    monitor: &Monitor,
    state: &mut State,
    block: u32,
    inputs: &[Value],
    locals: &mut Locals,
) -> Reply
    requires state { FitsState monitor.now state.old }
    requires inputs { FitsBlock monitor.now block (given inputs.now locals.old) }
    requires guard { guard_truth monitor.now state.old block (given inputs.now locals.old) ≡ true }
    ensures step { IsBlockStep monitor.now block (given inputs.now locals.old) state.old result
        (held state.new locals.new) }
    ensures fits { FitsState monitor.now state.new }
    ensures kinds { SameKinds (held state.old locals.old) (held state.new locals.new) }
{
    let block = block_of(monitor, block);
    match run_kept(block, inputs, state, locals) {
        Ok(reply) => reply,
        Err(Overflow) => Reply::Overflow,
    }
}

/// Runs the body of a block, and answers the result as a reply. Where a value leaves 64 bits, the
/// state and the locals stay.
fn run_kept(
    block: &Block,
    inputs: &[Value],
    state: &mut State,
    locals: &mut Locals,
) -> Result<Reply, Overflow>
    requires few { AreFew state.old (given inputs.now locals.old) }
    requires fits { IsTrue (fits_block
        (held_places state.old (given inputs.now locals.old)) block.now) }
    ensures reply { IfOk result (λ reply.
        reply ≡ reply_of (block_result (given inputs.now locals.old) block.now state.old)) }
    ensures reached { OnOk result
        (held state.new locals.new ≡ after (given inputs.now locals.old) block.now.body state.old) }
    ensures fitted { OnOk result
        (overflows_in (given inputs.now locals.old) block.now state.old ≡ false) }
    ensures overflowed { OnErr result
        (overflows_in (given inputs.now locals.old) block.now state.old ≡ true) }
    ensures stays { OnErr result (held state.new locals.new ≡ held state.old locals.old) }
    ensures kinds { SameKinds (held state.old locals.old) (held state.new locals.new) }
{
    match only_statement(block) {
        Some(statement) => run_only(block, statement, inputs, state, locals),
        None => run_copied(block, inputs, state, locals),
    }
}

/// The statement of a block that has one and no result.
fn only_statement(block: &Block) -> Option<&Stmt>
    ensures body { IfSome result (λ statement. block.now.body ≡ statement.now ∷ []) }
    ensures nothing { IfSome result (λ statement. block.now.result ≡ Ret.Nothing) }
{
    match &block.result {
        Ret::Nothing => match block.body.items() {
            [statement] => Some(statement),
            _ => None,
        },
        _ => None,
    }
}

/// Runs the statement of a block that has one and no result: it needs no copy of the state.
fn run_only(
    block: &Block,
    statement: &Stmt,
    inputs: &[Value],
    state: &mut State,
    locals: &mut Locals,
) -> Result<Reply, Overflow>
    requires few { AreFew state.old (given inputs.now locals.old) }
    requires fits { IsTrue (fits_block
        (held_places state.old (given inputs.now locals.old)) block.now) }
    requires body { block.now.body ≡ statement.now ∷ [] }
    requires nothing { block.now.result ≡ Ret.Nothing }
    ensures reply { IfOk result (λ reply.
        reply ≡ reply_of (block_result (given inputs.now locals.old) block.now state.old)) }
    ensures reached { OnOk result
        (held state.new locals.new ≡ after (given inputs.now locals.old) block.now.body state.old) }
    ensures fitted { OnOk result
        (overflows_in (given inputs.now locals.old) block.now state.old ≡ false) }
    ensures overflowed { OnErr result
        (overflows_in (given inputs.now locals.old) block.now state.old ≡ true) }
    ensures stays { OnErr result (held state.new locals.new ≡ held state.old locals.old) }
    ensures kinds { SameKinds (held state.old locals.old) (held state.new locals.new) }
{
    let _block = block;
    match run_alone(statement, inputs, state, locals) {
        Ok(()) => Ok(Reply::Unit),
        Err(Overflow) => Err(Overflow),
    }
}

/// Runs the body of a block over a copy of what was before.
fn run_copied(
    block: &Block,
    inputs: &[Value],
    state: &mut State,
    locals: &mut Locals,
) -> Result<Reply, Overflow>
    requires few { AreFew state.old (given inputs.now locals.old) }
    requires fits { IsTrue (fits_block
        (held_places state.old (given inputs.now locals.old)) block.now) }
    ensures reply { IfOk result (λ reply.
        reply ≡ reply_of (block_result (given inputs.now locals.old) block.now state.old)) }
    ensures reached { OnOk result
        (held state.new locals.new ≡ after (given inputs.now locals.old) block.now.body state.old) }
    ensures fitted { OnOk result
        (overflows_in (given inputs.now locals.old) block.now state.old ≡ false) }
    ensures overflowed { OnErr result
        (overflows_in (given inputs.now locals.old) block.now state.old ≡ true) }
    ensures stays { OnErr result (held state.new locals.new ≡ held state.old locals.old) }
    ensures kinds { SameKinds (held state.old locals.old) (held state.new locals.new) }
{
    let before = state.duplicate();
    let kept = locals.duplicate();
    match run_whole(block, inputs, state, locals) {
        Ok(reply) => Ok(reply),
        Err(Overflow) => {
            *state = before;
            *locals = kept;
            Err(Overflow)
        }
    }
}

/// Runs the body of a block, and answers the result as a reply.
fn run_whole(
    block: &Block,
    inputs: &[Value],
    state: &mut State,
    locals: &mut Locals,
) -> Result<Reply, Overflow>
    requires few { AreFew state.old (given inputs.now locals.old) }
    requires fits { IsTrue (fits_block
        (held_places state.old (given inputs.now locals.old)) block.now) }
    ensures reply { IfOk result (λ reply.
        reply ≡ reply_of (block_result (given inputs.now locals.old) block.now state.old)) }
    ensures reached { OnOk result
        (held state.new locals.new ≡ after (given inputs.now locals.old) block.now.body state.old) }
    ensures fitted { OnOk result
        (overflows_in (given inputs.now locals.old) block.now state.old ≡ false) }
    ensures overflowed { OnErr result
        (overflows_in (given inputs.now locals.old) block.now state.old ≡ true) }
    ensures kinds { SameKinds (held state.old locals.old) (held state.new locals.new) }
{
    run_statements(block.body.items(), inputs, state, locals)?;
    result_reply(&block.result, state.values(), inputs, locals.values())
}

/// A result as a reply, where its number has 64 bits.
fn result_reply(
    answer: &Ret,
    state: &[Value],
    inputs: &[Value],
    locals: &[Value],
) -> Result<Reply, Overflow>
    requires few { AreFew state.now (given inputs.now locals.now) }
    requires fits { IsTrue (fits_result
        (held_places state.now (given inputs.now locals.now)) answer.now) }
    ensures reply { IfOk result (λ reply.
        reply ≡ reply_in state.now (given inputs.now locals.now) answer.now) }
    ensures fitted { OnOk result
        (is_short_in state.now (given inputs.now locals.now) answer.now ≡ true) }
    ensures overflowed { OnErr result
        (is_short_in state.now (given inputs.now locals.now) answer.now ≡ false) }
{
    match answer {
        Ret::Nothing => Ok(Reply::Unit),
        Ret::Int(form) => Ok(Reply::Int(form_value(form, state, inputs, locals)?)),
        Ret::Bool(formula) => Ok(Reply::Bool(formula_truth(formula, state, inputs, locals))),
    }
}
