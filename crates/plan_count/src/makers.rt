//! The query of each question.

ghost use Rattle.std.specs.Prelude.{◌≡◌, ◌<◌, ◌++◌, ◌∷◌, [], pos, IfOk, IsTrue, true, length};
ghost use Rattle.std.specs.List.{list_all};
ghost use Rattle.lang_base.specs.Numbers.{is_within};
ghost use Rattle.logic_linear.specs.Negation.{can_negate};
ghost use Rattle.logic_linear.specs.declared.formula.Formula.TheVariants as formulas;
ghost use Rattle.machine_events.specs.CountClaims.{net};
ghost use Rattle.logic_wp.specs.Expressible.{is_expressible};
ghost use Rattle.plan_count.specs.Questions.{MayAskQuestion, MayBeAsked, question_query};
ghost use Rattle.plan_count.specs.Questions.{first_query, leaves_query, takes_at};
ghost use Rattle.plan_count.specs.inner.Rows.{IsCountable, IsMeasured};
ghost use Rattle.plan_count.specs.inner.Rows.{fresh_post, still_post, tied};

use super::forms::{less_old, old_less, turned};
use super::measures::{row_form, without_row};
use super::question::Question;
use base_list::Seq;
use lang_monitor::{Candidate, Monitor, Query};
use logic_linear::{Formula, Lin, copy_formula, negate};
use logic_wp::{guard_without_inputs_stays, keeps, no_test, none_needed};
use std::alloc::{AllocError, Global};

/// What the queries on a condition, whose guard reads no inputs, and a block are made of.
#[derive(Drop)]
struct Measured {
    /// The kept candidates, and the block's guard.
    hyps: Vec<Formula>,
    /// These, and that the condition's guard is false.
    idle: Vec<Formula>,
    /// The condition's guard.
    guard: Formula,
    /// That the condition's guard is false.
    shut: Formula,
    /// By how much more clients may pass it is below 0.
    form: Lin,
    /// That not any number of clients may pass.
    bounded: Formula,
}

fn parts_of(
    alloc: Global,
    monitor: &Monitor,
    kept: &[Candidate],
    condition: u32,
    row: u32,
    block: u32,
) -> Result<Measured, AllocError>
    requires kept { list_all is_expressible kept.now ≡ true }
    requires may { MayBeAsked monitor.now condition row block }
    ensures { IfOk result (λ it. IsMeasured monitor.now kept.now condition row block
        it.hyps.items it.idle.items it.guard it.shut it.form it.bounded) }
{
    let _conditions = monitor.conditions();
    guard_without_inputs_stays(); // a client that waits has the condition's own guard
    // The hypotheses are these whatever the candidate is.
    let some = Candidate::Flag { field: 0, is: true };
    let Query {
        hyps,
        block: _,
        post: _,
    } = keeps(alloc, monitor, kept, some, block)?;
    let Query {
        hyps: idle,
        block: _,
        post: shut,
    } = none_needed(alloc, monitor, kept, block, condition)?;
    let Query {
        hyps: _,
        block: _,
        post: guard,
    } = no_test(alloc, monitor, kept, block, condition)?;
    let form = row_form(alloc, &guard, row)?;
    let free = without_row(alloc, &guard, row)?;
    Ok(Measured {
        hyps: hyps.into_items(),
        idle: idle.into_items(),
        guard,
        shut,
        form,
        bounded: negate(alloc, &free)?,
    })
}

/// Whether the monitor has this block, and it waits at the condition.
fn takes_at(monitor: &Monitor, condition: u32, block: u32) -> bool
    ensures { result ≡ takes_at monitor.now condition block }
{
    match monitor.blocks().get(block as usize) {
        Some(held) => held.condition == condition,
        None => false,
    }
}

/// What a block takes, less what it gives.
fn net(takes: bool, gives: bool) -> i128
    ensures net { result ≡ net takes gives }
    ensures small { is_within 1 result ≡ true }
{
    match (takes, gives) {
        (true, false) => 1,
        (false, true) => -1,
        (true, true) => 0,
        (false, false) => 0,
    }
}

/// The hypotheses and that the condition's guard is true, not any number may pass, and the form is
/// what it was.
fn tied(
    alloc: Global,
    hyps: Vec<Formula>,
    guard: Formula,
    bounded: Formula,
    form: &Lin,
) -> Result<Vec<Formula>, AllocError>
    requires { IsCountable form.now }
    ensures { IfOk result (λ all. all.items ≡ hyps.items ++ tied guard bounded form.now) }
{
    let mut all = hyps;
    all.push(guard)?;
    all.push(bounded)?;
    all.push(Formula::Row(less_old(alloc, form)?))?;
    all.push(Formula::Row(old_less(alloc, form, 0)?))?;
    Ok(all)
}

/// That the condition's guard is false, or all of these are true.
fn shut_or(alloc: Global, shut: Formula, parts: Vec<Formula>) -> Result<Formula, AllocError>
    ensures { IfOk result (λ made. made ≡ formulas.Any (shut ∷ formulas.All parts.items ∷ [])) }
{
    let mut either = Vec::new(alloc);
    either.push(shut)?;
    either.push(Formula::All(Seq::of(parts)))?;
    Ok(Formula::Any(Seq::of(either)))
}

/// That the form is at most 0, and has fallen by no more than this, less than 0.
fn still_post(
    alloc: Global,
    shut: Formula,
    bounded: Formula,
    form: &Lin,
    net: i128,
) -> Result<Formula, AllocError>
    requires form { IsCountable form.now }
    requires net { is_within 1 net ≡ true }
    ensures { IfOk result (λ made. made ≡ still_post shut bounded form.now net) }
{
    let fallen = old_less(alloc, form, net)?;
    let mut parts = Vec::new(alloc);
    parts.push(bounded)?;
    parts.push(Formula::Row(form.clone()?))?;
    parts.push(Formula::Row(fallen))?;
    shut_or(alloc, shut, parts)
}

/// That the form is at least 0.
fn fresh_post(
    alloc: Global,
    shut: Formula,
    bounded: Formula,
    form: &Lin,
) -> Result<Formula, AllocError>
    requires form { IsCountable form.now }
    ensures { IfOk result (λ made. made ≡ fresh_post shut bounded form.now) }
{
    let mut parts = Vec::new(alloc);
    parts.push(bounded)?;
    parts.push(Formula::Row(turned(alloc, form)?))?;
    shut_or(alloc, shut, parts)
}

/// Whether the block leaves the condition counted, with one signal on it or with no note.
fn leaves(
    alloc: Global,
    monitor: &Monitor,
    kept: &[Candidate],
    condition: u32,
    row: u32,
    block: u32,
    gives: bool,
) -> Result<Query, AllocError>
    requires kept { list_all is_expressible kept.now ≡ true }
    requires may { MayBeAsked monitor.now condition row block }
    ensures made { IfOk result (λ it.
        it ≡ leaves_query monitor.now kept.now condition row block gives) }
    ensures post { IfOk result (λ it. IsTrue (can_negate it.post)) }
{
    let Measured {
        hyps,
        idle: _,
        guard,
        shut,
        form,
        bounded,
    } = parts_of(alloc, monitor, kept, condition, row, block)?;
    let copy = copy_formula(alloc, &bounded)?;
    let hyps = tied(alloc, hyps, guard, copy, &form)?;
    let net = net(takes_at(monitor, condition, block), gives);
    let post = still_post(alloc, shut, bounded, &form, net)?;
    Ok(Query {
        hyps: Seq::of(hyps),
        block,
        post,
    })
}

/// Whether at most one client may pass after the block, where none could before.
fn first(
    alloc: Global,
    monitor: &Monitor,
    kept: &[Candidate],
    condition: u32,
    row: u32,
    block: u32,
) -> Result<Query, AllocError>
    requires kept { list_all is_expressible kept.now ≡ true }
    requires may { MayBeAsked monitor.now condition row block }
    ensures made { IfOk result (λ it. it ≡
        first_query monitor.now kept.now condition row block) }
    ensures post { IfOk result (λ it. IsTrue (can_negate it.post)) }
{
    let Measured {
        hyps: _,
        idle,
        guard: _,
        shut,
        form,
        bounded,
    } = parts_of(alloc, monitor, kept, condition, row, block)?;
    let post = fresh_post(alloc, shut, bounded, &form)?;
    Ok(Query {
        hyps: Seq::of(idle),
        block,
        post,
    })
}

/// The query of the question under the kept candidates (`specs/Questions`). It fails only for want
/// of memory.
pub fn question_query(
    alloc: Global,
    monitor: &Monitor,
    kept: &[Candidate],
    question: Question,
) -> Result<Query, AllocError>
    requires kept { list_all is_expressible kept.now ≡ true }
    requires question { MayAskQuestion monitor.now question }
    ensures made { IfOk result (λ query. query ≡ question_query monitor.now kept.now question) }
    ensures block { IfOk result (λ query. query.block < length monitor.now.blocks) }
    ensures post { IfOk result (λ query. IsTrue (can_negate query.post)) }
{
    match question {
        Question::Counts {
            condition,
            row,
            block,
        } => leaves(alloc, monitor, kept, condition, row, block, false),
        Question::Gives {
            condition,
            row,
            block,
        } => leaves(alloc, monitor, kept, condition, row, block, true),
        Question::First {
            condition,
            row,
            block,
        } => first(alloc, monitor, kept, condition, row, block),
    }
}
