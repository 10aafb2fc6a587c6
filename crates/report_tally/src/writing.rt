//! The text of a counted report.

ghost use Rattle.std.specs.Prelude.{◌≡◌, ◌≤◌, ◌++◌, All, codes, length};
ghost use Rattle.std.specs.List.{enumerate_from, flat_map};
ghost use Rattle.lang_base.specs.Limits.{BLOCKS, CONDITIONS};
ghost use Rattle.base_io.specs.Writing.{Wrote};
ghost use Rattle.base_pen.specs.Putting.{Adds};
ghost use Rattle.plan_count.specs.declared.question.Question.TheVariants.{First, Gives};
ghost use Rattle.plan_counted.specs.Counted.{AreBacked, column_at};
ghost use Rattle.report_questions.specs.QuestionText.{question_text};
ghost use Rattle.report_tally.specs.CountedReports.{answer_text};
ghost use Rattle.report_tally.specs.CountedTexts.{column_text, columns_text, counted_text};
ghost use Rattle.report_tally.specs.CountedTexts.{has_column, is_still_owed, is_note, is_noted};
ghost use Rattle.report_tally.specs.CountedTexts.{still_owed_text, told_text};
ghost use Rattle.report_tally.specs.inner.Lines.{IsShortColumn};

use super::owed::{counts_question, first_question, gives_question};
use base_io::{Sink, SinkFailed};
use base_pen::Pen;
use lang_monitor::{Claim, Monitor};
use logic_cert::Cert;
use plan_claims::{PlacedPlan, Proof};
use plan_count::Question;
use plan_counted::{Column, CountedPlan, Told};
use report_proofs::{put_cert, put_plan, put_proof};
use report_questions::put_question;

/// Writes the report of a plan that was placed and then counted: the text of the counted plan, then
/// a line for each proof of the placed one on whose claim the counted one rests too, and then one
/// for each certificate of what blocks have on counted conditions. It takes no memory.
///
/// After `SinkFailed` the first bytes of the text were taken, fewer than all and maybe none.
pub fn write_counted_report<S: Sink>(
    monitor: &Monitor,
    placed: &PlacedPlan,
    counted: &CountedPlan,
    out: &mut S,
) -> Result<(), SinkFailed>
    requires { AreBacked monitor.now placed.now.plan counted.now.columns }
    ensures { Wrote (S.seen out.old) (S.seen out.new) result
        (counted_text monitor.now placed.now counted.now) }
{
    let mut pen = Pen::new(out);
    put_counted_report(monitor, placed, counted, &mut pen);
    pen.outcome
}

fn put_counted_report<S: Sink>(
    monitor: &Monitor,
    placed: &PlacedPlan,
    counted: &CountedPlan,
    pen: &mut Pen<'_, S>,
)
    requires { AreBacked monitor.now placed.now.plan counted.now.columns }
    ensures { Adds S.seen pen.old pen.new (counted_text monitor.now placed.now counted.now) }
{
    let _blocks = monitor.blocks();
    let columns = counted.columns.items();
    put_plan(monitor, &counted.plan, pen);
    put_still_owed(monitor, columns, placed.proofs.items(), pen);
    put_columns(monitor, columns, pen);
}

/// A line for each proof on whose claim the counted plan rests.
fn put_still_owed<S: Sink>(
    monitor: &Monitor,
    columns: &[Option<Column>],
    proofs: &[Proof],
    pen: &mut Pen<'_, S>,
)
    ensures { Adds S.seen pen.old pen.new
        (flat_map (still_owed_text monitor.now columns.now) proofs.now) }
{
    for proof in proofs {
        put_if_still_owed(monitor, columns, proof, pen);
    }
}

/// The line of a proof, where the counted plan rests on its claim.
#[tactic(auto, using(base_pen::proofs::Putting::adds_nothing))]
fn put_if_still_owed<S: Sink>(
    monitor: &Monitor,
    columns: &[Option<Column>],
    proof: &Proof,
    pen: &mut Pen<'_, S>,
)
    ensures { Adds S.seen pen.old pen.new
        (still_owed_text monitor.now columns.now proof.now) }
{
    if is_still_owed(columns, proof.claim) {
        put_proof(monitor, proof.claim, &proof.cert, pen);
    }
}

/// Whether the counted plan rests on the claim, where the placed one does.
fn is_still_owed(columns: &[Option<Column>], claim: Claim) -> bool
    ensures { result ≡ is_still_owed columns.now claim }
{
    match claim {
        Claim::Keeps { .. } => true,
        Claim::NoNote { block, condition } => !is_noted_at(columns, condition, block),
        Claim::One { condition, .. } => !has_column_at(columns, condition),
        Claim::NoTest { .. } => true,
    }
}

/// Whether the condition is counted, and the block has a note on it.
fn is_noted_at(columns: &[Option<Column>], condition: u32, block: u32) -> bool
    ensures { result ≡ is_noted (column_at columns.now condition) block }
{
    match columns.get(condition.saturating_sub(1) as usize) {
        Some(column) => is_noted(column, block),
        None => false,
    }
}

fn is_noted(column: &Option<Column>, block: u32) -> bool
    ensures { result ≡ is_noted column.now block }
{
    match column {
        None => false,
        Some(column) => match column.told.items().get(block as usize) {
            None => false,
            Some(told) => is_note(told),
        },
    }
}

fn is_note(told: &Told) -> bool
    ensures { result ≡ is_note told.now }
{
    match told {
        Told::Nothing { .. } => false,
        Told::Signal { .. } => true,
        Told::Broadcast => true,
    }
}

/// Whether the condition is counted.
fn has_column_at(columns: &[Option<Column>], condition: u32) -> bool
    ensures { result ≡ has_column (column_at columns.now condition) }
{
    match columns.get(condition.saturating_sub(1) as usize) {
        Some(column) => has_column(column),
        None => false,
    }
}

fn has_column(column: &Option<Column>) -> bool
    ensures { result ≡ has_column column.now }
{
    match column {
        None => false,
        Some(_) => true,
    }
}

// ---- the lines of questions

/// A line for each certificate of what blocks have on counted conditions.
fn put_columns<S: Sink>(monitor: &Monitor, columns: &[Option<Column>], pen: &mut Pen<'_, S>)
    requires few { length columns.now ≤ CONDITIONS }
    requires short { All IsShortColumn columns.now }
    ensures { Adds S.seen pen.old pen.new
        (columns_text monitor.now columns.now) }
{
    for index in 0..columns.len() {
        put_column(monitor, index as u32 + 1, &columns[index], pen);
    }
}

/// Those on a condition.
fn put_column<S: Sink>(
    monitor: &Monitor,
    condition: u32,
    column: &Option<Column>,
    pen: &mut Pen<'_, S>,
)
    requires { IsShortColumn column.now }
    ensures { Adds S.seen pen.old pen.new
        (column_text monitor.now condition column.now) }
{
    match column {
        None => pen.put(b""),
        Some(column) => put_each(monitor, condition, column.row, column.told.items(), pen),
    }
}

/// Those of what each block has on a condition.
fn put_each<S: Sink>(
    monitor: &Monitor,
    condition: u32,
    row: u32,
    column: &[Told],
    pen: &mut Pen<'_, S>,
)
    requires { length column.now ≤ BLOCKS }
    ensures { Adds S.seen pen.old pen.new
        (flat_map (λ one. told_text monitor.now condition row one.0 one.1)
        (enumerate_from 0 column.now)) }
{
    for index in 0..column.len() {
        put_told(monitor, condition, row, index as u32, &column[index], pen);
    }
}

/// Those of what a block has on a condition.
fn put_told<S: Sink>(
    monitor: &Monitor,
    condition: u32,
    row: u32,
    block: u32,
    told: &Told,
    pen: &mut Pen<'_, S>,
)
    ensures { Adds S.seen pen.old pen.new
        (told_text monitor.now condition row block told.now) }
{
    match told {
        Told::Nothing { counts } => {
            put_answer(monitor, counts_question(condition, row, block), counts, pen)
        }
        Told::Signal { gives, first } => {
            put_signal(monitor, condition, row, block, gives, first, pen)
        }
        Told::Broadcast => pen.put(b""),
    }
}

/// Both lines of a signal.
fn put_signal<S: Sink>(
    monitor: &Monitor,
    condition: u32,
    row: u32,
    block: u32,
    gives: &Cert,
    first: &Cert,
    pen: &mut Pen<'_, S>,
)
    ensures { Adds S.seen pen.old pen.new
        (answer_text monitor.now (Gives condition row block) gives.now
        ++ answer_text monitor.now (First condition row block) first.now) }
{
    put_answer(monitor, gives_question(condition, row, block), gives, pen);
    put_answer(monitor, first_question(condition, row, block), first, pen);
}

/// `proof counts 2 put: clash 0 1` and a line feed.
#[tactic(auto, using(base_pen::proofs::Putting::adds_three))]
fn put_answer<S: Sink>(monitor: &Monitor, question: Question, cert: &Cert, pen: &mut Pen<'_, S>)
    ensures { Adds S.seen pen.old pen.new
        (answer_text monitor.now question cert.now) }
{
    put_answer_head(monitor, question, pen);
    put_cert(cert, pen);
    pen.put(b"\n");
}

/// `proof counts 2 put: `
#[tactic(auto, using(base_pen::proofs::Putting::adds_three))]
pub(crate) fn put_answer_head<S: Sink>(monitor: &Monitor, question: Question, pen: &mut Pen<'_, S>)
    ensures { Adds S.seen pen.old pen.new
        (codes "proof " ++ question_text monitor.now question ++ codes ": ") }
{
    pen.put(b"proof ");
    put_question(monitor, question, pen);
    pen.put(b": ");
}
