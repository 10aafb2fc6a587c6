//! The lines of questions, read.

ghost use Rattle.std.specs.Prelude.{◌≡◌, ◌≤◌, ◌-◌, ◌++◌, Some, IfOk, List, MatchOption, codes};
ghost use Rattle.std.specs.Prelude.{is_some, length, map, slice_get, true};
ghost use Rattle.lang_base.specs.Limits.{CONDITIONS};
ghost use Rattle.logic_cert.specs.declared.cert.Cert.{Cert};
ghost use Rattle.logic_wp.specs.PlainClaims.{ReadsNone};
ghost use Rattle.plan_count.specs.Questions.{HasRowAt};
ghost use Rattle.machine_events.specs.declared.plan.CondKind.TheVariants.{Signal};
ghost use Rattle.report_questions.specs.QuestionText.{question_text};
ghost use Rattle.report_proofs.specs.Fronts.{Anything, AreFor, IsAfter, IsFront, IsNoFront};
ghost use Rattle.report_proofs.specs.Readings.{IsReadable};
ghost use Rattle.report_tally.specs.CountedReports.{answer_text, answers_text};
ghost use Rattle.report_tally.specs.inner.Lines.{AreRead, AreSignals, IsConditionFront, IsNamedRow};
ghost use Rattle.report_tally.specs.inner.Lines.{IsNoConditionFront, IsNoRestFront, IsShownRow};
ghost use Rattle.report_tally.specs.inner.Lines.{answers_with, by_row};

use super::owed::push_blocks;
use super::writing::put_answer_head;
use base_io::GrowingSink;
use base_pen::Pen;
use lang_monitor::Monitor;
use logic_outline::Outline;
use machine_events::Plan;
use plan_claims::reads_none;
use plan_count::{Question, has_row};
use report_proofs::{after_piece, read_cert_line};
use std::alloc::{AllocError, Global};

/// By which row each condition is counted, if it is, and a certificate for each question.
#[derive(Drop)]
pub(crate) struct Answered {
    pub(crate) counted: Vec<Option<u32>>,
    pub(crate) answers: Vec<Outline>,
}

/// What the lines say that stand at the front of the bytes, of the questions on each condition that
/// is marked, and what is left.
pub(crate) fn read_conditions<'a>(
    alloc: Global,
    monitor: &Monitor,
    plan: &Plan,
    marked: &[Option<u32>],
    bytes: &'a [u8],
) -> Result<Option<(Answered, &'a [u8])>, AllocError>
    requires few { length marked.now ≤ CONDITIONS }
    requires are { AreSignals plan.now marked.now }
    ensures { IfOk result (λ found. MatchOption found
        (IsNoRestFront monitor.now plan.now 1 (map is_some marked.now) bytes.now)
        (λ read. AreRead monitor.now plan.now (map is_some marked.now) bytes.now
        read.0.counted.items read.0.answers.items read.1.now)) }
{
    let mut counted = Vec::new(alloc);
    let mut answers = Vec::new(alloc);
    let mut rest = bytes;
    for index in 0..marked.len() {
        match read_condition(alloc, monitor, plan, index as u32 + 1, marked[index], rest)? {
            Some((row, certs, left)) => {
                counted.push(row)?;
                let mut more = certs;
                answers.append(&mut more)?;
                rest = left;
            }
            None => return Ok(None),
        }
    }
    Ok(Some((Answered { counted, answers }, rest)))
}

/// What they say of one condition: the row by which it is counted, if it is, and the certificates.
fn read_condition<'a>(
    alloc: Global,
    monitor: &Monitor,
    plan: &Plan,
    condition: u32,
    marked: Option<u32>,
    bytes: &'a [u8],
) -> Result<Option<(Option<u32>, Vec<Outline>, &'a [u8])>, AllocError>
    requires first { 1 ≤ condition }
    requires kind { is_some marked ≡ true
        → slice_get plan.now.kinds (condition - 1) ≡ Some Signal }
    ensures { IfOk result (λ found. MatchOption found
        (IsNoConditionFront monitor.now plan.now condition (is_some marked) bytes.now)
        (λ read. IsConditionFront monitor.now plan.now condition (is_some marked) bytes.now
        (answers_with read.0 read.1.items) read.2.now)) }
{
    match marked {
        None => Ok(Some((None, Vec::new(alloc), bytes))),
        Some(_) => read_counted(alloc, monitor, plan, condition, bytes),
    }
}

/// What they say of one that is counted.
fn read_counted<'a>(
    alloc: Global,
    monitor: &Monitor,
    plan: &Plan,
    condition: u32,
    bytes: &'a [u8],
) -> Result<Option<(Option<u32>, Vec<Outline>, &'a [u8])>, AllocError>
    requires first { 1 ≤ condition }
    requires kind { slice_get plan.now.kinds (condition - 1) ≡ Some Signal }
    ensures { IfOk result (λ found. MatchOption found
        (IsNoConditionFront monitor.now plan.now condition true bytes.now)
        (λ read. IsConditionFront monitor.now plan.now condition true bytes.now
        (answers_with read.0 read.1.items) read.2.now)) }
{
    match shown_row(alloc, monitor, plan, condition, bytes)? {
        Some(row) => read_by_row(alloc, monitor, plan, condition, row, bytes),
        None => Ok(None),
    }
}

/// What they say of one that is counted by this row.
fn read_by_row<'a>(
    alloc: Global,
    monitor: &Monitor,
    plan: &Plan,
    condition: u32,
    row: u32,
    bytes: &'a [u8],
) -> Result<Option<(Option<u32>, Vec<Outline>, &'a [u8])>, AllocError>
    requires { IsShownRow monitor.now plan.now condition bytes.now (Some row) }
    ensures { IfOk result (λ found. MatchOption found
        (IsNoConditionFront monitor.now plan.now condition true bytes.now)
        (λ read. IsConditionFront monitor.now plan.now condition true bytes.now
        (answers_with read.0 read.1.items) read.2.now)) }
{
    let mut questions = Vec::new(alloc);
    push_blocks(&mut questions, monitor, plan, condition, row)?;
    match read_answers(alloc, monitor, &questions, bytes)? {
        Some((answers, rest)) => Ok(Some((Some(row), answers, rest))),
        None => Ok(None),
    }
}

// ---- by which row a condition is counted

/// The row by which the condition, of kind signal, is counted where the lines of its questions
/// stand at the front of the bytes, or none.
fn shown_row(
    alloc: Global,
    monitor: &Monitor,
    plan: &Plan,
    condition: u32,
    bytes: &[u8],
) -> Result<Option<u32>, AllocError>
    requires first { 1 ≤ condition }
    requires kind { slice_get plan.now.kinds (condition - 1) ≡ Some Signal }
    ensures { IfOk result (IsShownRow monitor.now plan.now condition bytes.now) }
{
    if !reads_none(monitor, condition) {
        return Ok(None);
    }
    let mut questions = Vec::new(alloc);
    push_blocks(&mut questions, monitor, plan, condition, 1)?;
    match first_of(&questions) {
        None => Ok(unnamed_row(monitor, condition)),
        Some(question) => named_row(alloc, monitor, condition, question, bytes),
    }
}

fn first_of(questions: &[Question]) -> Option<Question>
    ensures { result ≡ slice_get questions.now 0 }
{
    match questions.get(0) {
        Some(question) => Some(*question),
        None => None,
    }
}

/// The first row of the condition's guard, if it has one.
fn unnamed_row(monitor: &Monitor, condition: u32) -> Option<u32>
    requires { ReadsNone monitor.now condition }
    ensures { MatchOption result (HasRowAt monitor.now condition 1 → ⊥)
        (λ row. HasRowAt monitor.now condition 1 × (row ≡ 1)) }
{
    if has_row(monitor, condition, 1) {
        Some(1)
    } else {
        None
    }
}

/// The row of the condition's guard that the question names whose line stands at the front of the
/// bytes, or none.
fn named_row(
    alloc: Global,
    monitor: &Monitor,
    condition: u32,
    question: Question,
    bytes: &[u8],
) -> Result<Option<u32>, AllocError>
    requires { ReadsNone monitor.now condition }
    ensures { IfOk result (IsNamedRow monitor.now condition question bytes.now) }
{
    let _blocks = monitor.blocks();
    for before in 0..u32::MAX {
        let row = before + 1;
        if !has_row(monitor, condition, row) {
            return Ok(None);
        }
        match after_question(alloc, monitor, by_row(row, question), bytes)? {
            None => {}
            Some(_) => return Ok(Some(row)),
        }
    }
    Ok(None)
}

/// The question on the same condition and block by this row.
fn by_row(row: u32, question: Question) -> Question
    ensures { result ≡ by_row row question }
{
    match question {
        Question::Counts {
            condition,
            block,
            ..
        } => Question::Counts {
            condition,
            row,
            block,
        },
        Question::Gives {
            condition,
            block,
            ..
        } => Question::Gives {
            condition,
            row,
            block,
        },
        Question::First {
            condition,
            block,
            ..
        } => Question::First {
            condition,
            row,
            block,
        },
    }
}

// ---- the lines

/// The certificates of the questions whose lines stand at the front of the bytes, and what is left.
fn read_answers<'a>(
    alloc: Global,
    monitor: &Monitor,
    questions: &[Question],
    bytes: &'a [u8],
) -> Result<Option<(Vec<Outline>, &'a [u8])>, AllocError>
    ensures { IfOk result (λ found. MatchOption found
        (IsNoFront (List Cert) (AreFor questions.now IsReadable) Anything
        (answers_text monitor.now questions.now) bytes.now)
        (λ read. IsFront (List Cert) (AreFor questions.now IsReadable) Anything
        (answers_text monitor.now questions.now) bytes.now read.0.items read.1.now)) }
{
    let mut answers = Vec::new(alloc);
    let mut rest = bytes;
    for index in 0..questions.len() {
        match read_answer(alloc, monitor, questions[index], rest)? {
            Some((cert, left)) => {
                answers.push(cert)?;
                rest = left;
            }
            None => return Ok(None),
        }
    }
    Ok(Some((answers, rest)))
}

/// The certificate of the question whose line stands at the front of the bytes, and what is left.
fn read_answer<'a>(
    alloc: Global,
    monitor: &Monitor,
    question: Question,
    bytes: &'a [u8],
) -> Result<Option<(Outline, &'a [u8])>, AllocError>
    ensures { IfOk result (λ found. MatchOption found
        (IsNoFront Cert IsReadable Anything (answer_text monitor.now question) bytes.now)
        (λ read. IsFront Cert IsReadable Anything (answer_text monitor.now question)
        bytes.now read.0 read.1.now)) }
{
    match after_question(alloc, monitor, question, bytes)? {
        Some(rest) => read_cert_line(alloc, rest),
        None => Ok(None),
    }
}

/// What is left after `proof counts 2 put: `.
fn after_question<'a>(
    alloc: Global,
    monitor: &Monitor,
    question: Question,
    bytes: &'a [u8],
) -> Result<Option<&'a [u8]>, AllocError>
    ensures { IfOk result (IsAfter bytes.now
        (codes "proof " ++ question_text monitor.now question ++ codes ": ")) }
{
    let head = answer_head(alloc, monitor, question)?;
    Ok(after_piece(bytes, head.as_slice()))
}

/// What stands in a question's line before the certificate: `proof counts 2 put: `.
fn answer_head(alloc: Global, monitor: &Monitor, question: Question) -> Result<Vec<u8>, AllocError>
    ensures { IfOk result (λ text. text.items
        ≡ codes "proof " ++ question_text monitor.now question ++ codes ": ") }
{
    let mut out = GrowingSink::new(alloc);
    let mut pen = Pen::new(&mut out);
    put_answer_head(monitor, question, &mut pen);
    pen.outcome.map_err(|_| AllocError)?;
    Ok(out.into_bytes())
}
