//! The words of a question.

ghost use Rattle.base_io.specs.Writing.{Wrote};
ghost use Rattle.base_pen.specs.Putting.{Adds};
ghost use Rattle.machine_events.specs.PlanText.{block_name};
ghost use Rattle.report_questions.specs.QuestionText.{asked_text, question_text, row_mark};

use base_io::{Sink, SinkFailed};
use base_pen::Pen;
use lang_monitor::Monitor;
use plan_count::Question;
use report_text::write_block_name;

/// Writes a question, as it stands in its line: `counts 2 put`, `gives 2 put` or `first 2 put`, and
/// of another row than the first `counts 2 (row 3) put`. It takes no memory.
///
/// After `SinkFailed` the first bytes of the text were taken, fewer than all and maybe none.
pub fn write_question<S: Sink>(
    monitor: &Monitor,
    question: Question,
    out: &mut S,
) -> Result<(), SinkFailed>
    ensures { Wrote (S.seen out.old) (S.seen out.new) result
        (question_text monitor.now question) }
{
    let mut pen = Pen::new(out);
    put_question(monitor, question, &mut pen);
    pen.outcome
}

/// Puts a question, as [`write_question`] writes it.
pub fn put_question<S: Sink>(monitor: &Monitor, question: Question, pen: &mut Pen<'_, S>)
    ensures { Adds S.seen pen.old pen.new (question_text monitor.now question) }
{
    match question {
        Question::Counts {
            condition,
            row,
            block,
        } => put_asked(b"counts ", monitor, condition, row, block, pen),
        Question::Gives {
            condition,
            row,
            block,
        } => put_asked(b"gives ", monitor, condition, row, block, pen),
        Question::First {
            condition,
            row,
            block,
        } => put_asked(b"first ", monitor, condition, row, block, pen),
    }
}

/// A word, and then `2 put`, or `2 (row 3) put`.
#[tactic(auto, using(base_pen::proofs::Putting::adds_five))]
fn put_asked<S: Sink>(
    word: &[u8],
    monitor: &Monitor,
    condition: u32,
    row: u32,
    block: u32,
    pen: &mut Pen<'_, S>,
)
    ensures { Adds S.seen pen.old pen.new
        (asked_text monitor.now word.now condition row block) }
{
    pen.put(word);
    pen.decimal(condition as u64);
    pen.put(b" ");
    put_row(row, pen);
    put_block_name(monitor, block, pen);
}

/// `(row 3) `, and nothing for the first row.
#[tactic(auto, using(base_pen::proofs::Putting::adds_nothing, base_pen::proofs::Putting::adds_three))]
fn put_row<S: Sink>(row: u32, pen: &mut Pen<'_, S>)
    ensures { Adds S.seen pen.old pen.new (row_mark row) }
{
    if row == 1 {
        return;
    }
    pen.put(b"(row ");
    pen.decimal(row as u64);
    pen.put(b") ");
}

/// The name of a block.
fn put_block_name<S: Sink>(monitor: &Monitor, block: u32, pen: &mut Pen<'_, S>)
    ensures { Adds S.seen pen.old pen.new (block_name monitor.now block) }
{
    if pen.outcome.is_ok() {
        pen.outcome = write_block_name(monitor, block as usize, pen.out);
    }
}
