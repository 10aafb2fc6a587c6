//! The line of a finding.

ghost use Rattle.std.specs.Prelude.{◌++◌, codes, decimal};
ghost use Rattle.base_io.specs.Writing.{Wrote};
ghost use Rattle.base_pen.specs.Putting.{Adds};
ghost use Rattle.report_questions.specs.QuestionText.{question_text};
ghost use Rattle.report_audit.specs.FindingText.{finding_text, kept_name};
ghost use Rattle.report_proofs.specs.ReportTexts.{claim_text};

use super::finding::Finding;
use base_io::{Sink, SinkFailed};
use base_pen::Pen;
use lang_monitor::{Claim, Monitor};
use machine_events::Plan;
use plan_count::Question;
use report_proofs::{put_candidate, put_claim};
use report_questions::put_question;

/// Writes the line of a finding: `lawful`, `unlawful: keep x <= 4 at the start`,
/// `unlawful: condition 2`, `unproved: none put 2` or `unproved: counts 2 put`. It takes no memory.
///
/// After `SinkFailed` the first bytes of the line were taken, fewer than all and maybe none.
pub fn write_finding<S: Sink>(
    monitor: &Monitor,
    plan: &Plan,
    finding: &Finding,
    out: &mut S,
) -> Result<(), SinkFailed>
    ensures { Wrote (S.seen out.old) (S.seen out.new) result
        (finding_text monitor.now plan.now finding.now) }
{
    let mut pen = Pen::new(out);
    put_finding(monitor, plan, finding, &mut pen);
    pen.outcome
}

fn put_finding<S: Sink>(monitor: &Monitor, plan: &Plan, finding: &Finding, pen: &mut Pen<'_, S>)
    ensures { Adds S.seen pen.old pen.new (finding_text monitor.now plan.now finding.now) }
{
    match *finding {
        Finding::Lawful => pen.put(b"lawful\n"),
        Finding::Start { kept } => put_start(monitor, plan, kept, pen),
        Finding::Kind { condition } => put_kind(condition, pen),
        Finding::Unproved { claim } => put_unproved(monitor, claim, pen),
        Finding::Uncounted { question } => put_uncounted(monitor, question, pen),
    }
}

/// `unlawful: keep x <= 4 at the start` and a line feed.
#[tactic(auto, using(base_pen::proofs::Putting::adds_three))]
fn put_start<S: Sink>(monitor: &Monitor, plan: &Plan, kept: u32, pen: &mut Pen<'_, S>)
    ensures { Adds S.seen pen.old pen.new
        (codes "unlawful: keep " ++ kept_name monitor.now plan.now kept
        ++ codes " at the start\n") }
{
    pen.put(b"unlawful: keep ");
    put_kept(monitor, plan, kept, pen);
    pen.put(b" at the start\n");
}

/// The kept candidate at this place, and nothing where there is none.
fn put_kept<S: Sink>(monitor: &Monitor, plan: &Plan, kept: u32, pen: &mut Pen<'_, S>)
    ensures { Adds S.seen pen.old pen.new (kept_name monitor.now plan.now kept) }
{
    match plan.kept.items().get(kept as usize) {
        Some(candidate) => put_candidate(monitor, *candidate, pen),
        None => pen.put(b""),
    }
}

/// `unlawful: condition 2` and a line feed.
#[tactic(auto, using(base_pen::proofs::Putting::adds_three))]
fn put_kind<S: Sink>(condition: u32, pen: &mut Pen<'_, S>)
    ensures { Adds S.seen pen.old pen.new
        (codes "unlawful: condition " ++ decimal condition ++ codes "\n") }
{
    pen.put(b"unlawful: condition ");
    pen.decimal(condition as u64);
    pen.put(b"\n");
}

/// `unproved: none put 2` and a line feed.
#[tactic(auto, using(base_pen::proofs::Putting::adds_three))]
fn put_unproved<S: Sink>(monitor: &Monitor, claim: Claim, pen: &mut Pen<'_, S>)
    ensures { Adds S.seen pen.old pen.new
        (codes "unproved: " ++ claim_text monitor.now claim ++ codes "\n") }
{
    pen.put(b"unproved: ");
    put_claim(monitor, claim, pen);
    pen.put(b"\n");
}

/// `unproved: counts 2 put` and a line feed.
#[tactic(auto, using(base_pen::proofs::Putting::adds_three))]
fn put_uncounted<S: Sink>(monitor: &Monitor, question: Question, pen: &mut Pen<'_, S>)
    ensures { Adds S.seen pen.old pen.new
        (codes "unproved: " ++ question_text monitor.now question ++ codes "\n") }
{
    pen.put(b"unproved: ");
    put_question(monitor, question, pen);
    pen.put(b"\n");
}
