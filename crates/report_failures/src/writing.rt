//! The line of a finding, and the one that says why what it names has no certificate.

ghost use Rattle.std.specs.Prelude.{◌≡◌};
ghost use Rattle.base_io.specs.Writing.{Wrote};
ghost use Rattle.report_failures.specs.FailureText.{answer_of, claim_failure_text};
ghost use Rattle.report_failures.specs.FailureText.{failing_finding_text, failure_line};
ghost use Rattle.report_failures.specs.FailureText.{question_failure_text, signal_text, thing_text};

use super::kept::write_kept;
use base_io::{Sink, SinkFailed};
use lang_monitor::{Claim, Monitor};
use lang_tree::MonitorTree;
use machine_events::Plan;
use plan_count::Question;
use plan_needs::{BlockBroadcast, BroadcastReason};
use plan_why::{Answer, Failure, Reason, Thing};
use report_audit::{Finding, write_finding};
use report_reasons::{write_broadcast_reasons, write_reasons};

/// Writes the line of a finding, and of one that names a claim or a question the line that says why
/// it has no certificate: `why put 2: count=1 to count=2`, `why close 1 broadcast: ..` or `why keep
/// count >= 2 get: ..`, with fields, inputs and locals as `write_reasons` has them, or `why put 2:
/// not decided`. It takes no memory.
///
/// After `SinkFailed` the first bytes of the text were taken, fewer than all and maybe none.
pub fn write_failing_finding<S: Sink>(
    tree: &MonitorTree,
    monitor: &Monitor,
    plan: &Plan,
    finding: Finding,
    failure: Option<Failure>,
    out: &mut S,
) -> Result<(), SinkFailed>
    ensures { Wrote (S.seen out.old) (S.seen out.new) result
        (failing_finding_text tree.now monitor.now plan.now finding failure) }
{
    write_finding(monitor, plan, &finding, out)?;
    write_failure(tree, monitor, finding, failure, out)
}

/// The line of the failure, where the finding names a claim or a question.
fn write_failure<S: Sink>(
    tree: &MonitorTree,
    monitor: &Monitor,
    finding: Finding,
    failure: Option<Failure>,
    out: &mut S,
) -> Result<(), SinkFailed>
    ensures { Wrote (S.seen out.old) (S.seen out.new) result
        (failure_line tree.now monitor.now finding failure) }
{
    match finding {
        Finding::Lawful => Ok(()),
        Finding::Start { .. } => Ok(()),
        Finding::Kind { .. } => Ok(()),
        Finding::Unproved { claim } => write_claim_failure(tree, monitor, claim, failure, out),
        Finding::Uncounted { question } => {
            write_question_failure(tree, monitor, question, failure, out)
        }
    }
}

/// The line of the failure of a claim.
fn write_claim_failure<S: Sink>(
    tree: &MonitorTree,
    monitor: &Monitor,
    claim: Claim,
    failure: Option<Failure>,
    out: &mut S,
) -> Result<(), SinkFailed>
    ensures { Wrote (S.seen out.old) (S.seen out.new) result
        (claim_failure_text tree.now monitor.now claim failure) }
{
    match claim {
        Claim::Keeps { candidate, block } => {
            write_kept(tree, monitor, candidate, block, &failure, out)
        }
        Claim::NoNote { block, condition } => {
            let thing = Thing::Note { block, condition };
            write_thing(tree, monitor, thing, block, failure, out)
        }
        Claim::One { condition, block } => {
            let thing = Thing::Broadcast { condition };
            write_thing(tree, monitor, thing, block, failure, out)
        }
        Claim::NoTest { block, condition } => {
            let thing = Thing::Test { block, condition };
            write_thing(tree, monitor, thing, block, failure, out)
        }
    }
}

/// The line of the failure of a question.
fn write_question_failure<S: Sink>(
    tree: &MonitorTree,
    monitor: &Monitor,
    question: Question,
    failure: Option<Failure>,
    out: &mut S,
) -> Result<(), SinkFailed>
    ensures { Wrote (S.seen out.old) (S.seen out.new) result
        (question_failure_text tree.now monitor.now question failure) }
{
    match question {
        Question::Counts {
            condition,
            block,
            ..
        } => {
            let thing = Thing::Note { block, condition };
            write_thing(tree, monitor, thing, block, failure, out)
        }
        Question::Gives {
            condition,
            block,
            ..
        } => write_signal(tree, monitor, condition, block, failure, out),
        Question::First {
            condition,
            block,
            ..
        } => write_signal(tree, monitor, condition, block, failure, out),
    }
}

/// Whether a thing is needed after the block, by the failure that was found.
fn answer_of(block: u32, failure: Option<Failure>) -> Answer
    ensures { result ≡ answer_of block failure }
{
    match failure {
        Some(Failure { before, after }) => Answer::Shown {
            block,
            before,
            after,
        },
        None => Answer::Undecided,
    }
}

/// `why put 2: count=1 to count=2` and a line feed: the plan lacks the thing.
fn write_thing<S: Sink>(
    tree: &MonitorTree,
    monitor: &Monitor,
    thing: Thing,
    block: u32,
    failure: Option<Failure>,
    out: &mut S,
) -> Result<(), SinkFailed>
    ensures { Wrote (S.seen out.old) (S.seen out.new) result
        (thing_text tree.now monitor.now thing block failure) }
{
    let reason = Reason {
        thing,
        answer: answer_of(block, failure),
    };
    write_reasons(tree, monitor, &[reason], out)
}

/// `why close 1 broadcast: open=true to open=false` and a line feed: a signal is not enough.
fn write_signal<S: Sink>(
    tree: &MonitorTree,
    monitor: &Monitor,
    condition: u32,
    block: u32,
    failure: Option<Failure>,
    out: &mut S,
) -> Result<(), SinkFailed>
    ensures { Wrote (S.seen out.old) (S.seen out.new) result
        (signal_text tree.now monitor.now condition block failure) }
{
    let reason = BroadcastReason {
        broadcast: BlockBroadcast { block, condition },
        failure,
    };
    write_broadcast_reasons(tree, monitor, &[reason], out)
}
