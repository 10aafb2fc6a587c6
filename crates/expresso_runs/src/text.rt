//! Runs, logs and summaries, written whole to a sink and handed on, with the status that each comes
//! to. No writer takes memory.

ghost use Rattle.std.specs.Prelude.{◌≡◌};
ghost use Rattle.base_io.specs.Writing.{Wrote};
ghost use Rattle.machine_events.specs.Configurations.{situation_of};
ghost use Rattle.machine_events.specs.Logs.{IsClosed};
ghost use Rattle.report_text.specs.LogText.{are_done};
ghost use Rattle.report_text.specs.TurnsText.{turns_text};
ghost use Rattle.report_text.specs.Laws.{plan_and_log_text};
ghost use Rattle.report_text.specs.SummaryText.{summary_text};
ghost use Rattle.expresso_answers.specs.Ending.{IsWritten, ended};

use base_io::{Sink, SinkFailed};
use expresso_answers::{Status, finish};
use lang_monitor::Monitor;
use machine_explicit::FreeMonitor;
use machine_implicit::{Scripts, Turns};
use report_text::{are_done, write_log, write_plan, write_summary, write_turns};

/// The status of a run.
fn run_status(finished: bool) -> Status
    ensures { result ≡ ended finished }
{
    if finished {
        Status::Done
    } else {
        Status::Stalled
    }
}

/// Writes a run. Where a client has calls left it is stalled.
pub(crate) fn show_turns<S: Sink>(
    monitor: &Monitor,
    scripts: &Scripts,
    turns: &Turns,
    out: &mut S,
) -> Status
    ensures { IsWritten (ended turns.now.finished)
        (turns_text monitor.now scripts.now turns.now) result (S.seen out.old) (S.seen out.new) }
{
    let outcome = write_turns(monitor, scripts, turns, out);
    finish(run_status(turns.finished), outcome, out)
}

/// Writes the plan and the log of a run by sections. Where a client has calls left it is stalled.
pub(crate) fn show_plan_and_log<S: Sink>(free: &FreeMonitor, out: &mut S) -> Status
    requires { IsClosed free.now.system free.now.now }
    ensures { IsWritten
        (ended (are_done free.now.system.clients (situation_of free.now.now).places))
        (plan_and_log_text free.now.system free.now.log free.now.now)
        result (S.seen out.old) (S.seen out.new) }
{
    let finished = are_done(free);
    let outcome = write_plan_and_log(free, out);
    finish(run_status(finished), outcome, out)
}

/// Writes the plan, and then the log.
fn write_plan_and_log<S: Sink>(free: &FreeMonitor, out: &mut S) -> Result<(), SinkFailed>
    requires { IsClosed free.now.system free.now.now }
    ensures { Wrote (S.seen out.old) (S.seen out.new) result
        (plan_and_log_text free.now.system free.now.log free.now.now) }
{
    write_plan(free.monitor(), free.plan(), out)?;
    write_log(free, out)
}

/// Writes the summary of a run by sections. Where a client has calls left it is stalled.
pub(crate) fn show_summary<S: Sink>(free: &FreeMonitor, out: &mut S) -> Status
    requires { IsClosed free.now.system free.now.now }
    ensures { IsWritten
        (ended (are_done free.now.system.clients (situation_of free.now.now).places))
        (summary_text free.now.system free.now.log free.now.now)
        result (S.seen out.old) (S.seen out.new) }
{
    let finished = are_done(free);
    let outcome = write_summary(free, out);
    finish(run_status(finished), outcome, out)
}
