//! The text that sums up a log.

ghost use Rattle.std.specs.Prelude.{◌≡◌, count_by};
ghost use Rattle.base_io.specs.Writing.{Wrote};
ghost use Rattle.report_text.specs.SummaryText.{calls_text, summary_text};
ghost use Rattle.report_text.specs.inner.Ends.{is_reply, says_replies};

use crate::log::write_closing;
use base_io::{Sink, SinkFailed, write_pieces};
use itoa::Buffer;
use machine_events::{Entry, Outcome};
use machine_explicit::FreeMonitor;

/// Writes what sums up a monitor that ran by sections: how many replies its log has, then how the
/// log ended, then the state. It takes no memory.
///
/// After `SinkFailed` the first bytes of the text were taken, fewer than all and maybe none.
pub fn write_summary<S: Sink>(free: &FreeMonitor, out: &mut S) -> Result<(), SinkFailed>
    ensures { Wrote (S.seen out.old) (S.seen out.new) result
        (summary_text free.now.system free.now.log free.now.now) }
{
    write_calls(calls_replied(free.log()), out)?;
    write_closing(free, out)
}

// `calls 16384` and a line feed.
fn write_calls<S: Sink>(calls: usize, out: &mut S) -> Result<(), SinkFailed>
    ensures { Wrote (S.seen out.old) (S.seen out.new) result (calls_text calls) }
{
    let mut digits = Buffer::new();
    let calls = digits.format(calls).as_bytes();
    write_pieces(&[b"calls ", calls, b"\n"], out)
}

// How many entries are replies.
fn calls_replied(log: &[Entry]) -> usize
    ensures { result ≡ count_by is_reply log.now }
{
    log.iter().filter(|entry| replied(entry.outcome)).count()
}

// Whether a block replied.
fn replied(outcome: Outcome) -> bool
    ensures { result ≡ says_replies outcome }
{
    match outcome {
        Outcome::Replies { .. } => true,
        Outcome::Waits | Outcome::Spurious => false,
    }
}
