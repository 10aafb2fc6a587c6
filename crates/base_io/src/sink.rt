ghost use Rattle.std.specs.Prelude.{◌≡◌, ◌<◌, ◌≤◌, ◌+◌, ◌-◌, ℕ, List, [], Option, IfOk, IsOk};
ghost use Rattle.std.specs.Prelude.{OnErr, OnOk, length, take, drop};
ghost use Rattle.std.specs.Io.KnownBytes.{Appends, Keeps};
ghost use Rattle.base_io.specs.Outside.{SinkSeen, Rises, most_faults};
ghost use Rattle.base_io.specs.Writing.{Wrote};

use thiserror::Error;

/// A sink failed. Its count of faults rose.
#[derive(Debug, Clone, Copy, PartialEq, Eq, Error)]
#[error("the output can't be written")]
pub struct SinkFailed;

/// Where bytes go.
pub trait Sink {
    /// What is seen of the sink: the bytes taken so far, where they are told, how many of them it
    /// has yet to hand on, and how many faults rose. The count of faults stays at 2^64 - 1 once it
    /// is reached.
    ghost seen: { Self → SinkSeen };

    /// Takes some of the first of these bytes, at least one where there is one, and says how many.
    /// It may buffer them until [`flush`](Sink::flush) is called.
    ///
    /// `SinkFailed` comes only where the count of faults rose in this call, and nothing was taken.
    /// The count rises in no other call.
    fn write(&mut self, bytes: &[u8]) -> Result<usize, SinkFailed>
        ensures within { IfOk result (λ n. n ≤ length bytes.now) }
        ensures some { IfOk result (λ n. 0 < length bytes.now → 0 < n) }
        ensures appended { IfOk result (λ n.
            Appends (seen self.old).written (seen self.new).written (take n bytes.now)) }
        ensures kept { OnErr result (Keeps (seen self.old).written (seen self.new).written) }
        ensures buffered { IfOk result (λ n.
            (seen self.new).buffered ≤ (seen self.old).buffered + n) }
        ensures fewer { OnErr result ((seen self.new).buffered ≤ (seen self.old).buffered) }
        ensures cause { OnErr result (Rises (seen self.old).faults (seen self.new).faults) }
        ensures steady { OnOk result ((seen self.new).faults ≡ (seen self.old).faults) }
        ensures later { (seen self.old).faults ≤ (seen self.new).faults }
        ensures counted { (seen self.new).faults ≤ most_faults };

    /// Hands on what the sink has buffered. What it has taken stays as it was.
    ///
    /// `SinkFailed` comes only where the count of faults rose in this call, and some bytes are
    /// still buffered. The count rises in no other call.
    fn flush(&mut self) -> Result<(), SinkFailed>
        ensures kept { Keeps (seen self.old).written (seen self.new).written }
        ensures emptied { OnOk result ((seen self.new).buffered ≡ 0) }
        ensures left { OnErr result (0 < (seen self.new).buffered) }
        ensures fewer { (seen self.new).buffered ≤ (seen self.old).buffered }
        ensures cause { OnErr result (Rises (seen self.old).faults (seen self.new).faults) }
        ensures steady { OnOk result ((seen self.new).faults ≡ (seen self.old).faults) }
        ensures later { (seen self.old).faults ≤ (seen self.new).faults }
        ensures counted { (seen self.new).faults ≤ most_faults };
}

/// Writes all of these bytes. With none it calls nothing. It takes no memory.
///
/// After `SinkFailed` the first of them were taken, fewer than all and maybe none.
#[tactic(auto, using(crate::proofs::WrittenBytes::appends_none, crate::proofs::WrittenBytes::appends_kept, crate::proofs::WrittenBytes::appends_on))]
pub fn write_whole<S: Sink>(out: &mut S, bytes: &[u8]) -> Result<(), SinkFailed>
    ensures wrote { Wrote (S.seen out.old) (S.seen out.new) result bytes.now }
    ensures nothing { bytes.now ≡ [] → IsOk result × (out.new ≡ out.old) }
{
    let mut at = 0;
    while at < bytes.len() {
        at = write_from(out, bytes, at)?;
    }
    Ok(())
}

// One write of the bytes from `at` on. It answers up to where they are written then.
fn write_from<S: Sink>(out: &mut S, bytes: &[u8], at: usize) -> Result<usize, SinkFailed>
    requires { at < length bytes.now }
    ensures further { IfOk result (λ next. at < next) }
    ensures within { IfOk result (λ next. next ≤ length bytes.now) }
    ensures appended { IfOk result (λ next.
        Appends (S.seen out.old).written (S.seen out.new).written
        (take (next - at) (drop at bytes.now))) }
    ensures kept { OnErr result (Keeps (S.seen out.old).written (S.seen out.new).written) }
    ensures cause { OnErr result (Rises (S.seen out.old).faults (S.seen out.new).faults) }
    ensures steady { OnOk result ((S.seen out.new).faults ≡ (S.seen out.old).faults) }
    ensures later { (S.seen out.old).faults ≤ (S.seen out.new).faults }
{
    let count = out.write(&bytes[at..])?;
    Ok(at + count)
}
