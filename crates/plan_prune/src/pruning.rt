//! Candidates pruned to an invariant.

ghost use Rattle.std.specs.Prelude.{◌≡◌, true, IfOk};
ghost use Rattle.std.specs.List.{list_all};
ghost use Rattle.lang_monitor.specs.Candidates.{candidates_of};
ghost use Rattle.logic_wp.specs.Expressible.{is_expressible};
ghost use Rattle.plan_prune.specs.Hardness.{HasNoHardClaim};
ghost use Rattle.plan_prune.specs.Invariants.{AreProofs, ContainsEasy, IsGreatest, IsInvariant};
ghost use Rattle.plan_prune.specs.inner.Asking.{AreAskable};
ghost use Rattle.plan_prune.specs.inner.Pruning.{IsLeft, IsPruned};

use super::kept::Invariant;
use super::rounds::{Round, next_round};
use super::sifting::sifted;
use base_list::Seq;
use lang_monitor::{Candidate, Monitor};
use logic_wp::candidates_are_expressible;
use plan_candidates::{read_starts, true_at_start};
use std::alloc::{AllocError, Global};

/// What is left of the candidates after the last round, which drops none.
fn pruned(alloc: Global, monitor: &Monitor, first: Vec<Candidate>) -> Result<Round, AllocError>
    requires askable { AreAskable (candidates_of monitor.now) }
    requires first { IsLeft monitor.now first.items }
    ensures { IfOk result (IsPruned monitor.now) }
{
    let mut kept = sifted(alloc, monitor, first)?;
    loop {
        let round = next_round(alloc, monitor, &kept)?;
        if round.kept.len() == kept.len() {
            return Ok(round);
        }
        kept = round.kept;
    }
}

/// The candidates that are true at the start, whatever the monitor is opened with, and that each
/// block keeps under all of them, with a proof for each of them and each block. It contains every
/// invariant of the monitor's candidates none of whose queries may stay open, whatever may be kept
/// with it, and so where no claim of the monitor is hard it is the greatest invariant of its
/// candidates. The makers of queries take what is kept. It fails only for want of memory.
///
/// The candidates that are false at some start are dropped, and then those that some block is not
/// found to keep under all that are left. Each is dropped at once, and a claim is asked again only
/// where a candidate was dropped that its last certificate used; what certificates used is all that
/// is held of them. Then rounds ask all that are left, until one drops none: mostly the first,
/// whose certificates are the proofs. So most claims are asked twice. Of `c` candidates (at most
/// 624) and `b` blocks (at most 16) a round asks at most `c * b` queries, and all together ask at
/// most `c * b * (c + 2)`, where each drop takes a hypothesis away from every certificate.
pub fn invariant(alloc: Global, monitor: &Monitor) -> Result<Invariant, AllocError>
    ensures invariant { IfOk result (λ made. IsInvariant monitor.now made.kept) }
    ensures expressible { IfOk result (λ made. list_all is_expressible made.kept ≡ true) }
    ensures proofs { IfOk result (λ it. AreProofs monitor.now it.kept it.kept it.proofs) }
    ensures easy { IfOk result (λ made. ContainsEasy monitor.now made.kept) }
    ensures greatest { IfOk result (λ made. HasNoHardClaim monitor.now
        → IsGreatest monitor.now made.kept) }
{
    candidates_are_expressible(); // of fields whose starts fit 64 bits, as is read next
    read_starts(monitor.fields());
    let first = true_at_start(alloc, monitor)?;
    let round = pruned(alloc, monitor, first)?;
    Ok(Invariant {
        kept: Seq::of(round.kept),
        proofs: Seq::of(round.proofs),
    })
}
