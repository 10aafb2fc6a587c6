//! A plan for a monitor.

ghost use Rattle.std.specs.Prelude.{◌≡◌, ◌++◌, IfOk, map};
ghost use Rattle.machine_events.specs.Plans.{FitsPlan, IsLawful};
ghost use Rattle.plan_prune.specs.Hardness.{HasNoHardClaim, HasNoOpenClaim, IsSmall};
ghost use Rattle.plan_prune.specs.Invariants.{IsGreatest};
ghost use Rattle.plan_claims.specs.Backing.{AreProofs, IsBacked, backed_claims};
ghost use Rattle.plan_place.specs.Exact.{IsExact, IsLicensed};
ghost use Rattle.plan_place.specs.inner.Answers.{AreAskable, IsAnswered, proof_of_kept};

use super::kinds::{Kinds, kinds_of_all};
use super::laws::answered_plans_are_placed;
use super::notes::{Found, Notes, notes_of_all};
use base_list::Seq;
use lang_monitor::{Claim, Monitor};
use machine_events::Plan;
use plan_claims::{PlacedPlan, Proof};
use plan_prune::{Invariant, Kept, invariant};
use std::alloc::{AllocError, Global};

/// A plan for a monitor, with a proof of each claim that it rests on, in the order of [`Claim`]:
/// exactly one certificate for each. It fails only for want of memory.
///
/// The kept candidates are those of [`invariant`]. A block has a note on a condition unless a
/// certificate is found that none is needed. A condition is of kind signal where its guard reads no
/// inputs and after each block that waits at it one waiter is enough, and else of kind broadcast;
/// each note has its condition's kind. A note on a condition that reads no inputs is tested unless
/// a certificate is found that no test is needed. So the plan is lawful, and it does more than it
/// has to only where a query may stay open under what it keeps: where none may and that is the
/// greatest invariant it is exact, and so where no claim is hard.
///
/// Placing signals by such triples is due to K. Ferles, J. Van Geffen, I. Dillig and Y.
/// Smaragdakis, "Symbolic Reasoning for Automatic Signal Placement" (PLDI 2018).
pub fn place(alloc: Global, monitor: &Monitor) -> Result<PlacedPlan, AllocError>
    ensures fits { IfOk result (λ placed. FitsPlan monitor.now placed.plan) }
    ensures lawful { IfOk result (λ placed. IsLawful monitor.now placed.plan) }
    ensures licensed { IfOk result (λ placed. IsLicensed monitor.now placed.plan) }
    ensures exact { IfOk result (λ placed. IsSmall monitor.now → IsExact monitor.now placed.plan) }
    ensures none_hard { IfOk result (λ placed. HasNoHardClaim monitor.now
        → IsExact monitor.now placed.plan) }
    ensures none_open { IfOk result (λ placed. HasNoOpenClaim monitor.now placed.plan.kept
        → IsGreatest monitor.now placed.plan.kept → IsExact monitor.now placed.plan) }
    ensures backed { IfOk result (λ placed. IsBacked monitor.now placed.plan) }
    ensures proofs { IfOk result (λ placed. AreProofs monitor.now placed.plan.kept
        (backed_claims monitor.now placed.plan) placed.proofs) }
{
    let _blocks = monitor.blocks();
    answered_plans_are_placed(); // gives all but `backed` and `proofs`
    let placed = answered(alloc, monitor)?;
    Ok(placed)
}

/// The plan that the prover's answers make.
fn answered(alloc: Global, monitor: &Monitor) -> Result<PlacedPlan, AllocError>
    ensures plan { IfOk result (λ placed. IsAnswered monitor.now placed.plan) }
    ensures proofs { IfOk result (λ placed. AreProofs monitor.now placed.plan.kept
        (backed_claims monitor.now placed.plan) placed.proofs) }
{
    let Invariant { kept, proofs } = invariant(alloc, monitor)?;
    let keeps = proofs_of_kept(alloc, proofs.into_items())?;
    let Kinds {
        kinds,
        proofs: signals,
    } = kinds_of_all(alloc, monitor, kept.items())?;
    let Notes { notes, found } = notes_of_all(alloc, monitor, kept.items(), &kinds)?;
    let Found { unnoted, untested } = found;
    let proofs = joined(keeps, unnoted, signals, untested)?;
    Ok(PlacedPlan {
        plan: Plan {
            kept,
            kinds: Seq::of(kinds),
            notes: Seq::of(notes),
        },
        proofs: Seq::of(proofs),
    })
}

/// The proof that a block keeps a candidate.
fn proof_of_kept(kept: Kept) -> Proof
    ensures { result ≡ proof_of_kept kept }
{
    let Kept {
        candidate,
        block,
        cert,
    } = kept;
    Proof {
        claim: Claim::Keeps { candidate, block },
        cert,
    }
}

/// The proofs that blocks keep candidates.
fn proofs_of_kept(alloc: Global, all: Vec<Kept>) -> Result<Vec<Proof>, AllocError>
    ensures { IfOk result (λ proofs. proofs.items ≡ map proof_of_kept all.items) }
{
    let mut proofs = Vec::new(alloc);
    for kept in all {
        proofs.push(proof_of_kept(kept))?;
    }
    Ok(proofs)
}

/// Four lists of proofs, one after the other.
fn joined(
    keeps: Vec<Proof>,
    unnoted: Vec<Proof>,
    signals: Vec<Proof>,
    untested: Vec<Proof>,
) -> Result<Vec<Proof>, AllocError>
    ensures { IfOk result (λ all. all.items
        ≡ keeps.items ++ (unnoted.items ++ (signals.items ++ untested.items))) }
{
    let mut all = keeps;
    let mut unnoted = unnoted;
    let mut signals = signals;
    let mut untested = untested;
    all.append(&mut unnoted)?;
    all.append(&mut signals)?;
    all.append(&mut untested)?;
    Ok(all)
}
