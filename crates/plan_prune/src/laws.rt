//! What follows from the definitions alone.

ghost use Rattle.std.specs.Prelude.{◌≡◌, true, List};
ghost use Rattle.lang_monitor.specs.declared.candidate.Candidate.{Candidate};
ghost use Rattle.lang_monitor.specs.declared.claim.Claim.{Claim};
ghost use Rattle.lang_monitor.specs.Candidates.{candidates_of};
ghost use Rattle.lang_monitor.specs.MonitorParts.{MonitorParts};
ghost use Rattle.lang_monitor.specs.Queries.{query_of};
ghost use Rattle.logic_wp.specs.PlainClaims.{is_plain};
ghost use Rattle.plan_prune.specs.Hardness.{HasNoHardClaim, HasNoOpenClaim, IsHard};
ghost use Rattle.plan_prune.specs.Hardness.{MayBeKept, MayStayOpen};

/// Where the query of a claim may stay open, whichever of the candidates that are true at the start
/// are kept, the claim is hard.
pub fn open_claims_are_hard()
    ensures { (monitor : MonitorParts) (claim : Claim) (kept : List Candidate)
        → MayBeKept monitor kept
        → MayStayOpen monitor (query_of monitor kept claim) → IsHard monitor claim }
{}

/// Where no claim of the monitor is hard, no query of one may stay open, whichever of the
/// candidates that are true at the start are kept.
pub fn easy_monitors_have_no_open_claim()
    ensures { (monitor : MonitorParts) (kept : List Candidate)
        → MayBeKept monitor kept
        → HasNoHardClaim monitor → HasNoOpenClaim monitor kept }
{}

/// A claim is not hard whose query, with all candidates kept, is negated within the limits to a
/// formula of difference rows alone.
pub fn plain_claims_are_not_hard()
    ensures { (monitor : MonitorParts) (claim : Claim)
        → is_plain monitor (query_of monitor (candidates_of monitor) claim) ≡ true
        → IsHard monitor claim → ⊥ }
{}
