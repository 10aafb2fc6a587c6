//! What a plan is handed out with.

use base_list::Seq;
use lang_monitor::Claim;
use logic_cert::Cert;
use machine_events::Plan;

/// A claim with a certificate that refutes its negated query.
#[derive(Debug, Drop)]
pub struct Proof {
    pub claim: Claim,
    pub cert: Cert,
}

/// A plan, and a proof of each claim that it rests on, in the order of [`Claim`].
#[derive(Debug, Drop)]
pub struct PlacedPlan {
    pub plan: Plan,
    pub proofs: Seq<Proof>,
}
