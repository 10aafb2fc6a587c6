//! What is kept.

use base_list::Seq;
use lang_monitor::Candidate;
use logic_cert::Cert;

/// The proof that a block keeps a candidate: a certificate that refutes the negated query. Blocks
/// are numbered from 0.
#[derive(Debug, Drop)]
pub struct Kept {
    pub candidate: Candidate,
    pub block: u32,
    pub cert: Cert,
}

/// An invariant: candidates that are true at the start and that each block keeps, in the order of
/// the monitor's candidates, with a proof for each of them and each block, in the order of the
/// candidates and then of the blocks.
#[derive(Debug, Drop)]
pub struct Invariant {
    pub kept: Seq<Candidate>,
    pub proofs: Seq<Kept>,
}
