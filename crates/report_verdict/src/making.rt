//! The report of a plan that was placed.

ghost use Rattle.std.specs.Prelude.{◌≡◌, IfOk, map};
ghost use Rattle.report_verdict.specs.Reports.{report_of};

use super::report::Report;
use base_list::Seq;
use logic_cert::Cert;
use logic_outline::{Outline, outlined};
use plan_claims::{PlacedPlan, Proof};
use std::alloc::{AllocError, Global};

/// The report of a plan that was placed: the plan, and the certificates of its proofs in their
/// order. It fails only for want of memory.
pub fn report_of(alloc: Global, placed: PlacedPlan) -> Result<Report, AllocError>
    ensures { IfOk result (λ report. report ≡ report_of placed) }
{
    let PlacedPlan { plan, proofs } = placed;
    let certs = certs_of(alloc, proofs.into_items())?;
    Ok(Report {
        plan,
        proofs: Seq::of(certs),
    })
}

/// The certificates of proofs.
fn certs_of(alloc: Global, proofs: Vec<Proof>) -> Result<Vec<Outline>, AllocError>
    ensures { IfOk result (λ certs. certs.items ≡ map (λ proof. proof.cert) proofs.items) }
{
    let mut certs = Vec::new(alloc);
    for proof in proofs {
        certs.push(outlined(alloc, cert_of(proof))?)?;
    }
    Ok(certs)
}

fn cert_of(proof: Proof) -> Cert
    ensures { result ≡ proof.cert }
{
    let Proof { cert, .. } = proof;
    cert
}
