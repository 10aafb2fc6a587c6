//! The numbers of certificates, which are of their types.

ghost use Rattle.std.specs.Prelude.{◌<◌, ◌^◌, All};
ghost use Rattle.logic_outline.specs.Outlines.{HasTypedNumbers, HasTypedPlace, IsCombine};
ghost use Rattle.logic_outline.specs.Outlines.{IsFactor, IsForm};

use logic_cert::{Cert, Combine};
use logic_linear::{Lin, Term};
use plan_claims::{PlacedPlan, Proof};

/// The numbers of the certificates of a placed plan are of their types. It reads each of them,
/// since a contract knows the range of a number that was read, and does nothing else.
pub fn read_numbers(placed: &PlacedPlan)
    ensures { All (λ proof. HasTypedNumbers proof.cert) placed.now.proofs }
{
    of_proofs(placed.proofs.items());
}

/// The numbers of a certificate are of their types. It reads each of them, and does nothing else.
pub fn read_cert_numbers(cert: &Cert)
    ensures { HasTypedNumbers cert.now }
{
    of_cert(cert);
}

fn of_proofs(proofs: &[Proof])
    ensures { All (λ proof. HasTypedNumbers proof.cert) proofs.now }
{
    for proof in proofs {
        of_cert(&proof.cert);
    }
}

#[cycle(of_cert)]
fn of_cert(cert: &Cert)
    ensures { HasTypedNumbers cert.now }
{
    match cert {
        Cert::Split(certs) => {
            of_count(certs.items().len());
            of_certs(certs.items());
        }
        Cert::Clash { left, right } => of_clash(*left, *right),
        Cert::Chain(combines) => {
            of_count(combines.items().len());
            of_combines(combines.items());
        }
        Cert::Cases { form, below, above } => {
            of_form(form);
            of_cert(below.get());
            of_cert(above.get());
        }
    }
}

#[cycle(of_cert)]
fn of_certs(certs: &[Cert])
    ensures { All HasTypedNumbers certs.now }
{
    for cert in certs {
        of_cert(cert);
    }
}

fn of_form(form: &Lin)
    ensures { IsForm form.now }
{
    let terms = form.terms();
    of_count(terms.len());
    of_places(terms);
}

fn of_places(terms: &[Term])
    ensures { All HasTypedPlace terms.now }
{
    for term in terms {
        of_place(term.place);
    }
}

fn of_place(place: u32)
    ensures { place < 2 ^ 32 }
{}

fn of_combines(combines: &[Combine])
    ensures { All IsCombine combines.now }
{
    for combine in combines {
        of_combine(*combine);
    }
}

fn of_combine(combine: Combine)
    ensures { IsCombine combine }
{
    of_multiple(combine.left, combine.left_times);
    of_multiple(combine.right, combine.right_times);
}

fn of_multiple(row: u32, times: i128)
    ensures { (row < 2 ^ 32) × IsFactor times }
{}

fn of_clash(left: u32, right: u32)
    ensures { (left < 2 ^ 32) × (right < 2 ^ 32) }
{}

fn of_count(count: usize)
    ensures { count < 2 ^ 64 }
{}
