//! Blocks with their certificates.

ghost use Rattle.std.specs.Prelude.{All, IfSome};
ghost use Rattle.logic_outline.specs.Outlines.{HasTypedNumbers};

use logic_cert::Cert;
use logic_outline::Outline;
use report_proofs::read_cert_numbers;

/// A block that fits, by its number from 0, with its certificate.
#[derive(Debug, Drop)]
pub struct Fit {
    pub block: u32,
    pub cert: Outline,
}

/// The numbers of the certificates are of their types. It reads each of them, since a contract
/// knows the range of a number that was read, and does nothing else.
pub fn read_fit_numbers(answers: &[Option<Cert>])
    ensures { All (λ answer. IfSome answer HasTypedNumbers) answers.now }
{
    for answer in answers {
        of_answer(answer);
    }
}

fn of_answer(answer: &Option<Cert>)
    ensures { IfSome answer.now HasTypedNumbers }
{
    match answer {
        Some(cert) => read_cert_numbers(cert),
        None => {}
    }
}
