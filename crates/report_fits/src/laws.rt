//! What follows from the definitions alone.

ghost use Rattle.std.specs.Prelude.{◌≡◌, ℕ, All, IfSome, List, None, Option, Some, length};
ghost use Rattle.logic_cert.specs.declared.cert.Cert.{Cert};
ghost use Rattle.lang_monitor.specs.declared.candidate.Candidate.{Candidate};
ghost use Rattle.lang_monitor.specs.MonitorParts.{IsMonitor, MonitorParts};
ghost use Rattle.plan_fits.specs.Answers.{AreFitAnswers};
ghost use Rattle.report_proofs.specs.Readings.{IsReadable};
ghost use Rattle.report_fits.specs.declared.fit.Fit.{Fit};
ghost use Rattle.report_fits.specs.FitParts.{AreParts};
ghost use Rattle.report_fits.specs.FitReadings.{AreFitsRead};
ghost use Rattle.report_fits.specs.FitTexts.{certified, fits_text};
ghost use Rattle.report_fits.specs.FitVerdicts.{IsFirstOpenFit};

/// Bytes are parted in one way.
pub fn one_parting()
    ensures { (bytes report fits other others : List ℕ) → AreParts bytes report fits
        → AreParts bytes other others → (report ≡ other) × (fits ≡ others) }
{}

/// What [`write_fits`] writes of an answer for each block is read as the blocks with a certificate.
///
/// [`write_fits`]: super::write_fits
pub fn printed_fits_are_read()
    ensures { (monitor : MonitorParts) (answers : List (Option Cert)) (read : Option (List Fit))
        → length answers ≡ length monitor.blocks
        → All (λ answer. IfSome answer IsReadable) answers
        → AreFitsRead monitor (fits_text monitor (certified answers)) read
        → read ≡ Some (certified answers) }
{}

/// What the prover answered is accepted.
pub fn printed_fits_are_accepted()
    ensures { (monitor : MonitorParts) (kept : List Candidate) (answers : List (Option Cert))
        (found : Option ℕ) → AreFitAnswers monitor kept answers
        → IsFirstOpenFit monitor kept (certified answers) found → found ≡ None }
{}
