//! The lines of blocks that fit, and the line of those that were accepted.

ghost use Rattle.std.specs.Prelude.{◌≡◌, ◌≤◌, ◌++◌, codes, length};
ghost use Rattle.std.specs.List.{flat_map};
ghost use Rattle.base_io.specs.Writing.{Wrote};
ghost use Rattle.base_pen.specs.Putting.{Adds};
ghost use Rattle.machine_events.specs.PlanText.{block_name};
ghost use Rattle.report_fits.specs.FitTexts.{MOST_LINES, certified, fit_if, fit_line, fit_text};
ghost use Rattle.report_fits.specs.FitTexts.{fits_text};
ghost use Rattle.report_fits.specs.FitVerdicts.{fitting_text, named_text, names_text, sign_before};

use super::fit::Fit;
use base_io::{Sink, SinkFailed};
use base_pen::Pen;
use lang_monitor::Monitor;
use logic_cert::Cert;
use report_proofs::{put_block_name, put_cert};

/// Writes a line for each block with a certificate, `proof fits put: clash 0 1`, in the order of
/// blocks. It takes no memory.
///
/// After `SinkFailed` the first bytes of the text were taken, fewer than all and maybe none.
pub fn write_fits<S: Sink>(
    monitor: &Monitor,
    answers: &[Option<Cert>],
    out: &mut S,
) -> Result<(), SinkFailed>
    requires { length answers.now ≤ MOST_LINES }
    ensures { Wrote (S.seen out.old) (S.seen out.new) result
        (fits_text monitor.now (certified answers.now)) }
{
    let mut pen = Pen::new(out);
    put_fits(monitor, answers, &mut pen);
    pen.outcome
}

fn put_fits<S: Sink>(monitor: &Monitor, answers: &[Option<Cert>], pen: &mut Pen<'_, S>)
    requires { length answers.now ≤ MOST_LINES }
    ensures { Adds S.seen pen.old pen.new (fits_text monitor.now (certified answers.now)) }
{
    for index in 0..answers.len() {
        put_answer(monitor, index as u32, &answers[index], pen);
    }
}

/// The line of a block, where it has a certificate.
fn put_answer<S: Sink>(monitor: &Monitor, block: u32, answer: &Option<Cert>, pen: &mut Pen<'_, S>)
    ensures { Adds S.seen pen.old pen.new
        (flat_map (fit_text monitor.now) (fit_if block answer.now)) }
{
    match answer {
        None => pen.put(b""),
        Some(cert) => put_fit(monitor, block, cert, pen),
    }
}

/// `proof fits put: clash 0 1` and a line feed.
#[tactic(auto, using(base_pen::proofs::Putting::adds_three))]
fn put_fit<S: Sink>(monitor: &Monitor, block: u32, cert: &Cert, pen: &mut Pen<'_, S>)
    ensures { Adds S.seen pen.old pen.new
        (fit_line monitor.now block cert.now) }
{
    put_fit_head(monitor, block, pen);
    put_cert(cert, pen);
    pen.put(b"\n");
}

/// `proof fits put: `
#[tactic(auto, using(base_pen::proofs::Putting::adds_three))]
pub(crate) fn put_fit_head<S: Sink>(monitor: &Monitor, block: u32, pen: &mut Pen<'_, S>)
    ensures { Adds S.seen pen.old pen.new
        (codes "proof fits " ++ block_name monitor.now block ++ codes ": ") }
{
    pen.put(b"proof fits ");
    put_block_name(monitor, block as usize, pen);
    pen.put(b": ");
}

// ---- those that were accepted

/// Writes which blocks were accepted, `fits put, get`, and nothing where there are none. It takes
/// no memory.
///
/// After `SinkFailed` the first bytes of the text were taken, fewer than all and maybe none.
pub fn write_fitting<S: Sink>(
    monitor: &Monitor,
    fits: &[Fit],
    out: &mut S,
) -> Result<(), SinkFailed>
    ensures { Wrote (S.seen out.old) (S.seen out.new) result
        (fitting_text monitor.now fits.now) }
{
    let mut pen = Pen::new(out);
    put_fitting(monitor, fits, &mut pen);
    pen.outcome
}

fn put_fitting<S: Sink>(monitor: &Monitor, fits: &[Fit], pen: &mut Pen<'_, S>)
    ensures { Adds S.seen pen.old pen.new (fitting_text monitor.now fits.now) }
{
    if fits.is_empty() {
        pen.put(b"");
    } else {
        put_some(monitor, fits, pen);
    }
}

/// `fits put, get` and a line feed.
#[tactic(auto, using(base_pen::proofs::Putting::adds_three))]
fn put_some<S: Sink>(monitor: &Monitor, fits: &[Fit], pen: &mut Pen<'_, S>)
    ensures { Adds S.seen pen.old pen.new
        (codes "fits" ++ names_text monitor.now fits.now ++ codes "\n") }
{
    pen.put(b"fits");
    put_names(monitor, fits, pen);
    pen.put(b"\n");
}

/// ` put, get`
fn put_names<S: Sink>(monitor: &Monitor, fits: &[Fit], pen: &mut Pen<'_, S>)
    ensures { Adds S.seen pen.old pen.new (names_text monitor.now fits.now) }
{
    for index in 0..fits.len() {
        put_name(monitor, index, &fits[index], pen);
    }
}

/// The name of a block, after what separates it from the one before.
#[tactic(auto, using(base_pen::proofs::Putting::adds_two))]
fn put_name<S: Sink>(monitor: &Monitor, number: usize, fit: &Fit, pen: &mut Pen<'_, S>)
    ensures { Adds S.seen pen.old pen.new
        (named_text monitor.now number fit.now) }
{
    pen.put(sign_before(number));
    put_block_name(monitor, fit.block as usize, pen);
}

/// What stands before the first name, and before each other.
fn sign_before(number: usize) -> &'static [u8]
    ensures { result.now ≡ sign_before number }
{
    if number == 0 { b" " } else { b", " }
}
