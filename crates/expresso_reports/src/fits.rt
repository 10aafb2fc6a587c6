//! `expresso report FILE --fits` and `expresso explain FILE --fits`, each also with `--count`.

ghost use Rattle.std.specs.Prelude.{IfOk, false, true};
ghost use Rattle.lang_monitor.specs.Candidates.{AreSomeOf, candidates_of};
ghost use Rattle.front_command.specs.CommandLine.{explain, report};
ghost use Rattle.expresso_answers.specs.Ending.{CommandEnds, KeepsFiles};
ghost use Rattle.expresso_reports.specs.inner.Fitting.{AreFewReasons, AreTypedAnswers};

use crate::explain::{count_explanation_of, explanation_of};
use crate::fits_text::{
    show_counted_fits_explanation, show_counted_fits_report, show_fits_explanation,
    show_fits_report,
};
use base_io::{Files, Sink};
use expresso_answers::{Status, counting_of, monitor_of, placed_of};
use lang_monitor::{Candidate, Monitor};
use logic_cert::Cert;
use plan_fits::fits_of;
use report_fits::{FitReason, fit_reasons, read_fit_numbers};
use report_proofs::{placed_text_is_report_text, read_numbers};
use report_tally::counted_text_is_report_text;
use std::alloc::{AllocError, Global};

/// Writes the report of a monitor file, with the lines of blocks that keep 64 bits, or the line of
/// its first fault.
pub fn report_fits<F: Files, S: Sink>(
    alloc: Global,
    file: &str,
    count: bool,
    files: &mut F,
    out: &mut S,
) -> Status
    requires { F.may_read files.old file.now }
    ensures ended { CommandEnds (report file.now count true)
        (F.seen files.old) (F.seen files.new) result (S.seen out.old) (S.seen out.new) }
    ensures files { KeepsFiles (F.seen files.old) (F.seen files.new)
        (F.may_read files.old) (F.may_read files.new) }
{
    if count {
        report_counted_fits(alloc, file, files, out)
    } else {
        report_placed_fits(alloc, file, files, out)
    }
}

/// The same of the plan that the monitor is compiled to.
fn report_placed_fits<F: Files, S: Sink>(
    alloc: Global,
    file: &str,
    files: &mut F,
    out: &mut S,
) -> Status
    requires { F.may_read files.old file.now }
    ensures ended { CommandEnds (report file.now false true)
        (F.seen files.old) (F.seen files.new) result (S.seen out.old) (S.seen out.new) }
    ensures files { KeepsFiles (F.seen files.old) (F.seen files.new)
        (F.may_read files.old) (F.may_read files.new) }
{
    placed_text_is_report_text();
    let found = match monitor_of(alloc, file, files, out) {
        Ok(found) => found,
        Err(status) => return status,
    };
    let placed = match placed_of(alloc, &found.monitor) {
        Ok(placed) => placed,
        Err(AllocError) => return Status::OutOfMemory,
    };
    read_numbers(&placed);
    match answers_of(alloc, &found.monitor, placed.plan.kept.items()) {
        Ok(answers) => show_fits_report(&found.monitor, &placed, answers.as_slice(), out),
        Err(AllocError) => Status::OutOfMemory,
    }
}

/// The same of that plan counted.
fn report_counted_fits<F: Files, S: Sink>(
    alloc: Global,
    file: &str,
    files: &mut F,
    out: &mut S,
) -> Status
    requires { F.may_read files.old file.now }
    ensures ended { CommandEnds (report file.now true true)
        (F.seen files.old) (F.seen files.new) result (S.seen out.old) (S.seen out.new) }
    ensures files { KeepsFiles (F.seen files.old) (F.seen files.new)
        (F.may_read files.old) (F.may_read files.new) }
{
    counted_text_is_report_text();
    let found = match monitor_of(alloc, file, files, out) {
        Ok(found) => found,
        Err(status) => return status,
    };
    let counting = match counting_of(alloc, &found.monitor) {
        Ok(counting) => counting,
        Err(AllocError) => return Status::OutOfMemory,
    };
    match answers_of(alloc, &found.monitor, counting.counted.plan.kept.items()) {
        Ok(answers) => show_counted_fits_report(&found.monitor, &counting, answers.as_slice(), out),
        Err(AllocError) => Status::OutOfMemory,
    }
}

/// For each block a certificate that it keeps 64 bits, where one is found, with numbers of their
/// types. It fails only for want of memory.
fn answers_of(
    alloc: Global,
    monitor: &Monitor,
    kept: &[Candidate],
) -> Result<Vec<Option<Cert>>, AllocError>
    requires { AreSomeOf kept.now (candidates_of monitor.now) }
    ensures { IfOk result (λ answers. AreTypedAnswers monitor.now kept.now answers.items) }
{
    // A reading call says what the rule of the monitor gives.
    let _blocks = monitor.blocks();
    let answers = fits_of(alloc, monitor, kept)?;
    read_fit_numbers(answers.as_slice());
    Ok(answers)
}

// ---- explanations

/// Writes the plan of a monitor file with its reasons, and why blocks may leave 64 bits, or the
/// line of its first fault.
pub fn explain_fits<F: Files, S: Sink>(
    alloc: Global,
    file: &str,
    count: bool,
    files: &mut F,
    out: &mut S,
) -> Status
    requires { F.may_read files.old file.now }
    ensures ended { CommandEnds (explain file.now count true)
        (F.seen files.old) (F.seen files.new) result (S.seen out.old) (S.seen out.new) }
    ensures files { KeepsFiles (F.seen files.old) (F.seen files.new)
        (F.may_read files.old) (F.may_read files.new) }
{
    if count {
        explain_counted_fits(alloc, file, files, out)
    } else {
        explain_placed_fits(alloc, file, files, out)
    }
}

/// The same of the plan that the monitor is compiled to.
fn explain_placed_fits<F: Files, S: Sink>(
    alloc: Global,
    file: &str,
    files: &mut F,
    out: &mut S,
) -> Status
    requires { F.may_read files.old file.now }
    ensures ended { CommandEnds (explain file.now false true)
        (F.seen files.old) (F.seen files.new) result (S.seen out.old) (S.seen out.new) }
    ensures files { KeepsFiles (F.seen files.old) (F.seen files.new)
        (F.may_read files.old) (F.may_read files.new) }
{
    let found = match monitor_of(alloc, file, files, out) {
        Ok(found) => found,
        Err(status) => return status,
    };
    let (tree, monitor) = (&found.tree, &found.monitor);
    let explained = match explanation_of(alloc, monitor) {
        Ok(explained) => explained,
        Err(AllocError) => return Status::OutOfMemory,
    };
    match reasons_of(alloc, monitor, explained.plan.kept.items()) {
        Ok(reasons) => show_fits_explanation(tree, monitor, &explained, reasons.as_slice(), out),
        Err(AllocError) => Status::OutOfMemory,
    }
}

/// The same of that plan counted.
fn explain_counted_fits<F: Files, S: Sink>(
    alloc: Global,
    file: &str,
    files: &mut F,
    out: &mut S,
) -> Status
    requires { F.may_read files.old file.now }
    ensures ended { CommandEnds (explain file.now true true)
        (F.seen files.old) (F.seen files.new) result (S.seen out.old) (S.seen out.new) }
    ensures files { KeepsFiles (F.seen files.old) (F.seen files.new)
        (F.may_read files.old) (F.may_read files.new) }
{
    let found = match monitor_of(alloc, file, files, out) {
        Ok(found) => found,
        Err(status) => return status,
    };
    let (tree, monitor) = (&found.tree, &found.monitor);
    let explained = match count_explanation_of(alloc, monitor) {
        Ok(explained) => explained,
        Err(AllocError) => return Status::OutOfMemory,
    };
    match reasons_of(alloc, monitor, explained.explanation.plan.kept.items()) {
        Ok(reasons) => {
            show_counted_fits_explanation(tree, monitor, &explained, reasons.as_slice(), out)
        }
        Err(AllocError) => Status::OutOfMemory,
    }
}

/// Why each block may leave 64 bits. It fails only for want of memory.
fn reasons_of(
    alloc: Global,
    monitor: &Monitor,
    kept: &[Candidate],
) -> Result<Vec<FitReason>, AllocError>
    requires { AreSomeOf kept.now (candidates_of monitor.now) }
    ensures { IfOk result (λ reasons. AreFewReasons monitor.now kept.now reasons.items) }
{
    let _blocks = monitor.blocks();
    let reasons = fit_reasons(alloc, monitor, kept)?;
    Ok(reasons)
}
