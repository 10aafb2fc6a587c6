//! `expresso recheck FILE REPORT`.

ghost use Rattle.std.specs.Prelude.{◌≤◌, ◌<◌, ◌^◌, ◌≡◌, ◌+◌, [], ◌∷◌, All, IfOk, length};
ghost use Rattle.front_command.specs.CommandLine.{recheck};
ghost use Rattle.expresso_answers.specs.Ending.{CommandEnds, IsWritten, KeepsFiles};
ghost use Rattle.report_fits.specs.FitTexts.{AreFits};
ghost use Rattle.report_verdict.specs.Verdicts.{plan_lines};
ghost use Rattle.report_tally.specs.CountedReports.{IsCountedReport};
ghost use Rattle.expresso_answers.specs.ReportFiles.{OTHER_BYTES, many_certs};
ghost use Rattle.expresso_reports.specs.inner.Judging.{IsFitsCheck, IsJudgement, IsReportJudged};
ghost use Rattle.expresso_reports.specs.inner.Judging.{IsRestJudged, judgement_status};
ghost use Rattle.expresso_reports.specs.inner.Judging.{judgement_text};

use crate::fits_text::{show_acceptance, show_rejection};
use base_io::{Files, Sink};
use base_list::Seq;
use expresso_answers::{OTHER_BYTES, Status, open_both, show_fault};
use lang_monitor::Monitor;
use lang_syntax::derives_one_tree;
use lang_tokens::one_spelling;
use report_fits::{Fit, first_open_fit, part, read_fits};
use report_tally::{CountedReport, read_counted_report, recheck_counted};
use report_text::Fault;
use report_verdict::{Verdict, line_of};
use std::alloc::{AllocError, Global};

/// What is found of the bytes of a report's file.
#[derive(Debug, Drop)]
pub(crate) enum Judgement {
    /// The report is accepted, by so many certificates, and so are the blocks after it.
    Accepted { certs: u64, fits: Seq<Fit> },
    /// The report is rejected, or a line after it.
    Rejected { verdict: Verdict },
    /// They are no report, or other lines stand after it.
    NoReport,
}

/// Reads both files, the monitor first, checks the report of the second without the prover, and
/// writes that it is accepted, or the line of the first fault.
pub fn recheck_files<F: Files, S: Sink>(
    alloc: Global,
    monitor: &str,
    report: &str,
    files: &mut F,
    out: &mut S,
) -> Status
    requires files { All (F.may_read files.old) (monitor.now ∷ report.now ∷ []) }
    ensures ended { CommandEnds (recheck monitor.now report.now)
        (F.seen files.old) (F.seen files.new) result (S.seen out.old) (S.seen out.new) }
    ensures files { KeepsFiles (F.seen files.old) (F.seen files.new)
        (F.may_read files.old) (F.may_read files.new) }
{
    one_spelling();
    derives_one_tree();
    let opened = match open_both(
        alloc,
        monitor,
        report,
        OTHER_BYTES,
        &Fault::OtherTooLong { file: report },
        files,
        out,
    ) {
        Ok(opened) => opened,
        Err(status) => return status,
    };
    match judged(alloc, &opened.found.monitor, &opened.bytes) {
        Ok(found) => show_judgement(&opened.found.monitor, report, &found, out),
        Err(AllocError) => Status::OutOfMemory,
    }
}

/// Writes that a report is accepted, or the line that says why it is not.
fn show_judgement<S: Sink>(monitor: &Monitor, file: &str, found: &Judgement, out: &mut S) -> Status
    ensures { IsWritten (judgement_status found.now)
        (judgement_text monitor.now file.now found.now) result (S.seen out.old) (S.seen out.new) }
{
    match found {
        Judgement::Accepted { certs, fits } => show_acceptance(monitor, *certs, fits.items(), out),
        Judgement::Rejected { verdict } => show_rejection(*verdict, out),
        Judgement::NoReport => show_fault(&Fault::NotReport { file }, out),
    }
}

/// What a check says of the report that bytes are, and of the lines after it. It fails only for
/// want of memory.
fn judged(alloc: Global, monitor: &Monitor, bytes: &[u8]) -> Result<Judgement, AllocError>
    requires { length bytes.now ≤ OTHER_BYTES }
    ensures { IfOk result (IsJudgement monitor.now bytes.now) }
{
    let (front, rest) = part(bytes);
    match read_counted_report(alloc, monitor, front)? {
        Some(report) => judge_report(alloc, monitor, &report, rest),
        None => Ok(Judgement::NoReport),
    }
}

/// What is found of a report, and of the bytes after it.
fn judge_report(
    alloc: Global,
    monitor: &Monitor,
    report: &CountedReport,
    rest: &[u8],
) -> Result<Judgement, AllocError>
    requires { IsCountedReport monitor.now report.now }
    ensures { IfOk result (IsReportJudged monitor.now report.now rest.now) }
{
    let verdict = recheck_counted(alloc, monitor, report)?;
    match verdict {
        Verdict::Accepted { claims } => judge_rest(alloc, monitor, report, claims, rest),
        Verdict::Unlawful => Ok(Judgement::Rejected {
            verdict: Verdict::Unlawful,
        }),
        Verdict::Unproved { line } => Ok(Judgement::Rejected {
            verdict: Verdict::Unproved { line },
        }),
    }
}

/// What is found of the bytes after a report that is accepted by so many certificates.
fn judge_rest(
    alloc: Global,
    monitor: &Monitor,
    report: &CountedReport,
    certs: u64,
    bytes: &[u8],
) -> Result<Judgement, AllocError>
    requires { IsCountedReport monitor.now report.now }
    ensures { IfOk result (IsRestJudged monitor.now report.now certs bytes.now) }
{
    match read_fits(alloc, monitor, bytes)? {
        Some(fits) => check_fits(alloc, monitor, report, certs, fits),
        None => Ok(Judgement::NoReport),
    }
}

/// What is found of the certificates of these blocks.
fn check_fits(
    alloc: Global,
    monitor: &Monitor,
    report: &CountedReport,
    certs: u64,
    fits: Vec<Fit>,
) -> Result<Judgement, AllocError>
    requires is { IsCountedReport monitor.now report.now }
    requires fits { AreFits monitor.now fits.items }
    ensures { IfOk result (IsFitsCheck monitor.now report.now certs fits.items) }
{
    match first_open_fit(alloc, monitor, report.plan.kept.items(), fits.as_slice())? {
        Some(place) => Ok(Judgement::Rejected {
            verdict: Verdict::Unproved {
                line: line_of_fit(monitor, report, place),
            },
        }),
        None => Ok(Judgement::Accepted {
            certs,
            fits: Seq::of(fits),
        }),
    }
}

/// The line of the block of this place, after those of a report.
fn line_of_fit(monitor: &Monitor, report: &CountedReport, place: usize) -> u64
    requires is { IsCountedReport monitor.now report.now }
    requires near { place < 2 ^ 60 }
    ensures { result
        ≡ plan_lines monitor.now report.now.plan + (many_certs report.now + place + 1) }
{
    let proofs = report.proofs.items().len();
    let answers = report.answers.items().len();
    line_of(monitor, &report.plan, proofs + answers + place)
}
