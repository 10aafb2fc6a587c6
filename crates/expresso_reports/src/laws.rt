//! What follows from the definitions alone, of reports and of what is accepted or lawful.

ghost use Rattle.std.specs.Prelude.{◌≡◌, ◌++◌, ℕ, Bool, List, Option, Some, length};
ghost use Rattle.report_verdict.specs.declared.report.Verdict.TheVariants.{Accepted};
ghost use Rattle.report_proofs.specs.ReportTexts.{verdict_text};
ghost use Rattle.report_fits.specs.FitTexts.{certified};
ghost use Rattle.report_fits.specs.FitVerdicts.{fitting_text};
ghost use Rattle.front_command.specs.CommandLine.{audit, reads, recheck};
ghost use Rattle.expresso_answers.specs.Answers.{IsDoneText, IsRefusedText};
ghost use Rattle.expresso_reports.specs.CheckedPlans.{IsSafePlan, IsSafeReport};
ghost use Rattle.expresso_reports.specs.PrintedReports.{IsPrintedCountedReport};
ghost use Rattle.expresso_reports.specs.PrintedReports.{IsPrintedCountedFitsReport};
ghost use Rattle.expresso_reports.specs.PrintedReports.{IsPrintedFitsReport};
ghost use Rattle.expresso_reports.specs.PrintedReports.{IsPrintedReport, counted_many};

use emit_code::counted_code_loses_none;
use lang_monitor::monitors_may_be_opened;
use lang_syntax::derives_one_tree;
use lang_tokens::one_spelling;
use machine_events::{counting_loses_no_wakeup, lawful_for_every_choice};
use report_proofs::easy_reports_are_accepted;
use report_tally::{
    counted_text_is_report_text, printed_counted_reports_are_accepted, reports_are_uncounted,
};

/// What `report` printed of a monitor without a hard claim is never refused by `recheck`, which
/// prints that it accepts as many claims as were proved.
pub fn printed_reports_are_rechecked()
    ensures refusals { (held later : List ℕ → Option (List ℕ))
        (file report_file text line : List ℕ)
        → IsPrintedReport held later file report_file text
        → IsRefusedText later (reads (recheck file report_file)) line → ⊥ }
    ensures lines { (held later : List ℕ → Option (List ℕ))
        (file report_file text line : List ℕ)
        (is : IsPrintedReport held later file report_file text)
        → IsDoneText later (recheck file report_file) line
        → line ≡ verdict_text (Accepted (length is.printed.placed.proofs)) }
{
    one_spelling();
    derives_one_tree();
    easy_reports_are_accepted();
    reports_are_uncounted();
}

/// What `report --count` printed of a monitor, where no claim and no question may stay open that
/// the counted plan rests on, is never refused by `recheck`, which prints that it accepts as many
/// claims and questions as have certificates. So it is where no claim of the monitor is hard and no
/// question may stay open, by `easy_countings_owe_nothing_open`.
pub fn printed_counted_reports_are_rechecked()
    ensures refusals { (held later : List ℕ → Option (List ℕ))
        (file report_file text line : List ℕ)
        → IsPrintedCountedReport held later file report_file text
        → IsRefusedText later (reads (recheck file report_file)) line → ⊥ }
    ensures lines { (held later : List ℕ → Option (List ℕ))
        (file report_file text line : List ℕ)
        (is : IsPrintedCountedReport held later file report_file text)
        → IsDoneText later (recheck file report_file) line
        → line ≡ verdict_text (Accepted
        (counted_many is.printed.placed is.printed.counted)) }
{
    one_spelling();
    derives_one_tree();
    counted_text_is_report_text();
    printed_counted_reports_are_accepted();
}

/// The same of what `report --fits` printed. Then `recheck` also names the blocks for which it
/// printed a certificate that they keep 64 bits.
pub fn printed_fits_are_rechecked()
    ensures refusals { (held later : List ℕ → Option (List ℕ))
        (file report_file text line : List ℕ)
        → IsPrintedFitsReport held later file report_file text
        → IsRefusedText later (reads (recheck file report_file)) line → ⊥ }
    ensures lines { (held later : List ℕ → Option (List ℕ))
        (file report_file text line : List ℕ)
        (is : IsPrintedFitsReport held later file report_file text)
        → IsDoneText later (recheck file report_file) line
        → line ≡ verdict_text (Accepted (length is.printed.placed.proofs))
        ++ fitting_text is.printed.monitor (certified is.fits.answers) }
    ensures counted_refusals { (held later : List ℕ → Option (List ℕ))
        (file report_file text line : List ℕ)
        → IsPrintedCountedFitsReport held later file report_file text
        → IsRefusedText later (reads (recheck file report_file)) line → ⊥ }
    ensures counted_lines { (held later : List ℕ → Option (List ℕ))
        (file report_file text line : List ℕ)
        (is : IsPrintedCountedFitsReport held later file report_file text)
        → IsDoneText later (recheck file report_file) line
        → line ≡ verdict_text (Accepted (counted_many is.printed.placed is.printed.counted))
        ++ fitting_text is.printed.monitor (certified is.fits.answers) }
{
    one_spelling();
    derives_one_tree();
    easy_reports_are_accepted();
    reports_are_uncounted();
    counted_text_is_report_text();
    printed_counted_reports_are_accepted();
}

/// What `recheck` accepts, and what `audit` calls lawful, loses no wake-up: the bytes of the one
/// file are a monitor's, those of the other are of a plan that fits it and is lawful, with
/// `--count` by counting, and whatever the monitor is opened with and whatever clients call that
/// fits it, no wake-up of them is lost under the plan.
pub fn checked_plans_lose_no_wakeup()
    ensures reports { (held : List ℕ → Option (List ℕ))
        (monitor_file report_file text monitor_bytes report_bytes : List ℕ)
        → held monitor_file ≡ Some monitor_bytes → held report_file ≡ Some report_bytes
        → IsDoneText held (recheck monitor_file report_file) text
        → IsSafeReport monitor_bytes report_bytes }
    ensures plans { (held : List ℕ → Option (List ℕ))
        (monitor_file plan_file text monitor_bytes plan_bytes : List ℕ) (count : Bool)
        → held monitor_file ≡ Some monitor_bytes → held plan_file ≡ Some plan_bytes
        → IsDoneText held (audit monitor_file plan_file count) text
        → IsSafePlan count monitor_bytes plan_bytes }
{
    monitors_may_be_opened();
    lawful_for_every_choice();
    counting_loses_no_wakeup();
    counted_code_loses_none();
}
