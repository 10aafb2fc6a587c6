//! What follows from the definitions alone.

ghost use Rattle.std.specs.Prelude.{◌≡◌, ◌↔◌, ℕ, ◌+◌, All, List, Option, Some, length};
ghost use Rattle.lang_monitor.specs.MonitorParts.{MonitorParts};
ghost use Rattle.plan_claims.specs.declared.placed.PlacedPlan.{PlacedPlan};
ghost use Rattle.machine_events.specs.Counts.{IsLawfulByCounting};
ghost use Rattle.plan_prune.specs.Hardness.{HasNoOpenClaim};
ghost use Rattle.plan_counted.specs.declared.counted.CountedPlan.{CountedPlan};
ghost use Rattle.plan_counted.specs.Exact.{HasNoOpenQuestion};
ghost use Rattle.report_verdict.specs.declared.report.Report.{Report};
ghost use Rattle.report_verdict.specs.declared.report.Verdict.{Verdict};
ghost use Rattle.report_verdict.specs.declared.report.Verdict.TheVariants.{Accepted};
ghost use Rattle.report_proofs.specs.Readings.{IsReadable};
ghost use Rattle.report_proofs.specs.ReportTexts.{report_text};
ghost use Rattle.report_verdict.specs.Reports.{IsReport};
ghost use Rattle.report_verdict.specs.Verdicts.{IsVerdict};
ghost use Rattle.report_tally.specs.declared.report.CountedReport.{CountedReport};
ghost use Rattle.report_tally.specs.CountedReadings.{IsCountedRead};
ghost use Rattle.report_tally.specs.CountedReports.{IsCountedReport, counted_report_text};
ghost use Rattle.report_tally.specs.CountedTexts.{IsCountingOf, counted_report_of, counted_text};
ghost use Rattle.report_tally.specs.CountedVerdicts.{IsCountedVerdict};
ghost use Rattle.report_tally.specs.EasyCountings.{IsEasyCounting, OwesNothingOpen};
ghost use Rattle.report_tally.specs.UncountedReports.{uncounted};

/// What [`write_counted_report`] writes of a plan that was placed and then counted is the text of
/// its report, which has one certificate for each claim and each question that the counted plan
/// rests on.
///
/// [`write_counted_report`]: super::write_counted_report
pub fn counted_text_is_report_text()
    ensures text { (monitor : MonitorParts) (placed : PlacedPlan) (counted : CountedPlan)
        → IsCountingOf monitor placed counted
        → counted_text monitor placed counted
        ≡ counted_report_text monitor (counted_report_of placed counted) }
    ensures report { (monitor : MonitorParts) (placed : PlacedPlan) (counted : CountedPlan)
        → IsCountingOf monitor placed counted
        → IsCountedReport monitor (counted_report_of placed counted) }
{}

/// Where no claim and no question may stay open that a counted plan rests on, what
/// [`write_counted_report`] writes of it is read as its report, and accepted.
///
/// [`write_counted_report`]: super::write_counted_report
pub fn printed_counted_reports_are_accepted()
    ensures read { (monitor : MonitorParts) (placed : PlacedPlan) (counted : CountedPlan)
        (read : Option CountedReport) → IsEasyCounting monitor placed counted
        → IsCountedRead monitor (counted_text monitor placed counted) read
        → read ≡ Some (counted_report_of placed counted) }
    ensures accepted { (monitor : MonitorParts) (placed : PlacedPlan) (counted : CountedPlan)
        (verdict : Verdict) (report : CountedReport) → IsEasyCounting monitor placed counted
        → report ≡ counted_report_of placed counted → IsCountedVerdict monitor report verdict
        → verdict ≡ Accepted (length report.proofs + length report.answers) }
{}

/// Where no claim and no question of the monitor may stay open, none may that a counted plan rests
/// on.
pub fn easy_countings_owe_nothing_open()
    ensures { (monitor : MonitorParts) (placed : PlacedPlan) (counted : CountedPlan)
        → IsCountingOf monitor placed counted → IsLawfulByCounting monitor counted.plan
        → HasNoOpenClaim monitor placed.plan.kept → HasNoOpenQuestion monitor placed.plan.kept
        → OwesNothingOpen monitor placed.plan.kept counted }
{}

/// A report is a counted one none of whose conditions is counted: its text is that one's, bytes
/// that are a report's text are read as that one, and what a check says of the one it says of the
/// other.
pub fn reports_are_uncounted()
    ensures text { (monitor : MonitorParts) (report : Report)
        → counted_report_text monitor (uncounted report) ≡ report_text monitor report }
    ensures read { (monitor : MonitorParts) (bytes : List ℕ) (report : Report)
        (read : Option CountedReport) → IsReport monitor report → All IsReadable report.proofs
        → report_text monitor report ≡ bytes → IsCountedRead monitor bytes read
        → read ≡ Some (uncounted report) }
    ensures verdict { (monitor : MonitorParts) (report : Report) (verdict : Verdict)
        → IsReport monitor report
        → IsCountedVerdict monitor (uncounted report) verdict ↔ IsVerdict monitor report verdict }
{}
