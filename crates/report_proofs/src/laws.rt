//! What follows from the definitions alone.

ghost use Rattle.std.specs.Prelude.{◌≡◌, ℕ, ◌+◌, length, map, Option, Some, slice_get};
ghost use Rattle.logic_cert.specs.declared.cert.Cert.{Cert};
ghost use Rattle.lang_monitor.specs.declared.claim.Claim.{Claim};
ghost use Rattle.lang_monitor.specs.MonitorParts.{MonitorParts, IsMonitor};
ghost use Rattle.machine_events.specs.declared.plan.Plan.{Plan};
ghost use Rattle.machine_events.specs.Plans.{FitsPlan, IsLawful};
ghost use Rattle.machine_events.specs.PlanText.{plan_text};
ghost use Rattle.plan_prune.specs.Hardness.{HasNoHardClaim};
ghost use Rattle.plan_claims.specs.declared.placed.PlacedPlan.{PlacedPlan};
ghost use Rattle.plan_claims.specs.Backing.{AreProofs, backed_claims};
ghost use Rattle.report_verdict.specs.declared.report.Report.{Report};
ghost use Rattle.report_verdict.specs.declared.report.Verdict.{Verdict};
ghost use Rattle.report_verdict.specs.declared.report.Verdict.TheVariants.{Accepted};
ghost use Rattle.report_proofs.specs.EasyPlacements.{IsEasyPlacement};
ghost use Rattle.report_proofs.specs.Lines.{IsLineOf, lines_in};
ghost use Rattle.report_proofs.specs.Readings.{IsReportRead};
ghost use Rattle.report_proofs.specs.ReportTexts.{placed_text, proof_text, report_text};
ghost use Rattle.report_verdict.specs.Reports.{IsPlanOf, IsReport, proofs_of, report_of};
ghost use Rattle.report_verdict.specs.Verdicts.{IsOpen, IsUnproved, IsVerdict, plan_lines};

use logic_wp::fewer_kept_are_no_harder;

/// Where a plan was placed with a proof of each claim that it rests on, in their order, what
/// [`write_report`] writes is the text of its report, which has one certificate for each claim.
///
/// [`write_report`]: super::write_report
pub fn placed_text_is_report_text()
    ensures text { (monitor : MonitorParts) (placed : PlacedPlan)
        → map (λ proof. proof.claim) placed.proofs ≡ backed_claims monitor placed.plan
        → placed_text monitor placed ≡ report_text monitor (report_of placed) }
    ensures report { (monitor : MonitorParts) (placed : PlacedPlan)
        → FitsPlan monitor placed.plan
        → map (λ proof. proof.claim) placed.proofs ≡ backed_claims monitor placed.plan
        → IsReport monitor (report_of placed) }
{}

/// Where no claim of the monitor is hard, as none of a small one is, the report of a lawful plan
/// that was placed with a proof of each claim is accepted.
pub fn easy_reports_are_accepted()
    ensures { (monitor : MonitorParts) (placed : PlacedPlan) (verdict : Verdict)
        → IsMonitor monitor → FitsPlan monitor placed.plan → IsLawful monitor placed.plan
        → AreProofs monitor placed.plan.kept (backed_claims monitor placed.plan) placed.proofs
        → HasNoHardClaim monitor → IsVerdict monitor (report_of placed) verdict
        → verdict ≡ Accepted (length placed.proofs) }
{
    fewer_kept_are_no_harder();
}

/// Where no claim of the monitor is hard, what [`write_report`] writes of a placed plan is read as
/// its report, and accepted.
///
/// [`write_report`]: super::write_report
pub fn printed_reports_are_accepted()
    ensures read { (monitor : MonitorParts) (placed : PlacedPlan) (read : Option Report)
        → IsEasyPlacement monitor placed
        → IsReportRead monitor (placed_text monitor placed) read
        → read ≡ Some (report_of placed) }
    ensures accepted { (monitor : MonitorParts) (placed : PlacedPlan) (report : Report)
        (verdict : Verdict) → IsEasyPlacement monitor placed
        → IsReportRead monitor (placed_text monitor placed) (Some report)
        → IsVerdict monitor report verdict
        → verdict ≡ Accepted (length placed.proofs) }
{
    fewer_kept_are_no_harder();
}

/// The text of a plan has as many lines as [`recheck`] counts for it: one for its name, and one for
/// each kept candidate, condition and block. In the text of a report, the claim at each place
/// stands after them, on a line of its own. So on the line that a verdict names stands a claim that
/// isn't proved there.
///
/// [`recheck`]: report_verdict::recheck
pub fn report_lines_are_numbered()
    ensures plan { (monitor : MonitorParts) (plan : Plan)
        → IsMonitor monitor → IsPlanOf monitor plan
        → lines_in (plan_text monitor plan) ≡ plan_lines monitor plan }
    ensures claims { (monitor : MonitorParts) (report : Report) (place : ℕ) (one : Claim × Cert)
        → IsMonitor monitor → IsReport monitor report
        → slice_get (proofs_of monitor report) place ≡ Some one
        → IsLineOf (report_text monitor report) (plan_lines monitor report.plan + (place + 1))
        (proof_text monitor one.0 one.1) }
    ensures unproved { (monitor : MonitorParts) (report : Report) (line : ℕ)
        → IsMonitor monitor → IsReport monitor report → IsUnproved monitor report line
        → (one : Claim × Cert)
        × IsLineOf (report_text monitor report) line (proof_text monitor one.0 one.1)
        × IsOpen monitor report.plan.kept one }
{}
