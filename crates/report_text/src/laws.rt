//! What follows from the definitions alone.

ghost use Rattle.report_text.specs.Laws.{PlanTextNamesPlan, TextNamesPlanAndLog};

/// The printed bytes name the plan and the log. Plans that fit one monitor and have the same text
/// are equal. Where, for one monitor and its clients, one log is legal under a plan and another
/// under another, and the text of the plan followed by that of the log is the same, the plans are
/// equal and so are the logs.
pub fn text_names_log()
    ensures plan { PlanTextNamesPlan }
    ensures log { TextNamesPlanAndLog }
{}
