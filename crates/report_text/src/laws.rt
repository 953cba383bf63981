//! What holds of all reports. The function does nothing: its contract is the law.
ghost use Rattle.report_text.specs.Laws.{PrintingTellsReports};

/// Two writable reports that have the same lines are one.
pub fn printing_tells_reports()
    ensures { PrintingTellsReports }
{}
