// Finds where a ring occurs in a line of edges, in any rotation, with at most k differing edges.
//
// `scan` is the quick scan of document 01, rules 1 to 5; its contract is in specs/Scan.antt. `report` is the same scan
// with a silence book, which is asked for each finding before its words are written; its contract is in
// specs/Report.antt. `Subject` says whom a report is for. One loop serves both (src/quick.rt): the scan lends it an empty
// book. `survey`, the plain survey, is re-exported from crates/survey. `survey_closed`, `scan_closed` and
// `report_closed` are the same for a line that is closed as well (src/closed.rt). No function handed out here has a
// `requires`: each takes every input.
#![tactic(auto)]

mod asking;
mod closed;
mod quick;
mod reporting;

pub use asking::Subject;
pub use closed::{report_closed, scan_closed};
pub use findings::SearchCounts;
pub use quick::{ReportCounts, scan};
pub use reporting::report;
pub use survey::{survey, survey_closed};
