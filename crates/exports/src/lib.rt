// The library's ten calls for programs in C and Rust, over the C calling convention; include/outlines.h declares them
// for C. Each passes its arguments to the Rattle call of that name without `outlines_` and returns that call's answer as
// one struct, by value: `TwoWayAnswer` for the two-way scan, `Answer` for the others. Each takes every input. A slice is a
// pointer and a length.
#![tactic(auto)]

mod answering;
mod books;
mod boundaries;
mod closed;
mod searches;
mod two_way_scan;

pub use answering::Answer;
pub use books::{outlines_pack, outlines_unpack};
pub use boundaries::outlines_import_vertices;
pub use closed::{outlines_report_closed, outlines_scan_closed, outlines_survey_closed};
pub use searches::{outlines_report, outlines_scan, outlines_survey};
pub use two_way_scan::{TwoWayAnswer, outlines_scan_two_way};
