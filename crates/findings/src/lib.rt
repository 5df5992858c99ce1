// What survey, scan and report share: rows 1 to 4 of document 01's table, row 12 of document 02 and row 10 of a closed
// line, the answer of a search, and a finding's words.
//
// `admit` accepts a call or returns the refusal of the first row that is given; its contract is in specs/Admitting.antt.
// `admit_ring` tests only the rows that the ring and k decide, 1, 12, 2, with which every search begins. `admit_closed`
// tests the rows of a closed line, with row 10 after row 4; they are in specs/ClosedRows.antt.
// `is_mark` says whether an edge is a boundary mark; its contract is in specs/Marks.antt.
// `put_finding` writes a finding's words behind those of the findings before it; its contract is in specs/Putting.antt.
// No public function has a `requires`: each takes every input.
#![tactic(auto)]

mod admitting;
mod closed;
mod marks;
mod putting;
mod searching;

pub use admitting::{MOST_LINE, MOST_RING, WORDS_EACH, admit, admit_ring};
pub use closed::admit_closed;
pub use marks::is_mark;
pub use putting::put_finding;
pub use searching::{Finding, SearchCounts};
