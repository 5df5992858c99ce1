// The tally of one count per rotation: `count_afresh` counts it for a window, `finding_at` makes a start's finding of
// it. crates/moves moves it along the line. `past_mark` notes the place just past the last boundary mark on the way.
//
// The contracts are in specs/Marks.antt and specs/Counts.antt; specs/Tallied.antt says when counts are the tally of a
// start. No public function has a `requires`: each takes every input, whatever the counts hold.
#![tactic(auto)]

mod afresh;
mod counts;
mod marks;

pub use afresh::{DOUBLED, Fresh, double};
pub use counts::{Least, MOST_COUNTS, Tally, differing};
pub use marks::past_mark;
