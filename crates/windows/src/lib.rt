// The windows of a line, open or closed, and the join area of a closed one. `LineParts` is the line and its join area;
// its method `window` returns the window at a place, out of the line or of the join area that `fill_join` has filled, and
// its method `whole_length` the number of edges that windows are taken from.
//
// The contracts are in specs/Windows.antt and specs/Joins.antt. No public function has a `requires`: each takes every
// input.
#![tactic(auto)]

mod joins;
mod windows;

pub use joins::fill_join;
pub use windows::LineParts;
