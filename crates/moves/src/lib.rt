// The tally moved along the line, a step at a time: rule 5's steps.
//
// The contract of `move_tally`, for every input and whatever the counts hold, is in specs/Moves.antt. If the counts are
// the tally of a start and the join area is right, they become the tally of the start reached: `moved_tallied` in
// proofs/MovedTallied.antt.
// The function has no `requires`.
#![tactic(auto)]

mod moving;
mod steps;

pub use moving::{MOST_PLACES, move_tally};
pub use steps::Reached;
