// What all calls share: the refusals, and the two kinds of place. specs/Refusals.antt gives each refusal's number and
// place; specs/Places.antt says what the two conversions of a place return.
// No public function has a `requires`: each takes every input.
#![tactic(auto)]

mod places;
mod refusals;

pub use places::{LinePlace, RingPlace, to_line, to_ring};
pub use refusals::Refusal;
