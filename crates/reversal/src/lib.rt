// A ring walked the other way round (document 02, ticket 6): `reversed_code` gives the code of an edge, `reversed` the
// codes of a ring, and `reverse` writes these into a lent array.
//
// The contracts are in specs/Reversing.antt. No public function has a `requires`: each takes every input and refuses
// nothing.
#![tactic(auto)]

mod codes;
mod rings;

pub use codes::reversed_code;
pub use rings::{MOST_REVERSED, reverse, reversed};
