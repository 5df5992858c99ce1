// The occurrence vectors of a ring's edge codes: `hold` writes them, `vector_of` reads the vector of a code.
// specs/EdgeVectors.antt says what is read off any slots and kept words, specs/Storing.antt which are a ring's. No public
// function has a `requires`: each takes every input.
#![tactic(auto)]

mod table;
mod widths;

pub use table::EdgeVectors;
pub use widths::{KEPT_WORDS, SLOTS};
