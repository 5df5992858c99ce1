// Vectors of bits in machine words, held by value: the vector with its first m bits set, the held vector grown by one
// edge, and whether no bit is set. specs/ByValue.antt says what each function returns; specs/Bits.antt and
// specs/Holding.antt say what that means for the bits of a vector. No public function has a `requires`: each takes every
// input.
#![tactic(auto)]

mod held;
mod widths;

pub use held::{first_bits, grown, no_bit};
pub use widths::{VECTOR_BITS, VECTOR_WORDS, WORD_BITS};
