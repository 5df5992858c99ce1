// Silences: the address of a silence, the order of addresses, and reading one field of a book. The crates book and
// packing build on this. What a book is, and what reading, packing and unpacking give, is defined in specs/. No public
// function has a `requires`: each takes every input.
#![tactic(auto)]

mod addresses;
mod field;
mod lengths;
mod order;

pub use addresses::{Address, Field};
pub use field::field_at;
pub use lengths::{
    CEILING_BYTES, CEILING_TAG, CELL_BYTES, EXACT_TAG, MOST_SILENCES, PACKED_LENGTH,
    PACKED_VALUE_LENGTH, RECORD_WORDS, RING_NUMBER_BYTES, START_BYTES,
};
pub use order::is_above;
