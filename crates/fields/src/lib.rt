// "A house format of tagged fields: one-byte tag, two-byte length, value; numbers high byte first." What all fields
// share: the silence book and the report program's input consist of such fields. No public function has a `requires`:
// each takes every input.
#![tactic(auto)]

mod lengths;
mod numbers;

pub use lengths::{HEAD_LENGTH, LENGTH_BYTES, TAG_BYTES};
pub use numbers::number_at;
