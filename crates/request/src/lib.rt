// Reads the report program's input: `read_request` returns the parts of the request, or refusal 11. crates/reply makes the
// program's text from them, and crates/program reads standard input and writes that text. specs/Input.antt defines what a request
// is and which inputs are accepted. No public function has a `requires`: each takes every input.
#![tactic(auto)]

mod field;
mod reading;

pub use reading::{MOST_INPUT, MOST_LINE_BYTES, Parts, read_request};
