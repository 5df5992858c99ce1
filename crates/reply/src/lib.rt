// Writes the report program's text: `answer` takes the bytes of the program's input, reads the request in them (crates/request),
// makes the report (crates/outlines) and writes its lines, or the line of a refusal. crates/program reads standard input, calls
// `answer` and writes the text. specs/Answering.antt defines the text for every input. No public function has a `requires`: each
// takes every input.
#![tactic(auto)]

mod answering;
mod lines;
mod refusing;
mod writer;

pub use answering::{MOST_TEXT, answer};
pub use request::MOST_INPUT;
