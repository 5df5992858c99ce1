// Packing: document 01's packer of the silence book, over the crates silences and book. What `pack` returns and writes,
// on every input, is its contract in specs/. It has no `requires`.
#![tactic(auto)]

mod judging;
mod packing;
mod putting;

pub use packing::pack;
