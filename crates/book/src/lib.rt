// The silence book: unpacking, reading and seeking, over the crate silences. Packing is a crate of its own. What each
// function returns and writes, on every input, is its contract in specs/. No public function has a `requires`.
#![tactic(auto)]

mod reading;
mod seeking;
mod unpacking;

pub use reading::read;
pub use seeking::{hides, seek, seek_on};
pub use unpacking::unpack;
