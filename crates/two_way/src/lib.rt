// The two-way scan (document 02, ticket 6): one producer draws anticlockwise, so an outline may be stored in the other
// direction.
//
// `scan_two_way` scans the line for the ring and then for the reversed ring; its contract is in specs/TwoWay.antt. It has
// no `requires`: it takes every input.
#![tactic(auto)]

mod admitting;
mod passes;

pub use passes::{TwoWayCounts, scan_two_way};
