// The sweep of the quick scan: rules 1 to 5 of document 01, from candidate to candidate.
//
// `sweep_on` takes the sweep from where it stands to the next candidate and verifies it. Its contract is in
// specs/Sweeps.antt: what it returns on every input, whatever tables, join area and tally it is lent. `swept_by_rules`
// in proofs/SweptByRules.antt proves that this is what the rules give if the ring holds no mark, the tables are its own,
// the counts are the tally of the last verified start and the join area is right. The function has no `requires`.
#![tactic(auto)]

mod reading;
mod sweeping;
mod tables;
mod verifying;

pub use sweeping::{Sweep, Swept, sweep_on};
pub use tables::RingTables;
