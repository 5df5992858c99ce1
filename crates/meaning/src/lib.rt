// Document 01's meanings and rules (specs/), and the theorems about them (proofs/). The crate has no functions.
#![tactic(auto)]
