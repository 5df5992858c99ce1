// Lists of numbers and lent areas. The crate has no functions: specs/ has the definitions, proofs/ the laws.
#![tactic(auto)]
