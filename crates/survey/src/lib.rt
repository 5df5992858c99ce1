// The plain survey of document 01: every start is verified, the first afresh and each next by one step.
//
// `survey` gives the same findings as the quick scan. Its contract is `IsSurveyed` in specs/Survey.antt. `survey_closed` is
// the same for a line that is closed as well, with the contract `IsClosedSurveyed`. Neither has a `requires`: each takes
// every input.
#![tactic(auto)]

mod closed;
mod plain;

pub use closed::survey_closed;
pub use plain::survey;
