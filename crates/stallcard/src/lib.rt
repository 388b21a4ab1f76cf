//! Examples of the rules, from the bytes of commands, on the card of a stall.

#![tactic(auto)]

// Each function here answers `true` and its contract says so, so that a must-fail edit can turn it. They differ in the
// theorem alone: one function over a type would need a type and an impl for each, which is no plainer.

mod causes;
mod guards;
mod worked;

pub use causes::every_cause_has_its_example;
pub use guards::every_guard_has_its_example;
pub use worked::worked_examples_hold;
