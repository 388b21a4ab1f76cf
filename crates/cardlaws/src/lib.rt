//! Laws of every card that a list of commands can make of a new one, carried by the contracts of the functions here.

#![tactic(auto)]

// Each function here answers `true` and its contract says so, so that a must-fail edit can turn it. They differ in the
// theorem alone: one function over a type would need a type and an impl for each, which is no plainer.

mod definitions;
mod soundness;
mod uniqueness;

pub use definitions::definitions_say_what_was_said;
pub use soundness::every_card_is_sound;
pub use uniqueness::unique_values_stay_unique;
