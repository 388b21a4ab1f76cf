//! The card as a definition. `specs/` says what a card holds, what it makes of every command, and what a user sees of
//! it; no code is tied to it yet. The functions here carry laws of that definition in their contracts.

#![tactic(auto)]

// Each function here answers `true` and its contract says so, so that a must-fail edit can turn it. They differ in the
// theorem alone: one function over a type would need a type and an impl for each, which is no plainer.

mod next;
mod nobody;
mod refusals;
mod unreached;

pub use next::the_next_row_is_the_first_selected;
pub use nobody::nobody_is_served_unregistered;
pub use refusals::refusals_leave_everything;
pub use unreached::unreached_is_as_unknown;
