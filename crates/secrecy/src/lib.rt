//! What a card tells a user is what the user sees, and a card answers by what its user reaches: theorems about two cards
//! over whole lists of commands, carried by the contracts of the functions here until a card that runs carries them.

#![tactic(auto)]

// Each function here answers `true` and its contract says so, so that a must-fail edit can turn it. They differ in the
// theorem alone: one function over a type would need a type and an impl for each, which is no plainer.

mod frame;
mod locality;
mod secrecy;

pub use frame::unreached_tables_keep_their_rows;
pub use locality::answers_are_local;
pub use secrecy::only_sight_is_told;
