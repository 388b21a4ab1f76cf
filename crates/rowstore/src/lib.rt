//! The interface of a row store, and what holds of every store behind it.

#![tactic(auto)]

mod added;
mod call;
mod runs;
mod session;
mod store;

pub use added::{append_and_look, last_row};
pub use call::{Answer, Both, Call};
pub use runs::{perform_both, same_replies};
pub use session::Session;
pub use store::RowStore;
