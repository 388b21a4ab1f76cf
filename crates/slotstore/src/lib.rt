//! A row store over lent slots, with one slot for each row.

#![tactic(auto)]

mod chain;
mod memory;
mod slot;
mod store;

pub use slot::Slot;
pub use store::SlotStore;
