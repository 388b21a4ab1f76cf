//! A row store in lent bytes: 241 bytes a row, at computed places.

#![tactic(auto)]

mod memory;
mod region;
mod store;

pub use memory::PLACE_BYTES;
pub use store::ByteStore;
