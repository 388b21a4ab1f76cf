//! The form of a row: a count byte, then each cell as a length byte and that many bytes.

#![tactic(auto)]

mod form;
mod source;
mod write;

pub use form::{CellBytes, cell, count};
pub use source::Source;
pub use write::NewRow;
