//! The data field of a command: a reader of its parameters, one behind the other, and of lists of them.

#![tactic(auto)]

mod column;
mod entries;
mod parts;
mod reader;

pub use column::{Column, read_column};
pub use entries::Entry;
pub use reader::{FieldFault, Part, Parts, Reader};
