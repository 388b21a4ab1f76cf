//! The envelope of a command: from its bytes to an operation, its data and the length that it expects.

#![tactic(auto)]

mod envelope;
mod operation;

pub use envelope::{Envelope, EnvelopeFault, open_envelope};
pub use operation::Operation;
