//! Commands as bytes: any bytes in, a fully understood command or the exact fault out.

#![tactic(auto)]

mod codes;
mod command;
mod parse;
mod parsers;
mod status;

pub use codes::{UnknownProfile, UnknownRight};
pub use command::{Command, Permission, Profile, Right, Selection};
pub use parse::{CommandFault, parse_command};
pub use status::Status;
