//! Identifiers, and the comparison of strings.

#![tactic(auto)]

mod identifier;
mod operator;
mod order;

pub use identifier::is_identifier;
pub use operator::{Operator, UnknownOperator};
pub use order::compare;
