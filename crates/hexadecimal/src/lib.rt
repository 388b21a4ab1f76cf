//! Bytes written as hexadecimal digits.

#![tactic(auto)]

mod digits;

pub use digits::decode;
