//! A line of a script, read.
use hexadecimal::decode;
use script::{number, without_comment};
use std::alloc::{AllocError, Global};
use thiserror::Error;

/// Why a line of a script cannot be played.
#[derive(Drop, Debug, Error)]
pub enum LineFault {
    /// It is neither `area` and a number nor a command in hexadecimal digits.
    #[error("neither a command in hexadecimal digits, two to a byte, nor area and a number")]
    NoLine,
    /// There is no memory for it.
    #[error("no memory")]
    Memory(#[from(alloc)] AllocError),
}

/// What a line of a script says.
#[derive(Drop, PartialEq, Eq, Debug)]
pub enum Line {
    /// The length of the answer area for the commands after it.
    Area { length: usize },
    /// A command.
    Command { bytes: Vec<u8> },
}

/// The length of the answer area that a line gives.
fn read_area(words: &str) -> Option<usize> {
    let mut words = words.split_whitespace();
    let length = number(words.next())?;
    words.next().is_none().then_some(length)
}

/// Reads a line of a script, if it says anything.
pub fn read_line(heap: Global, text: &str) -> Result<Option<Line>, LineFault> {
    let text = without_comment(text).trim();
    if text.is_empty() {
        return Ok(None);
    }
    if let Some(words) = text.strip_prefix("area ") {
        let length = read_area(words).ok_or(LineFault::NoLine)?;
        return Ok(Some(Line::Area { length }));
    }
    let bytes = decode(heap, text.as_bytes())?.ok_or(LineFault::NoLine)?;
    Ok(Some(Line::Command { bytes }))
}
