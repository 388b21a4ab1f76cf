//! What the calls of a row store answer with: why a call is refused, and how large a table is.

#![tactic(auto)]

ghost use Rattle.std.specs.Prelude.{◌≡◌, Some};
ghost use Rattle.rowmodel.specs.Needs.{answer, unmet, allowed_row};
ghost use Rattle.rowmodel.specs.Row.{kept};
ghost use Rattle.rowmodel.specs.Words.{in_words};

mod row;

pub use row::KeptRow;
use std::fmt;

/// The most bytes that a row has.
pub const ROW_BYTES: usize = 240;

/// How many table numbers there are.
pub const TABLES: usize = 16;

/// The most rows that a table can be made for.
pub const MOST_LIMIT: usize = 255;

/// The most rows that a store has memory for.
pub const MOST_ROWS: usize = 65_535;

/// The need of a call that was not met.
#[derive(Clone, Copy, PartialEq, Eq, Debug)]
pub enum StoreFault {
    /// `make_table` was given a number that is in use or above 15.
    Unavailable,
    /// The number is not in use.
    Unused,
    /// The limit is not from 1 to 255.
    Limit,
    /// There are fewer free rows than the limit.
    Space,
    /// The list has no row at that place.
    Place,
    /// The row is not of 1 to 240 bytes.
    Length,
    /// The list is at its limit.
    Full,
    /// The area is shorter than the row.
    Area,
}

impl StoreFault {
    /// The unmet need in words.
    pub fn words(&self) -> &'static str
        ensures { result.now ≡ in_words self.now }
    {
        match self {
            StoreFault::Unavailable => "number is in use or above 15",
            StoreFault::Unused => "number is not in use",
            StoreFault::Limit => "limit is not from 1 to 255",
            StoreFault::Space => "too few free rows",
            StoreFault::Place => "no row at that place",
            StoreFault::Length => "row is not of 1 to 240 bytes",
            StoreFault::Full => "list is full",
            StoreFault::Area => "area is shorter than the row",
        }
    }
}

// Written by hand: the derive of thiserror promises no words, and these ghost members say what is written.
impl fmt::Display for StoreFault {
    ghost output = { λ x. Some (in_words x) };

    ghost styled_output = { λ x _. Some (in_words x) };

    fn fmt<W: fmt::Write>(&self, f: &mut fmt::Formatter<W>) -> fmt::Result {
        f.write_str(self.words())
    }
}

/// The limit of a table, and how many rows it has.
#[derive(Clone, Copy, PartialEq, Eq, Debug)]
pub struct TableSize {
    pub limit: u8,
    pub rows: u8,
}

/// The row, if it may be kept.
pub fn check_row(row: &[u8]) -> Result<KeptRow<'_>, StoreFault>
    ensures { kept result ≡ answer (unmet (allowed_row row.now)) row.now }
{
    if row.is_empty() || row.len() > ROW_BYTES {
        return Err(StoreFault::Length);
    }
    Ok(KeptRow { bytes: row })
}
