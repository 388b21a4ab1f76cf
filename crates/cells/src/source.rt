ghost use Rattle.std.specs.Prelude.{◌≡◌};
ghost use Rattle.cells.specs.Source.{supplied};

use crate::form::{CellBytes, cell, string_at};

/// What supplies a cell of a new row: a string of the command, whose length byte stands at a place, or the old row.
#[derive(Clone, Copy, PartialEq, Eq, Debug)]
pub enum Source {
    Command { place: usize },
    Old,
}

impl Source {
    /// The cell that the source supplies for a column.
    pub fn cell<'a>(self, command: &'a [u8], old: &'a [u8], column: usize) -> CellBytes<'a>
        ensures { result.bytes.now ≡ supplied command.now old.now column self }
    {
        // A match and no trait: these two kinds are all, and a row's sources are one list of both.
        match self {
            Source::Command { place } => string_at(command, place),
            Source::Old => cell(old, column),
        }
    }
}
