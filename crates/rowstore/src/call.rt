use rowmodel::{StoreFault, TableSize};

/// A call of a row store, as a value.
#[derive(Clone, Copy, PartialEq, Eq, Debug)]
pub enum Call<'a> {
    Make {
        number: u8,
        limit: usize,
    },
    Drop {
        number: u8,
    },
    Append {
        number: u8,
        row: &'a [u8],
    },
    Replace {
        number: u8,
        place: usize,
        row: &'a [u8],
    },
    Remove {
        number: u8,
        place: usize,
    },
    Copy {
        number: u8,
        place: usize,
    },
    Table {
        number: u8,
    },
    Free,
}

/// What an accepted call answers.
#[derive(Clone, Copy, PartialEq, Eq, Debug)]
pub enum Answer {
    /// The call gives nothing back.
    Done,
    /// The length of the row that was copied to the area.
    Copied(usize),
    /// The size of a table, or nothing where the number is unused.
    Size(Option<TableSize>),
    /// The number of free rows.
    Free(usize),
}

/// What two stores answer to one call.
#[derive(Clone, Copy, PartialEq, Eq, Debug)]
pub enum Both {
    /// Their replies were the same, in the answer and in the area.
    Same(Result<Answer, StoreFault>),
    /// They were not.
    Differ {
        left: Result<Answer, StoreFault>,
        right: Result<Answer, StoreFault>,
    },
}
