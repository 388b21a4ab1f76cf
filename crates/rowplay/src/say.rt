//! Answers in words.
use rowmodel::{StoreFault, TableSize};
use rowstore::Answer;
use std::fmt;

/// What a call was answered, with the area that a row was copied to.
#[derive(Drop)]
pub struct Said<'a> {
    pub answer: Result<Answer, StoreFault>,
    pub area: &'a [u8],
}

// Each byte is written as it comes: the text of the whole row would have to be made first.
fn write_row<W: fmt::Write>(row: &[u8], f: &mut fmt::Formatter<W>) -> fmt::Result {
    for byte in row {
        write!(f, "{byte:02X}")?;
    }
    Ok(())
}

impl fmt::Display for Said<'_> {
    fn fmt<W: fmt::Write>(&self, f: &mut fmt::Formatter<W>) -> fmt::Result {
        match self.answer {
            Err(fault) => write!(f, "refused: {fault}"),
            Ok(Answer::Done) => f.write_str("ok"),
            Ok(Answer::Copied(n)) => write_row(self.area.get(0..n).unwrap_or(&[]), f),
            Ok(Answer::Size(None)) => f.write_str("unused"),
            Ok(Answer::Size(Some(TableSize { limit, rows }))) => write!(
                f,
                "{rows} of {limit} rows"
            ),
            Ok(Answer::Free(rows)) => write!(f, "{rows} free rows"),
        }
    }
}
