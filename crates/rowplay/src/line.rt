//! A line of a script, read.
use hexadecimal::decode;
use rowstore::Call;
use script::without_comment;
use std::alloc::{AllocError, Global};
use std::str::FromStr;
use thiserror::Error;

/// Why a line of a script cannot be played.
#[derive(Drop, Debug, Error)]
pub enum LineFault {
    /// It begins with none of the words that a line begins with.
    #[error("not one of store, make, drop, append, replace, remove, copy, table, free")]
    Word,
    /// A number is missing, is none or does not fit.
    #[error("a number is missing, is none or is too large")]
    Number,
    /// A row is not written in hexadecimal digits, two to a byte.
    #[error("the row is not in hexadecimal digits, two to a byte")]
    Row,
    /// It goes on where it should end.
    #[error("there is more than the call takes")]
    End,
    /// It is a call, and no store was made before it.
    #[error("a call before the first store")]
    Store,
    /// There is no memory for it.
    #[error("no memory")]
    Memory(#[from(alloc)] AllocError),
}

/// What a line of a script says.
#[derive(Clone, Copy, PartialEq, Eq, Debug)]
pub enum Line<'a> {
    /// New stores, each with memory for so many rows.
    Store { rows: usize },
    /// A call, and the length of the area for a row that it copies.
    Call { call: Call<'a>, area: usize },
}

/// A call that copies no row, and so needs no area.
fn plain(call: Call<'_>) -> Line<'_> {
    Line::Call { call, area: 0 }
}

fn number<N: FromStr>(word: Option<&str>) -> Result<N, LineFault>
where
    N::Err: Drop,
{
    script::number(word).ok_or(LineFault::Number)
}

/// The bytes of a row, which are kept in `row`.
fn bytes<'a>(
    heap: Global,
    word: Option<&str>,
    row: &'a mut Vec<u8>,
) -> Result<&'a [u8], LineFault> {
    *row = decode(heap, word.unwrap_or("").as_bytes())?.ok_or(LineFault::Row)?;
    Ok(row.as_slice())
}

/// Reads a line, if it says anything; what stands behind `#` is a comment. A row of the line is kept in `row`.
pub fn read_line<'a>(
    heap: Global,
    text: &str,
    row: &'a mut Vec<u8>,
) -> Result<Option<Line<'a>>, LineFault> {
    let mut words = without_comment(text).split_whitespace();
    let Some(word) = words.next() else {
        return Ok(None);
    };
    let line = match word {
        "store" => Line::Store {
            rows: number(words.next())?,
        },
        "make" => plain(Call::Make {
            number: number(words.next())?,
            limit: number(words.next())?,
        }),
        "drop" => plain(Call::Drop {
            number: number(words.next())?,
        }),
        "append" => plain(Call::Append {
            number: number(words.next())?,
            row: bytes(heap, words.next(), row)?,
        }),
        "replace" => plain(Call::Replace {
            number: number(words.next())?,
            place: number(words.next())?,
            row: bytes(heap, words.next(), row)?,
        }),
        "remove" => plain(Call::Remove {
            number: number(words.next())?,
            place: number(words.next())?,
        }),
        "copy" => Line::Call {
            call: Call::Copy {
                number: number(words.next())?,
                place: number(words.next())?,
            },
            area: number(words.next())?,
        },
        "table" => plain(Call::Table {
            number: number(words.next())?,
        }),
        "free" => plain(Call::Free),
        _ => return Err(LineFault::Word),
    };
    if words.next().is_some() {
        return Err(LineFault::End);
    }
    Ok(Some(line))
}
