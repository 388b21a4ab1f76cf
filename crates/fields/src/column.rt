ghost use Rattle.std.specs.Prelude.{◌≡◌, take, drop};
ghost use Rattle.std.specs.Option.{option_map};
ghost use Rattle.fields.specs.Column.{dot, marks, column_of, column};

use text::is_identifier;

/// The longest length of a column that gives none.
pub const USUAL_LENGTH: u8 = 24;

/// A column of a table, as its definition says it.
#[derive(Clone, Copy, PartialEq, Eq, Debug)]
pub struct Column<'a> {
    pub name: &'a [u8],
    pub unique: bool,
    pub longest: u8,
}

/// What stands behind a column's name.
#[derive(Clone, Copy, PartialEq, Eq, Debug)]
pub struct Marks {
    unique: bool,
    longest: u8,
}

/// A column's name, up to the first dot, and what stands behind it.
fn split_name(bytes: &[u8]) -> (&[u8], &[u8])
    ensures name { result.0.now ≡ take (dot bytes.now) bytes.now }
    ensures rest { result.1.now ≡ drop (dot bytes.now) bytes.now }
{
    let end = bytes.iter().position(|c| *c == b'.').unwrap_or(bytes.len());
    bytes.split_at(end)
}

/// `.U` for a unique column, then `.V` and a byte for its longest length; both may be left out.
fn read_marks(bytes: &[u8]) -> Option<Marks>
    ensures { result ≡ marks bytes.now }
{
    match bytes {
        [] => Some(Marks {
            unique: false,
            longest: USUAL_LENGTH,
        }),
        [b'.', b'U'] => Some(Marks {
            unique: true,
            longest: USUAL_LENGTH,
        }),
        [b'.', b'V', n] => Some(Marks {
            unique: false,
            longest: *n,
        }),
        [b'.', b'U', b'.', b'V', n] => Some(Marks {
            unique: true,
            longest: *n,
        }),
        _ => None,
    }
}

/// Reads a column: an identifier other than USER, and its marks.
pub fn read_column(bytes: &[u8]) -> Option<Column<'_>>
    ensures { option_map column result ≡ column_of bytes.now }
{
    let (name, rest) = split_name(bytes);
    if !is_identifier(name) || name == b"USER".as_slice() {
        return None;
    }
    let marks = read_marks(rest)?;
    Some(Column {
        name,
        unique: marks.unique,
        longest: marks.longest,
    })
}
