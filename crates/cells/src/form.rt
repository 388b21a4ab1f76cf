ghost use Rattle.std.specs.Prelude.{◌≡◌, ◌≤◌, length, drop, slice_index};
ghost use Rattle.cells.specs.Form.{string_of, cell_at, CellsRead, CountRead};

/// The bytes of a cell, so many at most as a length byte can tell.
#[derive(Clone, Copy, PartialEq, Eq, Debug)]
pub struct CellBytes<'a> {
    pub bytes: &'a [u8],
    pub ghost short: { length bytes.now ≤ 255 },
}

/// The string whose length byte comes first: as much of it as there is.
fn first_string(bytes: &[u8]) -> CellBytes<'_>
    ensures { result.bytes.now ≡ string_of bytes.now }
{
    let [len, rest @ ..] = bytes else {
        return CellBytes { bytes };
    };
    CellBytes {
        bytes: &rest[..rest.len().min(*len as usize)],
    }
}

/// The string whose length byte stands at a place: as much of it as there is.
pub(crate) fn string_at(bytes: &[u8], place: usize) -> CellBytes<'_>
    ensures { result.bytes.now ≡ string_of (drop place bytes.now) }
{
    first_string(bytes.get(place..).unwrap_or(&[]))
}

/// How many cells a row says that it has.
pub fn count(row: &[u8]) -> usize
    ensures result { result ≡ slice_index row.now 0 }
    ensures lawful { CountRead }
{
    match row {
        [n, ..] => *n as usize,
        [] => 0,
    }
}

/// The cell of a column; no bytes where the row lacks it.
pub fn cell(row: &[u8], column: usize) -> CellBytes<'_>
    ensures result { result.bytes.now ≡ cell_at row.now column }
    ensures lawful { CellsRead }
{
    let mut place = 1;
    // This stops early where no cells are left; an iterator of cells with `nth` would be longer. It goes by places: what
    // is left of the row, kept as a slice, took a third more time and more.
    for _ in 0..column {
        let Some(&len) = row.get(place) else {
            break;
        };
        place += 1 + usize::from(len);
    }
    string_at(row, place)
}
