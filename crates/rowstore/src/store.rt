ghost use Rattle.std.specs.Prelude.{◌≡◌, ◌<◌, ◌≤◌, length, OnOk};
ghost use Rattle.rowmodel.specs.Meaning.{Meaning, Sound, table, row_at};
ghost use Rattle.rowmodel.specs.Needs.{answer, make_unmet, drop_unmet, append_unmet, replace_unmet, remove_unmet, row_unmet, copy_unmet};
ghost use Rattle.rowmodel.specs.Calls.{after_make, after_drop, after_append, after_replace, after_remove, after_copy, size_of, lent};

use rowmodel::{MOST_LIMIT, StoreFault, TABLES, TableSize};

/// Tables of rows, known by their meaning: for each number from 0 to 15 unused, or a limit and a list of rows; and
/// the number of free rows. A call is refused exactly if one of its needs is unmet: it names the first one, and
/// leaves the meaning and the area as they were.
// A number and a place stay two arguments: a struct of both would be made for each call and taken apart at once.
pub trait RowStore {
    ghost meaning: { Self → Meaning };

    ghost sound: { (s : Self) → Sound (meaning s) };

    /// The number of free rows.
    fn free_rows(&self) -> usize
        ensures { result ≡ (meaning self.now).free };

    /// The limit of a number and how many rows it has, or nothing where it is unused.
    fn table_size(&self, number: u8) -> Option<TableSize>
        ensures { result ≡ size_of (table (meaning self.now) number) };

    /// The row at a place.
    fn row(&self, number: u8, place: usize) -> Result<&[u8], StoreFault>
        ensures { lent result ≡ answer (row_unmet (meaning self.now) number place) (row_at (meaning self.now) number place) };

    /// Makes an empty table; its limit leaves the free rows.
    fn make_table(&mut self, number: u8, limit: usize) -> Result<(), StoreFault>
        ensures result { result ≡ answer (make_unmet (meaning self.old) number limit) tt }
        ensures after { meaning self.new ≡ after_make (meaning self.old) number limit };

    /// Makes the number unused and gives its limit back to the free rows.
    fn drop_table(&mut self, number: u8) -> Result<(), StoreFault>
        ensures result { result ≡ answer (drop_unmet (meaning self.old) number) tt }
        ensures after { meaning self.new ≡ after_drop (meaning self.old) number };

    /// Adds the row at the end.
    fn append(&mut self, number: u8, row: &[u8]) -> Result<(), StoreFault>
        ensures result { result ≡ answer (append_unmet (meaning self.old) number row.now) tt }
        ensures after { meaning self.new ≡ after_append (meaning self.old) number row.now };

    /// Puts the row in that place.
    fn replace(&mut self, number: u8, place: usize, row: &[u8]) -> Result<(), StoreFault>
        ensures result { result ≡ answer (replace_unmet (meaning self.old) number place row.now) tt }
        ensures after { meaning self.new ≡ after_replace (meaning self.old) number place row.now };

    /// Takes the row of that place out and closes the gap.
    fn remove(&mut self, number: u8, place: usize) -> Result<(), StoreFault>
        ensures result { result ≡ answer (remove_unmet (meaning self.old) number place) tt }
        ensures after { meaning self.new ≡ after_remove (meaning self.old) number place };

    /// Whether an empty table can be made.
    fn check_make(&self, number: u8, limit: usize) -> Result<(), StoreFault>
        ensures result { result ≡ answer (make_unmet (meaning self.now) number limit) tt }
        ensures fits { OnOk result ((number < 16) × (limit ≤ 255) × (limit ≤ (meaning self.now).free)) }
    {
        if usize::from(number) >= TABLES || self.table_size(number).is_some() {
            return Err(StoreFault::Unavailable);
        }
        if limit == 0 || limit > MOST_LIMIT {
            return Err(StoreFault::Limit);
        }
        if limit > self.free_rows() {
            return Err(StoreFault::Space);
        }
        Ok(())
    }

    /// Copies a row to the front of an area and tells its length.
    fn copy(&self, number: u8, place: usize, area: &mut [u8]) -> Result<usize, StoreFault>
        ensures result { result ≡ answer (copy_unmet (meaning self.now) number place (length area.old)) (length (row_at (meaning self.now) number place)) }
        ensures after { area.new ≡ after_copy (meaning self.now) number place area.old }
    {
        let row = self.row(number, place)?;
        let n = row.len();
        if area.len() < n {
            return Err(StoreFault::Area);
        }
        area[0..n].copy_from_slice(row);
        Ok(n)
    }
}
