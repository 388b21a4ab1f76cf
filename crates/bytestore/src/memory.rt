ghost use Rattle.std.specs.Prelude.{◌≡◌, ℕ, ◌+◌, ◌*◌, ◌<◌, ◌≤◌, ◌≢◌, length};
ghost use Rattle.bytestore.specs.Memory.{row_in, Alike};

use rowmodel::{KeptRow, ROW_BYTES};

/// The bytes of a place: a row's length, and room for the row.
pub const PLACE_BYTES: usize = 1 + ROW_BYTES;

/// Lent bytes, as places of `PLACE_BYTES` bytes.
// It has no model: of one slice it would only take `.bytes.now` from the clauses, at more lines than it shortens.
#[derive(Drop)]
pub(crate) struct Memory<'a> {
    pub(crate) bytes: &'a mut [u8],
}

impl Memory<'_> {
    /// The row at a place.
    pub(crate) fn row(&self, place: usize) -> &[u8]
        requires place { 241 * (place + 1) ≤ length self.now.bytes.now }
        requires row { length (row_in self.now.bytes.now place) ≤ 240 }
        ensures { result.now ≡ row_in self.now.bytes.now place }
    {
        let start = PLACE_BYTES * place + 1;
        let end = start + self.bytes[PLACE_BYTES * place] as usize;
        &self.bytes[start..end]
    }

    /// Puts a row at a place.
    pub(crate) fn store(&mut self, place: usize, row: KeptRow)
        requires { 241 * (place + 1) ≤ length self.old.bytes.now }
        ensures len { length self.new.bytes.now ≡ length self.old.bytes.now }
        ensures here { row_in self.new.bytes.now place ≡ row.entry.bytes.now }
        ensures others { (q : ℕ) → q ≢ place → Alike self.new.bytes.now q self.old.bytes.now q }
    {
        let start = PLACE_BYTES * place;
        let len = row.bytes.len();
        self.bytes[start] = len as u8;
        self.bytes[start + 1..start + 1 + len].copy_from_slice(row.bytes);
    }

    /// Moves `n` places from place `from` on down to place `to`.
    pub(crate) fn move_down(&mut self, from: usize, to: usize, n: usize)
        requires down { to ≤ from }
        requires inside { 241 * (from + n) ≤ length self.old.bytes.now }
        ensures len { length self.new.bytes.now ≡ length self.old.bytes.now }
        ensures moved { (k : ℕ) → k < n → Alike self.new.bytes.now (to + k) self.old.bytes.now (from + k) }
        ensures below { (q : ℕ) → q < to → Alike self.new.bytes.now q self.old.bytes.now q }
        ensures above { (q : ℕ) → to + n ≤ q → Alike self.new.bytes.now q self.old.bytes.now q }
    {
        let start = PLACE_BYTES * from;
        let end = start + PLACE_BYTES * n;
        self.bytes.copy_within(start..end, PLACE_BYTES * to);
    }
}
