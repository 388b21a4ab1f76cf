ghost use Rattle.std.specs.Prelude.{◌≡◌, ◌≤◌, [], length, take};

use rowmodel::{KeptRow, ROW_BYTES};

/// One row.
// A fixed buffer with a length: a slot is lent memory, and the store has no heap. It has no model, since a row is copied, and
// a model would have to give back the bytes past the row too; nor is it compared, since those bytes would count.
#[derive(Clone, Copy, Debug)]
pub(crate) struct Row {
    len: u8,
    bytes: [u8; ROW_BYTES],
    ghost ok: { (len ≤ 240) × (length bytes ≡ 240) },
}

impl From<KeptRow<'_>> for Row {
    ghost from_gives = { λ k r. take r.len r.bytes ≡ k.bytes.now };

    fn from(row: KeptRow) -> Row {
        let mut bytes = [0; ROW_BYTES];
        let n = row.bytes.len();
        bytes[0..n].copy_from_slice(row.bytes);
        Row {
            len: n as u8,
            bytes,
        }
    }
}

impl Row {
    /// The bytes of the row, where they lie.
    pub(crate) fn read(&self) -> &[u8]
        ensures { result.now ≡ take self.now.len self.now.bytes }
    {
        &self.bytes[0..self.len as usize]
    }
}

/// Memory for one row, and the slot after it in its chain.
// Slots are linked by number, for the memory is lent and nothing is on a heap.
#[derive(Clone, Copy, Debug)]
pub struct Slot {
    pub(crate) row: Row,
    pub(crate) next: u16,
}

impl Slot {
    /// A slot that holds nothing yet.
    pub fn empty() -> Slot
        ensures { take result.row.len result.row.bytes ≡ [] }
    {
        Slot {
            row: Row {
                len: 0,
                bytes: [0; ROW_BYTES],
            },
            next: 0,
        }
    }
}
