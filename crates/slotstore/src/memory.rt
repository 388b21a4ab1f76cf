ghost use Rattle.std.specs.Prelude.{◌≡◌, ℕ, ◌<◌, [], length, slice_index, slice_index_or, slice_set};
ghost use Rattle.slotstore.specs.Slot.{contents, links};
ghost use Rattle.slotstore.specs.Chain.{follow};

use crate::slot::{Row, Slot};
use rowmodel::KeptRow;

/// The lent slots.
// It has no model: the lemmas go slot by slot, and would say `contents` and `links` of its value as often. Nor has a
// slot's number a type: it is good for so many slots as were lent, and is kept in them as a number.
#[derive(Drop)]
pub(crate) struct Memory<'a> {
    pub(crate) slots: &'a mut [Slot],
}

impl Memory<'_> {
    /// The slot that is `k` links from `head`.
    pub(crate) fn walk(&self, head: u16, k: u16) -> u16
        requires { (j : ℕ) → j < k → follow (links self.now.slots.now) head j < length self.now.slots.now }
        ensures { result ≡ follow (links self.now.slots.now) head k }
    {
        (0..k).fold(head, |at, _| self.next(at))
    }

    /// The slot that a slot is linked to.
    pub(crate) fn next(&self, slot: u16) -> u16
        requires { slot < length self.now.slots.now }
        ensures { result ≡ slice_index (links self.now.slots.now) slot }
    {
        self.slots[slot as usize].next
    }

    /// The row in a slot.
    pub(crate) fn read(&self, slot: u16) -> &[u8]
        requires { slot < length self.now.slots.now }
        ensures { result.now ≡ slice_index_or (contents self.now.slots.now) slot [] }
    {
        let slots = &*self.slots;
        slots[slot as usize].row.read()
    }

    /// Puts a row into a slot.
    pub(crate) fn write(&mut self, slot: u16, row: KeptRow)
        requires { slot < length self.old.slots.now }
        ensures long { length self.new.slots.now ≡ length self.old.slots.now }
        ensures linked { links self.new.slots.now ≡ links self.old.slots.now }
        ensures filled { contents self.new.slots.now ≡ slice_set (contents self.old.slots.now) slot row.entry.bytes.now }
    {
        self.slots[slot as usize].row = Row::from(row);
    }

    /// Links a slot to another.
    pub(crate) fn link(&mut self, slot: u16, next: u16)
        requires { slot < length self.old.slots.now }
        ensures long { length self.new.slots.now ≡ length self.old.slots.now }
        ensures linked { links self.new.slots.now ≡ slice_set (links self.old.slots.now) slot next }
        ensures filled { contents self.new.slots.now ≡ contents self.old.slots.now }
    {
        self.slots[slot as usize].next = next;
    }
}
