ghost use Rattle.std.specs.Prelude.{◌≡◌, ◌<◌, ◌≤◌, min, length, IfOk, OnOk};
ghost use Rattle.rowmodel.specs.Meaning.{Sound, empty};
ghost use Rattle.rowmodel.specs.Needs.{answer, drop_unmet, row_unmet};
ghost use Rattle.slotstore.specs.Slot.{links};
ghost use Rattle.slotstore.specs.Chain.{chain_at, spot, InUse, Within, Apart};
ghost use Rattle.slotstore.specs.Store.{slot_meaning};

use crate::chain::Chain;
use crate::memory::Memory;
use crate::slot::Slot;
use rowmodel::{MOST_ROWS, StoreFault, TABLES, TableSize, check_row};
use rowstore::RowStore;

/// One chain for each table number, and one for the slots that no table has.
const CHAINS: usize = TABLES + 1;

/// The chain of the slots that no table has. It is one of the array, so that what holds of chains is said once.
const FREE: usize = TABLES;

/// Sixteen tables in linked slots.
// Chains in a fixed array by number, and links in the slots: all memory is lent but these few numbers for each table.
// It has no model: the law of the trait says of each value that its meaning is sound, and a model's value would be any
// meaning at all. Clauses name the fields, since a definition over the store could not be cited where it is declared.
#[derive(Drop)]
pub struct SlotStore<'a> {
    memory: Memory<'a>,
    chains: [Chain; CHAINS],
    ghost long: { length chains ≡ 17 },
    ghost within: { Within (length memory.slots.now) (links memory.slots.now) chains },
    ghost apart: { Apart (links memory.slots.now) chains },
    ghost sound: { Sound (slot_meaning memory.slots.now chains) },
}

impl<'a> SlotStore<'a> {
    /// A store with a free row for each slot, 65,535 at most, and no table.
    pub fn new(slots: &'a mut [Slot]) -> SlotStore<'a>
        ensures { slot_meaning result.memory.slots.now result.chains ≡ empty (min (length slots.old) 65535) }
    {
        let n = slots.len().min(MOST_ROWS);
        for (i, slot) in slots[..n].iter_mut().enumerate() {
            slot.next = (i + 1) as u16;
        }
        let mut chains = [Chain::NONE; CHAINS];
        chains[FREE].size = n as u16;
        SlotStore {
            memory: Memory { slots },
            chains,
        }
    }
}

impl SlotStore<'_> {
    // The slot at place `k` of a chain; at the chain's end, the slot that its last one links to.
    fn reach(&self, chain: usize, k: u16) -> u16
        requires chain { chain < 17 }
        requires place { k ≤ (chain_at self.now.chains chain).size }
        ensures result { result ≡ spot (links self.now.memory.slots.now) self.now.chains chain k }
        ensures inside { k < (chain_at self.now.chains chain).size → result < length self.now.memory.slots.now }
    {
        let head = self.chains[chain].head;
        self.memory.walk(head, k)
    }

    // Whether a number is in use. Here and at the place of a row each store tests its own entry: the answer then tells of
    // its fields (`found`), and a test in the trait could tell of the meaning alone.
    fn check_used(&self, number: u8) -> Result<(), StoreFault>
        ensures result { result ≡ answer (drop_unmet (slot_meaning self.now.memory.slots.now self.now.chains) number) tt }
        ensures found { OnOk result (InUse self.now.chains number) }
    {
        let at = number as usize;
        if at >= FREE || self.chains[at].size == 0 {
            return Err(StoreFault::Unused);
        }
        Ok(())
    }

    // The slot of a row.
    fn slot_of(&self, number: u8, place: usize) -> Result<u16, StoreFault>
        ensures result { result ≡ answer (row_unmet (slot_meaning self.now.memory.slots.now self.now.chains) number place) (spot (links self.now.memory.slots.now) self.now.chains number place) }
        ensures found { IfOk result (λ slot. (slot < length self.now.memory.slots.now) × (place < (chain_at self.now.chains number).count) × InUse self.now.chains number) }
    {
        self.check_used(number)?;
        let at = number as usize;
        if place >= self.chains[at].count as usize {
            return Err(StoreFault::Place);
        }
        Ok(self.reach(at, place as u16))
    }
}

impl RowStore for SlotStore<'_> {
    ghost meaning = { λ s. slot_meaning s.memory.slots.now s.chains };

    ghost sound = { λ s. s.sound };

    fn free_rows(&self) -> usize {
        self.chains[FREE].size as usize
    }

    fn table_size(&self, number: u8) -> Option<TableSize> {
        self.check_used(number).ok()?;
        let at = number as usize;
        let table = self.chains[at];
        Some(TableSize {
            limit: table.size as u8,
            rows: table.count as u8,
        })
    }

    fn row(&self, number: u8, place: usize) -> Result<&[u8], StoreFault> {
        let found = self.slot_of(number, place)?;
        Ok(self.memory.read(found))
    }

    fn make_table(&mut self, number: u8, limit: usize) -> Result<(), StoreFault> {
        self.check_make(number, limit)?;
        let at = number as usize;
        let free = self.chains[FREE];
        let size = limit as u16;
        let rest = self.reach(FREE, size);
        self.chains[at] = Chain {
            head: free.head,
            size,
            count: 0,
        };
        self.chains[FREE] = Chain {
            head: rest,
            size: free.size - size,
            count: 0,
        };
        Ok(())
    }

    fn drop_table(&mut self, number: u8) -> Result<(), StoreFault> {
        self.check_used(number)?;
        let at = number as usize;
        let table = self.chains[at];
        let free = self.chains[FREE];
        let last = self.reach(at, table.size - 1);
        self.memory.link(last, free.head);
        self.chains[at] = Chain::NONE;
        self.chains[FREE] = Chain {
            head: table.head,
            size: free.size + table.size,
            count: 0,
        };
        Ok(())
    }

    fn append(&mut self, number: u8, row: &[u8]) -> Result<(), StoreFault> {
        self.check_used(number)?;
        let at = number as usize;
        let row = check_row(row)?;
        let table = self.chains[at];
        if table.count == table.size {
            return Err(StoreFault::Full);
        }
        let next = self.reach(at, table.count);
        self.memory.write(next, row);
        self.chains[at].count = table.count + 1;
        Ok(())
    }

    fn replace(&mut self, number: u8, place: usize, row: &[u8]) -> Result<(), StoreFault> {
        let slot = self.slot_of(number, place)?;
        let row = check_row(row)?;
        self.memory.write(slot, row);
        Ok(())
    }

    fn remove(&mut self, number: u8, place: usize) -> Result<(), StoreFault> {
        let taken = self.slot_of(number, place)?;
        let at = number as usize;
        let table = self.chains[at];
        let count = table.count - 1;
        let k = place as u16;
        if k == count {
            self.chains[at].count = count;
            return Ok(());
        }
        // The slot goes out of its place and in again behind the last row. Where no slot is before it, the first of
        // the three links is its own, and the second writes it again.
        let last = self.reach(at, count);
        let after = self.memory.next(taken);
        let end = self.memory.next(last);
        let (head, before) = if k == 0 {
            (after, taken)
        } else {
            (table.head, self.reach(at, k - 1))
        };
        self.memory.link(before, after);
        self.memory.link(taken, end);
        self.memory.link(last, taken);
        self.chains[at] = Chain {
            head,
            size: table.size,
            count,
        };
        Ok(())
    }
}
