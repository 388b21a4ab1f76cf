ghost use Rattle.std.specs.Prelude.{◌≡◌, ◌+◌, ◌-◌, ◌*◌, ◌/◌, ◌<◌, ◌≤◌, min, length, IfOk};
ghost use Rattle.rowmodel.specs.Meaning.{Sound, empty};
ghost use Rattle.rowmodel.specs.Needs.{answer, drop_unmet, row_unmet};
ghost use Rattle.bytestore.specs.Region.{region, Within, Apart, byte_meaning};

use crate::memory::{Memory, PLACE_BYTES};
use crate::region::{Region, UNUSED, closed_up};
use rowmodel::{MOST_ROWS, StoreFault, TABLES, TableSize, check_row};
use rowstore::RowStore;

/// Tables of rows in lent bytes. Each number has its region of places, and no place is in two regions. Dropping a
/// table closes up its places, so that the free places are always those at the end.
// Regions in a fixed array by number, and a top: all memory is lent but these few numbers for each table.
// It has no model: the law of the trait says of each value that its meaning is sound, and a model's value would be any
// meaning at all. Clauses name the fields, since a definition over the store could not be cited where it is declared.
#[derive(Drop)]
pub struct ByteStore<'a> {
    memory: Memory<'a>,
    /// Where the table of each number lies.
    regions: [Region; TABLES],
    /// The first free place.
    top: u16,
    /// How many places there are.
    places: u16,
    ghost long: { length regions ≡ 16 },
    ghost fits: { (241 * places ≤ length memory.bytes.now) × (top ≤ places) },
    ghost within: { Within top regions },
    ghost apart: { Apart regions },
    ghost sound: { Sound (byte_meaning memory.bytes.now regions (places - top)) },
}

impl<'a> ByteStore<'a> {
    /// A store with a free row for each 241 bytes, 65,535 at most, and no table.
    pub fn new(bytes: &'a mut [u8]) -> ByteStore<'a>
        ensures { byte_meaning result.memory.bytes.now result.regions (result.places - result.top) ≡ empty (min (length bytes.old / 241) 65535) }
    {
        let places = (bytes.len() / PLACE_BYTES).min(MOST_ROWS) as u16;
        ByteStore {
            memory: Memory { bytes },
            regions: [UNUSED; TABLES],
            top: 0,
            places,
        }
    }

    /// The region of a number in use.
    // Here and at the place of a row each store tests its own entry: the answer then tells of its fields (`found`), and a
    // test in the trait could tell of the meaning alone.
    fn used_region(&self, number: u8) -> Result<Region, StoreFault>
        ensures result { result ≡ answer (drop_unmet (byte_meaning self.now.memory.bytes.now self.now.regions (self.now.places - self.now.top)) number) (region self.now.regions number) }
        ensures found { IfOk result (λ x. (x ≡ region self.now.regions number) × (number < 16) × (0 < (region self.now.regions number).limit)) }
    {
        let at = number as usize;
        if at >= TABLES || self.regions[at].limit == 0 {
            return Err(StoreFault::Unused);
        }
        Ok(self.regions[at])
    }

    /// The place in memory of a row.
    fn place_of(&self, number: u8, place: usize) -> Result<usize, StoreFault>
        ensures result { result ≡ answer (row_unmet (byte_meaning self.now.memory.bytes.now self.now.regions (self.now.places - self.now.top)) number place) ((region self.now.regions number).base + place) }
        ensures found { IfOk result (λ x. (x ≡ (region self.now.regions number).base + place) × (number < 16) × (0 < (region self.now.regions number).limit) × (place < (region self.now.regions number).count)) }
    {
        let region = self.used_region(number)?;
        if place >= region.count as usize {
            return Err(StoreFault::Place);
        }
        Ok(region.base as usize + place)
    }
}

impl RowStore for ByteStore<'_> {
    ghost meaning = { λ s. byte_meaning s.memory.bytes.now s.regions (s.places - s.top) };

    ghost sound = { λ s. s.sound };

    fn free_rows(&self) -> usize {
        (self.places - self.top) as usize
    }

    fn table_size(&self, number: u8) -> Option<TableSize> {
        let region = self.used_region(number).ok()?;
        Some(TableSize {
            limit: region.limit as u8,
            rows: region.count as u8,
        })
    }

    fn row(&self, number: u8, place: usize) -> Result<&[u8], StoreFault> {
        Ok(self.memory.row(self.place_of(number, place)?))
    }

    fn make_table(&mut self, number: u8, limit: usize) -> Result<(), StoreFault> {
        self.check_make(number, limit)?;
        let base = self.top;
        let limit = limit as u16;
        self.regions[number as usize] = Region {
            base,
            limit,
            count: 0,
        };
        self.top = base + limit;
        Ok(())
    }

    fn drop_table(&mut self, number: u8) -> Result<(), StoreFault> {
        let gone = self.used_region(number)?;
        let (start, end) = (gone.base as usize, gone.end());
        let top = self.top;
        self.memory.move_down(end, start, top as usize - end);
        let mut regions = closed_up(self.regions, gone);
        regions[number as usize] = UNUSED;
        self.regions = regions;
        self.top = top - gone.limit;
        Ok(())
    }

    fn append(&mut self, number: u8, row: &[u8]) -> Result<(), StoreFault> {
        let region = self.used_region(number)?;
        let row = check_row(row)?;
        if region.count >= region.limit {
            return Err(StoreFault::Full);
        }
        let next = region.base as usize + region.count as usize;
        self.memory.store(next, row);
        self.regions[number as usize].count = region.count + 1;
        Ok(())
    }

    fn replace(&mut self, number: u8, place: usize, row: &[u8]) -> Result<(), StoreFault> {
        let at = self.place_of(number, place)?;
        let row = check_row(row)?;
        self.memory.store(at, row);
        Ok(())
    }

    fn remove(&mut self, number: u8, place: usize) -> Result<(), StoreFault> {
        let gap = self.place_of(number, place)?;
        let region = self.regions[number as usize];
        let left = region.count - 1;
        self.memory.move_down(gap + 1, gap, left as usize - place);
        self.regions[number as usize].count = left;
        Ok(())
    }
}
