ghost use Rattle.std.specs.Prelude.{◌≡◌, ◌+◌, ◌≤◌, ◌++◌, length, take, drop};
ghost use Rattle.cells.specs.Form.{encoded, encoded_cell, RoundTrip};
ghost use Rattle.cells.specs.Source.{new_cells};
ghost use Rattle.cells.specs.Write.{measured, fitted, with_row};

use crate::form::CellBytes;
use crate::source::Source;

/// The most cells that a count byte can tell.
const MOST_CELLS: usize = 255;

/// Writes a cell with its length byte from a place on, and tells the place after it.
fn put_cell(area: &mut [u8], place: usize, cell: CellBytes) -> usize
    requires { place + 1 + length cell.bytes.now ≤ length area.old }
    ensures end { result ≡ place + 1 + length cell.entry.bytes.now }
    ensures written { take result area.new ≡ take place area.old ++ encoded_cell cell.entry.bytes.now }
    ensures kept { drop result area.new ≡ drop result area.old }
{
    let from = place + 1;
    let end = from + cell.bytes.len();
    area[place] = cell.bytes.len() as u8;
    area[from..end].copy_from_slice(cell.bytes);
    end
}

/// A new row: the command and the old row, and what supplies each cell from them.
#[derive(Clone, Copy, PartialEq, Eq, Debug)]
pub struct NewRow<'a> {
    pub command: &'a [u8],
    pub old: &'a [u8],
    pub sources: &'a [Source],
}

impl NewRow<'_> {
    /// The length of the row's form; None where there are more cells than a count byte can tell.
    pub fn measure(&self) -> Option<usize>
        ensures { result ≡ measured self.now.command.now self.now.old.now self.now.sources.now }
    {
        if self.sources.len() > MOST_CELLS {
            return None;
        }
        let cells: usize = self
            .sources
            .iter()
            .enumerate()
            .map(|(column, source)| 1 + source.cell(self.command, self.old, column).bytes.len())
            .sum();
        Some(1 + cells)
    }

    /// Writes the row's form to the front of an area, and tells its length; None, and no byte is written, where it
    /// does not fit or has no form.
    pub fn write(&self, area: &mut [u8]) -> Option<usize>
        ensures result { result ≡ fitted (length area.old) (measured self.now.command.now self.now.old.now self.now.sources.now) }
        ensures after { area.new ≡ with_row area.old (encoded (new_cells self.now.command.now self.now.old.now self.now.sources.now)) result }
        ensures lawful { RoundTrip }
    {
        let n = self.measure()?;
        if n > area.len() {
            return None;
        }
        area[0] = self.sources.len() as u8;
        let mut end = 1;
        for (column, source) in self.sources.iter().enumerate() {
            end = put_cell(area, end, source.cell(self.command, self.old, column));
        }
        Some(n)
    }
}
