//! Plays a script on two stores side by side.
ghost use Rattle.std.specs.Prelude.{◌<◌, length, IfOk, OnSome};
ghost use Rattle.std.specs.Bool.{⊤};

use crate::line::{Line, LineFault, read_line};
use crate::say::Said;
use bytestore::{ByteStore, PLACE_BYTES};
use rowmodel::{MOST_ROWS, ROW_BYTES};
use rowstore::{Both, Call, RowStore, Session, perform_both};
use script::{Program, at_line};
use slotstore::{Slot, SlotStore};
use std::alloc::Global;
use std::io;
use std::io::Write;

/// The two stores that a script is played on.
#[derive(Drop)]
struct Stores<L, R> {
    slots: L,
    bytes: R,
}

impl<L: RowStore, R: RowStore> Stores<L, R> {
    /// Performs a call on both stores, and writes the answer, or both where they differ.
    fn answer<W: Write>(&mut self, out: &mut W, call: &Call, area: usize) -> io::Result<()> {
        // No row is longer, so that areas of this length lie on the stack and a call takes no memory.
        let n = area.min(ROW_BYTES);
        let mut slots_area = [0; ROW_BYTES];
        let mut bytes_area = [0; ROW_BYTES];
        let mut slots = Session {
            store: &mut self.slots,
            area: &mut slots_area[0..n],
        };
        let mut bytes = Session {
            store: &mut self.bytes,
            area: &mut bytes_area[0..n],
        };
        match perform_both(&mut slots, &mut bytes, call) {
            Both::Same(answer) => {
                let both = Said {
                    answer,
                    area: slots.area,
                };
                writeln!(out, "{both}")
            }
            Both::Differ { left, right } => {
                let one = Said {
                    answer: left,
                    area: slots.area,
                };
                let other = Said {
                    answer: right,
                    area: bytes.area,
                };
                writeln!(out, "DIFFER: slots {one}, bytes {other}")
            }
        }
    }
}

/// A script on its way: the lines that are still to be played, and where the answers go.
#[derive(Drop)]
struct Player<'a, W> {
    heap: Global,
    out: &'a mut W,
    lines: &'a [String],
    /// How many lines were played.
    at: usize,
}

impl<W: Write> Player<'_, W> {
    /// Plays the lines up to the next new stores, and tells how many rows those have memory for.
    fn play_calls<L: RowStore + Drop, R: RowStore + Drop>(
        &mut self,
        mut stores: Option<Stores<L, R>>,
    ) -> anyhow::Result<Option<usize>>
        ensures { IfOk result (λ next. OnSome next (length self.new.lines.now < length self.old.lines.now)) }
    {
        // Lines are split off and not enumerated: how many are left is what both loops go by.
        while let Some((text, rest)) = self.lines.split_first() {
            let at = self.at;
            self.lines = rest;
            self.at = at.saturating_add(1);
            let mut row = Vec::new(self.heap);
            match read_line(self.heap, text.as_str(), &mut row) {
                Ok(None) => {}
                Ok(Some(Line::Store { rows })) => return Ok(Some(rows)),
                Ok(Some(Line::Call { call, area })) => match &mut stores {
                    Some(stores) => stores.answer(self.out, &call, area)?,
                    None => return Err(at_line(self.heap, at, &LineFault::Store)),
                },
                Err(fault) => return Err(at_line(self.heap, at, &fault)),
            }
        }
        Ok(None)
    }

    /// Makes two stores, each with memory for so many rows, and plays the lines up to the next new ones.
    fn play_stores(&mut self, rows: usize) -> anyhow::Result<Option<usize>>
        ensures { IfOk result (λ next. OnSome next (length self.new.lines.now < length self.old.lines.now)) }
    {
        let rows = rows.min(MOST_ROWS);
        let mut slots = vec![in self.heap; Slot::empty(); rows]?;
        let mut bytes = vec![in self.heap; 0u8; rows * PLACE_BYTES]?;
        let mut stores = Stores {
            slots: SlotStore::new(slots.as_mut_slice()),
            bytes: ByteStore::new(bytes.as_mut_slice()),
        };
        stores.answer(self.out, &Call::Free, 0)?;
        self.play_calls(Some(stores))
    }
}

/// Plays a script on a slot store and a byte store.
pub struct RowPlay;

impl Program for RowPlay {
    ghost played = { ⊤ };

    const NAME: &'static str = "rowplay";

    fn play<W: Write>(heap: Global, out: &mut W, lines: &[String]) -> anyhow::Result<()> {
        let mut player = Player {
            heap,
            out,
            lines,
            at: 0,
        };
        let mut next = player.play_calls(None::<Stores<SlotStore, ByteStore>>)?;
        while let Some(rows) = next {
            next = player.play_stores(rows)?;
        }
        Ok(())
    }
}
