ghost use Rattle.std.specs.Prelude.{◌≡◌, [], ◌∷◌, MatchOption};
ghost use Rattle.std.specs.Iterator.{at_most};
ghost use Rattle.fields.specs.Reads.{Reads};
ghost use Rattle.fields.specs.Entries.{name_at, rest_at, differ, among, entries_at};
ghost use Rattle.fields.specs.Names.{named, entry_at};
ghost use Rattle.fields.specs.declared.entries.Entry.TheVariants.{Definition};

use crate::column::read_column;
use crate::reader::{FieldFault, Reader};

/// The kinds of entries that a list in a field has.
// An enum and no closures: the definitions name the kinds, and a list would need three closures that fit together.
#[derive(Clone, Copy, PartialEq, Eq, Debug)]
pub enum Entry {
    /// A column, by its name.
    Name,
    /// A column of a new table.
    Definition,
    /// A column and a string for it.
    Assignment,
    /// A column, an operator and a string.
    Condition,
    /// A string.
    Text,
}

impl Entry {
    /// Whether no column may come twice in the list.
    fn columns_differ(self) -> bool
        ensures { result ≡ differ self }
    {
        match self {
            Entry::Name | Entry::Definition | Entry::Assignment => true,
            Entry::Condition | Entry::Text => false,
        }
    }
}

impl<'a> Reader<'a> {
    /// The name of a column of a new table.
    #[tactic(auto, unfolding(crate::specs::Entries::name_at))]
    fn defined_name(&mut self) -> Result<&'a [u8], FieldFault>
        ensures { Reads (name_at Definition) (λ n. n.now) self.old self.new result }
    {
        let place = self.at;
        let part = self.param()?;
        let Some(column) = read_column(part.bytes) else {
            return Err(self.fault_at(place));
        };
        Ok(column.name)
    }

    /// The name of the column that an entry speaks of.
    // A hint alone: every entry is read by it, and again for each entry behind it.
    #[inline]
    #[tactic(auto, unfolding(crate::specs::Entries::name_at))]
    fn entry_name(&mut self, kind: Entry) -> Result<&'a [u8], FieldFault>
        ensures { Reads (name_at kind) (λ n. n.now) self.old self.new result }
    {
        match kind {
            Entry::Name | Entry::Assignment | Entry::Condition => {
                let column = self.identifier()?;
                Ok(column.bytes)
            }
            Entry::Definition => self.defined_name(),
            Entry::Text => Ok(&[]),
        }
    }

    /// What an entry has behind the name: nothing, a string, or an operator and a string.
    #[tactic(auto, unfolding(crate::specs::Entries::rest_at))]
    fn entry_rest(&mut self, kind: Entry) -> Result<(), FieldFault>
        ensures { Reads (rest_at kind) (λ _. 0) self.old self.new result }
    {
        match kind {
            Entry::Name | Entry::Definition => {}
            Entry::Assignment | Entry::Text => {
                self.param()?;
            }
            Entry::Condition => {
                self.operator()?;
                self.param()?;
            }
        }
        Ok(())
    }
}

/// The names that entries of a kind speak of, as far as the entries can be read.
#[derive(Drop, Debug)]
struct Names<'a> {
    reader: Reader<'a>,
    kind: Entry,
    count: u8,
}

impl<'a> Iterator for Names<'a> {
    type Item = &'a [u8];

    ghost next_gives = { λ s r t. MatchOption r (named s ≡ []) (λ n. named s ≡ n.now ∷ named t) };

    ghost remaining = { λ s. at_most s.count };

    fn next(&mut self) -> Option<&'a [u8]> {
        if self.count == 0 {
            return None;
        }
        let Ok(name) = self.reader.entry_name(self.kind) else {
            return None;
        };
        self.count = match self.reader.entry_rest(self.kind) {
            Ok(()) => self.count - 1,
            Err(_) => 0,
        };
        Some(name)
    }
}

impl Names<'_> {
    /// Whether a name is among them.
    fn have(mut self, name: &[u8]) -> bool
        ensures { result ≡ among name.now (named self.entry) }
    {
        self.any(|earlier| earlier == name)
    }
}

impl Reader<'_> {
    /// An entry of the kind of those before it; a column that may not come again is at fault.
    #[tactic(auto, unfolding(crate::specs::Names::entry_at))]
    fn entry(&mut self, earlier: Names<'_>) -> Result<(), FieldFault>
        ensures { Reads (entry_at earlier.entry.kind (named earlier.entry)) (λ _. 0) self.old self.new result }
    {
        let kind = earlier.kind;
        let place = self.at;
        let name = self.entry_name(kind)?;
        if kind.columns_differ() && earlier.have(name) {
            return Err(self.fault_at(place));
        }
        self.entry_rest(kind)
    }

    /// So many entries of a kind.
    pub fn entries(&mut self, kind: Entry, count: u8) -> Result<(), FieldFault>
        ensures { Reads (λ bs from. entries_at kind bs from 0 from count) (λ _. count) self.old self.new result }
    {
        let from = self.at;
        // By number, since each entry is judged by those before it, of which there are `i`.
        for i in 0..count {
            let reader = Reader {
                field: self.field,
                at: from,
            };
            let earlier = Names {
                reader,
                kind,
                count: i,
            };
            self.entry(earlier)?;
        }
        Ok(())
    }
}
