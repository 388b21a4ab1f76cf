ghost use Rattle.std.specs.Prelude.{◌≡◌, ◌-◌, length, take, drop, nat_lt, not};
ghost use Rattle.fields.specs.Reader.{parameter, param_at, count_at, identifier_at, byte_at, operator_at};
ghost use Rattle.fields.specs.Reads.{Reads, end_at};

use text::{Operator, is_identifier};
use thiserror::Error;

/// A field breaks its form at this offset of the command.
#[derive(Clone, Copy, PartialEq, Eq, Debug, Error)]
#[error("the field breaks its form")]
pub struct FieldFault {
    pub place: usize,
}

/// A parameter: a part of the command, and the offset of its length byte.
#[derive(Clone, Copy, PartialEq, Eq, Debug)]
pub struct Part<'a> {
    pub place: usize,
    pub bytes: &'a [u8],
}

/// Parameters that stand one behind the other in a field, from a position on.
// A position and a count, and no list: a card has no heap, and how far the parameters reach is seen when they are read.
#[derive(Clone, Copy, PartialEq, Eq, Debug)]
pub struct Parts<'a> {
    pub field: &'a [u8],
    pub at: usize,
    pub count: usize,
}

/// The offset of the first data byte.
pub const DATA: usize = 5;

/// Reads a field, a command up to the end of its data, from left to right. Its position is the offset of what it
/// reads next, or, after a fault, of what is at fault; the fault holds that place too.
#[derive(Drop, Debug)]
pub struct Reader<'a> {
    pub field: &'a [u8],
    pub at: usize,
}

impl<'a> Reader<'a> {
    pub fn new(field: &'a [u8]) -> Reader<'a>
        ensures field { result.field.now ≡ field.now }
        ensures at { result.at ≡ 5 }
    {
        Reader { field, at: DATA }
    }

    /// The position.
    pub fn place(&self) -> usize
        ensures { result ≡ self.now.at }
    {
        self.at
    }

    /// The fault at the position.
    pub fn fault(&self) -> FieldFault
        ensures { result.place ≡ self.now.at }
    {
        FieldFault { place: self.at }
    }

    /// The fault at a place, at which the reader then stands.
    // Of a parameter that was read, and does not say what it should. A reader that took a closure to judge it would be
    // public, as `commands` reads so too, and would have a `requires`, as no public function.
    pub fn fault_at(&mut self, place: usize) -> FieldFault
        ensures fault { result.place ≡ place }
        ensures at { self.new.at ≡ place }
        ensures same { self.new.field.now ≡ self.old.field.now }
    {
        self.at = place;
        self.fault()
    }

    /// A length byte and as many bytes.
    #[tactic(auto, unfolding(crate::specs::Reader::param_at))]
    pub fn param(&mut self) -> Result<Part<'a>, FieldFault>
        ensures { Reads param_at parameter self.old self.new result }
    {
        let place = self.at;
        let field = self.field;
        let Some(&len) = field.get(place) else {
            return Err(self.fault_at(field.len()));
        };
        let len = usize::from(len);
        let from = place + 1;
        if field.len() - from < len {
            return Err(self.fault_at(field.len()));
        }
        let end = from + len;
        self.at = end;
        Ok(Part {
            place,
            bytes: &field[from..end],
        })
    }

    /// A count byte from `least` to `most`.
    #[tactic(auto, unfolding(crate::specs::Reader::count_at))]
    pub fn count(&mut self, least: u8, most: u8) -> Result<u8, FieldFault>
        ensures { Reads (λ bs. count_at bs least most) (λ n. n) self.old self.new result }
    {
        let Some(&count) = self.field.get(self.at) else {
            return Err(self.fault_at(self.field.len()));
        };
        if count < least || count > most {
            return Err(self.fault());
        }
        self.at += 1;
        Ok(count)
    }

    /// An identifier.
    #[tactic(auto, unfolding(crate::specs::Reader::identifier_at))]
    pub fn identifier(&mut self) -> Result<Part<'a>, FieldFault>
        ensures { Reads identifier_at parameter self.old self.new result }
    {
        let place = self.at;
        let part = self.param()?;
        if !is_identifier(part.bytes) {
            return Err(self.fault_at(place));
        }
        Ok(part)
    }

    /// A parameter of one byte.
    #[tactic(auto, unfolding(crate::specs::Reader::byte_at))]
    pub fn byte(&mut self) -> Result<u8, FieldFault>
        ensures { Reads byte_at (λ n. n) self.old self.new result }
    {
        let place = self.at;
        let part = self.param()?;
        if part.bytes.len() != 1 {
            return Err(self.fault_at(place));
        }
        Ok(part.bytes[0])
    }

    /// The code of an operator.
    #[tactic(auto, unfolding(crate::specs::Reader::operator_at))]
    pub fn operator(&mut self) -> Result<Operator, FieldFault>
        ensures { Reads operator_at (λ o. o) self.old self.new result }
    {
        let place = self.at;
        let code = self.byte()?;
        let Ok(operator) = Operator::try_from(code) else {
            return Err(self.fault_at(place));
        };
        Ok(operator)
    }

    /// Whether nothing is left over.
    pub fn is_at_end(&self) -> bool
        ensures { result ≡ not (nat_lt self.now.at (length self.now.field.now)) }
    {
        self.at >= self.field.len()
    }

    /// Refuses where something is left over.
    pub fn end(&self) -> Result<(), FieldFault>
        ensures { Reads end_at (λ _. 0) self.now self.now result }
    {
        if !self.is_at_end() {
            return Err(self.fault());
        }
        Ok(())
    }

    /// All that is left, as one parameter without a length byte.
    pub fn rest(&self) -> Part<'a>
        ensures { parameter result ≡ record { place = self.now.at; bytes = drop self.now.at self.now.field.now } }
    {
        Part {
            place: self.at,
            bytes: self.field.get(self.at..).unwrap_or(&[]),
        }
    }

    /// What was read since a position.
    pub fn since(&self, from: usize) -> &'a [u8]
        ensures { result.now ≡ take (self.now.at - from) (drop from self.now.field.now) }
    {
        let field = self.field;
        let end = self.at.min(field.len());
        let start = from.min(end);
        &field[start..end]
    }
}
