ghost use Rattle.std.specs.Prelude.{◌≡◌, [], ◌∷◌, MatchOption};
ghost use Rattle.fields.specs.Reader.{parameter, listed};
ghost use Rattle.std.specs.Iterator.{at_most};

use crate::reader::{Part, Parts, Reader};

/// The parameters, from the first to the last.
impl<'a> Iterator for Parts<'a> {
    type Item = Part<'a>;

    ghost next_gives = { λ s r t. MatchOption r (listed s ≡ []) (λ p. listed s ≡ parameter p ∷ listed t) };

    ghost remaining = { λ s. at_most s.count };

    fn next(&mut self) -> Option<Part<'a>> {
        if self.count == 0 {
            return None;
        }
        let mut reader = Reader {
            field: self.field,
            at: self.at,
        };
        let part = reader.param().ok()?;
        self.at = reader.at;
        self.count -= 1;
        Some(part)
    }
}
