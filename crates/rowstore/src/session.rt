ghost use Rattle.std.specs.Prelude.{◌≡◌, Decides};
ghost use Rattle.rowstore.specs.Runs.{answered, after, request};
ghost use Rattle.rowstore.specs.Session.{held_by, SameLoans};

use crate::call::{Answer, Call};
use crate::store::RowStore;
use rowmodel::StoreFault;

/// A store, and the area that rows are copied to.
#[derive(Drop)]
pub struct Session<'a, S> {
    pub store: &'a mut S,
    pub area: &'a mut [u8],
}

impl<S: RowStore> Session<'_, S> {
    /// Performs one call; a row that it copies goes to the front of the area.
    // A match and no closures: a call is a value, so that lists of calls can be spoken of.
    pub fn perform(&mut self, call: &Call) -> Result<Answer, StoreFault>
        ensures told { result ≡ answered (held_by S.meaning self.old) (request call.now) }
        ensures kept { held_by S.meaning self.new ≡ after (held_by S.meaning self.old) (request call.now) }
        ensures same { SameLoans self.old self.new }
    {
        let done = |()| Answer::Done;
        match *call {
            Call::Make { number, limit } => self.store.make_table(number, limit).map(done),
            Call::Drop { number } => self.store.drop_table(number).map(done),
            Call::Append { number, row } => self.store.append(number, row).map(done),
            Call::Replace { number, place, row } => {
                self.store.replace(number, place, row).map(done)
            }
            Call::Remove { number, place } => self.store.remove(number, place).map(done),
            Call::Copy { number, place } => {
                self.store
                    .copy(number, place, self.area)
                    .map(Answer::Copied)
            }
            Call::Table { number } => Ok(Answer::Size(self.store.table_size(number))),
            Call::Free => Ok(Answer::Free(self.store.free_rows())),
        }
    }

    /// Whether both areas hold the same bytes.
    pub(crate) fn same_area<R>(&self, other: &Session<R>) -> bool
        ensures { Decides result (self.now.area.now ≡ other.now.area.now) }
    {
        &*self.area == &*other.area
    }
}
