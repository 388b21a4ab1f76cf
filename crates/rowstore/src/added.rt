ghost use Rattle.std.specs.Prelude.{◌≡◌, ◌-◌, true, length, MatchResult};
ghost use Rattle.rowmodel.specs.Meaning.{table, rows_of, row_at};
ghost use Rattle.rowmodel.specs.Needs.{answer, row_unmet, append_unmet};
ghost use Rattle.rowmodel.specs.Calls.{after_append, lent};
ghost use Rattle.rowstore.specs.Added.{Added};

use crate::store::RowStore;
use rowmodel::StoreFault;

/// The last row of a table.
pub fn last_row<S: RowStore>(store: &S, number: u8) -> Result<&[u8], StoreFault>
    ensures { lent result ≡ answer (row_unmet (S.meaning store.now) number (length (rows_of (table (S.meaning store.now) number)) - 1)) (row_at (S.meaning store.now) number (length (rows_of (table (S.meaning store.now) number)) - 1)) }
{
    let size = store.table_size(number).ok_or(StoreFault::Unused)?;
    store.row(number, usize::from(size.rows).saturating_sub(1))
}

/// Adds a row at the end, and tells whether it is then the last row: it always is, and every other row of every
/// table is as it was.
pub fn append_and_look<S: RowStore>(
    store: &mut S,
    number: u8,
    row: &[u8],
) -> Result<bool, StoreFault>
    ensures result { result ≡ answer (append_unmet (S.meaning store.old) number row.now) true }
    ensures after { S.meaning store.new ≡ after_append (S.meaning store.old) number row.now }
    ensures added { MatchResult result (λ _. Added (S.meaning store.old) number row.now (S.meaning store.new)) (λ _. S.meaning store.new ≡ S.meaning store.old) }
{
    store.append(number, row)?;
    Ok(last_row(store, number)? == row)
}
