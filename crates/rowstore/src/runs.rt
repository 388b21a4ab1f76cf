ghost use Rattle.std.specs.Prelude.{◌≡◌, map, Decides};
ghost use Rattle.rowstore.specs.Runs.{request, answered, after, reply, run, replies, StayEqual};
ghost use Rattle.rowstore.specs.Session.{held_by, SameLoans};
ghost use Rattle.rowstore.specs.Both.{left_of, right_of, is_same};

use crate::call::{Both, Call};
use crate::session::Session;
use crate::store::RowStore;

/// Performs one call on two stores. Two stores of equal meaning reply alike, and are of equal meaning afterwards.
pub fn perform_both<L: RowStore, R: RowStore>(
    left: &mut Session<L>,
    right: &mut Session<R>,
    call: &Call,
) -> Both
    ensures left_told { left_of result ≡ answered (held_by L.meaning left.old) (request call.now) }
    ensures left_kept { held_by L.meaning left.new ≡ after (held_by L.meaning left.old) (request call.now) }
    ensures left_same { SameLoans left.old left.new }
    ensures right_told { right_of result ≡ answered (held_by R.meaning right.old) (request call.now) }
    ensures right_kept { held_by R.meaning right.new ≡ after (held_by R.meaning right.old) (request call.now) }
    ensures right_same { SameLoans right.old right.new }
    ensures told { Decides (is_same result) (reply (held_by L.meaning left.old) (request call.now) ≡ reply (held_by R.meaning right.old) (request call.now)) }
    ensures equal { StayEqual (held_by L.meaning left.old) (held_by R.meaning right.old) (is_same result) (held_by L.meaning left.new) (held_by R.meaning right.new) }
{
    let one = left.perform(call);
    let other = right.perform(call);
    if one == other && left.same_area(right) {
        Both::Same(one)
    } else {
        Both::Differ {
            left: one,
            right: other,
        }
    }
}

/// Performs a list of calls on two stores, and tells whether every reply was the same.
pub fn same_replies<L: RowStore, R: RowStore>(
    left: &mut Session<L>,
    right: &mut Session<R>,
    calls: &[Call],
) -> bool
    ensures left { held_by L.meaning left.new ≡ run (held_by L.meaning left.old) (map request calls.now) }
    ensures left_same { SameLoans left.old left.new }
    ensures right { held_by R.meaning right.new ≡ run (held_by R.meaning right.old) (map request calls.now) }
    ensures right_same { SameLoans right.old right.new }
    ensures told { Decides result (replies (held_by L.meaning left.old) (map request calls.now) ≡ replies (held_by R.meaning right.old) (map request calls.now)) }
    ensures equal { StayEqual (held_by L.meaning left.old) (held_by R.meaning right.old) result (held_by L.meaning left.new) (held_by R.meaning right.new) }
{
    let mut same = true;
    for call in calls {
        if let Both::Differ { .. } = perform_both(left, right, call) {
            same = false;
        }
    }
    same
}
