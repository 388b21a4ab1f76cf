//! An example of each guard.
ghost use Rattle.std.specs.Prelude.{◌≡◌, true};
ghost use Rattle.stallcard.specs.Guards.{Guarded};

/// Each guard of the rules answers as its example says: what is barred, hidden, unknown, uninvited or dropped.
pub fn every_guard_has_its_example() -> bool
    ensures law { Guarded }
    ensures stands { result ≡ true }
{
    true
}
