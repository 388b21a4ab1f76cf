//! An example of each cause.
ghost use Rattle.std.specs.Prelude.{◌≡◌, true};
ghost use Rattle.stallcard.specs.Causes.{Caused};

/// Each cause is given where its example says, with its word, layer and place.
pub fn every_cause_has_its_example() -> bool
    ensures law { Caused }
    ensures stands { result ≡ true }
{
    true
}
