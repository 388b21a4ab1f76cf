//! Unique columns.
ghost use Rattle.std.specs.Prelude.{◌≡◌, true};
ghost use Rattle.cardlaws.specs.Uniqueness.{UniqueValues};

/// A unique column never holds a value twice, whatever was accepted.
pub fn unique_values_stay_unique() -> bool
    ensures law { UniqueValues }
    ensures stands { result ≡ true }
{
    true
}
