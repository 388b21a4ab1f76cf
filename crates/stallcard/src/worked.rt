//! Worked examples of the rules.
ghost use Rattle.std.specs.Prelude.{◌≡◌, true};
ghost use Rattle.stallcard.specs.Worked.{Worked};

/// The worked examples hold of the definition, all of them.
pub fn worked_examples_hold() -> bool
    ensures law { Worked }
    ensures stands { result ≡ true }
{
    true
}
