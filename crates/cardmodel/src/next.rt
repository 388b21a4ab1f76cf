//! Where the cursor goes next.
ghost use Rattle.std.specs.Prelude.{◌≡◌, true};
ghost use Rattle.cardmodel.specs.Next.{NextFirst};

/// The cursor goes to the first selected row from a place on, and is told that there is none exactly if none is selected.
pub fn the_next_row_is_the_first_selected() -> bool
    ensures law { NextFirst }
    ensures stands { result ≡ true }
{
    true
}
