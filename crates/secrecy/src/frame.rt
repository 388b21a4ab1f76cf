//! What commands leave alone.
ghost use Rattle.std.specs.Prelude.{◌≡◌, true};
ghost use Rattle.secrecy.specs.Frame.{Frame};

/// A table that the current user does not reach, itself or through a view, keeps its rows exactly.
pub fn unreached_tables_keep_their_rows() -> bool
    ensures law { Frame }
    ensures stands { result ≡ true }
{
    true
}
