//! What an object that is not reached is told as.
ghost use Rattle.std.specs.Prelude.{◌≡◌, true};
ghost use Rattle.cardmodel.specs.Unreached.{UnreachedAsUnknown};

/// DECLARE CURSOR does not tell an object that the user does not reach from one that is not there.
pub fn unreached_is_as_unknown() -> bool
    ensures law { UnreachedAsUnknown }
    ensures stands { result ≡ true }
{
    true
}
