//! What answers depend on.
ghost use Rattle.std.specs.Prelude.{◌≡◌, true};
ghost use Rattle.secrecy.specs.Locality.{Locality};

/// Two cards that are equal as far as their user reaches answer every command alike, and stay so.
pub fn answers_are_local() -> bool
    ensures law { Locality }
    ensures stands { result ≡ true }
{
    true
}
