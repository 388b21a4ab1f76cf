//! A card with nobody registered.
ghost use Rattle.std.specs.Prelude.{◌≡◌, true};
ghost use Rattle.cardmodel.specs.Nobody.{NobodyServed};

/// A card with nobody registered refuses every command, as does one that was issued although the check said no.
pub fn nobody_is_served_unregistered() -> bool
    ensures law { NobodyServed }
    ensures stands { result ≡ true }
{
    true
}
