//! What every card keeps.
ghost use Rattle.std.specs.Prelude.{◌≡◌, true};
ghost use Rattle.cardlaws.specs.Soundness.{AlwaysSound};

/// Every card that commands make is sound: names are unique, views have their tables, rows their columns, and the rest.
pub fn every_card_is_sound() -> bool
    ensures law { AlwaysSound }
    ensures stands { result ≡ true }
{
    true
}
