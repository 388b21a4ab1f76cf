//! What a user is told.
ghost use Rattle.std.specs.Prelude.{◌≡◌, true};
ghost use Rattle.secrecy.specs.Secrecy.{Secrecy};

/// Two cards that show a user the same are not told apart by any list of commands, and keep what it does not see.
pub fn only_sight_is_told() -> bool
    ensures law { Secrecy }
    ensures stands { result ≡ true }
{
    true
}
