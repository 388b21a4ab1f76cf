//! What stored definitions say.
ghost use Rattle.std.specs.Prelude.{◌≡◌, true};
ghost use Rattle.cardlaws.specs.Definitions.{DefinitionsSay};

/// What a stored definition says is what the command said that created the object.
pub fn definitions_say_what_was_said() -> bool
    ensures law { DefinitionsSay }
    ensures stands { result ≡ true }
{
    true
}
