ghost use Rattle.std.specs.Prelude.{◌≡◌, Some};
ghost use Rattle.std.specs.Result.{result_ok};
ghost use Rattle.text.specs.Decodes.{Decodes};
ghost use Rattle.commands.specs.Codes.{profile_of, right_of, profile_word, right_word};

use crate::command::{Profile, Right};
use std::fmt;
use thiserror::Error;

/// A text that names no profile.
#[derive(Clone, Copy, PartialEq, Eq, Debug, Error)]
#[error("no profile has that name")]
pub struct UnknownProfile;

/// The profile that a text names.
impl TryFrom<&[u8]> for Profile {
    type Error = UnknownProfile;

    ghost try_from_gives = { λ text r. result_ok r ≡ profile_of text.now };

    fn try_from(text: &[u8]) -> Result<Profile, UnknownProfile> {
        match text {
            b"DBOO" => Ok(Profile::ObjectOwner),
            b"DBBU" => Ok(Profile::BasicUser),
            _ => Err(UnknownProfile),
        }
    }
}

/// The text that names the profile.
// Written out here and below, since a derived `Display` promises no words.
impl fmt::Display for Profile {
    ghost output = { λ p. Some (profile_word p) };

    ghost styled_output = { λ p _. Some (profile_word p) };

    fn fmt<W: fmt::Write>(&self, f: &mut fmt::Formatter<W>) -> fmt::Result {
        f.write_str(match self {
            Profile::ObjectOwner => "DBOO",
            Profile::BasicUser => "DBBU",
        })
    }
}

/// A code that no right has.
#[derive(Clone, Copy, PartialEq, Eq, Debug, Error)]
#[error("no right has the code {0:02X}")]
pub struct UnknownRight(pub u8);

/// The right of a code.
impl TryFrom<u8> for Right {
    type Error = UnknownRight;

    ghost try_from_gives = { Decodes right_of (λ e. e.0) };

    fn try_from(code: u8) -> Result<Right, UnknownRight> {
        match code {
            0x41 => Ok(Right::Insert),
            0x42 => Ok(Right::Select),
            0x44 => Ok(Right::Update),
            0x48 => Ok(Right::Delete),
            0x4F => Ok(Right::All),
            _ => Err(UnknownRight(code)),
        }
    }
}

/// The word of the right.
impl fmt::Display for Right {
    ghost output = { λ r. Some (right_word r) };

    ghost styled_output = { λ r _. Some (right_word r) };

    fn fmt<W: fmt::Write>(&self, f: &mut fmt::Formatter<W>) -> fmt::Result {
        f.write_str(match self {
            Right::Insert => "INSERT",
            Right::Select => "SELECT",
            Right::Update => "UPDATE",
            Right::Delete => "DELETE",
            Right::All => "ALL",
        })
    }
}
