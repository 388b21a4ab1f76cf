ghost use Rattle.std.specs.Prelude.{◌≡◌};
ghost use Rattle.text.specs.Identifier.{later, identifies};

/// The most bytes that an identifier has.
pub const MOST_BYTES: usize = 8;

/// Whether a byte may stand behind the first of an identifier.
fn is_later(byte: u8) -> bool
    ensures { result ≡ later byte }
{
    byte.is_ascii_uppercase() || byte.is_ascii_digit() || byte == b'_'
}

/// Whether bytes are an identifier: a capital letter, then up to seven capitals, digits or underscores.
pub fn is_identifier(bytes: &[u8]) -> bool
    ensures { result ≡ identifies bytes.now }
{
    match bytes {
        [first, behind @ ..] if bytes.len() <= MOST_BYTES => {
            first.is_ascii_uppercase() && behind.iter().all(|&c| is_later(c))
        }
        _ => false,
    }
}
