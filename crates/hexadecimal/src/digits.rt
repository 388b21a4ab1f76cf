ghost use Rattle.std.specs.Prelude.{◌≡◌, ◌<◌, IfOk, vec_items};
ghost use Rattle.std.specs.Option.{option_map, unwrap_or};
ghost use Rattle.hexadecimal.specs.Digits.{value, decoded};

use std::alloc::{AllocError, Global};

/// The value of a digit, in capitals or not.
fn digit(c: u8) -> Option<u8>
    ensures value { result ≡ value c }
    ensures small { unwrap_or result 0 < 16 }
{
    char::from(c).to_digit(16).map(|value| value as u8)
}

/// The bytes that a text says, two digits to a byte, with blanks anywhere; nothing where it has another character
/// or one digit too many.
// The kit's decoder takes no blanks.
pub fn decode(heap: Global, text: &[u8]) -> Result<Option<Vec<u8>>, AllocError>
    ensures { IfOk result (λ o. option_map vec_items o ≡ decoded text.now) }
{
    let mut bytes = Vec::new(heap);
    let mut high: Option<u8> = None;
    for &c in text {
        if c == b' ' || c == b'\t' {
            continue;
        }
        let Some(low) = digit(c) else {
            return Ok(None);
        };
        match high {
            None => high = Some(low),
            Some(first) => {
                bytes.push(16 * first + low)?;
                high = None;
            }
        }
    }
    if high.is_some() {
        return Ok(None);
    }
    Ok(Some(bytes))
}
