//! Bytes as people read them.
use std::fmt;

/// Bytes of ASCII text, as they are; a byte that does not print is a question mark.
#[derive(Drop)]
pub struct Shown<'a> {
    pub bytes: &'a [u8],
}

impl fmt::Display for Shown<'_> {
    fn fmt<W: fmt::Write>(&self, f: &mut fmt::Formatter<W>) -> fmt::Result {
        for byte in self.bytes {
            f.write_char(if is_printing(*byte) {
                char::from(*byte)
            } else {
                '?'
            })?;
        }
        Ok(())
    }
}

fn is_printing(byte: u8) -> bool {
    byte == b' ' || byte.is_ascii_graphic()
}

/// A string: text between double quotes, or hexadecimal digits between single ones.
#[derive(Drop)]
pub struct Quoted<'a> {
    pub bytes: &'a [u8],
}

impl Quoted<'_> {
    /// Whether the string can stand between double quotes.
    fn is_text(&self) -> bool {
        self.bytes
            .iter()
            .all(|byte| is_printing(*byte) && *byte != b'"')
    }
}

impl fmt::Display for Quoted<'_> {
    fn fmt<W: fmt::Write>(&self, f: &mut fmt::Formatter<W>) -> fmt::Result {
        if self.is_text() {
            let text = Shown { bytes: self.bytes };
            return write!(f, "\"{text}\"");
        }
        f.write_char('\'')?;
        // As `rowplay` writes a row; a type for both would be longer than the loop.
        for byte in self.bytes {
            write!(f, "{byte:02X}")?;
        }
        f.write_char('\'')
    }
}

/// The bytes of a command, one of them in brackets; or, where the place is the one behind the last, empty brackets.
#[derive(Drop)]
pub struct Marked<'a> {
    pub bytes: &'a [u8],
    pub place: Option<usize>,
}

impl fmt::Display for Marked<'_> {
    fn fmt<W: fmt::Write>(&self, f: &mut fmt::Formatter<W>) -> fmt::Result {
        for (i, byte) in self.bytes.iter().enumerate() {
            if i > 0 {
                f.write_char(' ')?;
            }
            if self.place == Some(i) {
                write!(f, "[{byte:02X}]")?;
            } else {
                write!(f, "{byte:02X}")?;
            }
        }
        if self.place == Some(self.bytes.len()) {
            f.write_str(" []")?;
        }
        Ok(())
    }
}
