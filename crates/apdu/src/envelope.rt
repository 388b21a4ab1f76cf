ghost use Rattle.std.specs.Prelude.{◌≡◌, ◌+◌, IfSome, IfOk, if◌then◌else◌, nat_eq};
ghost use Rattle.apdu.specs.Envelope.{body_of, expected, fits, opened, envelope, Within, Fitting};

use crate::operation::Operation;
use thiserror::Error;

/// Why bytes are no command that a card takes.
#[derive(Clone, Copy, PartialEq, Eq, Debug, Error)]
pub enum EnvelopeFault {
    /// The answer area has under 255 bytes.
    #[error("the answer area is under 255 bytes")]
    Area,
    /// The bytes have not the form of a command.
    #[error("not a command")]
    NoApdu,
    /// CLA is not '00'.
    #[error("CLA is not 00")]
    Class,
    /// INS is neither '10' nor '14'.
    #[error("INS is unknown")]
    Instruction,
    /// P1 is not '00'.
    #[error("P1 is not 00")]
    P1,
    /// P2 names no operation of that INS.
    #[error("P2 is unknown")]
    P2,
    /// Data or Le is missing or unwanted.
    #[error("data or Le is missing or unwanted")]
    Shape,
}

/// The least length of an answer area.
pub const LEAST_AREA: usize = 255;

/// How many data bytes follow the header, and the byte Le.
#[derive(Clone, Copy, PartialEq, Eq, Debug)]
struct Body {
    // No Option: 0 is the true number where there are no data, since Lc is at least 1.
    len: u8,
    le: Option<u8>,
}

/// A command whose envelope is right.
#[derive(Clone, Copy, PartialEq, Eq, Debug)]
pub struct Envelope<'a> {
    pub operation: Operation,
    /// The command up to the end of its data.
    pub field: &'a [u8],
    /// The length that the command expects: 0 where it says none.
    // No Option: a command without Le expects no bytes, and with Le at least 1.
    pub le: u16,
}

/// Reads what follows the header.
fn read_body(command: &[u8]) -> Option<Body>
    ensures result { result ≡ body_of command.now }
    ensures sized { IfSome result (λ b. Fitting command.now b) }
{
    match command {
        [_, _, _, _] => Some(Body { len: 0, le: None }),
        [_, _, _, _, le] => Some(Body {
            len: 0,
            le: Some(*le),
        }),
        [_, _, _, _, 0, ..] => None,
        [_, _, _, _, lc, data @ ..] if data.len() == *lc as usize => Some(Body {
            len: *lc,
            le: None,
        }),
        [_, _, _, _, lc, data @ .., le] if data.len() == *lc as usize => Some(Body {
            len: *lc,
            le: Some(*le),
        }),
        _ => None,
    }
}

impl Body {
    /// Whether the body carries what the operation wants.
    fn is_wanted_by(self, operation: Operation) -> bool
        ensures { result ≡ fits operation self }
    {
        operation.carries_data() == (self.len != 0) && operation.carries_le() == self.le.is_some()
    }

    /// Where the field ends: behind the header, or behind the data.
    fn field_end(self) -> usize
        ensures { result ≡ (if nat_eq self.len 0 then 4 else 5 + self.len) }
    {
        if self.len == 0 {
            4
        } else {
            5 + self.len as usize
        }
    }

    /// The length that Le says: '00' is 256.
    fn expected_length(self) -> u16
        ensures { result ≡ expected self.le }
    {
        match self.le {
            None => 0,
            Some(0) => 256,
            Some(n) => n as u16,
        }
    }
}

/// Opens the envelope of a command that is given with an answer area of so many bytes.
// The area's length is asked here alone, and nothing keeps it beside the command, so the two make no type.
pub fn open_envelope(command: &[u8], area: usize) -> Result<Envelope<'_>, EnvelopeFault>
    ensures result { envelope result ≡ opened command.now area }
    ensures within { IfOk result (λ e. Within command.now e.operation e.field.now) }
{
    if area < LEAST_AREA {
        return Err(EnvelopeFault::Area);
    }
    let [cla, ins, p1, p2, ..] = *command else {
        return Err(EnvelopeFault::NoApdu);
    };
    let body = read_body(command).ok_or(EnvelopeFault::NoApdu)?;
    if cla != 0x00 {
        return Err(EnvelopeFault::Class);
    }
    if !matches!(ins, 0x10 | 0x14) {
        return Err(EnvelopeFault::Instruction);
    }
    if p1 != 0x00 {
        return Err(EnvelopeFault::P1);
    }
    let operation = Operation::of(ins, p2).ok_or(EnvelopeFault::P2)?;
    if !body.is_wanted_by(operation) {
        return Err(EnvelopeFault::Shape);
    }
    Ok(Envelope {
        operation,
        field: &command[..body.field_end()],
        le: body.expected_length(),
    })
}
