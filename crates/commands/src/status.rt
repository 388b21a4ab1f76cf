ghost use Rattle.std.specs.Prelude.{◌≡◌};
ghost use Rattle.commands.specs.Status.{status};

use crate::parse::CommandFault;
use apdu::EnvelopeFault;

/// What a refusal tells: a status word, and which cause it was, in which layer, at which offset of the command, or at 0.
// Word, cause, layer and place are numbers, since a card gives them out so; the kinds behind them are `CommandFault`'s.
#[derive(Clone, Copy, PartialEq, Eq, Debug)]
pub struct Status {
    pub word: u16,
    pub cause: u8,
    pub layer: u8,
    pub place: usize,
}

fn envelope_status(word: u16, cause: u8) -> Status
    ensures { result ≡ record { word = word; cause = cause; layer = 1; place = 0 } }
{
    Status {
        word,
        cause,
        layer: 1,
        place: 0,
    }
}

/// The status of a command that is not understood.
impl From<CommandFault> for Status {
    ghost from_gives = { λ fault s. s ≡ status fault };

    fn from(fault: CommandFault) -> Status {
        match fault {
            CommandFault::Envelope(EnvelopeFault::Area) => envelope_status(0x6500, 1),
            CommandFault::Envelope(EnvelopeFault::NoApdu) => envelope_status(0x6700, 2),
            CommandFault::Envelope(EnvelopeFault::Class) => envelope_status(0x6E00, 3),
            CommandFault::Envelope(EnvelopeFault::Instruction) => envelope_status(0x6D00, 4),
            CommandFault::Envelope(EnvelopeFault::P1) => envelope_status(0x6A00, 5),
            CommandFault::Envelope(EnvelopeFault::P2) => envelope_status(0x6A81, 6),
            CommandFault::Envelope(EnvelopeFault::Shape) => envelope_status(0x6700, 7),
            CommandFault::Field(fault) => Status {
                word: 0x6A80,
                cause: 9,
                layer: 2,
                place: fault.place,
            },
        }
    }
}
