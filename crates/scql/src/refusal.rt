//! Refusals in words.
use crate::words::Marked;
use apdu::EnvelopeFault;
use commands::{CommandFault, Status};
use std::fmt;

/// A command that was not understood, and why.
#[derive(Drop)]
pub struct Refusal<'a> {
    pub command: &'a [u8],
    pub fault: CommandFault,
}

/// The byte of the command that is at fault, if one is.
fn marked_place(fault: CommandFault) -> Option<usize> {
    match fault {
        CommandFault::Envelope(EnvelopeFault::Class) => Some(0),
        CommandFault::Envelope(EnvelopeFault::Instruction) => Some(1),
        CommandFault::Envelope(EnvelopeFault::P1) => Some(2),
        CommandFault::Envelope(EnvelopeFault::P2) => Some(3),
        CommandFault::Envelope(_) => None,
        CommandFault::Field(fault) => Some(fault.place),
    }
}

impl fmt::Display for Refusal<'_> {
    fn fmt<W: fmt::Write>(&self, f: &mut fmt::Formatter<W>) -> fmt::Result {
        let status = Status::from(self.fault);
        let word = status.word;
        let cause = status.cause;
        let layer = status.layer;
        let place = status.place;
        let fault = self.fault;
        let bytes = Marked {
            bytes: self.command,
            place: marked_place(self.fault),
        };
        write!(
            f,
            "{word:04X} cause {cause} layer {layer} place {place}: {fault}: {bytes}"
        )
    }
}
