ghost use Rattle.std.specs.Prelude.{◌≡◌};
ghost use Rattle.commands.specs.declared.parse.CommandFault.TheVariants.{Envelope as InEnvelope, Field as InField};
ghost use Rattle.commands.specs.Inside.{Inside};
ghost use Rattle.commands.specs.Parse.{command_of, parsed, understood};
ghost use Rattle.commands.specs.Parsers.{told};

use crate::command::Command;
use crate::parsers::{
    parse_create_table, parse_create_user, parse_create_view, parse_declare_cursor, parse_insert,
    parse_only_name, parse_permission, parse_present_user, parse_update,
};
use apdu::{Envelope, EnvelopeFault, Operation, open_envelope};
use fields::FieldFault;
use thiserror::Error;

/// Why a command is not understood, and by which layer.
#[derive(Clone, Copy, PartialEq, Eq, Debug, Error)]
pub enum CommandFault {
    #[error(transparent)]
    Envelope(EnvelopeFault),
    #[error(transparent)]
    Field(FieldFault),
}

// These two are written out because a derived `From` promises nothing of the variant that it makes.
impl From<EnvelopeFault> for CommandFault {
    ghost from_gives = { λ e r. r ≡ InEnvelope e };

    fn from(fault: EnvelopeFault) -> CommandFault {
        CommandFault::Envelope(fault)
    }
}

impl From<FieldFault> for CommandFault {
    ghost from_gives = { λ e r. r ≡ InField e };

    fn from(fault: FieldFault) -> CommandFault {
        CommandFault::Field(fault)
    }
}

/// What an opened envelope says.
// A match and no table of parsers: some operations have no field to parse, and none can be left out.
fn parse_field(envelope: Envelope<'_>) -> Result<Command<'_>, FieldFault>
    ensures { told result ≡ command_of envelope.entry.operation envelope.entry.field.now envelope.entry.le }
{
    let field = envelope.field;
    let le = envelope.le;
    match envelope.operation {
        Operation::PresentUser => parse_present_user(field),
        Operation::CreateUser => parse_create_user(field),
        Operation::CreateTable => parse_create_table(field),
        Operation::CreateView => parse_create_view(field),
        Operation::DropTable => parse_only_name(field).map(|name| Command::DropTable { name }),
        Operation::DropView => parse_only_name(field).map(|name| Command::DropView { name }),
        Operation::Grant => parse_permission(field).map(|permission| Command::Grant { permission }),
        Operation::Revoke => parse_permission(field).map(|permission| Command::Revoke {
            permission,
        }),
        Operation::DeclareCursor => parse_declare_cursor(field),
        Operation::Open => Ok(Command::Open),
        Operation::Next => Ok(Command::Next),
        Operation::Fetch => Ok(Command::Fetch { le }),
        Operation::FetchNext => Ok(Command::FetchNext { le }),
        Operation::Insert => parse_insert(field),
        Operation::Update => parse_update(field),
        Operation::Delete => Ok(Command::Delete),
    }
}

/// Understands the bytes of a command that is given with an answer area of so many bytes.
pub fn parse_command(command: &[u8], area: usize) -> Result<Command<'_>, CommandFault>
    ensures result { understood result ≡ parsed command.now area }
    ensures inside { Inside command.now (understood result) }
{
    let envelope = open_envelope(command, area)?;
    Ok(parse_field(envelope)?)
}
