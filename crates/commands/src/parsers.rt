ghost use Rattle.std.specs.Prelude.{◌≡◌, ◌&&◌, length, Ok, Err, IfOk, MatchResult, ◌==◌, slice_index};
ghost use Rattle.fields.specs.Reader.{parameter, parameters, listed};
ghost use Rattle.fields.specs.Reads.{Reads};
ghost use Rattle.fields.specs.Entries.{entries_at};
ghost use Rattle.commands.specs.Command.{selected, permitted};
ghost use Rattle.commands.specs.Parsers.{told, parameters_of, conditions_at, selection_at, limit_at, right_at, grantee_at, only_name, permission_at, present_user_of, create_user_of, declare_cursor_of, create_view_of, create_table_of, insert_of, update_of};

use crate::command::{Command, Permission, Profile, Right, Selection};
use fields::{Entry, FieldFault, Part, Parts, Reader};
use text::is_identifier;

/// The most columns of a table, a view or a cursor.
const MOST_COLUMNS: u8 = 12;

/// The most conditions of a view or a cursor.
const MOST_CONDITIONS: u8 = 4;

/// The limit of a table that gives none.
const USUAL_LIMIT: u8 = 16;

/// How many parameters so many entries of a kind are.
// Here and not beside `Entry`, since only here a list is kept.
fn parameter_count(kind: Entry, count: u8) -> usize
    ensures { result ≡ parameters_of kind count }
{
    let count = count as usize;
    match kind {
        Entry::Name | Entry::Definition | Entry::Text => count,
        Entry::Assignment => 2 * count,
        Entry::Condition => 3 * count,
    }
}

/// So many entries of a kind, as parameters.
fn read_list<'a>(reader: &mut Reader<'a>, kind: Entry, count: u8) -> Result<Parts<'a>, FieldFault>
    ensures read { Reads (λ bs from. entries_at kind bs from 0 from count) (λ _. count) reader.old reader.new result }
    ensures list { IfOk result (λ x. listed x ≡ parameters reader.old.field.now reader.old.at (parameters_of kind count)) }
{
    let list = Parts {
        field: reader.field,
        at: reader.place(),
        count: parameter_count(kind, count),
    };
    reader.entries(kind, count)?;
    Ok(list)
}

/// Conditions, which may be left out.
#[tactic(auto, unfolding(crate::specs::Parsers::conditions_at))]
fn read_conditions<'a>(reader: &mut Reader<'a>) -> Result<Parts<'a>, FieldFault>
    ensures { Reads conditions_at listed reader.old reader.new result }
{
    if reader.is_at_end() {
        return Ok(Parts {
            field: reader.field,
            at: reader.place(),
            count: 0,
        });
    }
    let count = reader.count(0, MOST_CONDITIONS)?;
    read_list(reader, Entry::Condition, count)
}

/// An object, columns and conditions.
#[tactic(auto, unfolding(crate::specs::Parsers::selection_at))]
fn read_selection<'a>(reader: &mut Reader<'a>) -> Result<Selection<'a>, FieldFault>
    ensures { Reads selection_at selected reader.old reader.new result }
{
    let source = reader.identifier()?;
    let count = reader.count(0, MOST_COLUMNS)?;
    let columns = read_list(reader, Entry::Name, count)?;
    let conditions = read_conditions(reader)?;
    Ok(Selection {
        source,
        columns,
        conditions,
    })
}

/// A table's limit, which may be left out.
#[tactic(auto, unfolding(crate::specs::Parsers::limit_at))]
fn read_limit(reader: &mut Reader) -> Result<u8, FieldFault>
    ensures { Reads limit_at (λ n. n) reader.old reader.new result }
{
    if reader.is_at_end() {
        return Ok(USUAL_LIMIT);
    }
    let place = reader.place();
    let limit = reader.byte()?;
    if limit == 0 {
        return Err(reader.fault_at(place));
    }
    Ok(limit)
}

/// The code of a right.
#[tactic(auto, unfolding(crate::specs::Parsers::right_at))]
fn read_right(reader: &mut Reader) -> Result<Right, FieldFault>
    ensures { Reads right_at (λ r. r) reader.old reader.new result }
{
    let place = reader.place();
    let code = reader.byte()?;
    let Ok(right) = Right::try_from(code) else {
        return Err(reader.fault_at(place));
    };
    Ok(right)
}

fn is_asterisk(text: &[u8]) -> bool
    ensures { result ≡ (length text.now == 1 && slice_index text.now 0 == 42) }
{
    matches!(text, b"*")
}

/// A grantee: an id, or an asterisk for all users.
#[tactic(auto, unfolding(crate::specs::Parsers::grantee_at))]
fn read_grantee<'a>(reader: &mut Reader<'a>) -> Result<Part<'a>, FieldFault>
    ensures { Reads grantee_at parameter reader.old reader.new result }
{
    let place = reader.place();
    let grantee = reader.param()?;
    if !is_identifier(grantee.bytes) && !is_asterisk(grantee.bytes) {
        return Err(reader.fault_at(place));
    }
    Ok(grantee)
}

/// DROP TABLE and DROP VIEW: a name.
#[tactic(auto, unfolding(crate::specs::Parsers::only_name))]
pub(crate) fn parse_only_name(field: &[u8]) -> Result<Part<'_>, FieldFault>
    ensures { MatchResult result (λ p. only_name field.now ≡ Ok (parameter p)) (λ f. only_name field.now ≡ Err f) }
{
    let mut reader = Reader::new(field);
    let name = reader.identifier()?;
    reader.end()?;
    Ok(name)
}

/// GRANT and REVOKE: a right, an object and a grantee.
#[tactic(auto, unfolding(crate::specs::Parsers::permission_at))]
pub(crate) fn parse_permission(field: &[u8]) -> Result<Permission<'_>, FieldFault>
    ensures { MatchResult result (λ p. permission_at field.now ≡ Ok (permitted p)) (λ f. permission_at field.now ≡ Err f) }
{
    let mut reader = Reader::new(field);
    let place = reader.place();
    let right = read_right(&mut reader)?;
    let object = reader.identifier()?;
    let grantee = read_grantee(&mut reader)?;
    reader.end()?;
    Ok(Permission {
        place,
        right,
        object,
        grantee,
    })
}

/// PRESENT USER: a bare id.
pub(crate) fn parse_present_user(field: &[u8]) -> Result<Command<'_>, FieldFault>
    ensures { told result ≡ present_user_of field.now }
{
    let reader = Reader::new(field);
    let id = reader.rest();
    if !is_identifier(id.bytes) {
        return Err(reader.fault());
    }
    Ok(Command::PresentUser { id })
}

/// CREATE USER: an id and the text of a profile.
pub(crate) fn parse_create_user(field: &[u8]) -> Result<Command<'_>, FieldFault>
    ensures { told result ≡ create_user_of field.now }
{
    let mut reader = Reader::new(field);
    let id = reader.identifier()?;
    let fault = reader.fault();
    let text = reader.param()?;
    let profile = Profile::try_from(text.bytes).map_err(|_| fault)?;
    reader.end()?;
    Ok(Command::CreateUser { id, profile })
}

/// DECLARE CURSOR: a selection.
pub(crate) fn parse_declare_cursor(field: &[u8]) -> Result<Command<'_>, FieldFault>
    ensures { told result ≡ declare_cursor_of field.now }
{
    let mut reader = Reader::new(field);
    let selection = read_selection(&mut reader)?;
    reader.end()?;
    Ok(Command::DeclareCursor { selection })
}

/// CREATE VIEW: a name and a selection.
pub(crate) fn parse_create_view(field: &[u8]) -> Result<Command<'_>, FieldFault>
    ensures { told result ≡ create_view_of field.now }
{
    let mut reader = Reader::new(field);
    let name = reader.identifier()?;
    let definition = reader.rest().bytes;
    let selection = read_selection(&mut reader)?;
    reader.end()?;
    Ok(Command::CreateView {
        name,
        definition,
        selection,
    })
}

/// CREATE TABLE: a name, columns and a limit.
pub(crate) fn parse_create_table(field: &[u8]) -> Result<Command<'_>, FieldFault>
    ensures { told result ≡ create_table_of field.now }
{
    let mut reader = Reader::new(field);
    let name = reader.identifier()?;
    let start = reader.place();
    let count = reader.count(1, MOST_COLUMNS)?;
    let columns = read_list(&mut reader, Entry::Definition, count)?;
    let definition = reader.since(start);
    let limit = read_limit(&mut reader)?;
    reader.end()?;
    Ok(Command::CreateTable {
        name,
        definition,
        columns,
        limit,
    })
}

/// INSERT: a table, a count and strings.
pub(crate) fn parse_insert(field: &[u8]) -> Result<Command<'_>, FieldFault>
    ensures { told result ≡ insert_of field.now }
{
    let mut reader = Reader::new(field);
    let table = reader.identifier()?;
    let place = reader.place();
    let row = reader.rest().bytes;
    let count = reader.count(0, u8::MAX)?;
    let strings = read_list(&mut reader, Entry::Text, count)?;
    reader.end()?;
    Ok(Command::Insert {
        table,
        count: place,
        strings,
        row,
    })
}

/// UPDATE: columns, each with a string.
pub(crate) fn parse_update(field: &[u8]) -> Result<Command<'_>, FieldFault>
    ensures { told result ≡ update_of field.now }
{
    let mut reader = Reader::new(field);
    let count = reader.count(1, MOST_COLUMNS)?;
    let assignments = read_list(&mut reader, Entry::Assignment, count)?;
    reader.end()?;
    Ok(Command::Update { assignments })
}
