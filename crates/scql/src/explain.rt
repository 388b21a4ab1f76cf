//! Commands in words.
ghost use Rattle.std.specs.Iterator.{IsFinite, UpTo};
ghost use Rattle.std.specs.Prelude.{◌-◌, ◌^◌};

use crate::words::{Quoted, Shown};
use commands::{Command, Permission, Selection};
use fields::{Part, Parts, read_column};
use std::fmt;
use text::Operator;

/// A command that was understood, to be told in words.
#[derive(Drop)]
pub struct Explained<'a> {
    pub command: Command<'a>,
}

impl fmt::Display for Explained<'_> {
    fn fmt<W: fmt::Write>(&self, f: &mut fmt::Formatter<W>) -> fmt::Result {
        match self.command {
            Command::PresentUser { id } => tell(f, "PRESENT USER ", id),
            Command::CreateUser { id, profile } => {
                tell(f, "CREATE USER ", id)?;
                write!(f, " as {profile}")
            }
            Command::CreateTable {
                name,
                columns,
                limit,
                ..
            } => {
                tell(f, "CREATE TABLE ", name)?;
                write!(f, ", at most {limit} rows: ")?;
                tell_columns(f, columns)
            }
            Command::CreateView {
                name,
                selection,
                ..
            } => {
                tell(f, "CREATE VIEW ", name)?;
                tell_selection(f, selection)
            }
            Command::DropTable { name } => tell(f, "DROP TABLE ", name),
            Command::DropView { name } => tell(f, "DROP VIEW ", name),
            Command::Grant { permission } => tell_permission(f, "GRANT ", permission, " to "),
            Command::Revoke { permission } => tell_permission(f, "REVOKE ", permission, " from "),
            Command::DeclareCursor { selection } => {
                f.write_str("DECLARE CURSOR")?;
                tell_selection(f, selection)
            }
            Command::Open => f.write_str("OPEN"),
            Command::Next => f.write_str("NEXT"),
            Command::Fetch { le } => write!(f, "FETCH up to {le} bytes"),
            Command::FetchNext { le } => write!(f, "FETCH NEXT up to {le} bytes"),
            Command::Insert { table, strings, .. } => {
                tell(f, "INSERT into ", table)?;
                tell_strings(f, strings)
            }
            Command::Update { assignments } => {
                f.write_str("UPDATE ")?;
                tell_assignments(f, assignments)
            }
            Command::Delete => f.write_str("DELETE"),
        }
    }
}

fn tell<W: fmt::Write>(f: &mut fmt::Formatter<W>, words: &str, name: Part) -> fmt::Result {
    let name = Shown { bytes: name.bytes };
    write!(f, "{words}{name}")
}

fn tell_string<W: fmt::Write>(f: &mut fmt::Formatter<W>, string: Part) -> fmt::Result {
    let string = Quoted {
        bytes: string.bytes,
    };
    write!(f, "{string}")
}

/// Writes the items of a list, with `opening` before the first and `between` before each other.
fn tell_list<T: Drop, I: Iterator<Item = T> + Drop, W: fmt::Write, F>(
    f: &mut fmt::Formatter<W>,
    opening: &str,
    between: &str,
    items: I,
    mut tell_item: F,
) -> fmt::Result
where
    F: FnMut(&mut fmt::Formatter<W>, T) -> fmt::Result,
    requires can { I.can_next items }
    requires ends { IsFinite (I.remaining items) }
    requires few { UpTo (I.remaining items) (2 ^ 64 - 1) }
    requires tells { F.IsAlwaysCallable tell_item }
{
    // The first is known by its number: a text that the loop changes would need an invariant that it is one.
    for (i, item) in items.enumerate() {
        f.write_str(if i == 0 { opening } else { between })?;
        tell_item(f, item)?;
    }
    Ok(())
}

fn tell_column<W: fmt::Write>(f: &mut fmt::Formatter<W>, part: Part) -> fmt::Result {
    let Some(column) = read_column(part.bytes) else {
        return Ok(());
    };
    let name = Shown { bytes: column.name };
    let longest = column.longest;
    if column.unique {
        write!(f, "{name} (unique, up to {longest} bytes)")
    } else {
        write!(f, "{name} (up to {longest} bytes)")
    }
}

fn tell_columns<W: fmt::Write>(f: &mut fmt::Formatter<W>, columns: Parts) -> fmt::Result {
    tell_list(f, "", ", ", columns, tell_column)
}

fn tell_selection<W: fmt::Write>(f: &mut fmt::Formatter<W>, selection: Selection) -> fmt::Result {
    let Selection {
        source,
        columns,
        conditions,
    } = selection;
    tell(f, " on ", source)?;
    tell_names(f, columns)?;
    tell_conditions(f, conditions)
}

fn tell_names<W: fmt::Write>(f: &mut fmt::Formatter<W>, columns: Parts) -> fmt::Result {
    if columns.count == 0 {
        return f.write_str(": all columns");
    }
    tell_list(f, ": ", ", ", columns, |f, column| tell(f, "", column))
}

/// The operator whose code is a parameter of one byte.
fn operator_of(code: Part) -> Option<Operator> {
    match code.bytes {
        [code] => Operator::try_from(*code).ok(),
        _ => None,
    }
}

fn tell_condition<W: fmt::Write>(
    f: &mut fmt::Formatter<W>,
    column: Part,
    code: Part,
    string: Part,
) -> fmt::Result {
    tell(f, "", column)?;
    match operator_of(code) {
        Some(operator) => write!(f, " {operator} ")?,
        None => f.write_str(" ? ")?,
    }
    tell_string(f, string)
}

fn tell_conditions<W: fmt::Write>(f: &mut fmt::Formatter<W>, conditions: Parts) -> fmt::Result {
    let mut parts = conditions;
    tell_list(f, " where ", " and ", 0..conditions.count / 3, |f, _| {
        match (parts.next(), parts.next(), parts.next()) {
            (Some(column), Some(code), Some(string)) => tell_condition(f, column, code, string),
            _ => Ok(()),
        }
    })
}

fn tell_permission<W: fmt::Write>(
    f: &mut fmt::Formatter<W>,
    words: &str,
    permission: Permission,
    whom: &str,
) -> fmt::Result {
    let right = permission.right;
    write!(f, "{words}{right}")?;
    tell(f, " on ", permission.object)?;
    match permission.grantee.bytes {
        b"*" => write!(f, "{whom}all users"),
        _ => tell(f, whom, permission.grantee),
    }
}

fn tell_strings<W: fmt::Write>(f: &mut fmt::Formatter<W>, strings: Parts) -> fmt::Result {
    let count = strings.count;
    let noun = if count == 1 { "string" } else { "strings" };
    write!(f, ": {count} {noun}")?;
    tell_list(f, ": ", ", ", strings, tell_string)
}

fn tell_assignment<W: fmt::Write>(
    f: &mut fmt::Formatter<W>,
    column: Part,
    string: Part,
) -> fmt::Result {
    tell(f, "", column)?;
    f.write_str(" to ")?;
    tell_string(f, string)
}

fn tell_assignments<W: fmt::Write>(f: &mut fmt::Formatter<W>, assignments: Parts) -> fmt::Result {
    let mut parts = assignments;
    tell_list(f, "", ", ", 0..assignments.count / 2, |f, _| {
        match (parts.next(), parts.next()) {
            (Some(column), Some(string)) => tell_assignment(f, column, string),
            _ => Ok(()),
        }
    })
}
