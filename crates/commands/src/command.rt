use fields::{Part, Parts};

/// The profiles that a user can be created with.
#[derive(Clone, Copy, PartialEq, Eq, Debug)]
pub enum Profile {
    /// DBOO: owns objects.
    ObjectOwner,
    /// DBBU: uses what it is granted.
    BasicUser,
}

/// The rights that a GRANT or a REVOKE names.
#[derive(Clone, Copy, PartialEq, Eq, Debug)]
pub enum Right {
    Insert,
    Select,
    Update,
    Delete,
    /// All that the object admits.
    All,
}

/// An object, columns of it (none named: all), and conditions: for each a column, an operator's code and a string.
#[derive(Clone, Copy, PartialEq, Eq, Debug)]
pub struct Selection<'a> {
    pub source: Part<'a>,
    pub columns: Parts<'a>,
    pub conditions: Parts<'a>,
}

/// What GRANT and REVOKE say. The place is that of the right's code.
#[derive(Clone, Copy, PartialEq, Eq, Debug)]
pub struct Permission<'a> {
    pub place: usize,
    pub right: Right,
    pub object: Part<'a>,
    pub grantee: Part<'a>,
}

/// A command that was understood. All that it holds are parts of the command, with their offsets.
#[derive(Clone, Copy, PartialEq, Eq, Debug)]
pub enum Command<'a> {
    PresentUser {
        id: Part<'a>,
    },
    CreateUser {
        id: Part<'a>,
        profile: Profile,
    },
    CreateTable {
        name: Part<'a>,
        definition: &'a [u8],
        columns: Parts<'a>,
        limit: u8,
    },
    CreateView {
        name: Part<'a>,
        definition: &'a [u8],
        selection: Selection<'a>,
    },
    DropTable {
        name: Part<'a>,
    },
    DropView {
        name: Part<'a>,
    },
    Grant {
        permission: Permission<'a>,
    },
    Revoke {
        permission: Permission<'a>,
    },
    DeclareCursor {
        selection: Selection<'a>,
    },
    Open,
    Next,
    Fetch {
        le: u16,
    },
    FetchNext {
        le: u16,
    },
    Insert {
        table: Part<'a>,
        count: usize,
        strings: Parts<'a>,
        row: &'a [u8],
    },
    Update {
        assignments: Parts<'a>,
    },
    Delete,
}
