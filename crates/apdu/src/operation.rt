ghost use Rattle.std.specs.Prelude.{◌≡◌};
ghost use Rattle.apdu.specs.Operation.{operation_of, carries_data, carries_le};

/// The operations of a card.
#[derive(Clone, Copy, PartialEq, Eq, Debug)]
pub enum Operation {
    PresentUser,
    CreateUser,
    CreateTable,
    CreateView,
    DropTable,
    DropView,
    Grant,
    Revoke,
    DeclareCursor,
    Open,
    Next,
    Fetch,
    FetchNext,
    Insert,
    Update,
    Delete,
}

impl Operation {
    /// The operation of an instruction and its second parameter.
    // Two bytes that the card judges one after the other are no one value to convert, so this is no `TryFrom`.
    pub fn of(ins: u8, p2: u8) -> Option<Operation>
        ensures { result ≡ operation_of ins p2 }
    {
        match (ins, p2) {
            (0x14, 0x80) => Some(Operation::PresentUser),
            (0x14, 0x81) => Some(Operation::CreateUser),
            (0x10, 0x80) => Some(Operation::CreateTable),
            (0x10, 0x81) => Some(Operation::CreateView),
            (0x10, 0x83) => Some(Operation::DropTable),
            (0x10, 0x84) => Some(Operation::DropView),
            (0x10, 0x85) => Some(Operation::Grant),
            (0x10, 0x86) => Some(Operation::Revoke),
            (0x10, 0x87) => Some(Operation::DeclareCursor),
            (0x10, 0x88) => Some(Operation::Open),
            (0x10, 0x89) => Some(Operation::Next),
            (0x10, 0x8A) => Some(Operation::Fetch),
            (0x10, 0x8B) => Some(Operation::FetchNext),
            (0x10, 0x8C) => Some(Operation::Insert),
            (0x10, 0x8D) => Some(Operation::Update),
            (0x10, 0x8E) => Some(Operation::Delete),
            _ => None,
        }
    }

    /// Whether a command of this operation has data.
    pub fn carries_data(self) -> bool
        ensures { result ≡ carries_data self }
    {
        !matches!(
            self,
            Operation::Open
                | Operation::Next
                | Operation::Fetch
                | Operation::FetchNext
                | Operation::Delete
        )
    }

    /// Whether a command of this operation has a length that it expects.
    pub fn carries_le(self) -> bool
        ensures { result ≡ carries_le self }
    {
        matches!(self, Operation::Fetch | Operation::FetchNext)
    }
}
