/// `size` slots, from `head` on, each linked to the next; the first `count` of them hold rows.
// Not `Option<Chain>`: a size of 0 says that a number has none, and `Some` of a size of 0 would have to be ruled out.
#[derive(Clone, Copy, PartialEq, Eq, Debug)]
pub(crate) struct Chain {
    pub(crate) head: u16,
    pub(crate) size: u16,
    pub(crate) count: u16,
}

impl Chain {
    /// The chain of no slots.
    pub(crate) const NONE: Chain = Chain {
        head: 0,
        size: 0,
        count: 0,
    };
}
