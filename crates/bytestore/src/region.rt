ghost use Rattle.std.specs.Prelude.{◌≡◌, ◌+◌, map};
ghost use Rattle.bytestore.specs.Region.{lowered};

use rowmodel::TABLES;

/// Where a table lies: `limit` places from place `base` on, of which the first `count` hold rows.
/// The limit of an unused number is 0.
// Not `Option<Region>`: a limit of 0 says it already, and `Some` of a limit of 0 would have to be ruled out.
#[derive(Clone, Copy, PartialEq, Eq, Debug)]
pub(crate) struct Region {
    pub base: u16,
    pub limit: u16,
    pub count: u16,
}

/// The region of an unused number.
pub(crate) const UNUSED: Region = Region {
    base: 0,
    limit: 0,
    count: 0,
};

impl Region {
    /// The place after its last one.
    pub(crate) fn end(self) -> usize
        ensures { result ≡ self.base + self.limit }
    {
        self.base as usize + self.limit as usize
    }

    /// The region once the places of `gone` are closed up: if it lies past them, it moves down by their number.
    fn lowered(self, gone: Region) -> Region
        ensures { result ≡ lowered gone self }
    {
        if (self.base as usize) < gone.end() {
            return self;
        }
        Region {
            base: self.base - gone.limit,
            ..self
        }
    }
}

/// The regions once the places of `gone` are closed up.
// A loop and no `map`, which takes an array apart element by element: dropping a small table took twice the time.
pub(crate) fn closed_up(mut regions: [Region; TABLES], gone: Region) -> [Region; TABLES]
    ensures { result ≡ map (lowered gone) regions }
{
    for region in regions.iter_mut() {
        *region = region.lowered(gone);
    }
    regions
}
