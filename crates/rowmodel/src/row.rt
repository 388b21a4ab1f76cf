ghost use Rattle.std.specs.Prelude.{◌<◌, ◌≤◌, length};

/// A row that may be kept: it has 1 to 240 bytes.
#[derive(Clone, Copy, PartialEq, Eq, Debug)]
pub struct KeptRow<'a> {
    pub bytes: &'a [u8],
    pub ghost some: { 0 < length bytes.now },
    pub ghost short: { length bytes.now ≤ 240 },
}
