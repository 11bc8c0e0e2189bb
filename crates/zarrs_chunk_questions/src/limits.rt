//! How many items of a walk or of a plan are given, and how many tasks.
ghost use Rattle.std.specs.Prelude.{◌≡◌, ◌==◌, ◌+◌, ◌*◌, ◌<◌, min};

/// How many items are given.
#[derive(Drop)]
pub(crate) struct Limits {
    /// At most so many.
    pub(crate) most: u64,
    /// The texts of so many items are together longer than there is room for.
    pub(crate) too_many: u128,
}

impl Limits {
    /// The limits of at most so many items, where so many bytes have room and each item has so many lists of so many numbers. The text of a number has
    /// a digit and what follows it, and that of an item one byte more.
    pub(crate) fn new(most: u64, lists: u8, width: usize, room: usize) -> Limits
        ensures most { result.most ≡ most }
        ensures full { room < result.too_many * (2 * (lists * width) + 1) }
    {
        let least = 2 * (lists as u128 * width as u128) + 1;
        Limits {
            most,
            too_many: room as u128 / least + 1,
        }
    }

    /// How many items there are to be made: all that are given, or as many as are too many.
    pub(crate) fn wanted(&self) -> u64
        ensures { result ≡ min self.now.most self.now.too_many }
    {
        (self.most as u128).min(self.too_many) as u64
    }

    /// Whether so many items are too many.
    pub(crate) fn is_too_many(&self, count: usize) -> bool
        ensures { result ≡ (count == self.now.too_many) }
    {
        self.too_many == count as u128
    }
}
