//! How often searches compare.
ghost use Rattle.std.specs.Prelude.{◌≤◌};
ghost use Rattle.zarrs_chunk_base.specs.Greatest.{greatest};

/// How many comparisons of a sought number with a running sum have been made; 18446744073709551615 means that many or more.
#[derive(Debug, Drop)]
pub struct Comparisons {
    count: u64,
    ghost fits: { count ≤ greatest },
}

impl Comparisons {
    ghost use Rattle.std.specs.Prelude.{◌≡◌, ◌+◌, min};
    ghost use Rattle.zarrs_chunk_runs.specs.seen.Comparisons.{count_of};

    /// None yet.
    pub fn new() -> Comparisons
        ensures { count_of result ≡ 0 }
    {
        Comparisons { count: 0 }
    }

    /// How many have been made.
    pub fn count(&self) -> u64
        ensures { result ≡ count_of self.now }
    {
        self.count
    }

    /// Counts one more.
    pub(crate) fn add_one(&mut self)
        ensures { count_of self.new ≡ min (count_of self.old + 1) greatest }
    {
        self.count = self.count.saturating_add(1);
    }
}
