//! Shares of a plan.
ghost use Rattle.std.specs.Prelude.{◌≡◌, ◌<◌, ◌≤◌, ◌+◌, ◌-◌, ◌^◌, ℕ, MatchOption, min};

use crate::shares::numbered_chunks::{count_of, long_count};

/// One of several shares of a plan. Each is an interval of it; they are equally long, up to one, and together they are the plan.
#[derive(Debug, Clone, Copy)]
pub struct Share {
    /// Which one it is, counted from 0.
    pub number: u64,
    /// How many there are.
    pub of: u64,
    ghost one_of: { number < of },
}

impl Share {
    ghost use Rattle.zarrs_chunk_plan.specs.Counted.{counted};
    ghost use Rattle.zarrs_chunk_plan.specs.Counts.{product};
    ghost use Rattle.zarrs_chunk_plan.specs.Shares.{before_share};

    /// The share with this number, counted from 0, of so many; `None` where there is no such.
    pub fn new(number: u64, of: u64) -> Option<Share>
        ensures { MatchOption result (of ≤ number)
            (λ share. (share.number ≡ number) × (share.of ≡ of)) }
    {
        if number < of {
            Some(Share { number, of })
        } else {
            None
        }
    }

    /// The one share that is the whole plan.
    pub fn whole() -> Share
        ensures number { result.number ≡ 0 }
        ensures of { result.of ≡ 1 }
    {
        Share { number: 0, of: 1 }
    }

    /// The numbers of the share's lines, in a plan that has as many lines as the product of these numbers: from the first one on up to the second,
    /// which isn't among them. `None` for a number past 18446744073709551615.
    pub fn line_numbers(&self, lines: &[u64]) -> (Option<u64>, Option<u64>)
        ensures first { result.0
            ≡ counted (before_share self.now.number self.now.of (product lines.now)) }
        ensures end { result.1
            ≡ counted (before_share (self.now.number + 1) self.now.of (product lines.now)) }
    {
        let count = long_count(lines);
        let end = match Share::new(self.number + 1, self.of) {
            Some(next) => next.lines_before(count),
            None => count_of(lines),
        };
        (self.lines_before(count), end)
    }

    /// How many lines come before the share; `None` past 18446744073709551615. Of a plan of more lines than 128 bits count, `count` is the greatest
    /// such number.
    pub(crate) fn lines_before(&self, count: u128) -> Option<u64>
        ensures { (all : ℕ) → count ≡ min all (2 ^ 128 - 1)
            → result ≡ counted (before_share self.now.number self.now.of all) }
    {
        let (number, of) = (self.number as u128, self.of as u128);
        let whole = (count / of).checked_mul(number)?;
        let before = whole.checked_add(count % of * number / of)?;
        if before <= u64::MAX as u128 {
            Some(before as u64)
        } else {
            None
        }
    }
}
