//! Running sums that are compared with a number.
ghost use Rattle.std.specs.Prelude.{length};
ghost use Rattle.std.specs.List.Sorted.{IsNonDecreasingBy};
ghost use Rattle.zarrs_chunk_runs.specs.Search.{IsCounted};
ghost use Rattle.zarrs_chunk_runs.specs.lemmas.Running.{IsFirstAbove};
ghost use Rattle.zarrs_chunk_runs.specs.seen.Comparisons.{count_of};

use crate::comparisons::Comparisons;
use crate::search::{Probe, first_above};
use std::mem;

/// The place of the first sum that is greater than a number, or how many sums there are where none is.
pub(crate) fn first_greater(sums: &[u64], sought: u64, comparisons: &mut Comparisons) -> usize
    requires { IsNonDecreasingBy (λ x. x) sums.now }
    ensures first { IsFirstAbove sums.now sought result }
    ensures counted { IsCounted (length sums.now)
        (count_of comparisons.old) (count_of comparisons.new) }
{
    // The probe takes the counter and gives it back: of one that it only borrows, nothing would be known after the search.
    let mut probe = RunningSums {
        sums,
        sought,
        comparisons: mem::replace(comparisons, Comparisons::new()),
    };
    let place = first_above(&mut probe);
    *comparisons = probe.comparisons;
    place
}

/// Running sums, a sought number, and the counter of the comparisons. The truth at a place is that its sum is greater.
#[derive(Drop)]
struct RunningSums<'a> {
    sums: &'a [u64],
    sought: u64,
    comparisons: Comparisons,
}

impl Probe for RunningSums<'_> {
    ghost use Rattle.zarrs_chunk_runs.specs.seen.RunningSums.{compared};

    ghost extent = { λ probe. length probe.sums.now };

    ghost truth = { λ probe. compared probe.sums.now probe.sought };

    ghost asked = { λ probe. count_of probe.comparisons };

    fn places(&self) -> usize {
        self.sums.len()
    }

    fn above(&mut self, place: usize) -> bool {
        self.comparisons.add_one();
        self.sought < self.sums[place]
    }
}
