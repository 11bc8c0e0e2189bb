//! The search by halving.
ghost use Rattle.std.specs.Prelude.{◌≡◌, ◌+◌, ◌<◌, ℕ, Bool, cond, min};
ghost use Rattle.zarrs_chunk_base.specs.Greatest.{greatest};
ghost use Rattle.zarrs_chunk_runs.specs.Search.{IsCounted, IsFirstTrue, StaysTrue};

/// Truths at places that are numbered from 0 on. They are asked for one at a time, and the questions are counted.
pub trait Probe {
    /// How many places there are.
    ghost extent: { Self → ℕ };

    /// The truth at each place.
    ghost truth: { Self → ℕ → Bool };

    /// How many questions have been counted; 18446744073709551615 means that many or more.
    ghost asked: { Self → ℕ };

    /// How many places there are.
    fn places(&self) -> usize
        ensures { result ≡ extent self.now };

    /// The truth at a place, which counts as one question.
    fn above(&mut self, place: usize) -> bool
        requires { place < extent self.old }
        ensures answer { result ≡ truth self.old place }
        ensures places { extent self.new ≡ extent self.old }
        ensures truths { truth self.new ≡ truth self.old }
        ensures counted { asked self.new ≡ min (asked self.old + 1) greatest };
}

/// The first place whose truth is true, or how many places there are where none is.
///
/// It halves the places that are left with each question.
pub fn first_above<P: Probe>(probe: &mut P) -> usize
    requires { StaysTrue (P.extent probe.old) (P.truth probe.old) }
    ensures found { IsFirstTrue (P.extent probe.old) (P.truth probe.old) result }
    ensures places { P.extent probe.new ≡ P.extent probe.old }
    ensures truths { P.truth probe.new ≡ P.truth probe.old }
    ensures counted { IsCounted (P.extent probe.old) (P.asked probe.old) (P.asked probe.new) }
{
    let mut low = 0;
    let mut left = probe.places();
    while left > 0 {
        let middle = low + left / 2;
        let above = probe.above(middle);
        low = either(above, low, middle + 1);
        // Those below the middle are left, or those past it.
        left = either(above, left, left - 1) / 2;
    }
    low
}

/// The first number where the condition holds, and else the second. Both are at hand, so the processor needs no branch to choose: in a search
/// it would guess wrong every other time.
fn either(condition: bool, first: usize, second: usize) -> usize
    ensures { result ≡ cond condition first second }
{
    if condition { first } else { second }
}
