//! How many numbers in equal steps are multiples of another one.
ghost use Rattle.std.specs.Prelude.{◌≡◌, ◌+◌, ◌-◌, ◌*◌, ◌/◌, ◌<◌, ◌≤◌, min};
ghost use Rattle.std.specs.Int.NonZero.{non_zero_u64_get};
ghost use Rattle.zarrs_chunk_base.specs.Greatest.{greatest};
ghost use Rattle.zarrs_chunk_tasks.specs.seen.Multiples.{in_ranges, multiples};

use std::num::NonZeroU64;

/// Counts the chunks of an edge that hold some of `many` ranges of a length, one after another, the first of which begins at `start`: a chunk in each range.
///
/// A range that doesn't begin with a chunk meets the last one of the range before it.
pub(crate) fn chunks_of_ranges(edge: NonZeroU64, long: u64, start: u64, many: u64) -> u64
    requires long { 0 < long }
    requires some { 0 < many }
    requires fits { start + many * long ≤ greatest }
    ensures { result ≡ min (in_ranges (non_zero_u64_get edge) long start many) greatest }
{
    let end = start + many * long;
    let whole = multiples_among(edge, long, start + long, many);
    (many - whole).saturating_add(end / edge - start / edge)
}

/// Counts the multiples of a number among `many` numbers: `first`, `first + step`, `first + 2 * step` and so on.
///
/// It takes the steps of Euclid's algorithm: a number of these is a multiple of `of` exactly where that multiple of `of` is one of `step`, counted from
/// `first` on.
pub(crate) fn multiples_among(of: NonZeroU64, step: u64, first: u64, many: u64) -> u64
    ensures { result ≡ multiples (non_zero_u64_get of) step first many }
{
    let mut of = of;
    let mut step = step % of;
    let mut first = first % of;
    let mut many = many;
    while let Some(rest) = NonZeroU64::new(step) {
        // How far behind the first number the first multiple lies.
        let behind = (of.get() - first) % of;
        many = reached(of, step, behind, many);
        step = of.get() % rest;
        first = behind % rest;
        of = rest;
    }
    if first == 0 { many } else { 0 }
}

/// How many multiples of a number are passed by `many` steps, the first of which lies `behind` the first step.
fn reached(of: NonZeroU64, step: u64, behind: u64, many: u64) -> u64
    requires step { step < non_zero_u64_get of }
    requires behind { behind < non_zero_u64_get of }
    ensures { result ≡ (many * step + (non_zero_u64_get of - 1 - behind)) / non_zero_u64_get of }
{
    let steps = u128::from(many) * u128::from(step);
    ((steps + u128::from(of.get() - 1 - behind)) / u128::from(of.get())) as u64
}
