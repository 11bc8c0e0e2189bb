//! A choice of one size of groups for each dimension, which costs the least.
ghost use Rattle.std.specs.Prelude.{◌≡◌, ◌++◌, ◌<◌, ◌↔◌, [], ◌∷◌, IfOk, IfSome, IsTrue, MatchOption, None, Some};
ghost use Rattle.std.specs.List.{AllByRecursion};
ghost use Rattle.zarrs_chunk_tasks.specs.declared.sizes.Size.{Size};
ghost use Rattle.zarrs_chunk_tasks.specs.seen.Choices.{FindsCheapest, IsBelow, bound_after, first_of, rows_of};

use crate::sizes::Size;
use std::alloc::{AllocError, Global};
use std::num::NonZeroU64;

/// A choice of one size for each dimension.
#[derive(Drop)]
pub(crate) struct Choice {
    /// How many chunks a group joins, from the last dimension to the first one.
    pub(crate) each: Vec<NonZeroU64>,
    /// What it costs, up to the greatest number.
    pub(crate) cost: u128,
}

/// Returns the cheapest choice of a size from each row, if it costs less than the bound. Its largest buffer has at most `room` elements. Along the dimensions
/// before, `read` chunks are read and `decoded` elements are decoded. One read is worth `worth` elements. A cost is a number of elements. `None` if no choice
/// that fits costs less than the bound. Memory is taken only for a choice that costs less than the choices before it.
///
/// # Errors
/// Out of memory.
pub(crate) fn cheapest_choice(
    alloc: Global,
    rows: &[Vec<Size>],
    room: u64,
    worth: u64,
    read: u128,
    decoded: u128,
    bound: Option<u128>,
) -> Result<Option<Choice>, AllocError>
    requires { AllByRecursion (AllByRecursion (λ (s : Size). 0 < s.largest)) (rows_of rows.now) }
    ensures { IfOk result (FindsCheapest (rows_of rows.now) room worth read decoded bound) }
{
    let Some((row, rows)) = rows.split_first() else {
        return Ok(of_no_rows(alloc, room, worth, read, decoded, bound));
    };
    let mut best = None;
    for size in row {
        // If the size alone is too large, nothing in the other rows fits.
        if size.largest <= room {
            let left = room / size.largest;
            let in_read = read.saturating_mul(u128::from(size.chunks));
            let in_decoded = decoded.saturating_mul(size.elements);
            let below = cost_or(&best, bound);
            let found = cheapest_choice(alloc, rows, left, worth, in_read, in_decoded, below)?;
            best = first(with_size(found, size.each)?, best);
        }
    }
    Ok(best)
}

/// The choice from no rows: its buffer has one element. It has no numbers, so nothing is allocated.
fn of_no_rows(
    alloc: Global,
    room: u64,
    worth: u64,
    read: u128,
    decoded: u128,
    bound: Option<u128>,
) -> Option<Choice>
    ensures { FindsCheapest [] room worth read decoded bound result }
{
    let cost = read
        .saturating_mul(u128::from(worth))
        .saturating_add(decoded);
    if room == 0 || !is_below(bound, cost) {
        return None;
    }
    Some(Choice {
        each: Vec::new(alloc),
        cost,
    })
}

/// Whether a cost is less than a bound, if there is one.
pub(crate) fn is_below(bound: Option<u128>, cost: u128) -> bool
    ensures { IsTrue result ↔ IsBelow bound cost }
{
    match bound {
        Some(most) => cost < most,
        None => true,
    }
}

/// The cost of the best choice, or the bound if no choice is found yet.
fn cost_or(best: &Option<Choice>, bound: Option<u128>) -> Option<u128>
    ensures { result ≡ bound_after bound best.now }
{
    match best {
        Some(best) => Some(best.cost),
        None => bound,
    }
}

/// A choice, with the size of a row before.
///
/// # Errors
/// Out of memory.
fn with_size(found: Option<Choice>, each: NonZeroU64) -> Result<Option<Choice>, AllocError>
    ensures none { found ≡ None → IfOk result (λ with. with ≡ None) }
    ensures some { IfSome found (λ before. IfOk result (λ with. MatchOption with ⊥ (λ after.
        (after.each.items ≡ before.each.items ++ each ∷ []) × (after.cost ≡ before.cost)))) }
{
    let Some(mut choice) = found else {
        return Ok(None);
    };
    choice.each.push(each)?;
    Ok(Some(choice))
}

/// The first of two choices, or the second one if there is no first.
fn first(found: Option<Choice>, best: Option<Choice>) -> Option<Choice>
    ensures { result ≡ first_of found best }
{
    match found {
        Some(found) => Some(found),
        None => best,
    }
}
