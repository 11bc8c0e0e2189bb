//! Fewer choices of one item from each of some rows.
ghost use Rattle.std.specs.Prelude.{◌≡◌, ◌<◌, ◌≤◌, ℕ, [], IfOk, get_or, length, map, min};
ghost use Rattle.std.specs.List.{AllByRecursion, AllZip};
ghost use Rattle.zarrs_chunk_base.specs.Greatest.{greatest};
ghost use Rattle.zarrs_chunk_plan.specs.Counts.{product};
ghost use Rattle.zarrs_chunk_tasks.specs.seen.Choices.{rows_of};
ghost use Rattle.zarrs_chunk_tasks.specs.seen.Thinning.{IsThinned};

use std::alloc::{AllocError, Global};

/// How many choices there are of one item from each row, up to the greatest number.
pub(crate) fn choices_of<T>(rows: &[Vec<T>]) -> u64
    ensures { result ≡ min greatest (product (map length (rows_of rows.now))) }
{
    let mut choices = 1u64;
    for row in rows {
        choices = choices.saturating_mul(row.as_slice().len() as u64);
    }
    choices
}

/// How many choices are made: `all` divided by the number of dimensions, since a choice in more dimensions takes longer; but at least one.
pub(crate) fn choices_for(all: u64, dimensions: usize) -> u64
    ensures some { 0 < result }
    ensures within { 0 < all → result ≤ all }
{
    (all / (dimensions as u64).max(1)).max(1)
}

/// Leaves out every second item of the longest row, again and again, until there are no more than `most` choices. The first item of each row stays.
///
/// # Errors
/// Out of memory.
pub(crate) fn thinned<T: Copy>(
    alloc: Global,
    mut rows: Vec<Vec<T>>,
    most: u64,
) -> Result<Vec<Vec<T>>, AllocError>
    requires some { AllByRecursion (λ row. 0 < length row) (rows_of rows.items) }
    requires most { 0 < most }
    ensures few { IfOk result (λ fewer. min greatest (product (map length (rows_of fewer.items)))
        ≤ most) }
    ensures thinned { IfOk result (λ fewer. AllZip IsThinned (rows_of rows.items)
        (rows_of fewer.items)) }
{
    while choices_of(&rows) > most {
        let longest = longest_row(&rows);
        rows[longest] = every_second(alloc, &rows[longest])?;
    }
    Ok(rows)
}

/// Which of some rows is the longest, or the first one of those.
fn longest_row<T>(rows: &[Vec<T>]) -> usize
    requires { 0 < length rows.now }
    ensures is_one { result < length rows.now }
    ensures longest { (k : ℕ) → k < length rows.now → length (get_or (rows_of rows.now) k [])
        ≤ length (get_or (rows_of rows.now) result []) }
{
    let mut longest = 0;
    for place in 1..rows.len() {
        if rows[place].as_slice().len() > rows[longest].as_slice().len() {
            longest = place;
        }
    }
    longest
}

/// Returns the first item of a row, and every second one after it.
///
/// # Errors
/// Out of memory.
fn every_second<T: Copy>(alloc: Global, row: &[T]) -> Result<Vec<T>, AllocError>
    ensures fewer { 1 < length row.now → IfOk result (λ part. length part.items < length row.now) }
    ensures thinned { IfOk result (λ part. IsThinned row.now part.items) }
{
    let mut part = Vec::new(alloc);
    for half in 0..row.len().div_ceil(2) {
        part.push(row[2 * half])?;
    }
    Ok(part)
}
