//! A box of indices: for each dimension a range of whole numbers.
ghost use Rattle.std.specs.Prelude.{◌≡◌, ◌+◌, ◌-◌, ◌<◌, ◌≤◌, ◌↔◌, ◌==◌, IsTrue, IfOk, MatchOption, MatchResult, length, map, replicate};
ghost use Rattle.std.specs.Cmp.Lexicographic.{pointwise};
ghost use Rattle.std.specs.Cmp.Rules.{comparing};
ghost use Rattle.std.specs.Ordering.{eq_of_both, on};
ghost use Rattle.std.proofs.Common.{rules};
ghost use Rattle.zarrs_chunk_base.specs.ArraySubset.{IsBox, IsEmptyBox, IsInside, ends, lasts, zero_box};
ghost use Rattle.zarrs_chunk_base.specs.ArraySubsetError.{IsBoxFault, IsFirstPast};
ghost use Rattle.zarrs_chunk_base.specs.Greatest.{greatest, AllFit};

use crate::array_subset_error::{ArraySubsetError, BoxEndError};
use crate::incompatible_dimensionality_error::IncompatibleDimensionalityError;
use crate::{ArrayIndices, ArrayShape};
use std::alloc::{AllocError, Global};
use std::marker::Model;
use std::ops::Range;

/// A box of indices: for each dimension a range, by its first number and how many numbers it
/// holds. No range ends past 18446744073709551615.
#[derive(Debug, Drop)]
pub struct ArraySubset {
    start: ArrayIndices,
    shape: ArrayShape,
}

impl Model for ArraySubset {
    ghost use Rattle.zarrs_chunk_base.specs.ArraySubset.{Box, IsBox};

    ghost Value = { Box };

    ghost view = { λ a. record { start = a.start.items; shape = a.shape.items } };

    ghost invariant = { λ a. IsBox (record { start = a.start.items; shape = a.shape.items }) };
}

impl ArraySubset {
    /// The box of so many ranges `0..0`. It is empty, unless there are no dimensions.
    ///
    /// # Errors
    /// Out of memory.
    pub fn new_empty(alloc: Global, dimensionality: usize) -> Result<Self, AllocError>
        ensures { IfOk result (λ subset. subset ≡ zero_box dimensionality) }
    {
        Ok(ArraySubset {
            start: zeros(alloc, dimensionality)?,
            shape: zeros(alloc, dimensionality)?,
        })
    }

    /// The box of these ranges, one a dimension. A backwards range holds nothing and keeps its
    /// start.
    ///
    /// # Errors
    /// Out of memory.
    pub fn new_with_ranges(alloc: Global, ranges: &[Range<u64>]) -> Result<Self, AllocError>
        ensures { IfOk result (λ subset. subset
            ≡ record {
              start = map (λ r. r.start) ranges.now;
              shape = map
                  (λ r. r.end - r.start) ranges.now;
            }) }
    {
        let mut start = Vec::with_capacity(alloc, ranges.len())?;
        let mut shape = Vec::with_capacity(alloc, ranges.len())?;
        for range in ranges {
            start.push(range.start)?;
            shape.push(size_of(range))?;
        }
        Ok(ArraySubset { start, shape })
    }

    /// The box of these ranges: for each dimension the first number, and how many there are.
    ///
    /// # Errors
    /// The two have different lengths, or a range ends past 18446744073709551615.
    pub fn new_with_start_shape(
        start: ArrayIndices,
        shape: ArrayShape,
    ) -> Result<Self, ArraySubsetError>
        ensures { MatchResult result (λ subset. (subset
            ≡ record { start = start.items; shape = shape.items }) × IsBox subset)
            (IsBoxFault start.items shape.items) }
    {
        if shape.len() != start.len() {
            return Err(ArraySubsetError::Lengths(IncompatibleDimensionalityError::new(
                shape.len(),
                start.len(),
            )));
        }
        if let Some(dimension) = first_past(&start, &shape) {
            return Err(ArraySubsetError::End(BoxEndError { dimension }));
        }
        Ok(ArraySubset { start, shape })
    }

    /// A law: there are as many starts as sizes, and no range ends past 18446744073709551615. Elsewhere a proof sees of a box its two lists
    /// alone, so it learns this by a call, which does nothing.
    pub fn is_a_box(&self)
        ensures { IsBox self.now }
    {
        let _ = &self.start;
    }

    /// The first number of each range.
    pub fn start(&self) -> &[u64]
        ensures value { result.now ≡ self.now.start }
        ensures is_box { IsBox self.now }
    {
        &self.start
    }

    /// How many numbers each range holds.
    pub fn shape(&self) -> &[u64]
        ensures value { result.now ≡ self.now.shape }
        ensures is_box { IsBox self.now }
    {
        &self.shape
    }

    /// The number of dimensions.
    pub fn dimensionality(&self) -> usize
        ensures { result ≡ length self.now.start }
    {
        self.start.len()
    }

    /// The first number after each range, one a dimension.
    ///
    /// # Errors
    /// Out of memory.
    pub fn end_exc(&self, alloc: Global) -> Result<Vec<u64>, AllocError>
        ensures { IfOk result (λ v. v.items ≡ ends self.now.start self.now.shape) }
    {
        let mut end = Vec::with_capacity(alloc, self.dimensionality())?;
        let ranges = self.start.iter().zip(&self.shape);
        // No sum is cut off, since no range ends past u64::MAX.
        end.extend(ranges.map(|(start, size)| start.saturating_add(*size)))?;
        Ok(end)
    }

    /// The last number of each range, one a dimension; `None` where some range is empty.
    ///
    /// # Errors
    /// Out of memory.
    pub fn end_inc(&self, alloc: Global) -> Result<Option<Vec<u64>>, AllocError>
        ensures { IfOk result (λ end. MatchOption end (IsEmptyBox self.now)
            (λ v. (¬ IsEmptyBox self.now) × (v.items ≡ lasts self.now.start self.now.shape))) }
    {
        if self.is_empty() {
            return Ok(None);
        }
        let mut end = Vec::with_capacity(alloc, self.dimensionality())?;
        let ranges = self.start.iter().zip(&self.shape);
        // No sum is cut off, since no range ends past u64::MAX.
        end.extend(ranges.map(|(start, size)| start.saturating_add(size.saturating_sub(1))))?;
        Ok(Some(end))
    }

    /// Whether some range is empty. The box of no dimensions isn't empty: it holds one element,
    /// at no indices.
    pub fn is_empty(&self) -> bool
        ensures { IsTrue result ↔ IsEmptyBox self.now }
    {
        self.shape.contains(&0)
    }

    /// Whether the box holds the element at these indices, one a dimension; of another length it
    /// holds none.
    pub fn contains(&self, indices: &[u64]) -> bool
        ensures { IsTrue result ↔ IsInside self.now indices.now }
    {
        if indices.len() != self.dimensionality() {
            return false;
        }
        let ranges = self.start.iter().zip(&self.shape);
        ranges
            .zip(indices)
            .all(|((start, size), index)| lies_in(*start, *size, *index))
    }

    /// A box with the same starts and sizes.
    ///
    /// # Errors
    /// Out of memory.
    pub fn clone(&self) -> Result<Self, AllocError>
        ensures { IfOk result (λ subset. subset ≡ self.now) }
    {
        Ok(ArraySubset {
            start: self.start.clone()?,
            shape: self.shape.clone()?,
        })
    }
}

impl PartialEq for ArraySubset {
    ghost eq = { eq_of_both (on (λ b. b.start) (pointwise ◌==◌)) (on
        (λ b. b.shape) (pointwise ◌==◌)) };

    ghost laws = { Prim.search (comparing, rules) };

    fn eq(&self, other: &ArraySubset) -> bool {
        self.start == other.start && self.shape == other.shape
    }
}

impl Eq for ArraySubset {
    ghost laws = { Prim.search (comparing, rules) };
}

/// So many zeros.
fn zeros(alloc: Global, len: usize) -> Result<Vec<u64>, AllocError>
    ensures { IfOk result (λ v. v.items ≡ replicate len 0) }
{
    let mut numbers = Vec::with_capacity(alloc, len)?;
    numbers.resize(len, 0)?;
    Ok(numbers)
}

/// How many numbers the range holds.
fn size_of(range: &Range<u64>) -> u64
    ensures value { result ≡ range.now.end - range.now.start }
    ensures fits { range.now.start + result ≤ greatest }
{
    range.end.saturating_sub(range.start)
}

/// Whether the index lies in the range of so many numbers.
fn lies_in(start: u64, size: u64, index: u64) -> bool
    ensures { IsTrue result ↔ ((start ≤ index) × (index < start + size)) }
{
    index >= start && index - start < size
}

/// The first dimension whose end is past the greatest number.
fn first_past(start: &[u64], shape: &[u64]) -> Option<usize>
    ensures { MatchOption result (AllFit (ends start.now shape.now))
        (IsFirstPast (ends start.now shape.now)) }
{
    start
        .iter()
        .zip(shape)
        .position(|(start, size)| start.checked_add(*size).is_none())
}
