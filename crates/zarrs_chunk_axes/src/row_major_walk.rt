//! A walk through the lists of numbers below a shape.
mod turn;

ghost use Rattle.std.specs.Prelude.{◌≡◌, ◌∷◌, ℕ, IfOk, List, OnErr, OnOk, []};
ghost use Rattle.std.specs.Cow.{cow_slice_items};
ghost use Rattle.zarrs_chunk_axes.specs.InBounds.{AreBelow};
ghost use Rattle.zarrs_chunk_axes.specs.lemmas.BelowOnce.{are_below_if_once};
ghost use Rattle.zarrs_chunk_axes.specs.declared.row_major_walk.turn.Turn.TheVariants.{Next};

use crate::row_major::{advance, pass_over};
use smallvec::SmallVec;
use std::alloc::{AllocError, Global};
use std::borrow::CowSlice;
use turn::Turn;

/// Chunk numbers, of which up to four need no memory.
pub type ArrayIndicesTinyVec = SmallVec<u64, 4>;

/// A walk through the lists of numbers below a shape, each of them once, in row-major order.
#[derive(Debug, Drop)]
pub struct RowMajorWalk<'a> {
    alloc: Global,
    shape: CowSlice<'a, u64>,
    numbers: ArrayIndicesTinyVec,
    turn: Turn,
    ghost below: { turn ≡ Next → AreBelow (cow_slice_items shape) numbers.items } by { are_below_if_once (cow_slice_items shape) numbers.items },
}

impl<'a> RowMajorWalk<'a> {
    ghost use Rattle.zarrs_chunk_axes.specs.RowMajor.{NeedsMemory, row_major};
    ghost use Rattle.zarrs_chunk_axes.specs.seen.RowMajorWalk.{IsAtList, IsPassing, Stands, lists_from, lists_left, numbers_at, shape_of};

    /// A walk that has all lists before it. It takes no memory.
    pub fn new(alloc: Global, shape: &'a [u64]) -> RowMajorWalk<'a>
        ensures shape { shape_of result ≡ shape.now }
        ensures left { lists_left result ≡ row_major shape.now }
    {
        RowMajorWalk {
            alloc,
            shape: CowSlice::Borrowed(shape),
            numbers: SmallVec::new(alloc),
            turn: Turn::First,
        }
    }

    /// The same of a shape that the walk keeps.
    pub fn owning(alloc: Global, shape: Vec<u64>) -> RowMajorWalk<'a>
        ensures shape { shape_of result ≡ shape.items }
        ensures left { lists_left result ≡ row_major shape.items }
    {
        RowMajorWalk {
            alloc,
            shape: CowSlice::Owned(shape),
            numbers: SmallVec::new(alloc),
            turn: Turn::First,
        }
    }

    /// The list at which the walk stands.
    pub fn numbers(&self) -> &[u64]
        ensures { result.now ≡ numbers_at self.now }
    {
        self.numbers.as_slice()
    }

    /// A copy of the list at which the walk stands.
    ///
    /// # Errors
    /// Out of memory for the numbers, which are more than four. The walk has ended then.
    #[inline(always)]
    pub fn indices(&mut self) -> Result<ArrayIndicesTinyVec, AllocError>
        ensures copy { IfOk result (λ indices. indices.items ≡ numbers_at self.old) }
        ensures stays { OnOk result (self.new ≡ self.old) }
        ensures fails { OnErr result (NeedsMemory (numbers_at self.old ∷ [])) }
        ensures ends { OnErr result (lists_left self.new ≡ []) }
        ensures shape { shape_of self.new ≡ shape_of self.old }
    {
        let indices = SmallVec::from_slice(self.alloc, self.numbers.as_slice());
        if indices.is_err() {
            self.turn = Turn::Over;
        }
        indices
    }

    /// Goes to the next list; `false` at the end, at which the walk stays.
    ///
    /// # Errors
    /// Out of memory for the numbers, which are more than four. The walk has ended then.
    #[inline(always)]
    pub fn step(&mut self) -> Result<bool, AllocError>
        ensures gives { IfOk result (λ found. lists_left self.old ≡ lists_from found self.new) }
        ensures stands { IfOk result (λ found. Stands found self.new) }
        ensures fails { OnErr result (NeedsMemory (lists_left self.old)) }
        ensures ends { OnErr result (lists_left self.new ≡ []) }
        ensures shape { shape_of self.new ≡ shape_of self.old }
    {
        match self.turn {
            Turn::First => self.begin(),
            Turn::Next => {
                let found = advance(self.shape.as_slice(), self.numbers.as_mut_slice());
                if !found {
                    self.turn = Turn::Over;
                }
                Ok(found)
            }
            Turn::Over => Ok(false),
        }
    }

    /// Goes on to a later list, over those that have no number below those of the list at which the walk stands; `false`
    /// at the end, where no other is left.
    pub fn pass_over(&mut self) -> bool
        requires { IsAtList self.old }
        ensures passed { (passed : List (List ℕ)) × IsPassing self.old result self.new passed }
        ensures stands { Stands result self.new }
        ensures shape { shape_of self.new ≡ shape_of self.old }
    {
        let found = pass_over(self.shape.as_slice(), self.numbers.as_mut_slice());
        if !found {
            self.turn = Turn::Over;
        }
        found
    }

    /// Ends the walk.
    pub fn end(&mut self)
        ensures ends { lists_left self.new ≡ [] }
        ensures shape { shape_of self.new ≡ shape_of self.old }
    {
        self.turn = Turn::Over;
    }

    /// Goes to the first list, which is 0 in each dimension; `false` where there is none, since a size is 0.
    fn begin(&mut self) -> Result<bool, AllocError>
        ensures gives { IfOk result (λ found. row_major (shape_of self.old)
            ≡ lists_from found self.new) }
        ensures stands { IfOk result (λ found. Stands found self.new) }
        ensures fails { OnErr result (NeedsMemory (row_major (shape_of self.old))) }
        ensures ends { OnErr result (lists_left self.new ≡ []) }
        ensures shape { shape_of self.new ≡ shape_of self.old }
    {
        self.turn = Turn::Over;
        if self.shape.as_slice().contains(&0) {
            return Ok(false);
        }
        self.numbers = SmallVec::from_elem(self.alloc, 0, self.shape.len())?;
        self.turn = Turn::Next;
        Ok(true)
    }
}
