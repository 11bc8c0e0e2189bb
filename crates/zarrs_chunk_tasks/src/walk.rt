//! The walk over the tasks of a copy.
use crate::buffer::{buffer_of, groups_over};
use crate::task::Task;
use std::alloc::{AllocError, Global};
use std::num::NonZeroU64;
use zarrs_chunk_base::{ArrayIndices, ArraySubset};
use zarrs_chunk_parts::found_or_out_of_memory;
use zarrs_chunk_plan::{ChunkIter, Share, shifted_box};
use zarrs_chunks::{ArrayIndicesTinyVec, ChunkGridTraits};

/// The tasks of a copy: one for each group that holds some of the elements, in row-major order of the groups.
///
/// A task is made when it is asked for. After an `Err` or the end the walk gives nothing more, until it goes to a [`share`](Tasks::share) or
/// [to a task](Tasks::skip_to).
#[derive(Debug, Drop)]
pub struct Tasks<'a, G> {
    alloc: Global,
    /// The grid whose chunks are grouped, and how many of them a group joins along each dimension.
    grid: &'a G,
    each: &'a [NonZeroU64],
    /// The elements that are copied, as a box of this grid's array, and the cover of the box.
    elements: ArraySubset,
    cover: ArraySubset,
    /// Where the first element lies in the source's array, and where it goes in the target's.
    first: ArrayIndices,
    at: ArrayIndices,
    groups: ChunkIter,
}

impl<'a, G: ChunkGridTraits> Tasks<'a, G> {
    ghost use Rattle.std.specs.Prelude.{◌≡◌, IfOk, OnErr, OnOk, drop, length, map};
    ghost use Rattle.std.specs.Int.NonZero.{non_zero_u64_get};
    ghost use Rattle.zarrs_chunk_base.specs.Dimension.{array_sizes};
    ghost use Rattle.zarrs_chunk_plan.specs.Counted.{counted};
    ghost use Rattle.zarrs_chunk_plan.specs.Region.{LiesIn};
    ghost use Rattle.zarrs_chunk_plan.specs.Shares.{before_share, share_of};
    ghost use Rattle.zarrs_chunks.specs.Subsets.{IsCover};
    ghost use Rattle.zarrs_chunk_tasks.specs.Groups.{HoldsSomeOf};
    ghost use Rattle.zarrs_chunk_tasks.specs.Tasks.{IsTask};
    ghost use Rattle.zarrs_chunk_tasks.specs.seen.Tasks.{ArePlanned, CanGive, IsSameCopy, all_groups, groups_to_come};

    /// The tasks of a copy of a box of elements that lies in the array of a grid.
    ///
    /// # Errors
    /// Out of memory.
    pub(crate) fn new(
        alloc: Global,
        grid: &'a G,
        each: &'a [NonZeroU64],
        elements: ArraySubset,
        first: ArrayIndices,
        at: ArrayIndices,
    ) -> Result<Tasks<'a, G>, AllocError>
        requires lies { LiesIn elements (array_sizes (G.dimensions grid.now)) }
        requires lengths { length each.now ≡ length (G.dimensions grid.now) }
        ensures { IfOk result (ArePlanned G.dimensions grid.now (map non_zero_u64_get each.now)
            elements first.items at.items) }
    {
        let cover = found_or_out_of_memory(grid.chunks_in_array_subset(alloc, &elements))?;
        let groups = groups_over(alloc, grid, &elements, each, &cover)?;
        Ok(Tasks {
            alloc,
            grid,
            each,
            elements,
            cover,
            first,
            at,
            groups: ChunkIter::new(alloc, groups, &Share::whole())?,
        })
    }

    /// How many tasks there are in all, from the first one on; `None` past 18446744073709551615.
    pub fn in_all(&self) -> Option<u64>
        ensures { result ≡ counted (length (all_groups self.now)) }
    {
        self.groups.in_all()
    }

    /// Goes to a share of all tasks, wherever the walk is, and returns how many come before it; `None` past 18446744073709551615. Those take no time.
    ///
    /// # Errors
    /// Out of memory. The walk is as it was then.
    pub fn share(&mut self, share: &Share) -> Result<Option<u64>, AllocError>
        ensures left { OnOk result (groups_to_come self.new
            ≡ share_of share.now (all_groups self.old)) }
        ensures before { IfOk result (λ before. before
            ≡ counted (before_share share.now.number share.now.of (length (all_groups self.old)))) }
        ensures unchanged { OnErr result (groups_to_come self.new ≡ groups_to_come self.old) }
        ensures all { all_groups self.new ≡ all_groups self.old }
        ensures about { IsSameCopy self.old self.new }
        ensures can { CanGive G.dimensions self.old → CanGive G.dimensions self.new }
    {
        self.groups.share(share)
    }

    /// Goes to the task with this number, counted from 0 among all tasks, wherever the walk is; nothing is left if there are no more. Those before it
    /// take no time.
    ///
    /// # Errors
    /// Out of memory. The walk is as it was then.
    pub fn skip_to(&mut self, first: u64) -> Result<(), AllocError>
        ensures left { OnOk result (groups_to_come self.new ≡ drop first (all_groups self.old)) }
        ensures unchanged { OnErr result (groups_to_come self.new ≡ groups_to_come self.old) }
        ensures all { all_groups self.new ≡ all_groups self.old }
        ensures about { IsSameCopy self.old self.new }
        ensures can { CanGive G.dimensions self.old → CanGive G.dimensions self.new }
    {
        self.groups.skip_to(first)
    }

    /// The task of a group.
    ///
    /// # Errors
    /// Out of memory.
    fn task_of(&self, group: ArrayIndicesTinyVec) -> Result<Task, AllocError>
        ensures group { IfOk result (λ task. task.group.items ≡ group.items) }
        ensures task { IsCover (G.dimensions self.now.grid.now) self.now.elements self.now.cover
            → HoldsSomeOf (G.dimensions self.now.grid.now) (map non_zero_u64_get self.now.each.now)
            self.now.elements group.items
            → IfOk result (IsTask (G.dimensions self.now.grid.now)
            (map non_zero_u64_get self.now.each.now) self.now.elements self.now.first.items
            self.now.at.items group.items) }
    {
        let behind = buffer_of(
            self.alloc,
            self.grid,
            &self.elements,
            self.each,
            &self.cover,
            group.as_slice(),
        )?;
        let source = shifted_box(self.alloc, &self.first, &behind)?;
        let target = shifted_box(self.alloc, &self.at, &behind)?;
        Ok(Task {
            group,
            source,
            target,
        })
    }
}

impl<G: ChunkGridTraits> Iterator for Tasks<'_, G> {
    ghost use Rattle.std.specs.Iterator.{item_count};
    ghost use Rattle.zarrs_chunk_tasks.specs.seen.Tasks.{GivesTask, offsets_to_come};

    type Item = Result<Task, AllocError>;

    ghost next_gives = { GivesTask G.dimensions };

    ghost remaining = { item_count offsets_to_come };

    fn next(&mut self) -> Option<Result<Task, AllocError>> {
        let group = match self.groups.next()? {
            Ok(group) => group,
            Err(error) => return Some(Err(error)),
        };
        match self.task_of(group) {
            Ok(task) => Some(Ok(task)),
            Err(error) => {
                self.groups.end();
                Some(Err(error))
            }
        }
    }
}
