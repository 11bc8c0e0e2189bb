//! The stages of a copy by tasks.
ghost use Rattle.std.specs.Prelude.{◌≡◌, ◌⊎◌, ◌∷◌};
ghost use Rattle.programs.specs.chunkplan.Common.{ℕ, Box, IfOk, List, None, [], map, non_zero_u64_get, option_map, replicate, unwrap_or, MatchResult, Ok, Err};
ghost use Rattle.programs.specs.chunkplan.Common.{Memory};
ghost use Rattle.std.specs.List.{AllZip};
ghost use Rattle.programs.specs.chunkplan.Document.{cheapest, choice_of, copying_of, selection_of};
ghost use Rattle.programs.specs.chunkplan.Planned.{Array, begins_at, copy_stages, elements_in};
ghost use Rattle.programs.specs.chunkplan.Stages.{IsIntermediate, asked_in, staged, stages_in};
ghost use Rattle.programs.specs.chunkplan.seen.Opened.{array_in, dimensions_in};
ghost use Rattle.programs.specs.chunkplan.seen.Routes.{intermediate_of, stage_of, stages_by, stages_found};

use crate::chunkplan::RunFault;
use crate::chunkplan::document::{Copying, RegionAsked, Selection};
use crate::chunkplan::opened::OpenedArray;
use crate::chunkplan::route::{FoundRoute, Intermediate, Route, Stage};
use crate::chunkplan::task_choice::TaskChoice;
use std::alloc::{AllocError, Global};
use std::num::NonZeroU64;
use zarrs_chunk_base::{ArrayShape, ArraySubset, ChunkShape, Refusal};
use zarrs_chunk_keys::{ChunkKeyEncoding, DefaultChunkKeyEncoding};
use zarrs_chunk_plan::{elements_of_chunks, moved_box, whole_array};
use zarrs_chunk_tasks::{
    CheapestTasks, Order, at_or_zeros, can_choose, cheapest_stages, task_chunks_or_ones,
};
use zarrs_chunks::{ChunkGrid, ChunkGridTraits, RegularChunkGrid};

/// Finds the route of a copy.
///
/// # Errors
/// The box of chunks has another number of dimensions than the target. No tasks fit, or there are too many chunks to choose tasks. The region doesn't fit the
/// two arrays. Or out of memory.
pub(crate) fn find_route(
    alloc: Global,
    source: &OpenedArray,
    target: &OpenedArray,
    copying: Copying,
) -> Result<FoundRoute, RunFault>
    ensures { MatchResult result
        (λ found. copy_stages (copying_of copying) (array_in source.now) (array_in target.now)
        (Ok (stages_found (array_in source.now) (array_in target.now) found)))
        (λ fault. (fault ≡ Memory) ⊎ copy_stages (copying_of copying) (array_in source.now)
        (array_in target.now) (Err fault)) }
{
    let Copying { choice, selection } = copying;
    let region = elements_of(alloc, &selection, &source.grid, &target.grid)?;
    let at = first_index(alloc, selection, &region)?;
    let route = route_of_region(alloc, source, target, &region, &at, choice)?;
    Ok(FoundRoute { route, region, at })
}

/// The elements that are copied, as a box of the source's array.
///
/// # Errors
/// The box of chunks has another number of dimensions than the target; or out of memory.
fn elements_of(
    alloc: Global,
    selection: &Selection,
    source: &ChunkGrid,
    target: &ChunkGrid,
) -> Result<ArraySubset, RunFault>
    ensures { MatchResult result
        (λ elements. elements_in (selection_of selection.now) (dimensions_in source.now)
        (dimensions_in target.now) (Ok elements))
        (λ fault. (fault ≡ Memory) ⊎ elements_in (selection_of selection.now)
        (dimensions_in source.now) (dimensions_in target.now) (Err fault)) }
{
    match selection {
        Selection::All => Ok(whole_array(alloc, source)?),
        Selection::Chunks(chunks) => match elements_of_chunks(alloc, target, chunks) {
            Ok(elements) => Ok(elements),
            Err(Refusal::Refused(error)) => Err(RunFault::ChunksDimensionality(error)),
            Err(Refusal::Memory(_)) => Err(RunFault::Memory),
        },
        Selection::Region(region) => Ok(region.elements.clone()?),
    }
}

/// The index at which they begin in the target's array.
///
/// # Errors
/// Out of memory.
fn first_index(
    alloc: Global,
    selection: Selection,
    elements: &ArraySubset,
) -> Result<Vec<u64>, AllocError>
    ensures { IfOk result (λ at. at.items ≡ begins_at (selection_of selection) elements.now) }
{
    match selection {
        Selection::Region(RegionAsked { at, .. }) => {
            at_or_zeros(alloc, at, elements.dimensionality())
        }
        _ => elements.start().to_vec(alloc),
    }
}

/// Finds the route of the copy of a region.
///
/// # Errors
/// No tasks fit; there are too many chunks to choose tasks; the region doesn't fit the two arrays; or out of memory.
fn route_of_region(
    alloc: Global,
    source: &OpenedArray,
    target: &OpenedArray,
    region: &ArraySubset,
    at: &[u64],
    choice: TaskChoice,
) -> Result<Route, RunFault>
    ensures { MatchResult result
        (λ route. stages_in (choice_of choice) (array_in source.now) (array_in target.now) region.now
        at.now (Ok (stages_by (array_in source.now) (array_in target.now) region.now at.now route)))
        (λ fault. (fault ≡ Memory) ⊎ stages_in (choice_of choice) (array_in source.now)
        (array_in target.now) region.now at.now (Err fault)) }
{
    match choice {
        TaskChoice::Given(order, each) => {
            let task_chunks = task_chunks_or_ones(alloc, each, source.grid.dimensionality())?;
            Ok(route_of_one(alloc, order, task_chunks)?)
        }
        TaskChoice::Cheapest(most, read, _) => {
            cheapest_route(alloc, source, target, region, at, most, read)
        }
    }
}

/// The route of one stage, by how many chunks a task takes.
///
/// # Errors
/// Out of memory.
fn route_of_one(
    alloc: Global,
    order: Order,
    task_chunks: Vec<NonZeroU64>,
) -> Result<Route, AllocError>
    ensures { IfOk result (λ route. (source target : Array) (region : Box) (at : List ℕ)
        → stages_by source target region at route
        ≡ (None, staged order source target region at [] (map non_zero_u64_get task_chunks.items ∷ []))) }
{
    let mut each = Vec::with_capacity(alloc, 1)?;
    each.push(task_chunks)?;
    Ok(Route {
        order,
        between: Vec::new(alloc),
        each,
        is_exact: None,
    })
}

/// Finds the cheapest route.
fn cheapest_route(
    alloc: Global,
    source: &OpenedArray,
    target: &OpenedArray,
    region: &ArraySubset,
    at: &[u64],
    most: u64,
    read: u64,
) -> Result<Route, RunFault>
    ensures { MatchResult result
        (λ route. stages_in (cheapest most read None) (array_in source.now) (array_in target.now)
        region.now at.now
        (Ok (stages_by (array_in source.now) (array_in target.now) region.now at.now route)))
        (λ fault. (fault ≡ Memory) ⊎ stages_in (cheapest most read None) (array_in source.now)
        (array_in target.now) region.now at.now (Err fault)) }
{
    let (from, into) = (&source.grid, &target.grid);
    let moved = moved_box(alloc, from, into, region, at)?;
    let can = can_choose(alloc, from, into, region, &moved)?;
    if !can {
        return Err(RunFault::TooManyToChoose);
    }
    let found = cheapest_stages(alloc, from, into, region, at, most, read)?;
    let Some(stages) = found else {
        return Err(RunFault::NoTasksFit);
    };
    let between = all_opened(alloc, region.shape(), &stages.chunks)?;
    let each = task_chunks_of(alloc, &stages.tasks)?;
    Ok(Route {
        order: Order::Target,
        between,
        each,
        is_exact: Some(stages.is_exact),
    })
}

/// The intermediate arrays of a shape, in chunks of each of these shapes.
///
/// # Errors
/// Out of memory.
fn all_opened(
    alloc: Global,
    shape: &[u64],
    chunks: &[ChunkShape],
) -> Result<Vec<Intermediate>, AllocError>
    ensures { IfOk result (λ between. AllZip (IsIntermediate shape.now)
        (map (λ chunk. map non_zero_u64_get chunk.items) chunks.now)
        (map intermediate_of between.items)) }
{
    let mut between = Vec::with_capacity(alloc, chunks.len())?;
    for chunk in chunks {
        between.push(opened(alloc, shape, chunk)?)?;
    }
    Ok(between)
}

/// The intermediate array of a shape, in chunks of a shape.
///
/// # Errors
/// Out of memory.
fn opened(alloc: Global, shape: &[u64], chunk: &[NonZeroU64]) -> Result<Intermediate, AllocError>
    ensures { IfOk result (λ between. IsIntermediate shape.now (map non_zero_u64_get chunk.now)
        (intermediate_of between)) }
{
    let chunk_shape = numbers_of(alloc, chunk)?;
    let edges = Vec::from_slice(alloc, chunk)?;
    match RegularChunkGrid::new(alloc, shape.to_vec(alloc)?, edges) {
        Ok(grid) => Ok(Intermediate {
            chunk_shape,
            array: OpenedArray {
                grid: ChunkGrid::Regular(grid),
                encoding: ChunkKeyEncoding::Default(DefaultChunkKeyEncoding::new_slash()),
            },
        }),
        // Never: the shape of the chunks has as many dimensions.
        Err(Refusal::Refused(_)) => Err(AllocError),
        Err(Refusal::Memory(error)) => Err(error),
    }
}

/// Edges as plain numbers.
///
/// # Errors
/// Out of memory.
pub(crate) fn numbers_of(alloc: Global, edges: &[NonZeroU64]) -> Result<ArrayShape, AllocError>
    ensures { IfOk result (λ v. v.items ≡ map non_zero_u64_get edges.now) }
{
    let mut numbers = Vec::with_capacity(alloc, edges.len())?;
    for edge in edges {
        numbers.push(edge.get())?;
    }
    Ok(numbers)
}

/// How many chunks a task takes in each stage.
///
/// # Errors
/// Out of memory.
fn task_chunks_of(
    alloc: Global,
    tasks: &[CheapestTasks],
) -> Result<Vec<Vec<NonZeroU64>>, AllocError>
    ensures { IfOk result (λ each. map (λ v. map non_zero_u64_get v.items) each.items
        ≡ map (λ stage. map non_zero_u64_get stage.task_chunks.items) tasks.now) }
{
    let mut each = Vec::with_capacity(alloc, tasks.len())?;
    for stage in tasks {
        each.push(Vec::from_slice(alloc, &stage.task_chunks)?)?;
    }
    Ok(each)
}

/// The stages of a copy by the route that was found, one after another.
///
/// # Errors
/// Out of memory.
pub(crate) fn stages_of<'a>(
    alloc: Global,
    source: &'a OpenedArray,
    target: &'a OpenedArray,
    found: &'a FoundRoute,
) -> Result<Vec<Stage<'a>>, AllocError>
    ensures { IfOk result (λ stages. map stage_of stages.items
        ≡ (stages_found (array_in source.now) (array_in target.now) found.now).1) }
{
    let route = &found.route;
    let mut stages = Vec::with_capacity(alloc, route.each.len())?;
    let mut from = source;
    let mut left = found.region.clone()?;
    for (number, between) in route.between.iter().enumerate() {
        let whole = whole_array(alloc, &between.array.grid)?;
        stages.push(Stage {
            source: from,
            target: &between.array,
            region: left,
            at: whole.start().to_vec(alloc)?,
            order: route.order,
            each: &route.each[number],
            intermediate: Some(&between.chunk_shape),
        })?;
        from = &between.array;
        left = whole;
    }
    let at = found.at.to_vec(alloc)?;
    stages.push(Stage {
        source: from,
        target,
        region: left,
        at,
        order: route.order,
        each: &route.each[route.between.len()],
        intermediate: None,
    })?;
    Ok(stages)
}

/// The stage with this number, counted from 1, or the only one.
///
/// # Errors
/// There is no such stage, or there are several.
pub(crate) fn asked_stage<'b, 'a>(
    stages: &'b [Stage<'a>],
    asked: Option<NonZeroU64>,
) -> Result<&'b Stage<'a>, RunFault>
    ensures { MatchResult result
        (λ stage. asked_in (option_map non_zero_u64_get asked) (map stage_of stages.now)
        (Ok (stage_of stage.now)))
        (λ fault. asked_in (option_map non_zero_u64_get asked) (map stage_of stages.now)
        (Err fault)) }
{
    match asked {
        None => match stages {
            [stage] => Ok(stage),
            _ => Err(RunFault::SeveralStages),
        },
        Some(number) => match stages.get(number.get() as usize - 1) {
            Some(stage) => Ok(stage),
            None => Err(RunFault::NoSuchStage),
        },
    }
}
