//! The arrays by way of which a copy is made, and its stages.
ghost use Rattle.std.specs.Prelude.{◌≡◌, length, suc};
ghost use Rattle.zarrs_chunk_keys.specs.seen.Encodings.{encoding_in};
ghost use Rattle.programs.specs.chunkplan.Stages.{intermediate_keys};

use crate::chunkplan::opened::OpenedArray;
use std::num::NonZeroU64;
use zarrs_chunk_base::{ArrayShape, ArraySubset};
use zarrs_chunk_tasks::Order;

/// An intermediate array. It has a regular grid, and the default keys with the separator `/`.
#[derive(Drop)]
pub(crate) struct Intermediate {
    pub(crate) chunk_shape: ArrayShape,
    pub(crate) array: OpenedArray,
    ghost keys: { encoding_in array.encoding ≡ intermediate_keys },
}

/// The arrays by way of which a copy is made, and how many chunks a task takes in each stage.
#[derive(Drop)]
pub(crate) struct Route {
    pub(crate) order: Order,
    pub(crate) between: Vec<Intermediate>,
    pub(crate) each: Vec<Vec<NonZeroU64>>,
    /// Whether the stages are exact, if they were chosen.
    pub(crate) is_exact: Option<bool>,
    ghost lengths: { length each.items ≡ suc (length between.items) },
}

/// What a copy is of, and by which arrays.
#[derive(Drop)]
pub(crate) struct FoundRoute {
    pub(crate) route: Route,
    /// The elements that are copied, as a box of the source's array.
    pub(crate) region: ArraySubset,
    /// The index in the target's array at which they begin.
    pub(crate) at: Vec<u64>,
}

/// One stage of a copy: a region of the source goes to the target, from an index on.
#[derive(Drop)]
pub(crate) struct Stage<'a> {
    pub(crate) source: &'a OpenedArray,
    pub(crate) target: &'a OpenedArray,
    pub(crate) region: ArraySubset,
    pub(crate) at: Vec<u64>,
    pub(crate) order: Order,
    /// How many neighbouring chunks a task takes along each dimension.
    pub(crate) each: &'a [NonZeroU64],
    /// The shape of the target's chunks, if the target is an intermediate array.
    pub(crate) intermediate: Option<&'a [u64]>,
}
