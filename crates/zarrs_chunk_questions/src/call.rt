//! The calls, by their names.
ghost use Rattle.std.specs.Prelude.{◌≡◌, ◌≢◌, MatchOption};
ghost use Rattle.zarrs_chunk_questions.specs.Calls.{name_of};

/// A call.
#[derive(Clone, Copy, Drop)]
pub(crate) enum Call {
    /// Of an array's grid.
    OfArray(OfArray),
    /// The key of a chunk, in an encoding.
    Encode,
    /// The chunk of a key, in an encoding.
    Decode,
    /// The bytes of a box of a chunk.
    ByteRanges,
}

/// A call of an array's grid, by what it is asked of.
#[derive(Clone, Copy, Drop)]
pub(crate) enum OfArray {
    /// Of nothing else.
    OfGrid(OfGrid),
    /// Of a list of numbers: a chunk, or an index list.
    OfNumbers(OfNumbers),
    /// Of a box.
    OfBox(OfBox),
    /// Of some items of a walk.
    OfWalk(WalkOf),
    /// Of a dimension of a `rectilinear` grid.
    Runs,
    /// Of an index list, of a `rectilinear` grid.
    ChunkIndicesCounted,
    /// Of an index list, with an encoding.
    Locate,
    /// Of a box, with an encoding.
    Parts,
    /// Of some items of the tasks of a copy, with an encoding.
    Tasks,
    /// Of the copy and a share, with an encoding.
    TaskCounts,
    /// Of another shape of the array.
    ChangedChunks,
}

/// What a grid is asked alone.
#[derive(Clone, Copy, Drop)]
pub(crate) enum OfGrid {
    Dimensionality,
    ArrayShape,
    GridShape,
    Configuration,
    Metadata,
}

/// What a grid is asked of a list of numbers.
#[derive(Clone, Copy, Drop)]
pub(crate) enum OfNumbers {
    ChunkShape,
    ChunkShapeNumbers,
    ChunkOrigin,
    ChunkIndices,
    ChunkElementIndices,
    Subset,
    ChunkIndicesInbounds,
    ArrayIndicesInbounds,
}

/// What a grid is asked of a box.
#[derive(Clone, Copy, Drop)]
pub(crate) enum OfBox {
    ChunksSubset,
    ChunksInArraySubset,
}

/// What a walk gives of each chunk.
#[derive(Clone, Copy, Drop)]
pub(crate) enum WalkOf {
    /// Its numbers.
    Chunks,
    /// Its box.
    Boxes,
    /// Both.
    ChunksAndBoxes,
}

impl Call {
    /// The call that has a name, or `None` where none has it.
    pub(crate) fn named(name: &str) -> Option<Call>
        ensures { MatchOption result ((call : Call) → name.now ≢ name_of call)
            (λ call. name.now ≡ name_of call) }
    {
        let of_array = match name {
            "encode" => return Some(Call::Encode),
            "decode" => return Some(Call::Decode),
            "byte_ranges" => return Some(Call::ByteRanges),
            "dimensionality" => OfArray::OfGrid(OfGrid::Dimensionality),
            "array_shape" => OfArray::OfGrid(OfGrid::ArrayShape),
            "grid_shape" => OfArray::OfGrid(OfGrid::GridShape),
            "configuration" => OfArray::OfGrid(OfGrid::Configuration),
            "metadata" => OfArray::OfGrid(OfGrid::Metadata),
            "chunk_shape" => OfArray::OfNumbers(OfNumbers::ChunkShape),
            "chunk_shape_u64" => OfArray::OfNumbers(OfNumbers::ChunkShapeNumbers),
            "chunk_origin" => OfArray::OfNumbers(OfNumbers::ChunkOrigin),
            "chunk_indices" => OfArray::OfNumbers(OfNumbers::ChunkIndices),
            "chunk_element_indices" => OfArray::OfNumbers(OfNumbers::ChunkElementIndices),
            "subset" => OfArray::OfNumbers(OfNumbers::Subset),
            "chunk_indices_inbounds" => OfArray::OfNumbers(OfNumbers::ChunkIndicesInbounds),
            "array_indices_inbounds" => OfArray::OfNumbers(OfNumbers::ArrayIndicesInbounds),
            "chunks_subset" => OfArray::OfBox(OfBox::ChunksSubset),
            "chunks_in_array_subset" => OfArray::OfBox(OfBox::ChunksInArraySubset),
            "iter_chunk_indices" => OfArray::OfWalk(WalkOf::Chunks),
            "iter_chunk_subsets" => OfArray::OfWalk(WalkOf::Boxes),
            "iter_chunk_indices_and_subsets" => OfArray::OfWalk(WalkOf::ChunksAndBoxes),
            "runs" => OfArray::Runs,
            "chunk_indices_counted" => OfArray::ChunkIndicesCounted,
            "locate" => OfArray::Locate,
            "parts" => OfArray::Parts,
            "tasks" => OfArray::Tasks,
            "task_counts" => OfArray::TaskCounts,
            "changed_chunks" => OfArray::ChangedChunks,
            _ => return None,
        };
        Some(Call::OfArray(of_array))
    }
}
