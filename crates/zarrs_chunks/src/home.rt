//! Where an element lies in a grid.
use std::alloc::Global;
use zarrs_chunk_base::ArrayIndices;

/// Where an element lies, as [`find_home`](crate::ChunkGridTraits::find_home) leaves it.
#[derive(Debug, Drop)]
pub struct Home {
    /// The numbers of the chunk that holds the element.
    pub chunk: ArrayIndices,
    /// The element's place in the chunk, counted from the chunk's first element.
    pub element: ArrayIndices,
}

impl Home {
    ghost use Rattle.std.specs.Prelude.{◌≡◌, []};

    /// A home to be found. It takes no memory yet.
    pub fn new(alloc: Global) -> Home
        ensures chunk { result.chunk.items ≡ [] }
        ensures element { result.element.items ≡ [] }
    {
        Home {
            chunk: Vec::new(alloc),
            element: Vec::new(alloc),
        }
    }
}
