//! How an array is stored: in which chunks, and under which keys.
ghost use Rattle.std.specs.Prelude.{◌≡◌, ◌⊎◌, IfErr, IfOk};
ghost use Rattle.zarrs_chunk_keys.specs.seen.Encodings.{encoding_in};
ghost use Rattle.zarrs_chunk_base.specs.Dimension.{array_sizes};
ghost use Rattle.zarrs_chunk_base.specs.Kinds.{IsOf};
ghost use Rattle.zarrs_chunks.specs.GridKinds.{grid_kind};
ghost use Rattle.zarrs_chunks.specs.seen.Grids.{grid_in, kind_in};
ghost use Rattle.documents.specs.StorageMetadata.{IsStored, IsCreateFault, stored_of};
ghost use Rattle.documents.specs.declared.storage_metadata.CreateFault.TheVariants.{Memory};

use std::alloc::Global;
use zarrs_chunk_base::{MetadataV3, PluginCreateError, Refusal};
use zarrs_chunk_keys::ChunkKeyEncoding;
use zarrs_chunk_plan::StoredArray;
use zarrs_chunks::ChunkGrid;

/// The metadata of an array's chunk grid and of its chunk key encoding.
#[derive(Drop)]
pub struct StorageMetadata {
    pub chunk_grid: MetadataV3,
    pub chunk_key_encoding: MetadataV3,
}

/// Why metadata give no grid or no encoding.
#[derive(Drop)]
pub enum CreateFault {
    /// The chunk grid can't be made.
    Grid(PluginCreateError),
    /// The chunk key encoding can't be made.
    Encoding(PluginCreateError),
    /// Out of memory.
    Memory,
}

impl StorageMetadata {
    /// The grid and the encoding by which an array of a shape is stored. Their metadata are dropped once both are made: a list of edges then
    /// stands in the grid alone.
    ///
    /// # Errors
    /// The grid can't be made; then, the encoding; or out of memory.
    pub fn open(
        self,
        alloc: Global,
        shape: &[u64],
    ) -> Result<StoredArray<ChunkGrid, ChunkKeyEncoding>, CreateFault>
        ensures made { IfOk result (λ made. IsStored (stored_of self) shape.now
            (grid_in made.grid) (encoding_in made.encoding)) }
        ensures kind { IfOk result (λ made. IsOf (grid_kind (kind_in made.grid))
            (stored_of self).chunk_grid shape.now (grid_in made.grid)) }
        ensures sizes { IfOk result (λ made. array_sizes (grid_in made.grid).dimensions
            ≡ shape.now) }
        ensures refused { IfErr result (λ fault. (fault ≡ Memory)
            ⊎ IsCreateFault (stored_of self) shape.now fault) }
    {
        self.array(alloc, shape)
    }

    /// The same, where the metadata are still needed.
    ///
    /// # Errors
    /// As of `open`.
    pub fn array(
        &self,
        alloc: Global,
        shape: &[u64],
    ) -> Result<StoredArray<ChunkGrid, ChunkKeyEncoding>, CreateFault>
        ensures made { IfOk result (λ made. IsStored (stored_of self.now) shape.now
            (grid_in made.grid) (encoding_in made.encoding)) }
        ensures kind { IfOk result (λ made. IsOf (grid_kind (kind_in made.grid))
            (stored_of self.now).chunk_grid shape.now (grid_in made.grid)) }
        ensures sizes { IfOk result (λ made. array_sizes (grid_in made.grid).dimensions
            ≡ shape.now) }
        ensures refused { IfErr result (λ fault. (fault ≡ Memory)
            ⊎ IsCreateFault (stored_of self.now) shape.now fault) }
    {
        let grid = match ChunkGrid::from_metadata(alloc, &self.chunk_grid, shape) {
            Ok(grid) => grid,
            Err(Refusal::Refused(error)) => return Err(CreateFault::Grid(error)),
            Err(Refusal::Memory(_)) => return Err(CreateFault::Memory),
        };
        match ChunkKeyEncoding::from_metadata(alloc, &self.chunk_key_encoding) {
            Ok(encoding) => Ok(StoredArray { grid, encoding }),
            Err(Refusal::Refused(error)) => Err(CreateFault::Encoding(error)),
            Err(Refusal::Memory(_)) => Err(CreateFault::Memory),
        }
    }
}
