//! The metadata of a grid, read from a text and written as a tree.
ghost use Rattle.std.specs.Prelude.{◌≡◌, IfOk, IfSome, IsSome, None, Some, codes, map};
ghost use Rattle.std.specs.Int.NonZero.{non_zero_u64_get};
ghost use Rattle.serde_json.specs.Data.{Data};
ghost use Rattle.serde_json.specs.Read.{read};
ghost use Rattle.serde_json.specs.View.{view};
ghost use Rattle.zarrs_chunk_base.specs.GridConfigurations.{regular_members};
ghost use Rattle.zarrs_chunk_base.specs.Json.{IsJsonOf};
ghost use Rattle.zarrs_chunk_base.specs.Metadata.{IsExtension, IsMetadataFault, extension_of, extension_tree};
ghost use Rattle.zarrs_chunk_base.specs.declared.metadata_error.MetadataError.{MetadataError};

use serde_json::Value;
use std::alloc::{AllocError, Global};
use zarrs_chunk_base::{
    ChunkShape, ConfigurationForm, MetadataV3, Refusal, RegularChunkGridConfiguration, read_json,
};

/// The metadata that a text stands for, as `{"name": "regular", "configuration": {"chunk_shape": [2, 3]}}`; `None` where it stands for none.
pub fn metadata_of(alloc: Global, text: &str) -> Result<Option<MetadataV3>, AllocError>
    ensures json { IfOk result (λ found. IfSome found (λ _. IsSome (read text.now))) }
    ensures metadata { IfOk result (λ found. IfSome found (λ metadata. IfSome (read text.now)
        (λ tree. IsExtension tree (extension_of metadata)))) }
    ensures none { IfOk result (λ found. found ≡ None → (tree : Data) → IsJsonOf text.now tree
        → (fault : MetadataError) × IsMetadataFault tree fault) }
{
    let Some(tree) = read_json(alloc, text.as_bytes())? else {
        return Ok(None);
    };
    match MetadataV3::from_tree(alloc, &tree) {
        Ok(metadata) => Ok(Some(metadata)),
        Err(Refusal::Refused(_)) => Ok(None),
        Err(Refusal::Memory(error)) => Err(error),
    }
}

/// The member `chunk_grid` of an array that is cut into chunks with these edges.
pub fn regular_metadata(alloc: Global, chunk_shape: ChunkShape) -> Result<Value, AllocError>
    ensures { IfOk result (λ tree. view tree ≡ extension_tree (record {
      name = codes "regular";
      configuration = Some (regular_members (map non_zero_u64_get chunk_shape.items));
    })) }
{
    let name = String::from_str(alloc, "regular")?;
    let configuration = RegularChunkGridConfiguration { chunk_shape }.to_tree(alloc)?;
    MetadataV3::new(name, Some(configuration)).to_tree(alloc)
}
