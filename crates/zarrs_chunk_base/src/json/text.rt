//! The tree of a text of JSON.
ghost use Rattle.std.specs.Prelude.{◌≡◌, ◌≤◌, IfOk, IfSome, None};
ghost use Rattle.serde_json.specs.Data.{Data, depth};
ghost use Rattle.serde_json.specs.Read.{max_depth};
ghost use Rattle.serde_json.specs.View.{view};
ghost use Rattle.zarrs_chunk_base.specs.Json.{IsJsonOf};

use serde_json::Value;
use std::alloc::{AllocError, Global};

/// The tree of a text of JSON, which is encoded as UTF-8; `None` where it is no JSON. Lists and objects lie within one another at most 127 deep
/// in it: a text that nests deeper counts as none, and nothing of it is built.
///
/// # Errors
/// Out of memory.
pub fn read_json(alloc: Global, text: &[u8]) -> Result<Option<Value>, AllocError>
    ensures tree { IfOk result (λ found. IfSome found (λ tree. IsJsonOf text.now (view tree))) }
    ensures none { IfOk result (λ found. found ≡ None → (tree : Data) → ¬ IsJsonOf text.now tree) }
    ensures nests { IfOk result (λ found. IfSome found (λ tree. depth (view tree) ≤ max_depth)) }
{
    match Value::from_slice(alloc, text) {
        Ok(tree) => Ok(Some(tree)),
        Err(error) if error.is_memory() => Err(AllocError),
        Err(_) => Ok(None),
    }
}
