//! The members that a document may have: what is asked of an array, and what stands in its `zarr.json`.
ghost use Rattle.programs.specs.chunkplan.Common.{IfOk, MatchResult, cond, map, view};
ghost use Rattle.zarrs_chunk_base.specs.Refusal.{OrMemory};
ghost use Rattle.programs.specs.chunkplan.Known.{Agree, Differ, HasOnly, IsFirstUnknown};

use serde_json::Value;
use std::alloc::{AllocError, Global};
use std::fmt;
use strsim::levenshtein;
use zarrs_chunk_base::{ConfigurationFault, Refusal, refuse_unknown};

/// How many members an array's `zarr.json` may have, and so a target.
pub(crate) const ZARR_JSON: usize = 11;

/// What a document may have, first what stands in a `zarr.json`.
pub(crate) const DOCUMENT: [&str; 29] = [
    "attributes",
    "chunk_grid",
    "chunk_key_encoding",
    "codecs",
    "data_type",
    "dimension_names",
    "fill_value",
    "node_type",
    "shape",
    "storage_transformers",
    "zarr_format",
    "at",
    "chunks",
    "clip",
    "counts",
    "include_unchanged",
    "item_size",
    "keys",
    "max_elements",
    "max_ranges",
    "memory_order",
    "order",
    "read_elements",
    "resize",
    "share",
    "stage",
    "subset",
    "target",
    "task_chunks",
];

/// A member that isn't known.
#[derive(Debug, Drop)]
pub struct UnknownMember {
    /// Its name.
    pub name: String,
    /// A known name that is written much like it, if there is one.
    pub near: Option<&'static str>,
}

impl fmt::Display for UnknownMember {
    fn fmt<W: fmt::Write>(&self, f: &mut fmt::Formatter<W>) -> fmt::Result {
        write!(f, "unknown field `{}`", self.name)?;
        match self.near {
            Some(near) => write!(f, ": did you mean `{near}`?"),
            None => Ok(()),
        }
    }
}

/// Refuses the first member of an object, by name, that isn't one of those that are known.
///
/// # Errors
/// There is such a member; or out of memory.
pub(crate) fn check_known(
    alloc: Global,
    tree: &Value,
    known: &[&'static str],
) -> Result<(), Refusal<UnknownMember>>
    ensures { MatchResult result (λ _. HasOnly (map (λ name. name.now) known.now) (view tree.now))
        (OrMemory (IsFirstUnknown (map (λ name. name.now) known.now) (view tree.now))) }
{
    let Some(members) = tree.as_object() else {
        return Ok(());
    };
    match refuse_unknown(alloc, members, known, "") {
        Ok(()) => Ok(()),
        Err(Refusal::Refused(ConfigurationFault::UnknownField { field: name, .. })) => {
            let near = nearest(alloc, &name, known)?;
            Err(Refusal::Refused(UnknownMember { name, near }))
        }
        Err(Refusal::Refused(_)) => unreachable!(),
        Err(Refusal::Memory(error)) => Err(Refusal::Memory(error)),
    }
}

/// How many letters at most are put in, left out or exchanged between a name and one that is near, and no more than half of that one's.
const MOST_EDITS: usize = 2;

/// How long a name is at most for which a near one is sought, in bytes.
const LONGEST_NAME: usize = 64;

/// The known name that is written most like this one, if one is near.
///
/// # Errors
/// Out of memory.
fn nearest(
    alloc: Global,
    name: &str,
    known: &[&'static str],
) -> Result<Option<&'static str>, AllocError> {
    let mut near = None;
    let mut fewest = MOST_EDITS + 1;
    if name.len() > LONGEST_NAME {
        return Ok(near);
    }
    for other in known {
        let edits = levenshtein(alloc, name, other)?;
        if edits < fewest && edits <= other.len() / 2 {
            fewest = edits;
            near = Some(*other);
        }
    }
    Ok(near)
}

/// Whether two trees, where both have the member of this name, have the same.
///
/// # Errors
/// Out of memory.
pub(crate) fn agree(
    alloc: Global,
    tree: &Value,
    other: &Value,
    field: &str,
) -> Result<bool, AllocError>
    ensures { IfOk result (λ same. cond same (Agree field.now (view tree.now) (view other.now))
        (Differ field.now (view tree.now) (view other.now))) }
{
    match (tree.get(field), other.get(field)) {
        (Some(one), Some(another)) => Ok(one.to_vec(alloc)? == another.to_vec(alloc)?),
        _ => Ok(true),
    }
}
