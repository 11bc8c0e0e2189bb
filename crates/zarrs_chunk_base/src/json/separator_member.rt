//! The member `separator`, which the configurations of chunk key encodings have.
ghost use Rattle.std.specs.Prelude.{◌≡◌, IfOk, MatchResult, Some, codes};
ghost use Rattle.serde_json.specs.View.{members_view};
ghost use Rattle.zarrs_chunk_base.specs.Configuration.{value_or};
ghost use Rattle.zarrs_chunk_base.specs.declared.chunk_key_separator.ChunkKeySeparator.{ChunkKeySeparator};
ghost use Rattle.zarrs_chunk_base.specs.KeyConfigurations.{separator_in, separator_members, separator_tree};
ghost use Rattle.zarrs_chunk_base.specs.lemmas.Members.{IsValueFault};
ghost use Rattle.zarrs_chunk_base.specs.Refusal.{OrMemory};

use crate::json::members::optional_value;
use crate::json::tree_form::TreeForm;
use crate::{ChunkKeySeparator, Configuration, ConfigurationFault, Refusal};
use serde_json::{Map, Value};
use std::alloc::{AllocError, Global};

/// The name of the member.
pub(super) const SEPARATOR: &str = "separator";

/// The separator of a configuration, or the usual one where it is absent.
pub(super) fn separator_or(
    alloc: Global,
    members: &Configuration,
    usual: ChunkKeySeparator,
) -> Result<ChunkKeySeparator, Refusal<ConfigurationFault>>
    ensures { MatchResult result
        (λ separator. value_or usual (codes "separator") separator_in
        (members_view members.now.entries) ≡ Some separator)
        (OrMemory (IsValueFault (codes "separator") separator_in
        (members_view members.now.entries))) }
{
    Ok(optional_value(alloc, members, SEPARATOR)?.unwrap_or(usual))
}

/// The configuration that has this separator alone.
pub(super) fn with_separator(
    alloc: Global,
    separator: ChunkKeySeparator,
) -> Result<Configuration, AllocError>
    ensures { IfOk result (λ c. members_view c.entries ≡ separator_members separator) }
{
    let mut members = Map::new(alloc);
    serde_json::put(&mut members, alloc, SEPARATOR, separator.to_tree(alloc)?)?;
    Ok(members)
}

/// The text `/` or `.`.
impl TreeForm for ChunkKeySeparator {
    ghost Seen = { ChunkKeySeparator };

    ghost seen = { λ separator. separator };

    ghost form = { separator_in };

    ghost written = { separator_tree };

    fn from_tree(_alloc: Global, tree: &Value) -> Result<Option<ChunkKeySeparator>, AllocError> {
        Ok(match tree.as_str() {
            Some("/") => Some(ChunkKeySeparator::Slash),
            Some(".") => Some(ChunkKeySeparator::Dot),
            _ => None,
        })
    }

    fn to_tree(&self, alloc: Global) -> Result<Value, AllocError> {
        Value::try_from_str(
            alloc,
            match self {
                ChunkKeySeparator::Slash => "/",
                ChunkKeySeparator::Dot => ".",
            },
        )
    }
}
