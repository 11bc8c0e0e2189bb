//! The configuration of the `zarrs.default_suffix` chunk key encoding.
ghost use Rattle.std.specs.Prelude.{◌≡◌, refl, string_bytes};
ghost use Rattle.zarrs_chunk_base.specs.lemmas.Fitting.{suffix_fits};
ghost use Rattle.zarrs_chunk_base.specs.KeyConfigurations.{Suffixed, suffix_members, suffix_table, suffix_value};

use crate::json::configuration_form::{ConfigurationForm, MemberNames};
use crate::json::members::required_value;
use crate::json::separator_member::{SEPARATOR, separator_or, with_separator};
use crate::json::tree_form::TreeForm;
use crate::{ChunkKeySeparator, Configuration, ConfigurationFault, Refusal};
use serde_json::Value;
use std::alloc::{AllocError, Global};

const SUFFIX: &str = "suffix";

/// The configuration of the `zarrs.default_suffix` chunk key encoding: `separator`, the text `/` or `.`, and `/` where it is
/// absent; and `suffix`, the text at the end of each key.
///
/// ```json
/// {"separator": "/", "suffix": ".tiff"}
/// ```
///
/// Source: the extension `zarrs.default_suffix`.
#[derive(Debug, Drop, PartialEq, Eq)]
pub struct DefaultSuffixChunkKeyEncodingConfiguration {
    /// What stands before each number of a key.
    pub separator: ChunkKeySeparator,
    /// What a key ends in.
    pub suffix: String,
}

impl DefaultSuffixChunkKeyEncodingConfiguration {
    ghost use Rattle.std.specs.Prelude.{◌≡◌, IfOk, string_bytes};
    ghost use Rattle.serde_json.specs.Data.{object};
    ghost use Rattle.serde_json.specs.Written.{compact_text};
    ghost use Rattle.zarrs_chunk_base.specs.KeyConfigurations.{suffix_configuration_of, suffix_members};

    /// A configuration with the same separator and an equal suffix.
    ///
    /// # Errors
    /// Out of memory.
    pub fn clone(&self) -> Result<DefaultSuffixChunkKeyEncodingConfiguration, AllocError>
        ensures { IfOk result (λ copy. suffix_configuration_of copy ≡ suffix_configuration_of self.now) }
    {
        Ok(DefaultSuffixChunkKeyEncodingConfiguration {
            separator: self.separator,
            suffix: self.suffix.clone()?,
        })
    }

    /// The members of the configuration as compact JSON, in the order of their names.
    ///
    /// # Errors
    /// Out of memory.
    pub fn to_text(&self, alloc: Global) -> Result<String, AllocError>
        ensures { IfOk result (λ text. string_bytes text
            ≡ compact_text (object (suffix_members (suffix_configuration_of self.now)))) }
    {
        Value::Object(self.to_tree(alloc)?).to_string(alloc)
    }
}

impl ConfigurationForm for DefaultSuffixChunkKeyEncodingConfiguration {
    ghost use Rattle.zarrs_chunk_base.specs.KeyConfigurations.{suffix_configuration_of};

    ghost Seen = { Suffixed };

    ghost seen = { suffix_configuration_of };

    ghost table = { suffix_table };

    ghost value = { suffix_value };

    ghost written = { suffix_members };

    ghost in_order = { ((refl, tt), (tt, tt)) };

    ghost fitting = { suffix_fits };

    fn names() -> MemberNames {
        MemberNames {
            known: &[SEPARATOR, SUFFIX],
            required: &[SUFFIX],
            expected: "`separator` or `suffix`",
        }
    }

    fn from_members(
        alloc: Global,
        members: &Configuration,
    ) -> Result<DefaultSuffixChunkKeyEncodingConfiguration, Refusal<ConfigurationFault>> {
        let separator = separator_or(alloc, members, ChunkKeySeparator::Slash)?;
        let suffix = required_value(alloc, members, SUFFIX)?;
        Ok(DefaultSuffixChunkKeyEncodingConfiguration { separator, suffix })
    }

    fn to_tree(&self, alloc: Global) -> Result<Configuration, AllocError> {
        let mut members = with_separator(alloc, self.separator)?;
        serde_json::put(&mut members, alloc, SUFFIX, self.suffix.to_tree(alloc)?)?;
        Ok(members)
    }
}
