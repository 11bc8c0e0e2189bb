//! The configuration of the `default` chunk key encoding.
ghost use Rattle.zarrs_chunk_base.specs.declared.chunk_key_separator.ChunkKeySeparator.{ChunkKeySeparator};
ghost use Rattle.zarrs_chunk_base.specs.lemmas.Fitting.{default_fits};
ghost use Rattle.zarrs_chunk_base.specs.KeyConfigurations.{default_value, separator_members, separator_table};

use crate::json::configuration_form::{ConfigurationForm, MemberNames};
use crate::json::separator_member::{SEPARATOR, separator_or, with_separator};
use crate::{ChunkKeySeparator, Configuration, ConfigurationFault, Refusal};
use std::alloc::{AllocError, Global};
use std::fmt;

/// The configuration of the `default` chunk key encoding: `separator`, the text `/` or `.`, and `/` where it is absent.
///
/// ```json
/// {"separator": "/"}
/// ```
///
/// Source: Zarr V3 core, default chunk key encoding.
#[derive(Clone, Copy, Debug, PartialEq, Eq)]
pub struct DefaultChunkKeyEncodingConfiguration {
    /// What stands before each number of a key.
    pub separator: ChunkKeySeparator,
}

impl DefaultChunkKeyEncodingConfiguration {
    ghost use Rattle.std.specs.Prelude.{◌≡◌, Ok};

    /// The same configuration. It never fails: the answer has the form of every configuration's `clone`.
    pub fn clone(&self) -> Result<DefaultChunkKeyEncodingConfiguration, AllocError>
        ensures { result ≡ Ok self.now }
    {
        Ok(*self)
    }
}

impl ConfigurationForm for DefaultChunkKeyEncodingConfiguration {
    ghost Seen = { ChunkKeySeparator };

    ghost seen = { λ c. c.separator };

    ghost table = { separator_table };

    ghost value = { default_value };

    ghost written = { separator_members };

    ghost in_order = { (tt, tt) };

    ghost fitting = { default_fits };

    fn names() -> MemberNames {
        MemberNames {
            known: &[SEPARATOR],
            required: &[],
            expected: "`separator`",
        }
    }

    fn from_members(
        alloc: Global,
        members: &Configuration,
    ) -> Result<DefaultChunkKeyEncodingConfiguration, Refusal<ConfigurationFault>> {
        let separator = separator_or(alloc, members, ChunkKeySeparator::Slash)?;
        Ok(DefaultChunkKeyEncodingConfiguration { separator })
    }

    fn to_tree(&self, alloc: Global) -> Result<Configuration, AllocError> {
        with_separator(alloc, self.separator)
    }
}

impl fmt::Display for DefaultChunkKeyEncodingConfiguration {
    fn fmt<W: fmt::Write>(&self, f: &mut fmt::Formatter<W>) -> fmt::Result {
        write!(f, "{{\"separator\":\"{}\"}}", self.separator.as_char())
    }
}
