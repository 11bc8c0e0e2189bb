//! Configurations that the members of a JSON object may stand for.
ghost use Rattle.std.specs.Prelude.{◌≡◌, IfOk, MatchResult, Option, Some, map};
ghost use Rattle.serde_json.specs.Data.{Members};
ghost use Rattle.serde_json.specs.View.{members_view};
ghost use Rattle.zarrs_chunk_base.specs.Configuration.{Table, AreInOrder, HasRequired, IsConfiguration, IsConfigurationFault, IsFirstWrong};
ghost use Rattle.zarrs_chunk_base.specs.Configuration.{IsFitting, IsUnsupported, names_of, required_names_of};
ghost use Rattle.std.specs.List.{AllByRecursion};
ghost use Rattle.zarrs_chunk_base.specs.Metadata.{configuration_of, extension_of};
ghost use Rattle.zarrs_chunk_base.specs.Refusal.{OrMemory};

use crate::json::members::{refuse_missing, refuse_unknown};
use crate::{Configuration, ConfigurationFault, MetadataV3, PluginCreateError, Refusal};
use serde_json::{Map, Value};
use std::alloc::{AllocError, Global};
use std::fmt;

/// The names of the members that a kind of configuration has, in the order of their bytes.
#[derive(Clone, Copy, Debug)]
pub struct MemberNames {
    /// All of them.
    pub known: &'static [&'static str],
    /// Those that have to be there.
    pub required: &'static [&'static str],
    /// All of them, as a fault lists them.
    pub expected: &'static str,
}

/// A configuration of an extension: what the members of a JSON object may stand for.
pub trait ConfigurationForm: Sized + Drop {
    /// What a configuration is, without where it lies in memory.
    ghost Seen: { Type 0 };

    /// What a value is seen as.
    ghost seen: { Self → Seen };

    /// The members that there may be.
    ghost table: { Table };

    /// What members stand for that are all known, if their values are of their forms.
    ghost value: { Members → Option Seen };

    /// The members that a configuration is written as.
    ghost written: { Seen → Members };

    /// The names of the members.
    fn names() -> MemberNames
        ensures known { map (λ name. name.now) result.known.now ≡ names_of table.members }
        ensures required { map (λ name. name.now) result.required.now
            ≡ required_names_of table.members }
        ensures expected { result.expected.now ≡ table.expected };

    /// What members stand for of which all are known and none is missing.
    ///
    /// # Errors
    /// The first value, by the names of the members, that isn't of its form; or out of memory.
    fn from_members(
        alloc: Global,
        members: &Configuration,
    ) -> Result<Self, Refusal<ConfigurationFault>>
        requires { HasRequired table.members (members_view members.now.entries) }
        ensures { MatchResult result
            (λ c. value (members_view members.now.entries) ≡ Some (seen c))
            (OrMemory
            (IsFirstWrong table.members (members_view members.now.entries))) };

    /// The members of the configuration, which stand for it.
    ///
    /// # Errors
    /// Out of memory.
    fn to_tree(&self, alloc: Global) -> Result<Configuration, AllocError>
        ensures members { IfOk result
            (λ c. members_view c.entries ≡ written (seen self.now)) }
        ensures reads_back { IfOk result (λ c. IsConfiguration table value
            (members_view c.entries) (seen self.now)) };

    /// The configuration that members stand for.
    ///
    /// # Errors
    /// The first fault of the members; or out of memory.
    final fn from_tree(
        alloc: Global,
        members: &Configuration,
    ) -> Result<Self, Refusal<ConfigurationFault>>
        ensures { MatchResult result
            (λ c. IsConfiguration table value (members_view members.now.entries) (seen c))
            (OrMemory
            (IsConfigurationFault table (members_view members.now.entries))) }
    {
        let table = Self::names();
        refuse_unknown(alloc, members, table.known, table.expected)?;
        refuse_missing(members, table.required)?;
        Self::from_members(alloc, members)
    }

    /// The configuration of an extension's metadata. An absent one counts as one without members.
    ///
    /// # Errors
    /// [`PluginCreateError::ConfigurationUnsupported`] with the first fault of the members; or out of memory.
    final fn from_metadata(
        alloc: Global,
        metadata: &MetadataV3,
    ) -> Result<Self, Refusal<PluginCreateError>>
        ensures { MatchResult result
            (λ c. IsConfiguration table value (configuration_of (extension_of metadata.now)) (seen c))
            (OrMemory
            (IsUnsupported table (configuration_of (extension_of metadata.now)))) }
    {
        let empty = Map::new(alloc);
        let members = metadata.configuration().unwrap_or(&empty);
        Self::from_tree(alloc, members).map_err(|refusal| refusal.map(
            PluginCreateError::ConfigurationUnsupported,
        ))
    }

    /// Where members stand for a configuration, each of them fits the table.
    ghost fitting: { (members : Members) (x : Seen) → value members ≡ Some x
        → AllByRecursion (IsFitting members) table.members };

    /// The table lists the members in the order of their names.
    ghost in_order: { AreInOrder table.members };
}

/// Prints a kind of configuration, and its members as compact JSON.
pub(super) fn write_configuration<W: fmt::Write>(
    f: &mut fmt::Formatter<W>,
    kind: &str,
    members: Result<Configuration, AllocError>,
) -> fmt::Result {
    match members {
        Ok(members) => write!(f, "{kind} {}", Value::Object(members)),
        Err(_) => Err(fmt::Error),
    }
}
