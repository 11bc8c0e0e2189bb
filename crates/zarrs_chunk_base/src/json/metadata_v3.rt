//! The metadata of an extension: a name, and for some a configuration.
ghost use Rattle.std.specs.Prelude.{◌≡◌, Bool, IfOk, MatchResult, Option, codes, option_map};
ghost use Rattle.serde_json.specs.Find.{get, as_bool, as_object};
ghost use Rattle.serde_json.specs.View.{view, members_view};
ghost use Rattle.zarrs_chunk_base.specs.Metadata.{IsExtension, IsMetadataFault, IsMisformed, IsOptional};
ghost use Rattle.zarrs_chunk_base.specs.Refusal.{OrMemory};
ghost use Rattle.zarrs_chunk_base.specs.lemmas.ConfigurationIn.{configuration_in};

use crate::json::members::take_member;
use crate::{Configuration, MetadataError, Refusal};
use serde_json::{Map, Value};
use std::alloc::{AllocError, Global};

/// The metadata of an extension of Zarr V3: its name, and for some a configuration.
///
/// ```json
/// {"name": "regular", "configuration": {"chunk_shape": [1, 2, 3]}}
/// ```
///
/// Source: Zarr V3 core, extension definition.
#[derive(Debug, Drop, PartialEq)]
pub struct MetadataV3 {
    name: String,
    configuration: Option<Configuration>,
}

impl MetadataV3 {
    ghost use Rattle.std.specs.Prelude.{◌≡◌, IfOk, MatchResult, option_map, string_bytes};
    ghost use Rattle.serde_json.specs.View.{view, members_view};
    ghost use Rattle.zarrs_chunk_base.specs.Metadata.{extension_of, extension_tree, IsExtension, IsMetadataFault};
    ghost use Rattle.zarrs_chunk_base.specs.Refusal.{OrMemory};

    /// The metadata of a name and, where there is one, a configuration.
    pub fn new(name: String, configuration: Option<Configuration>) -> MetadataV3
        ensures name { (extension_of result).name ≡ string_bytes name }
        ensures configuration { (extension_of result).configuration
            ≡ option_map (λ c. members_view c.entries) configuration }
    {
        MetadataV3 {
            name,
            configuration,
        }
    }

    /// The metadata that a tree stands for: a text, which is the name alone, or an object with a
    /// `name` and an optional `configuration`. Its `must_understand` has to be a truth value and
    /// isn't kept; other members are ignored.
    ///
    /// # Errors
    /// The first fault of the tree; or out of memory.
    pub fn from_tree(alloc: Global, tree: &Value) -> Result<MetadataV3, Refusal<MetadataError>>
        ensures { MatchResult result (λ m. IsExtension (view tree.now) (extension_of m))
            (OrMemory (IsMetadataFault (view tree.now))) }
    {
        let name = String::from_str(alloc, checked_name(tree)?)?;
        Ok(MetadataV3 {
            name,
            configuration: copy_of_configuration(tree)?,
        })
    }

    /// The metadata that a tree stands for, as by [`MetadataV3::from_tree`]. The configuration is moved out of the tree and not copied.
    ///
    /// # Errors
    /// The first fault of the tree; or out of memory.
    pub fn from_value(alloc: Global, tree: Value) -> Result<MetadataV3, Refusal<MetadataError>>
        ensures { MatchResult result (λ m. IsExtension (view tree) (extension_of m))
            (OrMemory (IsMetadataFault (view tree))) }
    {
        let name = String::from_str(alloc, checked_name(&tree)?)?;
        Ok(MetadataV3 {
            name,
            configuration: take_configuration(tree),
        })
    }

    /// The extension's name.
    pub fn name(&self) -> &str
        ensures { result.now ≡ (extension_of self.now).name }
    {
        self.name.as_str()
    }

    /// The extension's configuration, where there is one.
    pub fn configuration(&self) -> Option<&Configuration>
        ensures { option_map (λ c. members_view c.now.entries) result
            ≡ (extension_of self.now).configuration }
    {
        self.configuration.as_ref()
    }

    /// The tree of the metadata: the name alone, as a text, where there is no configuration; else an object with
    /// `name` and `configuration`.
    ///
    /// # Errors
    /// Out of memory.
    pub fn to_tree(&self, alloc: Global) -> Result<Value, AllocError>
        ensures tree { IfOk result (λ tree. view tree ≡ extension_tree (extension_of self.now)) }
        ensures reads_back { IfOk result (λ tree. IsExtension (view tree) (extension_of self.now)) }
    {
        let name = Value::try_from_str(alloc, self.name.as_str())?;
        let Some(configuration) = &self.configuration else {
            return Ok(name);
        };
        let mut members = Map::new(alloc);
        let configuration = Value::Object(copy_of(configuration)?);
        serde_json::put(&mut members, alloc, "configuration", configuration)?;
        serde_json::put(&mut members, alloc, "name", name)?;
        Ok(Value::Object(members))
    }

    /// Metadata of an equal name and an equal configuration.
    ///
    /// # Errors
    /// Out of memory.
    pub fn clone(&self) -> Result<MetadataV3, AllocError>
        ensures { IfOk result (λ copy. extension_of copy ≡ extension_of self.now) }
    {
        Ok(MetadataV3 {
            name: self.name.clone()?,
            configuration: match &self.configuration {
                Some(configuration) => Some(copy_of(configuration)?),
                None => None,
            },
        })
    }
}

/// A copy of a configuration.
fn copy_of(configuration: &Configuration) -> Result<Configuration, AllocError>
    ensures { IfOk result (λ copy. members_view copy.entries
        ≡ members_view configuration.now.entries) }
{
    let copy = configuration.clone()?;
    Ok(copy)
}

/// The name in a tree that stands for metadata.
fn checked_name(tree: &Value) -> Result<&str, Refusal<MetadataError>>
    ensures { MatchResult result (λ name. IsExtension (view tree.now)
        (record { name = name.now; configuration = configuration_in (view tree.now) }))
        (OrMemory (IsMetadataFault (view tree.now))) }
{
    if let Some(name) = tree.as_str() {
        return Ok(name);
    }
    if !tree.is_object() {
        return Err(Refusal::Refused(MetadataError::NotAnExtension));
    }
    let Some(name) = tree.get("name") else {
        return Err(Refusal::Refused(MetadataError::NameMissing));
    };
    let Some(name) = name.as_str() else {
        return Err(Refusal::Refused(MetadataError::NameNotText));
    };
    check_configuration(tree)?;
    check_must_understand(tree)?;
    Ok(name)
}

/// A copy of the member `configuration`, where there is one that is an object.
fn copy_of_configuration(tree: &Value) -> Result<Option<Configuration>, AllocError>
    ensures { IfOk result (λ c. option_map (λ c. members_view c.entries) c
        ≡ configuration_in (view tree.now)) }
{
    match tree.get("configuration").and_then(Value::as_object) {
        Some(members) => Ok(Some(copy_of(members)?)),
        None => Ok(None),
    }
}

/// The member `configuration` of a tree, where there is one that is an object.
fn take_configuration(mut tree: Value) -> Option<Configuration>
    ensures { option_map (λ c. members_view c.entries) result ≡ configuration_in (view tree) }
{
    match take_member(&mut tree, "configuration") {
        Some(Value::Object(configuration)) => Some(configuration),
        _ => None,
    }
}

/// Refuses a member `configuration` that is no object.
fn check_configuration(tree: &Value) -> Result<(), Refusal<MetadataError>>
    ensures { MatchResult result
        (λ _. IsOptional as_object (get (codes "configuration") (view tree.now))
        (configuration_in (view tree.now)))
        (OrMemory (λ error. (error ≡ MetadataError.ConfigurationNotObject)
        × IsMisformed as_object (get (codes "configuration") (view tree.now)))) }
{
    let Some(configuration) = tree.get("configuration") else {
        return Ok(());
    };
    if configuration.is_object() {
        Ok(())
    } else {
        Err(Refusal::Refused(MetadataError::ConfigurationNotObject))
    }
}

/// Refuses a member `must_understand` that is no truth value.
fn check_must_understand(tree: &Value) -> Result<(), Refusal<MetadataError>>
    ensures { MatchResult result
        (λ _. (b : Option Bool) × IsOptional as_bool
        (get (codes "must_understand") (view tree.now)) b)
        (OrMemory (λ error. (error ≡ MetadataError.MustUnderstandNotBool)
        × IsMisformed as_bool (get (codes "must_understand") (view tree.now)))) }
{
    let Some(must_understand) = tree.get("must_understand") else {
        return Ok(());
    };
    if must_understand.is_boolean() {
        Ok(())
    } else {
        Err(Refusal::Refused(MetadataError::MustUnderstandNotBool))
    }
}
