//! The members of a configuration: those that aren't known, those that are missing, and their values.
ghost use Rattle.std.specs.Prelude.{◌≡◌, ◌≢◌, ℕ, List, None, IsSome, bytes_eq, find, not, MatchOption, MatchResult, Some, map, option_map};
ghost use Rattle.std.specs.Prelude.{string_bytes, string_cmp};
ghost use Rattle.std.specs.List.{AllByRecursion, list_any};
ghost use Rattle.std.specs.BTreeMap.{keys, IsOrdered};
ghost use Rattle.serde_json.specs.Find.{get, get_member};
ghost use Rattle.zarrs_chunk_base.specs.Configuration.{HasNoUnknown, IsUnknownFault, value_of};
ghost use Rattle.zarrs_chunk_base.specs.lemmas.Members.{IsFirstMissing, IsValueFault};
ghost use Rattle.zarrs_chunk_base.specs.Refusal.{OrMemory};
ghost use Rattle.serde_json.specs.View.{view, members_view};

use crate::json::tree_form::TreeForm;
use crate::{Configuration, ConfigurationFault, Refusal};
use serde_json::Value;
use std::alloc::Global;

/// The member of a name.
fn member<'m>(members: &'m Configuration, name: &str) -> Option<&'m Value>
    ensures { option_map (λ v. view v.now) result
        ≡ get_member name.now (members_view members.now.entries) }
{
    members.get(name)
}

/// Takes the member of a name out of an object; `None` where there is none, or the tree is no object. The other members stay.
pub fn take_member(tree: &mut Value, name: &str) -> Option<Value>
    ensures taken { option_map view result ≡ get name.now (view tree.old) }
    ensures gone { get name.now (view tree.new) ≡ None }
    ensures others { (other : List ℕ) → other ≢ name.now
        → get other (view tree.new) ≡ get other (view tree.old) }
{
    tree.as_object_mut()?.remove(name)
}

/// Refuses the first member, by name, that isn't known. `expected` names those that are.
///
/// # Errors
/// There is such a member; or out of memory.
pub fn refuse_unknown(
    alloc: Global,
    members: &Configuration,
    known: &[&str],
    expected: &'static str,
) -> Result<(), Refusal<ConfigurationFault>>
    ensures { MatchResult result (λ _. HasNoUnknown (map
        (λ name. name.now) known.now) (members_view members.now.entries))
        (OrMemory (IsUnknownFault (map
        (λ name. name.now) known.now) expected.now (members_view members.now.entries))) }
{
    let Some(name) = first_unknown(members, known) else {
        return Ok(());
    };
    Err(Refusal::Refused(ConfigurationFault::UnknownField {
        field: String::from_str(alloc, name.as_str())?,
        expected,
    }))
}

/// The first member's name that isn't known.
fn first_unknown<'m>(members: &'m Configuration, known: &[&str]) -> Option<&'m String>
    ensures first { option_map (λ k. k.now) result ≡ find
        (λ k. not (list_any (λ other. bytes_eq other.now (string_bytes k)) known.now))
        (keys members.now) }
    ensures ordered { IsOrdered string_cmp members.now }
{
    members.keys().find(|name| !is_known(known, name.as_str()))
}

/// Whether a name is one of those that are known.
fn is_known(known: &[&str], name: &str) -> bool
    ensures { result ≡ list_any (λ other. bytes_eq other.now name.now) known.now }
{
    known.contains(&name)
}

/// Refuses the first member of a list that is missing.
pub(super) fn refuse_missing(
    members: &Configuration,
    required: &[&'static str],
) -> Result<(), Refusal<ConfigurationFault>>
    ensures { MatchResult result (λ _. AllByRecursion
        (λ name. IsSome (get_member name (members_view members.now.entries)))
        (map (λ name. name.now) required.now))
        (OrMemory (IsFirstMissing (map
        (λ name. name.now) required.now) (members_view members.now.entries))) }
{
    for field in required {
        if member(members, field).is_none() {
            return Err(Refusal::Refused(ConfigurationFault::MissingField { field: *field }));
        }
    }
    Ok(())
}

/// The value of a member, where it is there.
pub(super) fn optional_value<T: TreeForm>(
    alloc: Global,
    members: &Configuration,
    field: &'static str,
) -> Result<Option<T>, Refusal<ConfigurationFault>>
    ensures { MatchResult result (λ o. MatchOption o
        (get_member field.now (members_view members.now.entries) ≡ None)
        (λ value. value_of field.now T.form (members_view members.now.entries)
        ≡ Some (T.seen value)))
        (OrMemory
        (IsValueFault field.now T.form (members_view members.now.entries))) }
{
    let Some(tree) = member(members, field) else {
        return Ok(None);
    };
    match T::from_tree(alloc, tree)? {
        Some(value) => Ok(Some(value)),
        None => Err(Refusal::Refused(ConfigurationFault::WrongValue { field })),
    }
}

/// The value of a member that is there.
pub(super) fn required_value<T: TreeForm>(
    alloc: Global,
    members: &Configuration,
    field: &'static str,
) -> Result<T, Refusal<ConfigurationFault>>
    requires { IsSome (get_member field.now (members_view members.now.entries)) }
    ensures { MatchResult result
        (λ value. value_of field.now T.form (members_view members.now.entries)
        ≡ Some (T.seen value))
        (OrMemory
        (IsValueFault field.now T.form (members_view members.now.entries))) }
{
    match optional_value(alloc, members, field)? {
        Some(value) => Ok(value),
        // Never: the member is there.
        None => Err(Refusal::Refused(ConfigurationFault::WrongValue { field })),
    }
}
