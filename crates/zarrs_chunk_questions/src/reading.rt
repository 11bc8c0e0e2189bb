//! The members of a line's tree.
ghost use Rattle.std.specs.Prelude.{List, option_map};
ghost use Rattle.serde_json.specs.View.{view};
ghost use Rattle.zarrs_chunk_questions.specs.Reading.{in_form as form_in, optional_in, required as member_in, required_in as value_in};
ghost use Rattle.zarrs_chunk_questions.specs.seen.Read.{IsRead};

use crate::unreadable::Unreadable;
use serde_json::Value;
use std::alloc::Global;
use zarrs_chunk_base::{Refusal, TreeForm};

/// A member that has to be there.
///
/// # Errors
/// It is missing.
pub(crate) fn required<'t>(
    tree: &'t Value,
    field: &'static str,
) -> Result<&'t Value, Refusal<Unreadable>>
    ensures { IsRead (λ value. view value.now) (member_in field.now (view tree.now)) result }
{
    match tree.get(field) {
        Some(value) => Ok(value),
        None => Err(Refusal::Refused(Unreadable::Missing(field))),
    }
}

/// The value of the member of this name, which has to be of a form.
///
/// # Errors
/// It isn't of the form; or out of memory.
pub(crate) fn in_form<T: TreeForm>(
    alloc: Global,
    field: &'static str,
    value: &Value,
) -> Result<T, Refusal<Unreadable>>
    ensures { IsRead T.seen (form_in T.form field.now (view value.now)) result }
{
    match T::from_tree(alloc, value)? {
        Some(read) => Ok(read),
        None => Err(Refusal::Refused(Unreadable::WrongValue(field))),
    }
}

/// A member that has to be there, and of a form.
///
/// # Errors
/// It is missing, or isn't of the form; or out of memory.
pub(crate) fn required_in<T: TreeForm>(
    alloc: Global,
    field: &'static str,
    tree: &Value,
) -> Result<T, Refusal<Unreadable>>
    ensures { IsRead T.seen (value_in T.form field.now (view tree.now)) result }
{
    let value = required(tree, field)?;
    in_form(alloc, field, value)
}

/// A member that has to be of a form, where there is one.
///
/// # Errors
/// It isn't of the form; or out of memory.
pub(crate) fn optional_in<T: TreeForm>(
    alloc: Global,
    field: &'static str,
    tree: &Value,
) -> Result<Option<T>, Refusal<Unreadable>>
    ensures { IsRead (option_map T.seen) (optional_in T.form field.now (view tree.now)) result }
{
    match tree.get(field) {
        Some(value) => Ok(Some(in_form(alloc, field, value)?)),
        None => Ok(None),
    }
}
