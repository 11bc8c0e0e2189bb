//! Values that a JSON tree may stand for: sizes, edges, texts, boxes, and lists of them.
ghost use Rattle.std.specs.Prelude.{◌≡◌, ◌++◌, IfOk, List, OnOk, Option, Some, [], ◌∷◌, is_some, length, map, option_map, string_bytes};
ghost use Rattle.std.specs.Prelude.{take, unwrap_or, ℕ, OnErr, if◌then◌else◌, None};
ghost use Rattle.std.specs.Int.NonZero.{non_zero_u64_get};
ghost use Rattle.serde_json.specs.Data.{Data, string};
ghost use Rattle.serde_json.specs.Find.{as_str};
ghost use Rattle.serde_json.specs.View.{view, items_view};
ghost use Rattle.zarrs_chunk_base.specs.Json.{size_of, edge_of, list_of, pair_of, size_tree, list_tree, each_of};

use crate::ArraySubset;
use serde_json::Value;
use std::alloc::{AllocError, Global};
use std::num::NonZeroU64;

/// A value that a JSON tree may stand for.
pub trait TreeForm: Sized + Drop {
    /// What a value is, without where it lies in memory.
    ghost Seen: { Type 0 };

    /// What a value is seen as.
    ghost seen: { Self → Seen };

    /// What a tree stands for, if it is of the form.
    ghost form: { Data → Option Seen };

    /// The tree that a value is written as.
    ghost written: { Seen → Data };

    /// The value that a tree stands for, or `None` where the tree isn't of the form.
    ///
    /// # Errors
    /// Out of memory.
    fn from_tree(alloc: Global, tree: &Value) -> Result<Option<Self>, AllocError>
        ensures { IfOk result (λ o. option_map seen o ≡ form (view tree.now)) };

    /// The tree of the value, which stands for it.
    ///
    /// # Errors
    /// Out of memory.
    fn to_tree(&self, alloc: Global) -> Result<Value, AllocError>
        ensures tree { IfOk result (λ value. view value ≡ written (seen self.now)) }
        ensures reads_back { IfOk result (λ value. form (view value) ≡ Some (seen self.now)) };
}

/// A size: a whole number from 0 to the greatest `u64`.
impl TreeForm for u64 {
    ghost Seen = { ℕ };

    ghost seen = { λ n. n };

    ghost form = { size_of };

    ghost written = { size_tree };

    fn from_tree(_alloc: Global, tree: &Value) -> Result<Option<u64>, AllocError> {
        Ok(tree.as_u64())
    }

    fn to_tree(&self, _alloc: Global) -> Result<Value, AllocError> {
        Ok(Value::from(*self))
    }
}

/// An edge: a size that isn't 0.
impl TreeForm for NonZeroU64 {
    ghost Seen = { ℕ };

    ghost seen = { non_zero_u64_get };

    ghost form = { edge_of };

    ghost written = { size_tree };

    fn from_tree(_alloc: Global, tree: &Value) -> Result<Option<NonZeroU64>, AllocError> {
        Ok(tree.as_u64().and_then(NonZeroU64::new))
    }

    fn to_tree(&self, _alloc: Global) -> Result<Value, AllocError> {
        Ok(Value::from(self.get()))
    }
}

/// A text.
impl TreeForm for String {
    ghost Seen = { List ℕ };

    ghost seen = { string_bytes };

    ghost form = { as_str };

    ghost written = { string };

    fn from_tree(alloc: Global, tree: &Value) -> Result<Option<String>, AllocError> {
        match tree.as_str() {
            Some(text) => Ok(Some(String::from_str(alloc, text)?)),
            None => Ok(None),
        }
    }

    fn to_tree(&self, alloc: Global) -> Result<Value, AllocError> {
        Value::try_from_str(alloc, self.as_str())
    }
}

/// A list of values of one form.
impl<T: TreeForm> TreeForm for Vec<T> {
    ghost Seen = { List T.Seen };

    ghost seen = { λ v. map T.seen v.items };

    ghost form = { list_of T.form };

    ghost written = { list_tree T.written };

    fn from_tree(alloc: Global, tree: &Value) -> Result<Option<Vec<T>>, AllocError> {
        let mut values = Vec::new(alloc);
        if !read_list(alloc, tree, &mut values)? {
            return Ok(None);
        }
        Ok(Some(values))
    }

    fn to_tree(&self, alloc: Global) -> Result<Value, AllocError> {
        write_list(alloc, self.as_slice())
    }
}

/// Two values of one form, as a list of both.
impl<T: TreeForm> TreeForm for (T, T) {
    ghost Seen = { T.Seen × T.Seen };

    ghost seen = { λ pair. (T.seen pair.0, T.seen pair.1) };

    ghost form = { pair_of T.form };

    ghost written = { λ pair. list_tree T.written (pair.0 ∷ pair.1 ∷ []) };

    fn from_tree(alloc: Global, tree: &Value) -> Result<Option<(T, T)>, AllocError> {
        let Some(elements) = tree.as_array() else {
            return Ok(None);
        };
        let [first, second] = elements.as_slice() else {
            return Ok(None);
        };
        match (T::from_tree(alloc, first)?, T::from_tree(alloc, second)?) {
            (Some(first), Some(second)) => Ok(Some((first, second))),
            _ => Ok(None),
        }
    }

    fn to_tree(&self, alloc: Global) -> Result<Value, AllocError> {
        let (first, second) = self;
        let mut trees = Vec::with_capacity(alloc, 2)?;
        trees.push(first.to_tree(alloc)?)?;
        trees.push(second.to_tree(alloc)?)?;
        Ok(Value::Array(trees))
    }
}

/// Appends the values that a tree stands for, a list of one form. `false` where the tree isn't of the form; then nothing is appended.
///
/// # Errors
/// Out of memory; nothing is appended then either.
pub fn read_list<T: TreeForm>(
    alloc: Global,
    tree: &Value,
    values: &mut Vec<T>,
) -> Result<bool, AllocError>
    ensures is_list { IfOk result (λ is. is ≡ is_some (list_of T.form (view tree.now))) }
    ensures values { OnOk result (map T.seen values.new.items
        ≡ map T.seen values.old.items ++ unwrap_or (list_of T.form (view tree.now)) []) }
    ensures kept { OnErr result (values.new.items ≡ values.old.items) }
{
    let Some(elements) = tree.as_array() else {
        return Ok(false);
    };
    let before = values.len();
    let read = read_elements(alloc, elements, values);
    if !matches!(&read, Ok(true)) {
        values.truncate(before);
    }
    read
}

/// Appends the values that elements stand for. `false` where one of them isn't of the form; then some of the others may be appended.
///
/// # Errors
/// Out of memory; some may be appended then too.
fn read_elements<T: TreeForm>(
    alloc: Global,
    elements: &[Value],
    values: &mut Vec<T>,
) -> Result<bool, AllocError>
    ensures values { IfOk result (λ is. option_map (λ rest. map T.seen values.old.items ++ rest)
        (each_of T.form (items_view elements.now))
        ≡ (if is then Some (map T.seen values.new.items) else None)) }
    ensures kept { take (length values.old.items) values.new.items ≡ values.old.items }
{
    values.reserve_exact(elements.len())?;
    for element in elements {
        let Some(value) = T::from_tree(alloc, element)? else {
            return Ok(false);
        };
        values.push(value)?;
    }
    Ok(true)
}

/// The tree of a list of values of one form, which stands for them.
///
/// # Errors
/// Out of memory.
pub fn write_list<T: TreeForm>(alloc: Global, values: &[T]) -> Result<Value, AllocError>
    ensures tree { IfOk result (λ value. view value
        ≡ list_tree T.written (map T.seen values.now)) }
    ensures reads_back { IfOk result (λ value. list_of T.form (view value)
        ≡ Some (map T.seen values.now)) }
{
    let mut trees = Vec::with_capacity(alloc, values.len())?;
    for value in values {
        trees.push(value.to_tree(alloc)?)?;
    }
    Ok(Value::Array(trees))
}

/// The tree of a box: a list of its start and its shape.
///
/// # Errors
/// Out of memory.
pub fn write_box(alloc: Global, subset: &ArraySubset) -> Result<Value, AllocError>
    ensures tree { IfOk result (λ value. view value
        ≡ list_tree (list_tree size_tree) (subset.now.start ∷ subset.now.shape ∷ [])) }
    ensures reads_back { IfOk result (λ value. pair_of (list_of size_of) (view value)
        ≡ Some (subset.now.start, subset.now.shape)) }
{
    let mut lists = Vec::with_capacity(alloc, 2)?;
    lists.push(write_list(alloc, subset.start())?)?;
    lists.push(write_list(alloc, subset.shape())?)?;
    Ok(Value::Array(lists))
}
