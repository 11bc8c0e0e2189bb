//! What an array's grid is asked.
ghost use Rattle.std.specs.Prelude.{codes, option_map};
ghost use Rattle.serde_json.specs.View.{view};
ghost use Rattle.zarrs_chunk_questions.specs.Question.{asked_in, copy_in, encoding_in, items_in, lists_in, numbers_in, of_target as member_of, share_in};
ghost use Rattle.zarrs_chunk_questions.specs.Question.{target_in, target_object_in, target_shape_in, task_order_in};
ghost use Rattle.zarrs_chunk_questions.specs.seen.Read.{IsRead, asked_of, copy_asked_of, items_of, lists_of, share_of, target_of};
ghost use Rattle.zarrs_chunk_questions.specs.declared.call.OfArray.TheVariants.{Locate, Parts, TaskCounts, Tasks};

use crate::call::{OfArray, OfBox, OfGrid, OfNumbers, WalkOf};
use crate::reading::{in_form, optional_in, required, required_in};
use crate::unreadable::Unreadable;
use serde_json::Value;
use std::alloc::Global;
use std::num::NonZeroU64;
use zarrs_chunk_base::{Refusal, TreeForm};
use zarrs_chunk_plan::Share;
use zarrs_chunk_tasks::Order;

/// A box, as its start and its shape say it.
pub(crate) type Lists = (Vec<u64>, Vec<u64>);

/// What an array's grid is asked, by some calls with the tree of an encoding's metadata.
#[derive(Drop)]
pub(crate) enum Asked<'t> {
    OfGrid(OfGrid),
    OfNumbers(OfNumbers, Vec<u64>),
    OfBox(OfBox, Lists),
    OfWalk(WalkOf, Items),
    /// How many runs a dimension has.
    Runs(u64),
    /// The chunk of an index, and how many comparisons that took.
    Counted(Vec<u64>),
    /// Where an element is stored.
    Located(&'t Value, Vec<u64>),
    /// Some of the parts of the plan of reading a box.
    Parts(&'t Value, Items, Lists),
    /// Some of the tasks of a copy.
    Tasks(&'t Value, CopyAsked<'t>, Items),
    /// How much the tasks of a copy read and write, and which of them a share has.
    TaskCounts(&'t Value, CopyAsked<'t>, Share),
    /// What becomes of the chunks when the array gets this shape.
    ChangedChunks(Vec<u64>),
}

/// Which items of a walk are asked for.
#[derive(Clone, Copy, Drop)]
pub(crate) struct Items {
    /// How many at most.
    pub(crate) most: u64,
    /// The number of the first one, counted from 0; `None` for a walk from its beginning.
    pub(crate) first: Option<u64>,
}

/// The array that elements are copied to: its shape, `None` if it has the array's shape, and the trees of a grid's and an encoding's metadata.
#[derive(Drop)]
pub(crate) struct TargetArray<'t> {
    pub(crate) shape: Option<Vec<u64>>,
    pub(crate) chunk_grid: &'t Value,
    pub(crate) chunk_key_encoding: &'t Value,
}

/// A copy that is asked about.
#[derive(Drop)]
pub(crate) struct CopyAsked<'t> {
    pub(crate) target: TargetArray<'t>,
    /// The box of the array's elements; `None`: all elements.
    pub(crate) subset: Option<Lists>,
    /// The index that it begins at in the target's array; `None`: 0 in each dimension.
    pub(crate) at: Option<Vec<u64>>,
    /// How many neighbouring chunks a task takes along each dimension; `None`: one.
    pub(crate) task_chunks: Option<Vec<NonZeroU64>>,
    /// Of which array a task takes chunks.
    pub(crate) order: Order,
}

impl<'t> Asked<'t> {
    /// What a call of a grid reads of a line's tree.
    ///
    /// # Errors
    /// The first that applies, in the order in which the members are read here: one that has to be there is missing; one isn't of its
    /// form. Or out of memory.
    pub(crate) fn from_tree(
        alloc: Global,
        call: OfArray,
        tree: &'t Value,
    ) -> Result<Asked<'t>, Refusal<Unreadable>>
        ensures { IsRead asked_of (asked_in call (view tree.now)) result }
    {
        match call {
            OfArray::OfGrid(call) => Ok(Asked::OfGrid(call)),
            OfArray::OfNumbers(call) => Ok(Asked::OfNumbers(call, numbers(alloc, tree)?)),
            OfArray::OfBox(call) => Ok(Asked::OfBox(call, lists(alloc, "of", tree)?)),
            OfArray::OfWalk(walk) => Ok(Asked::OfWalk(walk, Items::from_tree(alloc, tree)?)),
            OfArray::Runs => Ok(Asked::Runs(required_in(alloc, "of", tree)?)),
            OfArray::ChunkIndicesCounted => Ok(Asked::Counted(numbers(alloc, tree)?)),
            OfArray::Locate => located(alloc, tree),
            OfArray::Parts => parts(alloc, tree),
            OfArray::Tasks => tasks(alloc, tree),
            OfArray::TaskCounts => task_counts(alloc, tree),
            OfArray::ChangedChunks => Ok(Asked::ChangedChunks(required_in(alloc, "resize", tree)?)),
        }
    }
}

/// The numbers that a call is asked of.
pub(crate) fn numbers(alloc: Global, tree: &Value) -> Result<Vec<u64>, Refusal<Unreadable>>
    ensures { IsRead (λ numbers. numbers.items) (numbers_in (view tree.now)) result }
{
    required_in(alloc, "of", tree)
}

/// A member that is the start and the shape of a box.
pub(crate) fn lists(
    alloc: Global,
    field: &'static str,
    tree: &Value,
) -> Result<Lists, Refusal<Unreadable>>
    ensures { IsRead lists_of (lists_in field.now (view tree.now)) result }
{
    required_in(alloc, field, tree)
}

/// The tree of the metadata of an encoding.
pub(crate) fn encoding(tree: &Value) -> Result<&Value, Refusal<Unreadable>>
    ensures { IsRead (λ value. view value.now) (encoding_in (view tree.now)) result }
{
    required(tree, "chunk_key_encoding")
}

/// What `locate` is asked of.
fn located<'t>(alloc: Global, tree: &'t Value) -> Result<Asked<'t>, Refusal<Unreadable>>
    ensures { IsRead asked_of (asked_in Locate (view tree.now)) result }
{
    let encoding = encoding(tree)?;
    let index = numbers(alloc, tree)?;
    Ok(Asked::Located(encoding, index))
}

/// What `parts` is asked of.
fn parts<'t>(alloc: Global, tree: &'t Value) -> Result<Asked<'t>, Refusal<Unreadable>>
    ensures { IsRead asked_of (asked_in Parts (view tree.now)) result }
{
    let encoding = encoding(tree)?;
    let items = Items::from_tree(alloc, tree)?;
    let elements = lists(alloc, "of", tree)?;
    Ok(Asked::Parts(encoding, items, elements))
}

/// What `tasks` is asked of.
fn tasks<'t>(alloc: Global, tree: &'t Value) -> Result<Asked<'t>, Refusal<Unreadable>>
    ensures { IsRead asked_of (asked_in Tasks (view tree.now)) result }
{
    let encoding = encoding(tree)?;
    let target = TargetArray::from_tree(alloc, tree)?;
    let items = Items::from_tree(alloc, tree)?;
    let copy = copy_to(alloc, target, tree)?;
    Ok(Asked::Tasks(encoding, copy, items))
}

/// What `task_counts` is asked of.
fn task_counts<'t>(alloc: Global, tree: &'t Value) -> Result<Asked<'t>, Refusal<Unreadable>>
    ensures { IsRead asked_of (asked_in TaskCounts (view tree.now)) result }
{
    let encoding = encoding(tree)?;
    let target = TargetArray::from_tree(alloc, tree)?;
    let share = share(alloc, tree)?;
    let copy = copy_to(alloc, target, tree)?;
    Ok(Asked::TaskCounts(encoding, copy, share))
}

/// The copy to a target that a line asks for.
///
/// # Errors
/// The first that applies: `subset` isn't two lists of sizes; `at` is no list of sizes; `task_chunks` is no list of sizes from 1 on; `order` is neither
/// `target` nor `source`. Or out of memory.
fn copy_to<'t>(
    alloc: Global,
    target: TargetArray<'t>,
    tree: &'t Value,
) -> Result<CopyAsked<'t>, Refusal<Unreadable>>
    ensures { IsRead copy_asked_of (copy_in (target_of target.entry) (view tree.now)) result }
{
    let subset = optional_in(alloc, "subset", tree)?;
    let at = optional_in(alloc, "at", tree)?;
    let task_chunks = optional_in(alloc, "task_chunks", tree)?;
    let order = task_order(tree)?;
    Ok(CopyAsked {
        target,
        subset,
        at,
        task_chunks,
        order,
    })
}

/// The array whose chunks tasks take: the member `order`; the target if the member is missing.
///
/// # Errors
/// `order` is neither `target` nor `source`.
fn task_order(tree: &Value) -> Result<Order, Refusal<Unreadable>>
    ensures { IsRead (λ order. order) (task_order_in (view tree.now)) result }
{
    let Some(member) = tree.get("order") else {
        return Ok(Order::Target);
    };
    match member.as_str() {
        Some("target") => Ok(Order::Target),
        Some("source") => Ok(Order::Source),
        _ => Err(Refusal::Refused(Unreadable::WrongValue("order"))),
    }
}

/// The share that a line asks for: its member `share`, the number of the share and how many there are; all if the member is missing.
///
/// # Errors
/// `share` isn't two sizes, or there is no share with the number. Or out of memory.
fn share(alloc: Global, tree: &Value) -> Result<Share, Refusal<Unreadable>>
    ensures { IsRead share_of (share_in (view tree.now)) result }
{
    let given: Option<(u64, u64)> = optional_in(alloc, "share", tree)?;
    let Some((number, of)) = given else {
        return Ok(Share::whole());
    };
    match Share::new(number, of) {
        Some(share) => Ok(share),
        None => Err(Refusal::Refused(Unreadable::WrongValue("share"))),
    }
}

impl Items {
    /// The items that a line asks for.
    ///
    /// # Errors
    /// The first that applies: `items` is missing or no size; `first` is no size. Or out of memory.
    pub(crate) fn from_tree(alloc: Global, tree: &Value) -> Result<Items, Refusal<Unreadable>>
        ensures { IsRead items_of (items_in (view tree.now)) result }
    {
        let most = required_in(alloc, "items", tree)?;
        let first = optional_in(alloc, "first", tree)?;
        Ok(Items { most, first })
    }
}

impl<'t> TargetArray<'t> {
    /// The array that a line asks for as its member `target`. What else that has says nothing.
    ///
    /// # Errors
    /// The first that applies: `target` is missing, or no object; its `shape` is no list of sizes; it has no `chunk_grid`; it has no
    /// `chunk_key_encoding`. Or out of memory.
    fn from_tree(alloc: Global, tree: &'t Value) -> Result<TargetArray<'t>, Refusal<Unreadable>>
        ensures { IsRead target_of (target_in (view tree.now)) result }
    {
        let target = target_object(tree)?;
        let shape = target_shape(alloc, target)?;
        let chunk_grid = of_target("chunk_grid", "target.chunk_grid", target)?;
        let chunk_key_encoding = of_target(
            "chunk_key_encoding",
            "target.chunk_key_encoding",
            target,
        )?;
        Ok(TargetArray {
            shape,
            chunk_grid,
            chunk_key_encoding,
        })
    }
}

/// The member `target` of a line, which has to be an object.
fn target_object(tree: &Value) -> Result<&Value, Refusal<Unreadable>>
    ensures { IsRead (λ value. view value.now) (target_object_in (view tree.now)) result }
{
    let target = required(tree, "target")?;
    if !target.is_object() {
        return Err(Refusal::Refused(Unreadable::WrongValue("target")));
    }
    Ok(target)
}

/// The shape of a target that is another array.
fn target_shape(alloc: Global, target: &Value) -> Result<Option<Vec<u64>>, Refusal<Unreadable>>
    ensures { IsRead (option_map (λ shape. shape.items)) (target_shape_in (view target.now)) result }
{
    match target.get("shape") {
        Some(shape) => Ok(Some(in_form(alloc, "target.shape", shape)?)),
        None => Ok(None),
    }
}

/// A member that a target has to have, which a fault calls by its path.
fn of_target<'t>(
    field: &str,
    path: &'static str,
    target: &'t Value,
) -> Result<&'t Value, Refusal<Unreadable>>
    ensures { IsRead (λ value. view value.now) (member_of field.now path.now (view target.now))
        result }
{
    match target.get(field) {
        Some(value) => Ok(value),
        None => Err(Refusal::Refused(Unreadable::Missing(path))),
    }
}
