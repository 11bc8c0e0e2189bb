//! Which members of a document go together.
ghost use Rattle.std.specs.Prelude.{◌≡◌};
ghost use Rattle.programs.specs.chunkplan.Common.{IsFalse, IsTrue, MatchOption, is_some, map, AllByRecursion, get, view, IsRead};
ghost use Rattle.zarrs_chunk_base.specs.First.{IsFirst};
ghost use Rattle.programs.specs.chunkplan.Document.{fits_in};
ghost use Rattle.programs.specs.chunkplan.MemberRules.{is_broken, rule_of};

use crate::chunkplan::RunFault;
use crate::chunkplan::member_rules::MemberRule::{Excludes, Needs};
use serde_json::Value;
use thiserror::Error;

/// What a member asks of another one. The text is what a document is told that breaks the rule.
#[derive(Clone, Copy, Debug, Error)]
pub enum MemberRule {
    /// The first isn't given without the second.
    #[error("field `{0}` needs `{1}`; add it, or remove `{0}`")]
    Needs(&'static str, &'static str),
    /// The first isn't given beside the second.
    #[error("field `{0}` can't be combined with `{1}`; remove one")]
    Excludes(&'static str, &'static str),
}

/// All rules, in the order in which a broken one is told.
const RULES: [MemberRule; 37] = [
    Excludes("resize", "target"),
    Excludes("resize", "subset"),
    Excludes("resize", "clip"),
    Excludes("resize", "chunks"),
    Excludes("resize", "at"),
    Excludes("resize", "share"),
    Excludes("resize", "counts"),
    Excludes("resize", "keys"),
    Excludes("resize", "order"),
    Excludes("resize", "item_size"),
    Excludes("resize", "memory_order"),
    Excludes("resize", "max_ranges"),
    Excludes("resize", "task_chunks"),
    Excludes("resize", "max_elements"),
    Excludes("resize", "read_elements"),
    Excludes("resize", "stage"),
    Needs("include_unchanged", "resize"),
    Needs("chunks", "target"),
    Needs("at", "target"),
    Excludes("clip", "target"),
    Needs("at", "subset"),
    Excludes("chunks", "subset"),
    Needs("keys", "target"),
    Excludes("keys", "counts"),
    Needs("order", "target"),
    Excludes("item_size", "target"),
    Excludes("item_size", "counts"),
    Needs("memory_order", "item_size"),
    Needs("max_ranges", "item_size"),
    Needs("task_chunks", "target"),
    Excludes("task_chunks", "max_elements"),
    Needs("max_elements", "target"),
    Excludes("max_elements", "order"),
    Needs("read_elements", "max_elements"),
    Needs("stage", "max_elements"),
    Excludes("stage", "counts"),
    Excludes("share", "counts"),
];

/// Refuses a document that breaks a rule, by the first one.
pub(crate) fn check_rules(tree: &Value) -> Result<(), RunFault>
    ensures { IsRead (λ done. done) (fits_in (view tree.now)) result }
{
    match first_broken(tree, &RULES) {
        Some(rule) => Err(RunFault::Misfit(rule)),
        None => Ok(()),
    }
}

/// The first of some rules that a document breaks.
fn first_broken(tree: &Value, rules: &[MemberRule]) -> Option<MemberRule>
    ensures { MatchOption result
        (AllByRecursion (λ rule. IsFalse (is_broken (view tree.now) rule)) (map rule_of rules.now))
        (λ rule. IsFirst (λ rule. IsTrue (is_broken (view tree.now) rule))
        (map rule_of rules.now) (rule_of rule)) }
{
    for rule in rules {
        if is_broken(tree, *rule) {
            return Some(*rule);
        }
    }
    None
}

/// Whether a document breaks a rule.
fn is_broken(tree: &Value, rule: MemberRule) -> bool
    ensures { result ≡ is_broken (view tree.now) (rule_of rule) }
{
    match rule {
        Needs(member, other) => has(tree, member) && !has(tree, other),
        Excludes(member, other) => has(tree, member) && has(tree, other),
    }
}

/// Whether a member is there.
fn has(tree: &Value, member: &str) -> bool
    ensures { result ≡ is_some (get member.now (view tree.now)) }
{
    tree.get(member).is_some()
}
