//! Keys in a store: their texts, their order, and what is none.
use crate::compared::{check_same, check_text, check_that};
use std::alloc::{AllocError, Global};
use std::cmp::Ordering;
use std::hash::{DefaultHasher, Hash, Hasher};
use std::process::Abort;
use std::test::Fail;
use zarrs_chunk_base::{StoreKey, StoreKeyError};

fn key(alloc: Global, text: &str) -> Result<StoreKey, Fail> {
    Ok(StoreKey::new(String::from_str(alloc, text)?)?)
}

fn hash_of<T: Hash>(value: &T) -> u64 {
    let mut state = DefaultHasher::new();
    value.hash(&mut state);
    state.finish()
}

/// The key has this text, and its hash.
fn check_key(
    rt: &(impl Abort + AllocGlobal),
    key: &StoreKey,
    text: &str,
) -> Result<(), AllocError> {
    check_same(rt, key.as_str(), text);
    check_that(rt, hash_of(key) == hash_of(&text), text);
    check_text(rt, key, text)
}

/// The copy of the key of a text is equal to it, and has this text.
fn check_copy(rt: &(impl Abort + AllocGlobal), text: &str) -> Result<(), Fail> {
    let key = key(rt.alloc(), text)?;
    let copy = key.clone()?;
    check_that(rt, copy == key, text);
    Ok(check_key(rt, &copy, text)?)
}

#[test]
fn store_keys_keep_their_texts(rt: HostRuntime) -> Result<(), Fail> {
    for text in ["", "a", "/a", "c/0/0", "a/."] {
        check_copy(&rt, text)?;
    }
    Ok(())
}

/// The text is no key, and is handed back.
fn refused(alloc: Global, text: &str) -> Result<StoreKeyError, Fail> {
    match StoreKey::new(String::from_str(alloc, text)?) {
        Ok(_) => Err("a key".into()),
        Err(error) => Ok(error),
    }
}

/// The text is refused. The error's copy has it, and prints so.
fn check_refused(rt: &(impl Abort + AllocGlobal), text: &str, printed: &str) -> Result<(), Fail> {
    let error = refused(rt.alloc(), text)?.clone()?;
    check_same(rt, error.0.as_str(), text);
    Ok(check_text(rt, &error, printed)?)
}

#[test]
fn store_keys_are_refused(rt: HostRuntime) -> Result<(), Fail> {
    let rows = [
        ("a/", "invalid store key a/"),
        ("/", "invalid store key /"),
        ("a//", "invalid store key a//"),
    ];
    for (text, printed) in rows {
        check_refused(&rt, text, printed)?;
    }
    Ok(())
}

/// How two keys are ordered, and whether they are equal.
fn check_order(rt: &impl Abort, one: &StoreKey, other: &StoreKey, order: Ordering) {
    let compared = one.cmp(other) == order;
    let partly = one.partial_cmp(other) == Some(order);
    let equal = (one == other) == (order == Ordering::Equal);
    check_that(rt, compared && partly && equal, one.as_str());
}

/// The same of the keys of two texts.
fn check_compared(
    rt: &(impl Abort + AllocGlobal),
    one: &str,
    other: &str,
    order: Ordering,
) -> Result<(), Fail> {
    let one = key(rt.alloc(), one)?;
    check_order(rt, &one, &key(rt.alloc(), other)?, order);
    Ok(())
}

#[test]
fn store_keys_are_compared(rt: HostRuntime) -> Result<(), Fail> {
    let rows = [
        ("a", "a", Ordering::Equal),
        ("a", "b", Ordering::Less),
        ("b", "a/b", Ordering::Greater),
        ("a", "a/b", Ordering::Less),
        ("", "a", Ordering::Less),
    ];
    for (one, other, order) in rows {
        check_compared(&rt, one, other, order)?;
    }
    Ok(())
}
