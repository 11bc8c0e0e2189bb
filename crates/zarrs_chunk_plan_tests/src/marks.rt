//! Which chunks of a plan a store has. Chunks that the plan doesn't write are asked, too.
use crate::rows::{OpenedArray, check_text, row, some_of};
use std::alloc::Global;
use std::process::Abort;
use std::test::Fail;
use zarrs_chunk_base::{ArraySubset, StoreKey};
use zarrs_chunk_plan::{StoredChunks, parts, whole_array};

/// Of the chunks that hold some elements of an array none is stored yet.
fn none_of(
    alloc: Global,
    array: &OpenedArray,
    elements: &ArraySubset,
) -> Result<StoredChunks, Fail> {
    let walk = parts(alloc, &array.grid, &array.encoding, elements)?.ok_or("no cover")?;
    let none = walk.none_stored(alloc)?;
    Ok(none.ok_or("too many")?)
}

/// Marks the chunk of a key. Tells whether it holds elements of the array.
fn note(
    alloc: Global,
    stored: &mut StoredChunks,
    array: &OpenedArray,
    key: &str,
) -> Result<bool, Fail> {
    let key = StoreKey::new(String::from_str(alloc, key)?)?;
    Ok(stored.note(alloc, array, &key)?)
}

/// The numbers below 300 of the chunks of a row that are stored.
fn numbers_of(alloc: Global, stored: &StoredChunks) -> Result<String, Fail> {
    let mut numbers = String::new(alloc);
    for number in 0..300 {
        if stored.has(&[0, 0, 0, 0, number]) {
            numbers.push_str(format!(in alloc; " {number}")?.as_str())?;
        }
    }
    Ok(numbers)
}

/// Of two hundred chunks of one element some are stored. Words of 64 bits hold the marks, so the last one has room for more chunks than there
/// are.
#[test]
fn no_chunk_past_the_plan_is_stored(rt: HostRuntime) -> Result<(), Fail> {
    let alloc = rt.alloc();
    let array = row(alloc, 200, 1)?;
    let mut stored = none_of(alloc, &array, &whole_array(alloc, &array.grid)?)?;
    for key in [
        "c/0/0/0/0/63",
        "c/0/0/0/0/64",
        "c/0/0/0/0/199",
        "c/0/0/0/0/200",
    ] {
        let _ = note(alloc, &mut stored, &array, key)?;
    }
    check_text(&rt, numbers_of(alloc, &stored)?.as_str(), " 63 64 199");
    for chunk in [
        [0, 0, 0, 0, u64::MAX],
        [0, 0, 0, 1, 63],
        [1, 0, 0, 0, 63],
        [u64::MAX, 0, 0, 0, 63],
    ] {
        assert!(&rt; !stored.has(&chunk), "a chunk past the array is stored");
    }
    for chunk in [[].as_slice(), &[63], &[0, 0, 0, 63], &[0, 0, 0, 0, 63, 0]] {
        assert!(&rt; !stored.has(chunk), "a chunk of other dimensions is stored");
    }
    Ok(())
}

/// The plan writes the chunks 50 to 149 of two hundred. Each chunk of the array can be noted, but only chunks of the plan are stored.
#[test]
fn no_chunk_beside_the_plan_is_stored(rt: HostRuntime) -> Result<(), Fail> {
    let alloc = rt.alloc();
    let array = row(alloc, 200, 1)?;
    let mut stored = none_of(alloc, &array, &some_of(alloc, 50, 100)?)?;
    for key in [
        "c/0/0/0/0/0",
        "c/0/0/0/0/49",
        "c/0/0/0/0/50",
        "c/0/0/0/0/114",
        "c/0/0/0/0/149",
        "c/0/0/0/0/150",
    ] {
        let is_of_array = note(alloc, &mut stored, &array, key)?;
        assert!(&rt; is_of_array, "a chunk of the array is unexpected");
    }
    let is_of_array = note(alloc, &mut stored, &array, "c/0/0/0/0/200")?;
    assert!(&rt; !is_of_array, "a chunk past the array is not unexpected");
    check_text(&rt, numbers_of(alloc, &stored)?.as_str(), " 50 114 149");
    Ok(())
}
