//! The elements that the chunks in a box hold.
use crate::rows::{check_text, row, some_of};
use std::alloc::Global;
use std::process::Abort;
use std::test::Fail;
use zarrs_chunk_base::{ArraySubset, IncompatibleDimensionalityError, Refusal};
use zarrs_chunk_plan::elements_of_chunks;

const NO_ELEMENTS: &str = "[0, 0, 0, 0, 0] [0, 0, 0, 0, 0]";

/// The start and the shape of a box, or the text of an error.
fn told(
    alloc: Global,
    answer: Result<ArraySubset, Refusal<IncompatibleDimensionalityError>>,
) -> Result<String, Fail> {
    match answer {
        Ok(elements) => Ok(format!(in alloc; "{:?} {:?}", elements.start(), elements.shape())?),
        Err(Refusal::Refused(error)) => Ok(format!(in alloc; "{error}")?),
        Err(Refusal::Memory(error)) => Err(error.into()),
    }
}

/// A row of seven elements has the chunks 0 to 2, of three elements each; the last one reaches past it. Of boxes of its chunks the first chunk and their
/// count come with the elements that they hold.
#[test]
fn chunks_hold_elements_of_the_array(rt: HostRuntime) -> Result<(), Fail> {
    let alloc = rt.alloc();
    let array = row(alloc, 7, 3)?;
    for (first, count, expected) in [
        (0, 3, "[0, 0, 0, 0, 0] [1, 1, 1, 1, 7]"),
        (1, 1, "[0, 0, 0, 0, 3] [1, 1, 1, 1, 3]"),
        (1, 2, "[0, 0, 0, 0, 3] [1, 1, 1, 1, 4]"),
        (2, 1, "[0, 0, 0, 0, 6] [1, 1, 1, 1, 1]"),
        (1, 9, "[0, 0, 0, 0, 3] [1, 1, 1, 1, 4]"),
        (2, u64::MAX - 2, "[0, 0, 0, 0, 6] [1, 1, 1, 1, 1]"),
        (3, 1, NO_ELEMENTS),
        (1, 0, NO_ELEMENTS),
        (u64::MAX, 0, NO_ELEMENTS),
    ] {
        let chunks = some_of(alloc, first, count)?;
        let found = told(alloc, elements_of_chunks(alloc, &array.grid, &chunks))?;
        check_text(&rt, found.as_str(), expected);
    }
    Ok(())
}

#[test]
fn chunks_of_other_dimensions_are_refused(rt: HostRuntime) -> Result<(), Fail> {
    let alloc = rt.alloc();
    let array = row(alloc, 7, 3)?;
    for (dimensionality, expected) in [
        (0, "incompatible dimensionality 0, expected 5"),
        (6, "incompatible dimensionality 6, expected 5"),
    ] {
        let chunks = ArraySubset::new_empty(alloc, dimensionality)?;
        let found = told(alloc, elements_of_chunks(alloc, &array.grid, &chunks))?;
        check_text(&rt, found.as_str(), expected);
    }
    Ok(())
}
