//! What no program asks for, since it resizes one array: grids of two numbers of dimensions.
use crate::rows::{check_text, row};
use std::alloc::Global;
use std::test::Fail;
use zarrs_chunk_base::{IncompatibleDimensionalityError, Refusal};
use zarrs_chunk_plan::changes;
use zarrs_chunks::RegularChunkGrid;

/// Why an array isn't resized.
fn why_no_resize<T: Drop>(
    alloc: Global,
    answer: Result<T, Refusal<IncompatibleDimensionalityError>>,
) -> Result<String, Fail> {
    match answer {
        Err(Refusal::Refused(error)) => Ok(format!(in alloc; "{error}")?),
        Err(Refusal::Memory(error)) => Err(error.into()),
        Ok(_) => Ok(String::from_str(alloc, "it is accepted")?),
    }
}

#[test]
fn another_number_of_dimensions_is_refused(rt: HostRuntime) -> Result<(), Fail> {
    let alloc = rt.alloc();
    let five = row(alloc, 7, 3)?;
    let none = RegularChunkGrid::new(alloc, Vec::new(alloc), Vec::new(alloc))?;
    let told = why_no_resize(
        alloc,
        changes(alloc, &five.grid, &none, &five.encoding, false),
    )?;
    check_text(
        &rt,
        told.as_str(),
        "incompatible dimensionality 0, expected 5",
    );
    Ok(())
}
