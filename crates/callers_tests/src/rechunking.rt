//! How many chunks a task reads: a row of seven elements goes from chunks of four to chunks of three, of which the second lies in two.
use crate::compared::check_that;
use crate::tests::values;
use callers::most_sources;
use std::alloc::Global;
use std::process::Abort;
use std::test::Fail;
use zarrs_chunk_keys::DefaultChunkKeyEncoding;
use zarrs_chunk_plan::StoredArray;
use zarrs_chunks::RegularChunkGrid;

/// Seven elements, in chunks of this edge.
fn row(
    alloc: Global,
    edge: &str,
) -> Result<StoredArray<RegularChunkGrid, DefaultChunkKeyEncoding>, Fail> {
    let shape = values(alloc, "[7]")?;
    Ok(StoredArray {
        grid: RegularChunkGrid::new(alloc, shape, values(alloc, edge)?)?,
        encoding: DefaultChunkKeyEncoding::new_slash(),
    })
}

#[test]
fn a_task_reads_two_chunks(rt: HostRuntime) -> Result<(), Fail> {
    let source = row(rt.alloc(), "[4]")?;
    let target = row(rt.alloc(), "[3]")?;
    let each = values(rt.alloc(), "[1]")?;
    let most = most_sources(rt.alloc(), &source, &target.grid, &each)?;
    check_that(&rt, most == 2, "two chunks");
    Ok(())
}
