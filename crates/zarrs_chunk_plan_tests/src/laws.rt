//! The laws of reads and resizes.
use crate::rows::{row, some_of};
use std::test::Fail;
use zarrs_chunk_plan::laws::{
    a_kept_chunk_is_as_it_was, byte_ranges_have_the_bytes_of_the_box, each_chunk_has_one_change,
    each_element_lies_in_one_part, each_element_stays_in_its_chunk,
    each_element_that_leaves_or_comes_changes_its_chunk,
    grids_of_one_configuration_share_their_chunks, no_two_parts_have_one_key,
    shares_are_together_the_plan, the_parts_tile_the_box, the_walk_gives_the_plan,
    the_walk_gives_the_resize, there_is_a_plan, there_is_a_resize,
};

#[test]
fn of_reads(rt: HostRuntime) -> Result<(), Fail> {
    let (array, elements) = (row(rt.alloc(), 5, 3)?, some_of(rt.alloc(), 2, 3)?);
    the_walk_gives_the_plan(&array.grid, &array.encoding);
    shares_are_together_the_plan();
    each_element_lies_in_one_part(&array.grid, &array.encoding, &elements);
    no_two_parts_have_one_key(&array.grid, &array.encoding, &elements);
    the_parts_tile_the_box(&array.grid, &array.encoding, &elements);
    byte_ranges_have_the_bytes_of_the_box();
    there_is_a_plan(&array);
    Ok(())
}

#[test]
fn of_resizes(rt: HostRuntime) -> Result<(), Fail> {
    let (seven, ten) = (row(rt.alloc(), 7, 3)?, row(rt.alloc(), 10, 3)?);
    grids_of_one_configuration_share_their_chunks();
    the_walk_gives_the_resize(&seven.grid, &ten.grid, &seven.encoding);
    there_is_a_resize(&seven.grid, &ten.grid, &seven.encoding);
    each_chunk_has_one_change(&seven.grid, &ten.grid, &seven.encoding);
    a_kept_chunk_is_as_it_was(&seven.grid, &ten.grid);
    each_element_stays_in_its_chunk(&seven.grid, &ten.grid);
    each_element_that_leaves_or_comes_changes_its_chunk(&seven.grid, &ten.grid);
    Ok(())
}
