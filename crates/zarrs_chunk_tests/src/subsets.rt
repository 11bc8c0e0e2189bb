//! Boxes: what calls on them answer, what they hold, and when they are equal.
use crate::compared::{check_numbers, check_that};
use std::alloc::{AllocError, Global};
use std::process::Abort;
use std::test::Fail;
use zarrs_chunk_base::ArraySubset;

/// The box of a start and a shape.
fn made(alloc: Global, start: &[u64], shape: &[u64]) -> Result<ArraySubset, Fail> {
    let start = Vec::from_slice(alloc, start)?;
    Ok(ArraySubset::new_with_start_shape(start, Vec::from_slice(alloc, shape)?)?)
}

/// What the calls on a box are to answer, the ends of the ranges that it is made of, and index lists that lie in it and that don't.
#[derive(Clone, Copy)]
struct Row<'a> {
    start: &'a [u64],
    shape: &'a [u64],
    ends: &'a [u64],
    end_exc: &'a [u64],
    end_inc: Option<&'a [u64]>,
    inside: &'a [&'a [u64]],
    outside: &'a [&'a [u64]],
}

/// Which index lists lie in a box.
fn check_inside(rt: &impl Abort, subset: &ArraySubset, row: &Row) {
    for indices in row.inside {
        check_that(rt, subset.contains(indices), "an index list in a box");
    }
    for indices in row.outside {
        check_that(rt, !subset.contains(indices), "an index list in no box");
    }
}

/// Compares what the calls on a box answer that need no memory.
fn check_start_and_shape(rt: &impl Abort, subset: &ArraySubset, row: &Row) {
    check_numbers(rt, subset.start(), row.start);
    check_numbers(rt, subset.shape(), row.shape);
    let has_length = subset.dimensionality() == row.start.len();
    let has_elements = subset.is_empty() == row.end_inc.is_none();
    check_that(rt, has_length && has_elements, "length and elements");
}

/// Compares what the calls on a box answer.
fn check_answers(
    rt: &(impl Abort + AllocGlobal),
    subset: &ArraySubset,
    row: &Row,
) -> Result<(), AllocError> {
    check_start_and_shape(rt, subset, row);
    check_inside(rt, subset, row);
    check_numbers(rt, &subset.end_exc(rt.alloc())?, row.end_exc);
    let end_inc = subset.end_inc(rt.alloc())?;
    check_that(rt, end_inc.as_deref() == row.end_inc, "the last index");
    Ok(())
}

/// The copy of a box is equal to it. Compares what the calls on it answer.
fn check_copy(
    rt: &(impl Abort + AllocGlobal),
    subset: &ArraySubset,
    row: &Row,
) -> Result<(), AllocError> {
    let copy = subset.clone()?;
    check_that(rt, copy == *subset, "a copy");
    check_answers(rt, &copy, row)
}

const FULL: Row<'static> = Row {
    start: &[3, 5],
    shape: &[2, 4],
    ends: &[5, 9],
    end_exc: &[5, 9],
    end_inc: Some(&[4, 8]),
    inside: &[&[3, 5], &[4, 8]],
    outside: &[&[2, 5], &[3, 9], &[3], &[3, 5, 0]],
};

const GREATEST: Row<'static> = Row {
    start: &[18446744073709551615],
    shape: &[0],
    ends: &[18446744073709551615],
    end_exc: &[18446744073709551615],
    end_inc: None,
    inside: &[],
    outside: &[&[18446744073709551615]],
};

const LAST: Row<'static> = Row {
    start: &[0, 18446744073709551614],
    shape: &[18446744073709551615, 1],
    ends: &[18446744073709551615, 18446744073709551615],
    end_exc: &[18446744073709551615, 18446744073709551615],
    end_inc: Some(&[18446744073709551614, 18446744073709551614]),
    inside: &[&[0, 18446744073709551614]],
    outside: &[&[0, 18446744073709551615]],
};

const BACKWARDS: Row<'static> = Row {
    start: &[3, 5],
    shape: &[2, 0],
    ends: &[5, 3],
    end_exc: &[5, 5],
    end_inc: None,
    inside: &[],
    outside: &[&[3, 5]],
};

const ZEROS: Row<'static> = Row {
    start: &[0, 0],
    shape: &[0, 0],
    ends: &[0, 0],
    end_exc: &[0, 0],
    end_inc: None,
    inside: &[],
    outside: &[&[0, 0]],
};

const NO_DIMENSIONS: Row<'static> = Row {
    start: &[],
    shape: &[],
    ends: &[],
    end_exc: &[],
    end_inc: Some(&[]),
    inside: &[&[]],
    outside: &[&[0]],
};

const THOUSAND: Row<'static> = Row {
    start: &[3; 1000],
    shape: &[2; 1000],
    ends: &[5; 1000],
    end_exc: &[5; 1000],
    end_inc: Some(&[4; 1000]),
    inside: &[&[4; 1000]],
    outside: &[&[5; 1000]],
};

const THOUSAND_ZEROS: Row<'static> = Row {
    start: &[0; 1000],
    shape: &[0; 1000],
    ends: &[0; 1000],
    end_exc: &[0; 1000],
    end_inc: None,
    inside: &[],
    outside: &[&[0; 1000]],
};

/// The box of a row's ranges.
fn ranged(alloc: Global, row: &Row) -> Result<ArraySubset, AllocError> {
    let mut ranges = Vec::new(alloc);
    for (start, end) in row.start.iter().zip(row.ends) {
        ranges.push(*start..*end)?;
    }
    ArraySubset::new_with_ranges(alloc, &ranges)
}

/// The boxes of a row's start and shape, and of its ranges.
fn check_row(rt: &(impl Abort + AllocGlobal), row: &Row) -> Result<(), Fail> {
    check_copy(rt, &made(rt.alloc(), row.start, row.shape)?, row)?;
    Ok(check_copy(rt, &ranged(rt.alloc(), row)?, row)?)
}

#[test]
fn boxes_are_made_and_copied(rt: HostRuntime) -> Result<(), Fail> {
    for row in [FULL, GREATEST, LAST, BACKWARDS, ZEROS, NO_DIMENSIONS] {
        check_row(&rt, &row)?;
    }
    Ok(())
}

#[test]
fn boxes_of_a_thousand_dimensions_are_made_and_copied(rt: HostRuntime) -> Result<(), Fail> {
    check_row(&rt, &THOUSAND)
}

/// The empty box of as many dimensions as the row has.
fn check_empty(rt: &(impl Abort + AllocGlobal), row: &Row) -> Result<(), AllocError> {
    check_copy(
        rt,
        &ArraySubset::new_empty(rt.alloc(), row.start.len())?,
        row,
    )
}

#[test]
fn empty_boxes_are_made_and_copied(rt: HostRuntime) -> Result<(), Fail> {
    for row in [ZEROS, NO_DIMENSIONS, THOUSAND_ZEROS] {
        check_empty(&rt, &row)?;
    }
    let is_refused = ArraySubset::new_empty(rt.alloc(), usize::MAX).is_err();
    check_that(&rt, is_refused, "no memory");
    Ok(())
}

/// Whether the box of a start and a shape is equal to the one that begins at [3, 5] and has the shape [2, 4].
fn is_equal(alloc: Global, start: &[u64], shape: &[u64]) -> Result<bool, Fail> {
    let subset = made(alloc, &[3, 5], &[2, 4])?;
    Ok(subset == made(alloc, start, shape)?)
}

#[test]
fn boxes_are_compared(rt: HostRuntime) -> Result<(), Fail> {
    let rows: [(&[u64], &[u64], bool); 4] = [
        (&[3, 5], &[2, 4], true),
        (&[3, 6], &[2, 4], false),
        (&[3, 5], &[2, 3], false),
        (&[3], &[2], false),
    ];
    for (start, shape, equal) in rows {
        check_that(
            &rt,
            is_equal(rt.alloc(), start, shape)? == equal,
            "two boxes",
        );
    }
    Ok(())
}
