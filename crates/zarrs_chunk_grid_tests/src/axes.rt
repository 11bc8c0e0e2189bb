//! Walks through lists of numbers: how far they pass over, and that they stay ended.
use std::process::Abort;
use std::test::Fail;
use zarrs_chunk_axes::RowMajorWalk;

/// The walk steps to this list, after which the rest of the row is passed over, where it is to be.
fn check_step(
    rt: &impl Abort,
    walk: &mut RowMajorWalk<'_>,
    passes: bool,
    numbers: &[u64],
) -> Result<(), Fail> {
    let found = walk.step()? && (!passes || walk.pass_over());
    assert!(rt; found && walk.numbers() == numbers, "{numbers:?}");
    Ok(())
}

/// The walk gives no further list.
fn check_end(rt: &impl Abort, walk: &mut RowMajorWalk<'_>) -> Result<(), Fail> {
    let goes_on = walk.step()?;
    assert!(rt; !goes_on, "the walk goes on after its end");
    Ok(())
}

/// The walk steps to this list, and none follows it in its row.
fn check_last(rt: &impl Abort, walk: &mut RowMajorWalk<'_>, numbers: &[u64]) -> Result<(), Fail> {
    let found = walk.step()?;
    assert!(rt; found, "there is no list {numbers:?}");
    let is_the_list = walk.indices()?.as_slice() == numbers;
    let is_last = !walk.pass_over();
    assert!(rt; is_the_list && is_last, "there is a list after {numbers:?}");
    Ok(())
}

#[test]
fn lists_below_a_shape_are_passed_over(rt: HostRuntime) -> Result<(), Fail> {
    let mut walk = RowMajorWalk::new(rt.alloc(), &[2, 2, 3]);
    let steps = [
        (false, [0, 0, 0]),
        (false, [0, 0, 1]),
        (true, [0, 1, 0]),
        (true, [1, 0, 0]),
        (true, [1, 1, 0]),
    ];
    for (passes, numbers) in steps {
        check_step(&rt, &mut walk, passes, &numbers)?;
    }
    check_last(&rt, &mut walk, &[1, 1, 1])?;
    check_end(&rt, &mut walk)
}

#[test]
fn walks_end(rt: HostRuntime) -> Result<(), Fail> {
    check_end(&rt, &mut RowMajorWalk::new(rt.alloc(), &[2, 0, 3]))?;
    let mut walk = RowMajorWalk::new(rt.alloc(), &[2]);
    check_step(&rt, &mut walk, false, &[0])?;
    walk.end();
    check_end(&rt, &mut walk)
}
