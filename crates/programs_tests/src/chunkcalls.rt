//! What no contract says: readers and writers that fail, what is told then, and when an answer is flushed.
use crate::ended::{check_bytes, check_ending, check_that};
use crate::failing::{FailingReader, FailingWriter};
use programs::chunkcalls::{RunFault, Sink, Watched, finish, run_to_status};
use std::alloc::{AllocError, Global};
use std::io::ErrorKind;
use std::process::Abort;
use std::test::Fail;

const QUESTION: &[u8] =
    br#"{"shape":[5,7,52],"chunk_grid":{"name":"regular","configuration":{"chunk_shape":[1,2,3]}},"call":"grid_shape"}"#;

const ANSWER: &[u8] = b"[5,4,18]\n";

/// The parts, one after the other.
fn joined(rt: &impl AllocGlobal, parts: &[&[u8]]) -> Result<Vec<u8>, AllocError> {
    let mut bytes = Vec::new(rt.alloc());
    for part in parts {
        bytes.extend_from_slice(part)?;
    }
    Ok(bytes)
}

/// A reader that fails after so many reads is told; each line that was read before has its answer.
fn check_read(
    rt: &(impl Abort + AllocGlobal),
    input: &[u8],
    reads: usize,
    fault: ErrorKind,
    succeeds: bool,
) -> Result<(), AllocError> {
    let mut reader = Watched::new(FailingReader {
        rest: input,
        reads,
        fault,
    });
    let mut sink = Sink::new(rt.alloc(), Vec::new(rt.alloc()));
    let mut errors = Watched::new(Vec::new(rt.alloc()));
    let status = run_to_status(rt.alloc(), &mut reader, &mut sink, &mut errors);
    check_ending(
        rt,
        (status, errors.inner()),
        succeeds,
        "chunkcalls: input failed\n",
        reads,
    );
    let lines_read = reads.saturating_mul(16) / (QUESTION.len() + 1);
    let mut answers = Vec::new(rt.alloc());
    for _ in 0..lines_read.min(2) {
        answers.extend_from_slice(ANSWER)?;
    }
    check_bytes(rt, sink.writer().inner(), &answers, reads);
    Ok(())
}

#[test]
fn a_failed_read_is_told(rt: HostRuntime) -> Result<(), Fail> {
    let input = joined(&rt, &[QUESTION, b"\n", QUESTION, b"\n"])?;
    let enough = input.len().div_ceil(16) + 1;
    for fault in [ErrorKind::Other, ErrorKind::OutOfMemory] {
        for reads in 0..=enough {
            check_read(&rt, &input, reads, fault, reads == enough)?;
        }
    }
    Ok(())
}

/// A writer that fails after so many writes, and hasn't taken anything yet.
fn failing_writer(
    alloc: Global,
    writes: usize,
    fault: Option<ErrorKind>,
    flush_fails: bool,
) -> FailingWriter {
    FailingWriter {
        taken: Vec::new(alloc),
        writes,
        fault,
        flush_fails,
    }
}

/// A writer that fails is told, and has taken the beginning of the output, where it was to take as much.
fn check_write(
    rt: &(impl Abort + AllocGlobal),
    input: &[u8],
    writer: FailingWriter,
    taken: &[u8],
    succeeds: bool,
) {
    let mut errors = Watched::new(Vec::new(rt.alloc()));
    let mut reader = Watched::new(input);
    let mut sink = Sink::new(rt.alloc(), writer);
    let status = run_to_status(rt.alloc(), &mut reader, &mut sink, &mut errors);
    let writes = taken.len();
    check_ending(
        rt,
        (status, errors.inner()),
        succeeds,
        "chunkcalls: output failed\n",
        writes,
    );
    check_bytes(rt, &sink.writer().inner().taken, taken, writes);
}

#[test]
fn a_failed_write_is_told(rt: HostRuntime) -> Result<(), Fail> {
    let input = joined(&rt, &[QUESTION, b"\n", QUESTION, b"\n"])?;
    let output = joined(&rt, &[ANSWER, ANSWER])?;
    let other = Some(ErrorKind::Other);
    for (fault, flush_fails) in [(other, false), (None, false), (other, true)] {
        for writes in 0..=output.len() {
            let writer = failing_writer(rt.alloc(), writes, fault, flush_fails);
            let (taken, rest) = output.as_slice().split_at(writes);
            check_write(&rt, &input, writer, taken, rest.is_empty() && !flush_fails);
        }
    }
    Ok(())
}

/// Where the first flush fails, so that no answer after it is written, the writer has taken this output.
fn check_flush(
    rt: &(impl Abort + AllocGlobal),
    input: &[&[u8]],
    output: &[&[u8]],
) -> Result<(), Fail> {
    let input = joined(rt, input)?;
    let output = joined(rt, output)?;
    let writer = failing_writer(rt.alloc(), 100, None, true);
    let mut errors = Watched::new(Vec::new(rt.alloc()));
    let mut reader = Watched::new(input.as_slice());
    let mut sink = Sink::new(rt.alloc(), writer);
    let status = run_to_status(rt.alloc(), &mut reader, &mut sink, &mut errors);
    check_that(rt, status == 1, output.len());
    check_bytes(rt, &sink.writer().inner().taken, &output, output.len());
    Ok(())
}

#[test]
fn an_answer_is_flushed_unless_a_line_waits(rt: HostRuntime) -> Result<(), Fail> {
    check_flush(&rt, &[QUESTION, b"\n", QUESTION, b"\n"], &[ANSWER, ANSWER])?;
    check_flush(&rt, &[QUESTION, b"\n", QUESTION], &[ANSWER])?;
    check_flush(&rt, &[QUESTION, b"\n"], &[ANSWER])
}

#[test]
fn an_empty_output_is_flushed(rt: HostRuntime) {
    for flush_fails in [false, true] {
        let other = Some(ErrorKind::Other);
        let writer = failing_writer(rt.alloc(), 0, other, flush_fails);
        let mut sink = Sink::new(rt.alloc(), writer);
        let mut errors = Watched::new(Vec::new(rt.alloc()));
        let mut reader = Watched::new(b"".as_slice());
        let status = run_to_status(rt.alloc(), &mut reader, &mut sink, &mut errors);
        check_that(&rt, status == u8::from(flush_fails), 0);
    }
}

#[test]
fn a_fault_that_cant_be_told_is_one_all_the_same(rt: HostRuntime) {
    let closed = failing_writer(rt.alloc(), 0, Some(ErrorKind::Other), true);
    let mut errors = Watched::new(closed);
    let outcome: Result<(), RunFault> = Err(RunFault::Memory);
    check_that(&rt, finish(rt.alloc(), &outcome, &mut errors) == 1, 0);
}
