//! What no contract says: readers and writers that fail, and what is told then.
use crate::ended::{check_bytes, check_ending, check_that};
use crate::failing::{FailingReader, FailingWriter};
use documents::chunkwhere::{RunFault, Watched, finish, run};
use std::io;
use std::io::{ErrorKind, Read, Write};
use std::process::Abort;

const DOCUMENT: &[u8] =
    br#"{"shape":[5,7,52],"chunk_grid":{"name":"regular","configuration":{"chunk_shape":[1,2,3]}},"chunk_key_encoding":"default","indices":[[3,5,50],[0,0,0],[3,5,50]]}"#;

const NO_INDICES: &[u8] =
    br#"{"shape":[],"chunk_grid":{"name":"regular","configuration":{"chunk_shape":[]}},"chunk_key_encoding":"v2","indices":[]}"#;

const LINES: &str = "c/3/2/16 0 1 2\nc/0/0/0 0 0 0\nc/3/2/16 0 1 2\n";

/// After so many reads or writes a run succeeded, or it failed by the fault that it is to fail by.
fn check_run(
    rt: &impl Abort,
    ended: &Result<(), RunFault>,
    is_fault: bool,
    succeeds: bool,
    after: usize,
) {
    assert!(rt;
        ended.is_ok() == succeeds && is_fault != succeeds,
        "after {after}"
    );
}

/// A reader that fails after so many reads makes the run fail, which writes nothing then.
fn check_read(rt: &(impl Abort + AllocGlobal), reads: usize, succeeds: bool) {
    let mut reader = Watched::new(FailingReader {
        rest: DOCUMENT,
        reads,
        fault: ErrorKind::Interrupted,
    });
    let mut writer = Watched::new(Vec::new(rt.alloc()));
    let result = run(rt.alloc(), &mut reader, &mut writer);
    check_run(
        rt,
        &result,
        matches!(&result, Err(RunFault::Read)),
        succeeds,
        reads,
    );
    let failed = reader.failed();
    let is_empty = writer.inner().is_empty();
    check_that(rt, failed != succeeds && is_empty != succeeds, reads);
}

#[test]
fn a_failed_read_is_told(rt: HostRuntime) {
    let enough = DOCUMENT.len().div_ceil(16) + 1;
    for reads in 0..=enough {
        check_read(&rt, reads, reads == enough);
    }
}

/// A writer that fails after so many writes, or at the flush, makes the run fail, and has taken as much of the lines.
fn check_write(
    rt: &(impl Abort + AllocGlobal),
    writes: usize,
    fault: Option<ErrorKind>,
    flush_fails: bool,
    taken: &[u8],
) {
    let mut reader = Watched::new(DOCUMENT);
    let mut writer = Watched::new(FailingWriter {
        taken: Vec::new(rt.alloc()),
        writes,
        fault,
        flush_fails,
    });
    let result = run(rt.alloc(), &mut reader, &mut writer);
    let succeeds = writes == LINES.len() && !flush_fails;
    check_run(
        rt,
        &result,
        matches!(&result, Err(RunFault::Write)),
        succeeds,
        writes,
    );
    check_bytes(rt, &writer.inner().taken, taken, writes);
    check_that(rt, writer.failed() != succeeds, writes);
}

#[test]
fn a_failed_write_is_told(rt: HostRuntime) {
    let interrupted = Some(ErrorKind::Interrupted);
    for (fault, flush_fails) in [(interrupted, false), (None, false), (interrupted, true)] {
        for writes in 0..=LINES.len() {
            let (taken, _) = LINES.as_bytes().split_at(writes);
            check_write(&rt, writes, fault, flush_fails, taken);
        }
    }
}

#[test]
fn an_empty_text_is_flushed(rt: HostRuntime) {
    for flush_fails in [false, true] {
        let mut reader = Watched::new(NO_INDICES);
        let mut writer = Watched::new(FailingWriter {
            taken: Vec::new(rt.alloc()),
            writes: 0,
            fault: Some(ErrorKind::Other),
            flush_fails,
        });
        let result = run(rt.alloc(), &mut reader, &mut writer);
        check_run(
            &rt,
            &result,
            matches!(&result, Err(RunFault::Write)),
            !flush_fails,
            0,
        );
    }
}

/// A reader and writer that keeps its calls, each with the length of its piece, and the bytes that were
/// to be written, and answers each call with an error of one kind.
#[derive(Drop)]
struct RefusingRecorder {
    calls: Vec<(&'static str, usize)>,
    bytes: Vec<u8>,
    kind: ErrorKind,
}

impl Read for RefusingRecorder {
    fn read(&mut self, buf: &mut [u8]) -> io::Result<usize> {
        self.calls.push(("read", buf.len()))?;
        Err(io::Error::from(self.kind))
    }
}

impl Write for RefusingRecorder {
    fn write(&mut self, buf: &[u8]) -> io::Result<usize> {
        self.calls.push(("write", buf.len()))?;
        self.bytes.extend_from_slice(buf)?;
        Err(io::Error::from(self.kind))
    }

    fn flush(&mut self) -> io::Result<()> {
        self.calls.push(("flush", 0))?;
        Err(io::Error::from(self.kind))
    }
}

/// Whether a call answered with an error of this kind.
fn is_refused<T: Drop>(answer: io::Result<T>, kind: ErrorKind) -> bool {
    match answer {
        Ok(_) => false,
        Err(error) => error.kind() == kind,
    }
}

/// A read, a write and a flush answer with an error of this kind.
fn check_calls(rt: &impl Abort, watched: &mut Watched<RefusingRecorder>, kind: ErrorKind) {
    let read = is_refused(watched.read(&mut [0; 5]), kind);
    let written = is_refused(watched.write(b"abc"), kind);
    let flushed = is_refused(watched.flush(), kind);
    check_that(rt, read && written && flushed, 0);
}

/// Two times three calls are handed on, each with its piece, and their errors come back.
fn check_kind(rt: &(impl Abort + AllocGlobal), kind: ErrorKind) {
    let mut watched = Watched::new(RefusingRecorder {
        calls: Vec::new(rt.alloc()),
        bytes: Vec::new(rt.alloc()),
        kind,
    });
    check_calls(rt, &mut watched, kind);
    check_calls(rt, &mut watched, kind);
    let calls = [
        ("read", 5),
        ("write", 3),
        ("flush", 0),
        ("read", 5),
        ("write", 3),
        ("flush", 0),
    ];
    let are_calls = watched.inner().calls.as_slice() == calls.as_slice();
    check_that(rt, are_calls, 2);
    check_bytes(rt, &watched.inner().bytes, b"abcabc", 2);
}

#[test]
fn watched_calls_are_handed_on(rt: HostRuntime) {
    check_kind(&rt, ErrorKind::Interrupted);
    check_kind(&rt, ErrorKind::UnexpectedEof);
    check_kind(&rt, ErrorKind::Other);
}

/// The fault is told by this line, and the status is 1.
fn check_line(rt: &(impl Abort + AllocGlobal), fault: RunFault, line: &str) {
    let mut errors = Watched::new(Vec::new(rt.alloc()));
    let status = finish(rt.alloc(), &Err(fault), &mut errors);
    check_ending(rt, (status, errors.inner()), false, line, 0);
}

#[test]
fn other_faults_have_a_line(rt: HostRuntime) {
    check_line(&rt, RunFault::Read, "chunkwhere: input failed\n");
    check_line(&rt, RunFault::Write, "chunkwhere: output failed\n");
    check_line(&rt, RunFault::Memory, "chunkwhere: out of memory\n");
}

#[test]
fn a_fault_that_cant_be_told_is_one_all_the_same(rt: HostRuntime) {
    let closed = FailingWriter {
        taken: Vec::new(rt.alloc()),
        writes: 0,
        fault: Some(ErrorKind::Other),
        flush_fails: true,
    };
    let mut errors = Watched::new(closed);
    check_that(
        &rt,
        finish(rt.alloc(), &Err(RunFault::Read), &mut errors) == 1,
        0,
    );
}
