//! What no contract says: readers and writers that fail, that a beginning of the plan is written then, and a key that isn't UTF-8. What the program prints
//! of a document is data, which `.ci/plans` reads.
use crate::ended::{check_bytes, check_ending, check_that};
use crate::failing::{FailingReader, FailingWriter};
use programs::chunkplan::{Sink, Watched, run_to_status};
use std::io::ErrorKind;
use std::process::Abort;

const DOCUMENT: &[u8] =
    br#"{"shape":[4],"chunk_grid":{"name":"regular","configuration":{"chunk_shape":[3]}},"chunk_key_encoding":"v2"}"#;

const LINES: &[u8] =
    br#"{"chunk":[0],"in_chunk":[[0],[3]],"in_selection":[[0],[3]],"key":"0","number":0,"of":2,"shape":[3],"whole":true}
{"chunk":[1],"in_chunk":[[0],[1]],"in_selection":[[3],[1]],"key":"1","number":1,"of":2,"shape":[3],"whole":true}
"#;

/// The same array, of which the second of two shares is asked for.
const SHARE: &[u8] =
    br#"{"shape":[4],"chunk_grid":{"name":"regular","configuration":{"chunk_shape":[3]}},"chunk_key_encoding":"v2","share":[1,2]}"#;

const LINE_OF_SHARE: &[u8] =
    br#"{"chunk":[1],"in_chunk":[[0],[1]],"in_selection":[[3],[1]],"key":"1","number":1,"of":2,"shape":[3],"whole":true}
"#;

/// The same array, whose rechunking into chunks of two was broken off: the first of these is there.
const BESIDE_KEYS: &[u8] =
    br#"{"shape":[4],"chunk_grid":{"name":"regular","configuration":{"chunk_shape":[3]}},"chunk_key_encoding":"v2","keys":true,"target":{"chunk_grid":{"name":"regular","configuration":{"chunk_shape":[2]}},"chunk_key_encoding":"v2"}}
.zarray

0
2"#;

const LINES_BESIDE_KEYS: &[u8] =
    br#"{"buffer":[2],"from":[{"chunk":[0],"in_buffer":[[0],[1]],"in_chunk":[[2],[1]],"key":"0","shape":[3]},{"chunk":[1],"in_buffer":[[1],[1]],"in_chunk":[[0],[1]],"key":"1","shape":[3]}],"number":1,"of":2,"to":[{"chunk":[1],"in_buffer":[[0],[2]],"in_chunk":[[0],[2]],"key":"1","shape":[2],"whole":true}]}
{"unexpected":".zarray"}
{"unexpected":"2"}
"#;

const KEY_NOT_TEXT: &[u8] =
    b"{\"shape\":[],\"chunk_grid\":{\"name\":\"regular\",\"configuration\":{\"chunk_shape\":[]}},\"chunk_key_encoding\":\"v2\",\"keys\":true,\"target\":{\"chunk_grid\":{\"name\":\"regular\",\"configuration\":{\"chunk_shape\":[]}},\"chunk_key_encoding\":\"v2\"}}\n0\n\n\xff\n\xff\n";

/// The same array, which gets a fifth element: the second chunk gets it.
const RESIZED: &[u8] =
    br#"{"shape":[4],"chunk_grid":{"name":"regular","configuration":{"chunk_shape":[3]}},"chunk_key_encoding":"v2","resize":[5]}"#;

const CHANGES: &[u8] =
    br#"{"chunk":[1],"key":"1","now":[[3],[2]],"now_shape":[3],"number":0,"of":1,"was":[[3],[1]],"was_shape":[3],"what":"rewrite"}
"#;

/// The same array, which is rechunked into chunks of two, by a task for each chunk of the source.
const BY_SOURCE: &[u8] =
    br#"{"shape":[4],"chunk_grid":{"name":"regular","configuration":{"chunk_shape":[3]}},"chunk_key_encoding":"v2","order":"source","target":{"chunk_grid":{"name":"regular","configuration":{"chunk_shape":[2]}},"chunk_key_encoding":"v2"}}"#;

const LINES_BY_SOURCE: &[u8] =
    br#"{"buffer":[3],"from":[{"chunk":[0],"in_buffer":[[0],[3]],"in_chunk":[[0],[3]],"key":"0","shape":[3]}],"number":0,"of":2,"to":[{"chunk":[0],"in_buffer":[[0],[2]],"in_chunk":[[0],[2]],"key":"0","shape":[2],"whole":true},{"chunk":[1],"in_buffer":[[2],[1]],"in_chunk":[[0],[1]],"key":"1","shape":[2],"whole":false}]}
{"buffer":[1],"from":[{"chunk":[1],"in_buffer":[[0],[1]],"in_chunk":[[0],[1]],"key":"1","shape":[3]}],"number":1,"of":2,"to":[{"chunk":[1],"in_buffer":[[0],[1]],"in_chunk":[[1],[1]],"key":"1","shape":[2],"whole":false}]}
"#;

/// A reader of a document that fails after so many reads is told, and nothing is written then; the lines are, where it doesn't fail.
fn check_read(
    rt: &(impl Abort + AllocGlobal),
    asked: (&[u8], &[u8]),
    reads: usize,
    fault: ErrorKind,
    succeeds: bool,
) {
    let (document, lines) = asked;
    let mut reader = Watched::new(FailingReader {
        rest: document,
        reads,
        fault,
    });
    let mut sink = Sink::new(rt.alloc(), Vec::new(rt.alloc()));
    let mut errors = Watched::new(Vec::new(rt.alloc()));
    let status = run_to_status(rt.alloc(), &mut reader, &mut sink, &mut errors);
    check_ending(
        rt,
        (status, errors.inner()),
        succeeds,
        "chunkplan: input failed\n",
        reads,
    );
    let written = if succeeds { lines } else { b"".as_slice() };
    check_bytes(rt, sink.writer().inner(), written, reads);
    check_that(rt, reader.failed() != succeeds, reads);
}

/// The same of each number of reads up to the one that is enough.
fn check_reads(rt: &(impl Abort + AllocGlobal), asked: (&[u8], &[u8]), enough: usize) {
    for fault in [ErrorKind::Other, ErrorKind::OutOfMemory] {
        for reads in 0..=enough {
            check_read(rt, asked, reads, fault, reads == enough);
        }
    }
}

#[test]
fn a_failed_read_is_told(rt: HostRuntime) {
    for (document, lines) in [(DOCUMENT, LINES), (SHARE, LINE_OF_SHARE)] {
        check_reads(&rt, (document, lines), document.len().div_ceil(16) + 1);
    }
}

/// A writer that fails after so many writes, or at the flush, is told, and has taken as much of the document's lines.
fn check_write(
    rt: &(impl Abort + AllocGlobal),
    asked: (&[u8], &[u8]),
    writes: usize,
    fault: Option<ErrorKind>,
    flush_fails: bool,
    taken: &[u8],
) {
    let (document, lines) = asked;
    let writer = FailingWriter {
        taken: Vec::new(rt.alloc()),
        writes,
        fault,
        flush_fails,
    };
    let mut sink = Sink::new(rt.alloc(), writer);
    let mut errors = Watched::new(Vec::new(rt.alloc()));
    let mut reader = Watched::new(document);
    let status = run_to_status(rt.alloc(), &mut reader, &mut sink, &mut errors);
    let succeeds = writes == lines.len() && !flush_fails;
    check_ending(
        rt,
        (status, errors.inner()),
        succeeds,
        "chunkplan: output failed\n",
        writes,
    );
    check_bytes(rt, &sink.writer().inner().taken, taken, writes);
    check_that(rt, sink.writer().failed() != succeeds, writes);
}

/// The same of each number of writes up to the one that is enough.
fn check_writes(rt: &(impl Abort + AllocGlobal), document: &[u8], lines: &[u8]) {
    let other = Some(ErrorKind::Other);
    for (fault, flush_fails) in [(other, false), (None, false), (other, true)] {
        for writes in 0..=lines.len() {
            let (taken, _) = lines.split_at(writes);
            check_write(rt, (document, lines), writes, fault, flush_fails, taken);
        }
    }
}

#[test]
fn a_failed_write_leaves_a_beginning(rt: HostRuntime) {
    let plans = [
        (DOCUMENT, LINES),
        (SHARE, LINE_OF_SHARE),
        (RESIZED, CHANGES),
        (BESIDE_KEYS, LINES_BESIDE_KEYS),
        (BY_SOURCE, LINES_BY_SOURCE),
    ];
    for (document, lines) in plans {
        check_writes(&rt, document, lines);
    }
}

/// The fault of a document is told by this line, and nothing is written.
fn check_fault(rt: &(impl Abort + AllocGlobal), document: &[u8], line: &str) {
    let mut reader = Watched::new(document);
    let mut sink = Sink::new(rt.alloc(), Vec::new(rt.alloc()));
    let mut errors = Watched::new(Vec::new(rt.alloc()));
    let status = run_to_status(rt.alloc(), &mut reader, &mut sink, &mut errors);
    check_ending(rt, (status, errors.inner()), false, line, 0);
    check_bytes(rt, sink.writer().inner(), b"", 0);
}

#[test]
fn a_key_that_is_no_text_is_told(rt: HostRuntime) {
    check_fault(
        &rt,
        KEY_NOT_TEXT,
        "chunkplan: field `keys`: line 4 is not UTF-8\n",
    );
}
