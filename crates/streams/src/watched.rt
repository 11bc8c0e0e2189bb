//! A reader or writer that remembers whether one of its calls failed.
use std::io;
use std::io::{Read, Write};

/// A reader or writer, whether a call through it failed, and whether what it was given was flushed.
#[derive(Debug, Drop)]
pub struct Watched<T> {
    inner: T,
    failed: bool,
    flushed: bool,
}

impl<T> Watched<T> {
    ghost use Rattle.std.specs.Prelude.{◌≡◌, false, true};
    ghost use Rattle.streams.specs.Watched.{watched, has_failed, is_flushed};

    /// Watches a reader or writer, of which no call has failed yet.
    pub fn new(inner: T) -> Watched<T>
        ensures inner { watched result ≡ inner }
        ensures failed { has_failed result ≡ false }
        ensures flushed { is_flushed result ≡ true }
    {
        Watched {
            inner,
            failed: false,
            flushed: true,
        }
    }

    /// The reader or writer itself.
    pub fn inner(&self) -> &T
        ensures { result.now ≡ watched self.now }
    {
        &self.inner
    }

    /// Whether a call of `read`, `write` or `flush` failed, or a write took nothing.
    pub fn failed(&self) -> bool
        ensures { result ≡ has_failed self.now }
    {
        self.failed
    }

    /// Whether the last flush succeeded, and nothing was written after it. Before the first write it is true.
    pub fn flushed(&self) -> bool
        ensures { result ≡ is_flushed self.now }
    {
        self.flushed
    }
}

impl<R: Read> Watched<R> {
    ghost use Rattle.std.specs.Prelude.{◌≡◌, ◌||◌, is_err};
    ghost use Rattle.std.specs.Io.{ReadsAtMost};
    ghost use Rattle.std.specs.Io.KnownBytes.{ReadConsumes};
    ghost use Rattle.streams.specs.Watched.{watched, has_failed, is_flushed};

    /// Reads into `buf` and tells how many bytes, as the reader itself does.
    ///
    /// # Errors
    /// The reader's own, which is remembered.
    pub fn read(&mut self, buf: &mut [u8]) -> io::Result<usize>
        ensures bound { ReadsAtMost result buf.new }
        ensures bytes { ReadConsumes (R.remaining (watched self.old))
            (R.remaining (watched self.new))
            result buf.new }
        ensures failed { has_failed self.new ≡ (has_failed self.old || is_err result) }
        ensures flushed { is_flushed self.new ≡ is_flushed self.old }
    {
        let result = self.inner.read(buf);
        self.failed |= result.is_err();
        result
    }
}

impl<W: Write> Watched<W> {
    ghost use Rattle.std.specs.Prelude.{◌≡◌, ◌||◌, false, is_err, is_ok};
    ghost use Rattle.std.specs.Io.{WritesAtMost};
    ghost use Rattle.std.specs.Io.KnownBytes.{WriteAppends, Keeps};
    ghost use Rattle.streams.specs.Watched.{watched, has_failed, is_failed_write, is_flushed};

    /// Writes from the front of `buf` and tells how many bytes, as the writer itself does.
    ///
    /// # Errors
    /// The writer's own, which is remembered; so is a write that takes nothing of something.
    pub fn write(&mut self, buf: &[u8]) -> io::Result<usize>
        ensures bound { WritesAtMost result buf.now }
        ensures bytes { WriteAppends (W.contents (watched self.old)) (W.contents (watched self.new))
            result buf.now }
        ensures failed { has_failed self.new ≡
            (has_failed self.old || is_failed_write result buf.now) }
        ensures flushed { is_flushed self.new ≡ false }
    {
        self.flushed = false;
        let result = self.inner.write(buf);
        self.failed |= match result {
            Ok(count) => count == 0 && !buf.is_empty(),
            Err(_) => true,
        };
        result
    }

    /// Flushes the writer.
    ///
    /// # Errors
    /// The writer's own, which is remembered.
    pub fn flush(&mut self) -> io::Result<()>
        ensures bytes { Keeps (W.contents (watched self.old)) (W.contents (watched self.new)) }
        ensures failed { has_failed self.new ≡ (has_failed self.old || is_err result) }
        ensures flushed { is_flushed self.new ≡ is_ok result }
    {
        let result = self.inner.flush();
        self.failed |= result.is_err();
        self.flushed = result.is_ok();
        result
    }
}
