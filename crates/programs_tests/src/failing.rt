//! Readers and writers that fail, for tests of programs.
use std::io;
use std::io::{ErrorKind, Read, Write};

/// A reader that gives at most 16 bytes at once, and fails after so many reads.
#[derive(Debug, Drop)]
pub struct FailingReader<'a> {
    /// What it has left.
    pub rest: &'a [u8],
    /// How many reads succeed.
    pub reads: usize,
    /// How the next one fails.
    pub fault: ErrorKind,
}

impl Read for FailingReader<'_> {
    fn read(&mut self, buf: &mut [u8]) -> io::Result<usize> {
        if self.reads == 0 {
            return Err(io::Error::from(self.fault));
        }
        self.reads -= 1;
        let end = buf.len().min(16);
        Read::read(&mut self.rest, &mut buf[..end])
    }
}

/// A writer that takes one byte at once, and after so many writes fails or takes nothing.
#[derive(Debug, Drop)]
pub struct FailingWriter {
    /// What it has taken.
    pub taken: Vec<u8>,
    /// How many writes succeed.
    pub writes: usize,
    /// How the next one fails; `None` where it takes nothing.
    pub fault: Option<ErrorKind>,
    /// Whether a flush fails.
    pub flush_fails: bool,
}

impl Write for FailingWriter {
    fn write(&mut self, buf: &[u8]) -> io::Result<usize> {
        if self.writes == 0 {
            return match self.fault {
                Some(kind) => Err(io::Error::from(kind)),
                None => Ok(0),
            };
        }
        let Some(first) = buf.first() else {
            return Ok(0);
        };
        self.writes -= 1;
        self.taken.push(*first)?;
        Ok(1)
    }

    fn flush(&mut self) -> io::Result<()> {
        if self.flush_fails {
            return Err(io::Error::from(ErrorKind::Other));
        }
        Ok(())
    }
}
