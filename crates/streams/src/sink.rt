//! A writer that gets many bytes at a time.
ghost use Rattle.std.specs.Prelude.{◌≡◌, [], ◌++◌, ℕ, List, IfErr, IfSome, MatchResult, OnErr, OnOk, Some, true};
ghost use Rattle.streams.specs.Watched.{IsWriteFailure, is_flushed};
ghost use Rattle.streams.specs.seen.Sent.{Sends, begun, watched_in, written};
ghost use Rattle.streams.specs.declared.stream_fault.StreamFault.TheVariants.{Memory, Write as WriteFailed};

use crate::stream_fault::StreamFault;
use crate::transfer::{write_all, write_bytes};
use crate::watched::Watched;
use std::alloc::Global;
use std::io::Write;

/// So many bytes are sent once they are there.
const ENOUGH: usize = 8192;

/// A writer, and the bytes that are held back from it until there are enough of them.
#[derive(Drop)]
pub struct Sink<W> {
    writer: Watched<W>,
    held_back: Vec<u8>,
}

impl<W: Write> Sink<W> {
    /// Nothing is held back yet, and no write has failed.
    pub fn new(alloc: Global, writer: W) -> Sink<W>
        ensures { written W.contents result ≡ begun (W.contents writer) }
    {
        Sink {
            writer: Watched::new(writer),
            held_back: Vec::new(alloc),
        }
    }

    /// The writer.
    pub fn writer(&self) -> &Watched<W>
        ensures { result.now ≡ watched_in self.now }
    {
        &self.writer
    }

    /// Holds bytes back until there are enough of them, and then sends all that are held back.
    ///
    /// # Errors
    /// A write failed, or took nothing; or out of memory. Out of memory, all is as it was.
    pub fn send(&mut self, bytes: &[u8]) -> Result<(), StreamFault>
        ensures sent { (rest : List ℕ) × Sends
            (written W.contents self.old)
            bytes.now (written W.contents self.new).holds rest
            × OnOk result (rest ≡ (written W.contents self.new).held_back) }
        ensures failed { MatchResult result
            (λ _. (written W.contents self.new).failed ≡ (written W.contents self.old).failed)
            (λ fault. IsWriteFailure fault (written W.contents self.old).failed
            (written W.contents self.new).failed) }
        ensures unchanged { IfErr result (λ fault. fault ≡ Memory
            → written W.contents self.new ≡ written W.contents self.old) }
    {
        self.held_back.extend_from_slice(bytes)?;
        if self.held_back.len() < ENOUGH {
            return Ok(());
        }
        write_bytes(&mut self.writer, &self.held_back)?;
        self.held_back.clear();
        Ok(())
    }

    /// Sends all that is held back, and flushes the writer.
    ///
    /// # Errors
    /// A write or the flush failed, or a write took nothing. A beginning of what was held back may have been written.
    pub fn flush(&mut self) -> Result<(), StreamFault>
        ensures ok { OnOk result (IfSome (written W.contents self.old).holds (λ held.
            (written W.contents self.new).holds
            ≡ Some (held ++ (written W.contents self.old).held_back))) }
        ensures empty { OnOk result ((written W.contents self.new).held_back ≡ []) }
        ensures unfailed { OnOk result ((written W.contents self.new).failed
            ≡ (written W.contents self.old).failed) }
        ensures flushed { OnOk result (is_flushed (watched_in self.new) ≡ true) }
        ensures err { OnErr result (IfSome (written W.contents self.old).holds (λ held.
            (sent : List ℕ) × (rest : List ℕ)
            × ((written W.contents self.old).held_back ≡ sent ++ rest)
            × ((written W.contents self.new).holds ≡ Some (held ++ sent)))) }
        ensures failed { IfErr result (λ fault. (fault ≡ WriteFailed)
            × ((written W.contents self.new).failed ≡ true)) }
    {
        write_all(&mut self.writer, &self.held_back)?;
        self.held_back.clear();
        Ok(())
    }
}
