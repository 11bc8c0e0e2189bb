//! The lines that a reader gives, one after another.
ghost use Rattle.std.specs.Prelude.{◌≤◌, length};

use crate::stream_fault::StreamFault;
use crate::transfer::BUFFER_LEN;
use crate::watched::Watched;
use std::alloc::Global;
use std::io::Read;

/// What was read, and isn't given yet.
#[derive(Drop)]
pub struct Lines {
    bytes: Vec<u8>,
    /// How many of these bytes were given.
    at: usize,
    ghost within: { at ≤ length bytes.items },
}

impl Lines {
    ghost use Rattle.std.specs.Prelude.{◌≡◌, ◌<◌, ◌++◌, ◌∷◌, [], ℕ, List, IfErr, IfOk, IfSome, MatchResult, OnOk, Some, false, true};
    ghost use Rattle.std.specs.Io.BufRead.{drop_through, take_through};
    ghost use Rattle.streams.specs.Watched.{IsReadFailure, has_failed, watched};
    ghost use Rattle.streams.specs.OneLine.{line_feeds};
    ghost use Rattle.streams.specs.seen.Lines.{HasBegun, IsCutOff, IsNextByte, left, unread};
    ghost use Rattle.streams.specs.declared.stream_fault.StreamFault.TheVariants.{Read as ReadFailed};

    /// Nothing was read yet.
    pub fn new(alloc: Global) -> Lines
        ensures { unread result ≡ [] }
    {
        Lines {
            bytes: Vec::new(alloc),
            at: 0,
        }
    }

    /// Appends the next line to some bytes, with its line feed, and tells whether it has one. Nothing is left behind a line that has none: a reader
    /// that came to its end there, as a terminal does, isn't asked again.
    ///
    /// # Errors
    /// A read failed; or out of memory.
    pub fn read_line<R: Read>(
        &mut self,
        reader: &mut Watched<R>,
        line: &mut Vec<u8>,
    ) -> Result<bool, StreamFault>
        ensures line { IfOk result (λ _. IfSome (left self.old (R.remaining (watched reader.old)))
            (λ bytes. line.new.items ≡ line.old.items ++ take_through 10 bytes)) }
        ensures behind { IfOk result (λ _. IfSome (left self.old (R.remaining (watched reader.old)))
            (λ bytes. left self.new (R.remaining (watched reader.new))
            ≡ Some (drop_through 10 bytes))) }
        ensures end { IfOk result (λ ended. ended ≡ false
            → IfSome (left self.old (R.remaining (watched reader.old)))
            (λ bytes. drop_through 10 bytes ≡ [])) }
        ensures unended { IfOk result (λ ended. ended ≡ false
            → IfSome (left self.old (R.remaining (watched reader.old)))
            (λ bytes. line_feeds bytes ≡ 0)) }
        ensures longer { IfOk result (λ ended. ended ≡ true
            → length line.old.items < length line.new.items) }
        ensures ended { IfOk result (λ ended. ended ≡ true → (text : List ℕ)
            × (line.new.items ≡ line.old.items ++ (text ++ 10 ∷ []))) }
        ensures failed { MatchResult result (λ _. has_failed reader.new ≡ has_failed reader.old)
            (λ fault. IsReadFailure fault (has_failed reader.old) (has_failed reader.new)) }
        ensures cut { IfErr result (λ fault. fault ≡ ReadFailed
            → IfSome (left self.old (R.remaining (watched reader.old)))
            (λ bytes. IsCutOff line.old.items line.new.items bytes
            (R.remaining (watched reader.new)))) }
        ensures none_unread { IfErr result (λ fault. fault ≡ ReadFailed → unread self.new ≡ []) }
    {
        while let Some(byte) = self.next_byte(reader)? {
            line.push(byte)?;
            if byte == b'\n' {
                return Ok(true);
            }
        }
        Ok(false)
    }

    /// Appends all that is left.
    ///
    /// # Errors
    /// A read failed; or out of memory.
    pub fn read_rest<R: Read>(
        &mut self,
        reader: &mut Watched<R>,
        bytes: &mut Vec<u8>,
    ) -> Result<(), StreamFault>
        ensures rest { OnOk result (IfSome (left self.old (R.remaining (watched reader.old)))
            (λ rest. bytes.new.items ≡ bytes.old.items ++ rest)) }
        ensures end { OnOk result (IfSome (left self.old (R.remaining (watched reader.old)))
            (λ _. R.remaining (watched reader.new) ≡ Some [])) }
        ensures behind { OnOk result (IfSome (left self.old (R.remaining (watched reader.old)))
            (λ _. left self.new (R.remaining (watched reader.new)) ≡ Some [])) }
        ensures failed { MatchResult result (λ _. has_failed reader.new ≡ has_failed reader.old)
            (λ fault. IsReadFailure fault (has_failed reader.old) (has_failed reader.new)) }
        ensures cut { IfErr result (λ fault. fault ≡ ReadFailed
            → IfSome (left self.old (R.remaining (watched reader.old)))
            (λ rest. HasBegun bytes.old.items bytes.new.items rest
            (R.remaining (watched reader.new)))) }
        ensures none_unread { IfErr result (λ fault. fault ≡ ReadFailed → unread self.new ≡ []) }
    {
        while self.read_line(reader, bytes)? {}
        Ok(())
    }

    /// The next byte, if there is one.
    ///
    /// # Errors
    /// A read failed; or out of memory.
    fn next_byte<R: Read>(&mut self, reader: &mut Watched<R>) -> Result<Option<u8>, StreamFault>
        ensures next { IfOk result (λ found. (bytes : List ℕ)
            → left self.old (R.remaining (watched reader.old)) ≡ Some bytes
            → IsNextByte bytes found (left self.new (R.remaining (watched reader.new)))) }
        ensures failed { MatchResult result (λ _. has_failed reader.new ≡ has_failed reader.old)
            (λ fault. IsReadFailure fault (has_failed reader.old) (has_failed reader.new)) }
        ensures kept { IfErr result (λ fault. fault ≡ ReadFailed → (bytes : List ℕ)
            → left self.old (R.remaining (watched reader.old)) ≡ Some bytes
            → R.remaining (watched reader.new) ≡ Some bytes) }
        ensures none_unread { IfErr result (λ fault. fault ≡ ReadFailed → unread self.new ≡ []) }
    {
        if !self.has_more(reader)? {
            return Ok(None);
        }
        let byte = self.bytes[self.at];
        self.at += 1;
        Ok(Some(byte))
    }

    /// Whether there is a next byte. Where all that was read was given, more is read.
    ///
    /// # Errors
    /// A read failed; or out of memory.
    fn has_more<R: Read>(&mut self, reader: &mut Watched<R>) -> Result<bool, StreamFault>
        ensures same { IfOk result (λ _. (bytes : List ℕ)
            → left self.old (R.remaining (watched reader.old)) ≡ Some bytes
            → left self.new (R.remaining (watched reader.new)) ≡ Some bytes) }
        ensures more { IfOk result (λ more. more ≡ true
            → self.new.at < length self.new.bytes.items) }
        ensures end { IfOk result (λ more. more ≡ false → (bytes : List ℕ)
            → left self.old (R.remaining (watched reader.old)) ≡ Some bytes → bytes ≡ []) }
        ensures failed { MatchResult result (λ _. has_failed reader.new ≡ has_failed reader.old)
            (λ fault. IsReadFailure fault (has_failed reader.old) (has_failed reader.new)) }
        ensures kept { IfErr result (λ fault. fault ≡ ReadFailed → (bytes : List ℕ)
            → left self.old (R.remaining (watched reader.old)) ≡ Some bytes
            → R.remaining (watched reader.new) ≡ Some bytes) }
        ensures none_unread { IfErr result (λ fault. fault ≡ ReadFailed → unread self.new ≡ []) }
    {
        if self.at < self.bytes.len() {
            return Ok(true);
        }
        let mut buffer = [0; BUFFER_LEN];
        let Ok(count) = reader.read(&mut buffer) else {
            return Err(StreamFault::Read);
        };
        self.at = 0;
        self.bytes.clear();
        self.bytes.extend_from_slice(&buffer[..count])?;
        Ok(count > 0)
    }
}
