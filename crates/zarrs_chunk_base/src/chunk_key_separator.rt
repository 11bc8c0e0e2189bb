//! What stands between the parts of a chunk key.
ghost use Rattle.std.specs.Prelude.{◌≡◌};
ghost use Rattle.zarrs_chunk_base.specs.ChunkKeySeparator.{separator_byte};

/// What stands between the parts of a chunk key.
#[derive(Clone, Copy, Debug, PartialEq, Eq)]
pub enum ChunkKeySeparator {
    /// `/`
    Slash,
    /// `.`
    Dot,
}

impl ChunkKeySeparator {
    /// The separator as a character.
    pub fn as_char(self) -> char
        ensures { result ≡ separator_byte self }
    {
        match self {
            ChunkKeySeparator::Slash => '/',
            ChunkKeySeparator::Dot => '.',
        }
    }
}
