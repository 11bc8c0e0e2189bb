//! The structs of the header: what belongs together in a call.

/// An array as its `zarr.json` has it: its shape, and what its chunk grid and its chunk key encoding are made of, as text.
#[repr(C)]
#[derive(Drop)]
pub struct StoredArray<'a> {
    pub shape: &'a [u64],
    pub chunk_grid: &'a [u8],
    pub chunk_key_encoding: &'a [u8],
}

/// A box of elements.
#[repr(C)]
#[derive(Drop)]
pub struct ElementBox<'a> {
    pub start: &'a [u64],
    pub shape: &'a [u64],
}

/// The buffers that the parts of a plan are written to, one part after another, and what is told of them.
#[repr(C)]
#[derive(Drop)]
pub struct PartBuffers<'a> {
    /// The chunk of each part.
    pub chunks: &'a mut [u64],
    /// The part's first element, counted from the chunk's.
    pub in_chunk: &'a mut [u64],
    /// The same, counted from the first element of the box.
    pub in_selection: &'a mut [u64],
    /// How many elements the part has along each dimension.
    pub shapes: &'a mut [u64],
    /// The keys of the chunks, one after another.
    pub text: &'a mut [u8],
    /// Where each key begins in the text, in bytes, and at last where the last one ends.
    pub offsets: &'a mut [u64],
    /// How many bytes the keys have.
    pub needed: usize,
    /// How many parts are written.
    pub count: usize,
    /// How many parts the plan has.
    pub in_all: u64,
    /// 1 where the box has a plan, and else 0.
    pub found: u8,
}
