//! An array as it is stored.

/// An array as it is stored: in the chunks of a grid, under the keys that an encoding gives them. These two members of its `zarr.json` say it.
#[derive(Debug, Drop)]
pub struct StoredArray<G, E> {
    /// The chunk grid, which knows the array's shape.
    pub grid: G,
    /// The chunk key encoding.
    pub encoding: E,
}
