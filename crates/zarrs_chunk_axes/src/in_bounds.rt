//! Numbers in the bounds of an array or of a grid.
ghost use Rattle.std.specs.Prelude.{◌↔◌, IsTrue};
ghost use Rattle.zarrs_chunk_axes.specs.InBounds.{AreInBounds, IsInBounds};

/// Whether there are as many numbers as sizes, and each is in bounds.
pub fn are_in_bounds(sizes: &[u64], numbers: &[u64]) -> bool
    ensures { IsTrue result ↔ AreInBounds sizes.now numbers.now }
{
    if sizes.len() != numbers.len() {
        return false;
    }
    for (size, number) in sizes.iter().zip(numbers) {
        if !is_in_bounds(*size, *number) {
            return false;
        }
    }
    true
}

/// Whether the number is below the size, or that is 0.
pub(crate) fn is_in_bounds(size: u64, number: u64) -> bool
    ensures { IsTrue result ↔ IsInBounds size number }
{
    size == 0 || number < size
}
