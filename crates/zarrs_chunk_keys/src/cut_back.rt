//! How a failed append leaves a text: as it was.
ghost use Rattle.std.specs.Prelude.{◌≡◌, ◌≤◌, OnErr, OnOk, string_bytes, string_len, take};
ghost use Rattle.std.specs.String.Boundary.{IsSplitPoint};

use std::alloc::AllocError;

/// Hands on how an append ended. Where it failed, the text is first cut back to its first `length` bytes.
pub(crate) fn or_cut_back(
    text: &mut String,
    length: usize,
    appended: Result<(), AllocError>,
) -> Result<(), AllocError>
    requires { length ≤ string_len text.old → IsSplitPoint (string_bytes text.old) length }
    ensures handed_on { result ≡ appended }
    ensures unchanged { OnOk result (string_bytes text.new ≡ string_bytes text.old) }
    ensures cut { OnErr result (string_bytes text.new ≡ take length (string_bytes text.old)) }
{
    if appended.is_err() {
        text.truncate(length);
    }
    appended
}
