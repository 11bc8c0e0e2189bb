//! Where a walk is.

/// What the next step of a walk does.
#[derive(Debug, Drop)]
pub(crate) enum Turn {
    /// It goes to the first list.
    First,
    /// It goes on from the list at which the walk stands.
    Next,
    /// Nothing: the walk has ended.
    Over,
}
