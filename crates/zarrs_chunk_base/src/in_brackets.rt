//! A list as a text.
use std::fmt;
use std::fmt::Display;

/// A list whose items print themselves, printed as `[1, 2]`, and an empty one as `[]`. The texts of refusals print
/// lists of edges so, for which `Debug` would show the types.
#[derive(Clone, Copy, Debug)]
pub struct InBrackets<'a, T>(pub &'a [T]);

impl<T: Display> Display for InBrackets<'_, T> {
    fn fmt<W: fmt::Write>(&self, f: &mut fmt::Formatter<W>) -> fmt::Result {
        f.write_str("[")?;
        for (position, item) in self.0.iter().enumerate() {
            if position > 0 {
                f.write_str(", ")?;
            }
            write!(f, "{item}")?;
        }
        f.write_str("]")
    }
}
