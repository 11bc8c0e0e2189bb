//! Why a line can't be read.
ghost use Rattle.zarrs_chunk_questions.specs.Reading.{words_of};
ghost use Rattle.zarrs_chunk_questions.specs.seen.Read.{fault_of};

use std::fmt;

/// Why a line can't be read.
#[derive(Debug, Drop)]
pub(crate) enum Unreadable {
    /// The line is no text of JSON.
    NotJson,
    /// The line is no JSON object.
    NotObject,
    /// A member of the line is missing.
    Missing(&'static str),
    /// A member of the line isn't of its form.
    WrongValue(&'static str),
    /// No call has this name, or the grid is of a kind that hasn't it.
    NoCall(String),
}

/// The words are a definition, and so this isn't derived.
impl fmt::Display for Unreadable {
    ghost use Rattle.std.specs.Prelude.{Some};

    ghost output = { λ fault. Some (words_of (fault_of fault)) };

    fn fmt<W: fmt::Write>(&self, f: &mut fmt::Formatter<W>) -> fmt::Result {
        match self {
            Unreadable::NotJson => f.write_str("not JSON"),
            Unreadable::NotObject => f.write_str("not an object"),
            Unreadable::Missing(field) => write!(f, "missing field `{field}`"),
            Unreadable::WrongValue(field) => write!(f, "wrong value in field `{field}`"),
            Unreadable::NoCall(name) => write!(f, "there is no call `{name}`"),
        }
    }
}
