//! The key of a value in a store.
ghost use Rattle.std.specs.Prelude.{◌≡◌, IfOk, MatchResult, Some, nat_eq, refl, string_bytes};
ghost use Rattle.std.specs.Cmp.{partial_equiv_from_equiv};
ghost use Rattle.std.specs.Cmp.Lexicographic.{nat_list_cmp_total, nat_list_eq_equiv, pointwise, slice_cmp, texts_po, texts_ties};
ghost use Rattle.std.specs.Cmp.Rules.{hashing};
ghost use Rattle.std.specs.Hash as fed;
ghost use Rattle.std.specs.Ordering.{nat_cmp};
ghost use Rattle.std.proofs.Common.{rules};
ghost use Rattle.zarrs_chunk_base.specs.StoreKey.{EndsInSlash};

use std::alloc::AllocError;
use std::cmp::Ordering;
use std::fmt;
use std::hash::{Hash, Hasher};
use std::marker::Model;
use thiserror::Error;

/// The key of a value in a store: any text that doesn't end in a slash. A contract sees it as
/// its bytes.
#[derive(Debug, Drop)]
pub struct StoreKey(String);

impl Model for StoreKey {
    ghost use Rattle.std.specs.Prelude.{ℕ, List, string_bytes};
    ghost use Rattle.zarrs_chunk_base.specs.StoreKey.{EndsInSlash};

    ghost Value = { List ℕ };

    ghost view = { λ key. string_bytes key.0 };

    ghost invariant = { λ key. ¬ EndsInSlash (string_bytes key.0) };
}

impl StoreKey {
    /// The key with this text.
    ///
    /// # Errors
    /// The text ends in a slash; it is handed back.
    pub fn new(text: String) -> Result<StoreKey, StoreKeyError>
        ensures { MatchResult result (λ key. (¬ EndsInSlash (string_bytes text))
            × (key ≡ string_bytes text))
            (λ error. EndsInSlash (string_bytes text) × (error.0 ≡ text)) }
    {
        if text.as_str().ends_with('/') {
            Err(StoreKeyError(text))
        } else {
            Ok(StoreKey(text))
        }
    }

    /// The key's text.
    pub fn as_str(&self) -> &str
        ensures value { result.now ≡ self.now }
        ensures no_slash { ¬ EndsInSlash self.now }
    {
        self.0.as_str()
    }

    /// A key with the same text.
    ///
    /// # Errors
    /// Out of memory.
    pub fn clone(&self) -> Result<StoreKey, AllocError>
        ensures { IfOk result (λ key. key ≡ self.now) }
    {
        Ok(StoreKey(self.0.clone()?))
    }
}

impl PartialEq for StoreKey {
    ghost eq = { pointwise nat_eq };

    ghost laws = { partial_equiv_from_equiv nat_list_eq_equiv };

    fn eq(&self, other: &StoreKey) -> bool {
        self.as_str() == other.as_str()
    }
}

impl Eq for StoreKey {
    ghost laws = { nat_list_eq_equiv };
}

impl PartialOrd for StoreKey {
    ghost partial_cmp = { λ x y. Some (slice_cmp nat_cmp x y) };

    ghost laws = { texts_po };

    fn partial_cmp(&self, other: &StoreKey) -> Option<Ordering> {
        Some(self.cmp(other))
    }
}

impl Ord for StoreKey {
    ghost cmp = { slice_cmp nat_cmp };

    ghost total = { nat_list_cmp_total };

    ghost matches_partial_cmp = { λ x y. refl };

    ghost matches_eq = { texts_ties };

    fn cmp(&self, other: &StoreKey) -> Ordering {
        self.as_str().cmp(other.as_str())
    }
}

impl Hash for StoreKey {
    ghost hash_input = { fed.str };

    ghost respects_eq = { Prim.search (hashing, rules) };

    fn hash<H: Hasher>(&self, state: &mut H) {
        self.as_str().hash(state);
    }
}

impl fmt::Display for StoreKey {
    ghost output = { λ key. Some key };

    fn fmt<W: fmt::Write>(&self, f: &mut fmt::Formatter<W>) -> fmt::Result {
        f.write_str(self.as_str())
    }
}

/// A text that ends in a slash, and so is no store key.
#[derive(Debug, Drop, Error)]
#[error("invalid store key {0}")]
pub struct StoreKeyError(pub String);

impl StoreKeyError {
    /// The error about an equal text.
    ///
    /// # Errors
    /// Out of memory.
    pub fn clone(&self) -> Result<StoreKeyError, AllocError>
        ensures { IfOk result (λ error. string_bytes error.0 ≡ string_bytes self.now.0) }
    {
        Ok(StoreKeyError(self.0.clone()?))
    }
}
