//! Tests of the base, of division, of edges kept as runs and of keys: what no program prints. These are copies, the texts of some types, and calls
//! that no program makes.
//!
//! Tests stand apart from the libraries, since a crate with tests is proved twice. `locate` and an encoding of one's own are tested in
//! `callers_tests`. What a program answers is a vector of `chunkcalls`.
//!
//! | Module | What it tests |
//! |---|---|
//! | `faults` | the texts of refusals, and copies of errors |
//! | `subsets` | boxes |
//! | `store_keys` | keys in a store |
//! | `json` | configurations and metadata |
//! | `division` | division by a number that is known beforehand |
//! | `runs` | edges kept as runs: comparisons of a search, texts of faults |
//! | `probes` | the search by halving |
//! | `keys` | chunk key encodings |
//!
//! By `compared` they compare what a call answers or a value prints.
#![tactic(auto)]

#[cfg(test)]
mod compared;
#[cfg(test)]
mod division;
#[cfg(test)]
mod faults;
#[cfg(test)]
mod json;
#[cfg(test)]
mod keys;
#[cfg(test)]
mod probes;
#[cfg(test)]
mod runs;
#[cfg(test)]
mod store_keys;
#[cfg(test)]
mod subsets;
