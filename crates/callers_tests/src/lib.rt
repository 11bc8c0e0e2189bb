//! Tests of the callers on the pages, of the grid and of the encoding of one's own: each answer was computed by hand.
//!
//! They stand apart from `callers`, since a crate with tests is proved twice. By `compared` they compare what a call answers.
#![tactic(auto)]

#[cfg(test)]
mod compared;
#[cfg(test)]
mod ones_own;
#[cfg(test)]
mod reading;
#[cfg(test)]
mod rechunking;
#[cfg(test)]
mod tests;
