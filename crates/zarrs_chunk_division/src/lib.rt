//! Division by a number above 0 that is known beforehand, by a product, a sum and two shifts. It answers as `/` and `%` do, for every divisor and
//! every number; making a [`Divisor`] takes one division, and pays where many numbers are divided.
//!
//! Source: Granlund and Montgomery, Division by Invariant Integers using Multiplication, 1994.
#![tactic(auto)]

mod divisor;

pub use divisor::Divisor;
