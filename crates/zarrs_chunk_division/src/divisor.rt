//! A divisor whose quotients are taken without a division.
ghost use Rattle.std.specs.Int.NonZero.{non_zero_u64_get};
ghost use Rattle.std.specs.Prelude.{◌≡◌, ◌+◌, ◌*◌, ◌<◌, ◌≤◌, ◌^◌};
ghost use Rattle.zarrs_chunk_division.specs.seen.Multiplier.{AreShifts, IsMultiplier};

use std::num::NonZeroU64;

/// A number above 0, and what is multiplied by in place of a division by it.
#[derive(Debug, Drop)]
pub struct Divisor {
    /// The number that is divided by.
    divisor: NonZeroU64,
    /// By how much more than 2^64 is multiplied.
    multiplier: u64,
    /// How many binary digits are dropped at first: one, or none for the divisor 1.
    first_shift: u32,
    /// How many are dropped then.
    second_shift: u32,
    ghost is_multiplier: { IsMultiplier (non_zero_u64_get divisor) multiplier (first_shift + second_shift) },
    ghost are_shifts: { AreShifts first_shift second_shift },
}

impl Divisor {
    ghost use Rattle.zarrs_chunk_division.specs.Division.{IsDivision, IsQuotient};
    ghost use Rattle.zarrs_chunk_division.specs.seen.Divisor.{divisor_of};

    /// A divisor for this number. Making it takes one division of 128-bit numbers.
    pub fn new(divisor: NonZeroU64) -> Divisor
        ensures { divisor_of result ≡ non_zero_u64_get divisor }
    {
        let bits = 64 - (divisor.get() - 1).leading_zeros();
        let first_shift = bits.min(1);
        Divisor {
            divisor,
            multiplier: multiplier_of(divisor, bits),
            first_shift,
            second_shift: bits - first_shift,
        }
    }

    /// How often the divisor is in a number, and what is left.
    ///
    /// It takes two products, a sum, a difference and two shifts, and no division.
    pub fn div_rem(&self, number: u64) -> (u64, u64)
        ensures { IsDivision number (divisor_of self.now) result.0 result.1 }
    {
        let quotient = self.div(number);
        (quotient, number - quotient * self.divisor.get())
    }

    /// How often the divisor is in a number.
    ///
    /// It takes a product, a sum and two shifts, and no division.
    pub fn div(&self, number: u64) -> u64
        ensures { IsQuotient number (divisor_of self.now) result }
    {
        let high = high_product(self.multiplier, number);
        (high + ((number - high) >> self.first_shift)) >> self.second_shift
    }
}

/// The binary digits of a product from the 64th on.
fn high_product(one: u64, other: u64) -> u64
    ensures least { result * 2 ^ 64 ≤ one * other }
    ensures most { one * other < result * 2 ^ 64 + 2 ^ 64 }
{
    ((u128::from(one) * u128::from(other)) >> 64) as u64
}

/// The multiplier of a division by this number, less 2^64. The number has so many binary digits, or is a power of two and has one more.
fn multiplier_of(divisor: NonZeroU64, bits: u32) -> u64
    requires few { bits ≤ 64 }
    requires least { 2 ^ bits < 2 * non_zero_u64_get divisor }
    requires most { non_zero_u64_get divisor ≤ 2 ^ bits }
    ensures { IsMultiplier (non_zero_u64_get divisor) result bits }
{
    let divisor = u128::from(divisor.get());
    (((((1u128 << bits) - divisor) << 64) / divisor) + 1) as u64
}
