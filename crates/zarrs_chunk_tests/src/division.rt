//! Division by a number that is known beforehand, beside the processor's own.
use crate::compared::check_numbers;
use std::num::NonZeroU64;
use std::process::Abort;
use std::test::Fail;
use zarrs_chunk_division::Divisor;

/// The ends of numbers, powers of two and their neighbours, and a few others.
const NUMBERS: [u64; 18] = [
    1,
    2,
    3,
    7,
    10,
    641,
    6700417,
    4294967295,
    4294967296,
    4294967297,
    9223372036854775807,
    9223372036854775808,
    9223372036854775809,
    12297829382473034410,
    12297829382473034411,
    18446744073709551613,
    18446744073709551614,
    18446744073709551615,
];

/// A number's quotient and what is left, by a divisor.
fn check_division(rt: &impl Abort, divisor: NonZeroU64, number: u64) {
    let by = Divisor::new(divisor);
    let (quotient, rest) = by.div_rem(number);
    let (wanted, left) = (number / divisor.get(), number % divisor.get());
    check_numbers(
        rt,
        &[by.div(number), quotient, rest],
        &[wanted, wanted, left],
    );
}

/// The same of a number, its neighbours, and a multiple of the divisor beside it.
fn check_around(rt: &impl Abort, divisor: NonZeroU64, number: u64) {
    check_division(rt, divisor, number);
    check_division(rt, divisor, number.wrapping_add(1));
    check_division(rt, divisor, number.wrapping_mul(divisor.get()));
    check_division(
        rt,
        divisor,
        number.wrapping_mul(divisor.get()).wrapping_sub(1),
    );
}

#[test]
fn numbers_are_divided(rt: HostRuntime) -> Result<(), Fail> {
    for divisor in NUMBERS {
        let divisor = NonZeroU64::new(divisor).ok_or("a divisor of 0")?;
        for number in NUMBERS {
            check_around(&rt, divisor, number);
        }
        let mut number = 0u64;
        for _ in 0..1000 {
            number = number
                .wrapping_mul(6364136223846793005)
                .wrapping_add(1442695040888963407);
            check_around(&rt, divisor, number);
        }
    }
    Ok(())
}
