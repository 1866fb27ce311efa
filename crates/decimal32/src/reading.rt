// A pattern read as a number of published format 3.
ghost use Rattle.std.specs.Prelude.{◌≡◌, true, ◌<◌, ◌^◌};
ghost use Rattle.format.specs.Given.{given};
ghost use Rattle.decimal32.specs.Patterns.{five_of, leading_digit, high_bits, finite, biased_of, coefficient_of, number_read, decimal32_read};
ghost use Rattle.decimal32.specs.Placed.{AllDigits};

use crate::Placed;
use crate::declets::six_digits;
use crate::prepared::prepared_decimal32;
use format::{Refusal, Significand};
use number::Number;
use number::delivery::number_at;

// The first five bits of the combination field.
fn five_of(pattern: u32) -> u32
    ensures { result ≡ five_of pattern }
{
    pattern / 67108864 % 32
}

// The first of the seven digits.
fn leading_digit(five: u32) -> u32
    ensures { result ≡ leading_digit five }
{
    if 24 <= five { 8 + five % 2 } else { five % 8 }
}

// The exponent's two highest bits.
fn high_bits(five: u32) -> u32
    ensures { result ≡ high_bits five }
{
    if 24 <= five { five / 2 % 4 } else { five / 8 }
}

// The biased exponent: the place of the coefficient's last digit.
fn biased_of(pattern: u32) -> u32
    ensures { result ≡ biased_of pattern }
{
    high_bits(five_of(pattern)) * 64 + pattern / 1048576 % 64
}

// The coefficient: the leading digit and two declets.
fn coefficient_of(pattern: u32) -> u32
    ensures { result ≡ coefficient_of pattern }
{
    let leading = leading_digit(five_of(pattern));
    let trailing = six_digits(pattern / 1024 % 1024, pattern % 1024);
    leading * 1000000 + trailing
}

// The same value with all seven digits, or at place 0. Zero is at place 0. The loop stays: a chain would have to hand on two values that
// change together, and say twice where it ends.
fn with_all_digits(coefficient: u32, place: u32) -> Placed
    requires { coefficient < 10 ^ 7 }
    ensures { AllDigits coefficient place result }
{
    if coefficient == 0 {
        return Placed {
            significand: 0,
            place: 0,
        };
    }
    let mut m = coefficient;
    let mut k = place;
    while (m < 1000000) & (0 < k) {
        m *= 10;
        k -= 1;
    }
    Placed {
        significand: m,
        place: k,
    }
}

// Neither an infinity nor NaN.
fn is_finite(pattern: u32) -> bool
    ensures { result ≡ finite pattern }
{
    five_of(pattern) < 30
}

// The number that a finite pattern stands for.
fn read_finite(pattern: u32) -> Number
    requires { finite pattern ≡ true }
    ensures { result ≡ number_read pattern }
{
    let coefficient = coefficient_of(pattern);
    let negative = 2147483648 <= pattern;
    let digits = with_all_digits(coefficient, biased_of(pattern));
    number_at(
        prepared_decimal32(),
        negative,
        digits.significand as Significand,
        digits.place,
    )
}

// The number that a pattern stands for. Refuses 9.
pub fn read_decimal32(pattern: u32) -> Result<Number, Refusal>
    ensures { given result ≡ decimal32_read pattern }
{
    if !is_finite(pattern) {
        return Err(Refusal::NotFinite);
    }
    Ok(read_finite(pattern))
}
