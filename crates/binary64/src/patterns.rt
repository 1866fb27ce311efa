// A pattern read as a number of published format 4, and a number written as a pattern. The steps are those of binary32 at other widths: a
// trait of both would ask each for its field, fraction, sign, weights and prepared format, and so be longer than the steps.
ghost use Rattle.std.specs.Prelude.{◌≡◌, true, cond, ◌+◌, ◌-◌, ◌<◌, ◌^◌, eqb};
ghost use Rattle.format.specs.Given.{given};
ghost use Rattle.format.specs.Published.{binary64};
ghost use Rattle.number.specs.Numbers.{member};
ghost use Rattle.number.specs.Patterns.{weight_above};
ghost use Rattle.binary_patterns.specs.Patterns.{field_of, finite, number_read, pattern_of};
ghost use Rattle.binary64.specs.Patterns.{binary64_read, binary64_written};

use crate::prepared::prepared_binary64;
use format::admission::distance;
use format::{Refusal, Significand};
use number::Number;
use number::checks::with_number;
use number::delivery::number_at;

// Eleven bits of the exponent.
fn field_of(pattern: u64) -> u32
    ensures { result ≡ field_of 11 52 pattern }
{
    (pattern / 4503599627370496 % 2048) as u32
}

// Neither an infinity nor NaN.
fn is_finite(pattern: u64) -> bool
    ensures { result ≡ finite 11 52 pattern }
{
    field_of(pattern) != 2047
}

// The fraction, with its leading digit unless the field is 0.
fn significand_of(field: u32, fraction: Significand) -> Significand
    requires { fraction < 2 ^ 52 }
    ensures { result ≡ cond (eqb field 0) fraction (2 ^ 52 + fraction) }
{
    let leading = 4503599627370496 + fraction;
    if field == 0 { fraction } else { leading }
}

// The number that a finite pattern stands for. The fields 0 and 1 both stand for the lowest place.
fn read_finite(pattern: u64) -> Number
    requires { finite 11 52 pattern ≡ true }
    ensures { result ≡ number_read 11 52 pattern }
{
    let field = field_of(pattern);
    let significand = significand_of(field, pattern % 4503599627370496);
    let negative = 9223372036854775808 <= pattern;
    let place = field.saturating_sub(1);
    number_at(prepared_binary64(), negative, significand, place)
}

// The number that a pattern stands for. Refuses 9.
pub fn read_binary64(pattern: u64) -> Result<Number, Refusal>
    ensures { given result ≡ binary64_read pattern }
{
    if !is_finite(pattern) {
        return Err(Refusal::NotFinite);
    }
    Ok(read_finite(pattern))
}

// The sign bit, the highest.
fn sign_weight(negative: bool) -> u64
    ensures { result ≡ weight_above 63 negative }
{
    if negative { 9223372036854775808 } else { 0 }
}

// The pattern of a number of the format: the significand's leading digit adds one to the field.
fn pattern_of(x: Number) -> u64
    requires { member binary64 x ≡ true }
    ensures { result ≡ pattern_of 11 52 x }
{
    let place = distance(-1074, x.exponent) as u64;
    sign_weight(x.negative) + place * 4503599627370496 + x.significand
}

// The pattern of a number. Refuses 3.
pub fn write_binary64(x: Number) -> Result<u64, Refusal>
    ensures { given result ≡ binary64_written x }
{
    with_number(Ok(prepared_binary64()), x)?;
    Ok(pattern_of(x))
}
