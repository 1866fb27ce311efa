// A pattern read as a number of published format 2, and a number written as a pattern.
ghost use Rattle.std.specs.Prelude.{◌≡◌, true, cond, ◌+◌, ◌-◌, ◌<◌, ◌^◌, eqb, Ok};
ghost use Rattle.format.specs.Given.{given};
ghost use Rattle.format.specs.Published.{binary32};
ghost use Rattle.number.specs.declared.Number.{Number};
ghost use Rattle.number.specs.Numbers.{member};
ghost use Rattle.binary32.specs.Patterns.{field_of, finite, number_read, pattern_read, pattern_of, pattern_written, answer_written};

use crate::finite::is_finite;
use crate::prepared::prepared_binary32;
use format::admission::distance;
use format::{Refusal, Significand};
use number::Number;
use number::checks::with_number;
use number::delivery::number_at;
use number::patterns::sign_weight;

// Eight bits of the exponent.
pub fn field_of(pattern: u32) -> u32
    ensures { result ≡ field_of pattern }
{
    pattern / 8388608 % 256
}

// The place that a field stands for: 0 and 1 both stand for the lowest.
pub fn place_of(field: u32) -> u32
    ensures { result ≡ field - 1 }
{
    field.saturating_sub(1)
}

// The fraction, with its leading digit unless the field is 0.
pub fn significand_of(field: u32, fraction: u32) -> Significand
    requires { fraction < 2 ^ 23 }
    ensures { result ≡ cond (eqb field 0) fraction (2 ^ 23 + fraction) }
{
    let digits = fraction as Significand;
    let leading = 8388608 + digits;
    if field == 0 { digits } else { leading }
}

// The number that a finite pattern stands for. It takes any pattern, with its condition, as docs/CLAIMS.md lists it.
pub fn read_finite(pattern: u32) -> Number
    requires { finite pattern ≡ true }
    ensures { result ≡ number_read pattern }
{
    let field = field_of(pattern);
    let significand = significand_of(field, pattern % 8388608);
    let negative = 2147483648 <= pattern;
    number_at(prepared_binary32(), negative, significand, place_of(field))
}

// The number that a pattern stands for. Refuses 9.
pub fn read_pattern(pattern: u32) -> Result<Number, Refusal>
    ensures { given result ≡ pattern_read pattern }
{
    if !is_finite(pattern) {
        return Err(Refusal::NotFinite);
    }
    Ok(read_finite(pattern))
}

// The pattern of a number of the format: the significand's leading digit adds one to the field.
pub fn pattern_of(x: Number) -> u32
    requires { member binary32 x ≡ true }
    ensures { result ≡ pattern_of x }
{
    let place = distance(-149, x.exponent);
    let significand = x.significand as u32;
    sign_weight(x.negative) + place * 8388608 + significand
}

// The pattern of a number. Refuses 3.
pub fn write_pattern(x: Number) -> Result<u32, Refusal>
    ensures { given result ≡ pattern_written x }
{
    with_number(Ok(prepared_binary32()), x)?;
    Ok(pattern_of(x))
}

// An answer with its number written.
pub fn write_answer(answer: Result<Number, Refusal>) -> Result<u32, Refusal>
    requires { (x : Number) → answer ≡ Ok x → member binary32 x ≡ true }
    ensures { given result ≡ answer_written (given answer) }
{
    Ok(pattern_of(answer?))
}
