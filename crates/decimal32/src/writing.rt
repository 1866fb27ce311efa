// A number of published format 3 written as a pattern.
ghost use Rattle.std.specs.Prelude.{◌≡◌, true, ◌<◌, ◌≤◌, ◌^◌};
ghost use Rattle.format.specs.Given.{given};
ghost use Rattle.format.specs.Published.{decimal32};
ghost use Rattle.number.specs.Numbers.{member};
ghost use Rattle.decimal32.specs.Patterns.{five_for, pattern_at, pattern_of, decimal32_written};

use crate::declets::declet_for;
use crate::prepared::prepared_decimal32;
use format::Refusal;
use format::admission::distance;
use number::Number;
use number::checks::with_number;
use number::patterns::sign_weight;

// The first five bits of the combination field.
fn five_for(high: u32, digit: u32) -> u32
    requires { (high < 3) × (digit < 10) }
    ensures { result ≡ five_for high digit }
{
    if digit < 8 {
        high * 8 + digit
    } else {
        24 + high * 2 + (digit - 8)
    }
}

// The pattern with this sign, coefficient and biased exponent.
fn pattern_at(negative: bool, m: u32, k: u32) -> u32
    requires { (m < 10 ^ 7) × (k ≤ 191) }
    ensures { result ≡ pattern_at negative m k }
{
    let five = five_for(k / 64, m / 1000000);
    let first = declet_for(m / 1000 % 1000);
    let second = declet_for(m % 1000);
    sign_weight(negative) + five * 67108864 + k % 64 * 1048576 + first * 1024 + second
}

// The pattern of a number of the format.
fn pattern_of(x: Number) -> u32
    requires { member decimal32 x ≡ true }
    ensures { result ≡ pattern_of x }
{
    let place = distance(-101, x.exponent);
    let significand = x.significand as u32;
    pattern_at(x.negative, significand, place)
}

// The pattern of a number. Refuses 3.
pub fn write_decimal32(x: Number) -> Result<u32, Refusal>
    ensures { given result ≡ decimal32_written x }
{
    with_number(Ok(prepared_decimal32()), x)?;
    Ok(pattern_of(x))
}
