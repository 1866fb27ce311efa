// The refusals that the sum and its check share: the format is not binary, or the first number is smaller than the second.
ghost use Rattle.std.specs.Prelude.{◌≡◌, true};
ghost use Rattle.format.specs.Formats.{admitted};
ghost use Rattle.format.specs.Given.{gives, given};
ghost use Rattle.number.specs.Numbers.{member};
ghost use Rattle.fast_two_sum.specs.Calls.{order_checked};

use format::{Format, Refusal};
use number::Number;
use number::order::compare_magnitudes;
use std::cmp::Ordering;

// Refuses 6, 7.
pub fn check_order(format: Format, a: Number, b: Number) -> Result<(), Refusal>
    requires { (admitted format ≡ true) × (member format a ≡ true) × (member format b ≡ true) }
    ensures { given result ≡ order_checked format a b (gives tt) }
{
    if format.base != 2 {
        return Err(Refusal::NotBinary);
    }
    if format.digits < 2 {
        return Err(Refusal::NotBinary);
    }
    if compare_magnitudes(format, a, b) == Ordering::Less {
        return Err(Refusal::SmallerFirst);
    }
    Ok(())
}
