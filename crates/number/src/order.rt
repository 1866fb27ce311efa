// The order of numbers by their exact values.
ghost use Rattle.std.specs.Prelude.{◌≡◌, true};
ghost use Rattle.format.specs.Formats.{admitted};
ghost use Rattle.number.specs.Numbers.{equal_z, member, magnitude, value};
ghost use Rattle.format.specs.Given.{given};
ghost use Rattle.number.specs.Order.{order_n, order_z, compared};

use crate::Number;
use crate::checks::enter_two;
use format::{Format, Refusal};
use std::cmp::Ordering;

// By magnitude: first the exponents, then the significands.
pub fn compare_magnitudes(format: Format, a: Number, b: Number) -> Ordering
    requires { (admitted format ≡ true) × (member format a ≡ true) × (member format b ≡ true) }
    ensures { result ≡ order_n (magnitude format a) (magnitude format b) }
{
    let ea = a.exponent;
    let eb = b.exponent;
    if ea < eb {
        return Ordering::Less;
    }
    if eb < ea {
        return Ordering::Greater;
    }
    let ma = a.significand;
    let mb = b.significand;
    if ma < mb {
        return Ordering::Less;
    }
    if mb < ma {
        return Ordering::Greater;
    }
    Ordering::Equal
}

// By value: the zeros are equal, and else a negative number comes before one that is not.
fn compare_values(format: Format, a: Number, b: Number) -> Ordering
    requires { (admitted format ≡ true) × (member format a ≡ true) × (member format b ≡ true) }
    ensures { result ≡ order_z (value format a) (value format b) }
{
    let zeros = (a.significand == 0) & (b.significand == 0);
    if zeros {
        return Ordering::Equal;
    }
    if a.negative {
        if b.negative {
            return compare_magnitudes(format, b, a);
        }
        return Ordering::Less;
    }
    if b.negative {
        return Ordering::Greater;
    }
    compare_magnitudes(format, a, b)
}

// Have a and b one value?
pub fn same_value(format: Format, a: Number, b: Number) -> bool
    requires { (admitted format ≡ true) × (member format a ≡ true) × (member format b ≡ true) }
    ensures { result ≡ equal_z (value format a) (value format b) }
{
    compare_values(format, a, b) == Ordering::Equal
}

// Which of two numbers is the greater? Refuses 1, 3.
pub fn compare(format: Format, a: Number, b: Number) -> Result<Ordering, Refusal>
    ensures { given result ≡ compared format a b }
{
    enter_two(format, a, b)?;
    Ok(compare_values(format, a, b))
}
