// Is a + b at most c + d? Rounding is monotone, so where the sums rounded to nearest differ they decide. Where they are equal what they
// leave decides, which is in the format: two further steps find it without an error.
ghost use Rattle.std.specs.Prelude.{◌≡◌, ◌≤◌, ◌+ℤ◌, nat_abs};
ghost use Rattle.std.specs.Int.Signed.{le_z};
ghost use Rattle.wide.specs.Operand.{value_of};
ghost use Rattle.binary32.specs.Patterns.{pattern_value};
ghost use Rattle.exact_sums.specs.Numbers.{Placed, Nearest, Marked, RestOf};

use crate::numbers::{is_below, negated, read_wide, rounded_sum};
use rounding::{Rounding, Wide};
use theory::Mark;

// a + b - x, where x is a + b rounded to nearest, and b is not greater than a in magnitude.
fn rest_ordered(a: Wide, b: Wide, x: Wide) -> Wide
    requires { Placed 254 a × Placed 254 b × (nat_abs (value_of 2 b) ≤ nat_abs (value_of 2 a)) × Nearest 255 (value_of 2 a +ℤ value_of 2 b) x }
    ensures { RestOf (value_of 2 a +ℤ value_of 2 b) x result }
{
    let z = rounded_sum(x, negated(a));
    rounded_sum(b, negated(z.wide)).wide
}

// a + b - x: nothing where the mark says exact, else from the one that is greater in magnitude.
fn rest(a: u32, b: u32, x: Rounding) -> Wide
    requires { Marked 255 (pattern_value a +ℤ pattern_value b) x }
    ensures { RestOf (pattern_value a +ℤ pattern_value b) x.wide result }
{
    if x.mark == Mark::Exact {
        return Wide {
            negative: false,
            significand: 0,
            place: 0,
        };
    }
    if a % 2147483648 < b % 2147483648 {
        return rest_ordered(read_wide(b), read_wide(a), x.wide);
    }
    rest_ordered(read_wide(a), read_wide(b), x.wide)
}

// Is a + b at most c + d?
pub fn sums_upto(a: u32, b: u32, c: u32, d: u32) -> bool
    ensures { result ≡ le_z (pattern_value a +ℤ pattern_value b) (pattern_value c +ℤ pattern_value d) }
{
    let x = rounded_sum(read_wide(a), read_wide(b));
    let y = rounded_sum(read_wide(c), read_wide(d));
    if is_below(x.wide, y.wide) {
        return true;
    }
    if is_below(y.wide, x.wide) {
        return false;
    }
    let left = rest(a, b, x);
    let right = rest(c, d, y);
    !is_below(right, left)
}
