// Numbers of the wide format with 24 binary digits, in units of 2 ^ -149: read from a pattern, added and compared.
ghost use Rattle.std.specs.Prelude.{◌≡◌};
ghost use Rattle.std.specs.Int.Signed.{lt_z};
ghost use Rattle.wide.specs.Operand.{value_of};
ghost use Rattle.binary32.specs.Patterns.{pattern_value};
ghost use Rattle.exact_sums.specs.Numbers.{Placed, Holds, SumOf, turned, rank_of};

use binary32::patterns::{field_of, place_of, significand_of};
use binary32::prepared::prepared_binary32;
use rounding::{Rounding, Wide};
use theory::Direction;

// The number of a pattern; an infinity or NaN reads as a number with the greatest field.
pub(crate) fn read_wide(pattern: u32) -> Wide
    ensures { Holds 254 (pattern_value pattern) result }
{
    let field = field_of(pattern);
    Wide {
        negative: 2147483648 <= pattern,
        significand: significand_of(field, pattern % 8388608),
        place: place_of(field),
    }
}

// x + y, rounded to nearest, with its mark. The bound on the place is a premise and not a type's: each sum has one more, and a type with 300
// would be made anew of each.
pub(crate) fn rounded_sum(x: Wide, y: Wide) -> Rounding
    requires { Placed 300 x × Placed 300 y }
    ensures { SumOf x y result }
{
    let prepared = prepared_binary32();
    wide::sum::sum(prepared.scale, Direction::NearestEven, x, y)
}

// -x; a zero turns its sign too.
pub(crate) fn negated(x: Wide) -> Wide
    ensures { result ≡ turned x }
{
    Wide {
        negative: !x.negative,
        ..x
    }
}

// A whole number that is in the order of the values: 2 ^ 33 plus or minus the place and the significand side by side.
fn rank(x: Wide) -> u64
    requires { Placed 300 x }
    ensures { result ≡ rank_of x }
{
    let size = x.place as u64 * 16777216 + x.significand;
    if x.negative {
        return 8589934592 - size;
    }
    8589934592 + size
}

// Is x below y?
pub(crate) fn is_below(x: Wide, y: Wide) -> bool
    requires { Placed 300 x × Placed 300 y }
    ensures { result ≡ lt_z (value_of 2 x) (value_of 2 y) }
{
    rank(x) < rank(y)
}
