// The sum and the difference.
ghost use Rattle.std.specs.Prelude.{◌≡◌, cond};
ghost use Rattle.format.specs.Given.{given};
ghost use Rattle.number.specs.Checks.{Operands};
ghost use Rattle.arithmetic.specs.Operations.{rounded_sum, rounded_difference, zero_sign};
ghost use Rattle.arithmetic.specs.Operands.{zero_signed};
ghost use Rattle.arithmetic.specs.Marked.{marked_sum, marked_difference, sum_answer, difference_answer};

use crate::Rounded;
use crate::operands::{deliver_wide, unmarked};
use format::admission::{distance, prepare};
use format::{Format, Prepared, Refusal};
use number::Number;
use number::checks::with_number;
use number::exponents::place_of;
use number::signs::with_sign;
use rounding::{Rounding, Wide};
use theory::Direction;
use wide::sum::aligned_sum;

// One of two numbers, selected field by field: which of them has the higher exponent is not predictable.
fn select(test: bool, yes: Number, no: Number) -> Number
    ensures { result ≡ cond test yes no }
{
    let negative = if test { yes.negative } else { no.negative };
    let significand = if test {
        yes.significand
    } else {
        no.significand
    };
    let exponent = if test { yes.exponent } else { no.exponent };
    Number {
        negative,
        significand,
        exponent,
    }
}

// The sign of an exact zero sum of numbers with these signs.
fn zero_sign(direction: Direction, a: bool, b: bool) -> bool
    ensures { result ≡ zero_sign direction a b }
{
    if a == b {
        return a;
    }
    direction == Direction::Downward
}

// a + b, in a format that was prepared. The alignment distance is the difference of the two exponents. Refuses 5.
pub fn marked_sum(
    prepared: Prepared,
    direction: Direction,
    a: Number,
    b: Number,
) -> Result<Rounded, Refusal>
    requires { Operands prepared a b }
    ensures { given result ≡ marked_sum prepared.format direction a b }
{
    let turned = a.exponent < b.exponent;
    let high = select(turned, b, a);
    let low = select(turned, a, b);
    let gap = distance(low.exponent, high.exponent);
    let place = place_of(prepared, low);
    let scale = prepared.scale;
    let sum = aligned_sum(
        scale,
        direction,
        high.negative,
        high.significand,
        low.negative,
        low.significand,
        place,
        gap,
    );
    let wide = sum.wide;
    let mark = sum.mark;
    if wide.significand == 0 {
        let zero = Wide {
            negative: zero_sign(direction, a.negative, b.negative),
            significand: 0,
            place: 0,
        };
        return deliver_wide(prepared, Rounding { wide: zero, mark });
    }
    deliver_wide(prepared, sum)
}

// a - b, in a format that was prepared. Refuses 5. As a function that is called it costs a difference 78 instructions more.
#[inline(always)]
pub fn marked_difference(
    prepared: Prepared,
    direction: Direction,
    a: Number,
    b: Number,
) -> Result<Rounded, Refusal>
    requires { Operands prepared a b }
    ensures { given result ≡ marked_difference prepared.format direction a b }
{
    marked_sum(prepared, direction, a, with_sign(b, !b.negative))
}

// The same without their marks, for the three-step sum, its check and the routes.
pub fn add(
    prepared: Prepared,
    direction: Direction,
    a: Number,
    b: Number,
) -> Result<Number, Refusal>
    requires { Operands prepared a b }
    ensures { given result ≡ rounded_sum prepared.format direction a b }
{
    unmarked(marked_sum(prepared, direction, a, b))
}

pub fn subtract(
    prepared: Prepared,
    direction: Direction,
    a: Number,
    b: Number,
) -> Result<Number, Refusal>
    requires { Operands prepared a b }
    ensures { given result ≡ rounded_difference prepared.format direction a b }
{
    unmarked(marked_difference(prepared, direction, a, b))
}

// a + b. Refuses 1, 2, 3, 5.
pub fn sum(format: Format, direction: u32, a: Number, b: Number) -> Result<Rounded, Refusal>
    ensures { given result ≡ sum_answer format direction a b }
{
    let prepared = prepare(format)?;
    let direction = Direction::try_from(direction)?;
    let prepared = with_number(with_number(Ok(prepared), b), a)?;
    marked_sum(prepared, direction, a, b)
}

// a - b. Refuses 1, 2, 3, 5.
pub fn difference(format: Format, direction: u32, a: Number, b: Number) -> Result<Rounded, Refusal>
    ensures { given result ≡ difference_answer format direction a b }
{
    let prepared = prepare(format)?;
    let direction = Direction::try_from(direction)?;
    let prepared = with_number(with_number(Ok(prepared), b), a)?;
    marked_difference(prepared, direction, a, b)
}
