// The quotient, and how many of its digits were worked out.
ghost use Rattle.std.specs.Prelude.{◌≡◌};
ghost use Rattle.format.specs.Given.{given};
ghost use Rattle.number.specs.Checks.{Operands};
ghost use Rattle.arithmetic.specs.Operands.{quotient_powers};
ghost use Rattle.arithmetic.specs.Marked.{marked_quotient};
ghost use Rattle.arithmetic.specs.Quotients.{counted_quotient, quotient_answer};

use crate::operands::{Powers, deliver_wide};
use crate::{CountedQuotient, Rounded};
use format::admission::prepare;
use format::{Format, Prepared, Refusal};
use number::Number;
use number::checks::with_number;
use number::exponents::{above_zero, below_zero, place_of};
use theory::Direction;

// The powers beside the quotient of the significands.
fn quotient_powers(prepared: Prepared, a: Number, b: Number) -> Powers
    requires { Operands prepared a b }
    ensures { result ≡ quotient_powers prepared.format a b }
{
    let emin = prepared.format.emin;
    Powers {
        up: place_of(prepared, a) + below_zero(emin),
        down: place_of(prepared, b) + above_zero(emin),
    }
}

// a / b, in a format that was prepared. Refuses 4, 5.
fn counted_quotient(
    prepared: Prepared,
    direction: Direction,
    a: Number,
    b: Number,
) -> Result<CountedQuotient, Refusal>
    requires { Operands prepared a b }
    ensures { given result ≡ counted_quotient prepared.format direction a b }
{
    if b.significand == 0 {
        return Err(Refusal::DivisorZero);
    }
    let scale = prepared.scale;
    let negative = a.negative != b.negative;
    let w = quotient_powers(prepared, a, b);
    let counted = wide::quotient::quotient(
        scale,
        direction,
        negative,
        a.significand,
        b.significand,
        w.up,
        w.down,
    );
    let digits = counted.digits;
    let rounded = deliver_wide(prepared, counted.rounding)?;
    Ok(CountedQuotient {
        number: rounded.number,
        mark: rounded.mark,
        digits,
    })
}

// The same without the digits, for the calls on patterns. It calls the wide quotient itself, as `multiply` the wide product.
pub fn divide(
    prepared: Prepared,
    direction: Direction,
    a: Number,
    b: Number,
) -> Result<Rounded, Refusal>
    requires { Operands prepared a b }
    ensures { given result ≡ marked_quotient prepared.format direction a b }
{
    let divisor = b.significand;
    if divisor == 0 {
        return Err(Refusal::DivisorZero);
    }
    let scale = prepared.scale;
    let negative = a.negative != b.negative;
    let w = quotient_powers(prepared, a, b);
    let counted = wide::quotient::quotient(
        scale,
        direction,
        negative,
        a.significand,
        divisor,
        w.up,
        w.down,
    );
    let rounding = counted.rounding;
    deliver_wide(prepared, rounding)
}

// a / b. Refuses 1, 2, 3, 4, 5.
pub fn quotient(
    format: Format,
    direction: u32,
    a: Number,
    b: Number,
) -> Result<CountedQuotient, Refusal>
    ensures { given result ≡ quotient_answer format direction a b }
{
    let prepared = prepare(format)?;
    let direction = Direction::try_from(direction)?;
    let prepared = with_number(with_number(Ok(prepared), b), a)?;
    counted_quotient(prepared, direction, a, b)
}
