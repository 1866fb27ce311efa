// The product.
ghost use Rattle.std.specs.Prelude.{◌≡◌};
ghost use Rattle.format.specs.Given.{given};
ghost use Rattle.number.specs.Checks.{Operands};
ghost use Rattle.arithmetic.specs.Operands.{product_powers};
ghost use Rattle.arithmetic.specs.Marked.{marked_product, product_answer};

use crate::Rounded;
use crate::operands::{Powers, deliver_wide};
use format::admission::prepare;
use format::{Format, Prepared, Refusal};
use number::Number;
use number::checks::with_number;
use number::exponents::{above_zero, below_zero, place_of};
use theory::Direction;

// The powers beside the product of the significands.
fn product_powers(prepared: Prepared, a: Number, b: Number) -> Powers
    requires { Operands prepared a b }
    ensures { result ≡ product_powers prepared.format a b }
{
    let emin = prepared.format.emin;
    Powers {
        up: place_of(prepared, a) + place_of(prepared, b) + above_zero(emin),
        down: below_zero(emin),
    }
}

// a * b, in a format that was prepared. Refuses 5.
fn marked_product(
    prepared: Prepared,
    direction: Direction,
    a: Number,
    b: Number,
) -> Result<Rounded, Refusal>
    requires { Operands prepared a b }
    ensures { given result ≡ marked_product prepared.format direction a b }
{
    let scale = prepared.scale;
    let negative = a.negative != b.negative;
    let w = product_powers(prepared, a, b);
    let rounding = wide::product::product(
        scale,
        direction,
        negative,
        a.significand,
        b.significand,
        w.up,
        w.down,
    );
    deliver_wide(prepared, rounding)
}

// The same for the calls on patterns and the routes. It calls the wide product itself: a function with two callers stays one, and what
// calls it is inlined.
pub fn multiply(
    prepared: Prepared,
    direction: Direction,
    a: Number,
    b: Number,
) -> Result<Rounded, Refusal>
    requires { Operands prepared a b }
    ensures { given result ≡ marked_product prepared.format direction a b }
{
    let scale = prepared.scale;
    let negative = a.negative != b.negative;
    let w = product_powers(prepared, a, b);
    let rounding = wide::product::product(
        scale,
        direction,
        negative,
        a.significand,
        b.significand,
        w.up,
        w.down,
    );
    deliver_wide(prepared, rounding)
}

// a * b. Refuses 1, 2, 3, 5.
pub fn product(format: Format, direction: u32, a: Number, b: Number) -> Result<Rounded, Refusal>
    ensures { given result ≡ product_answer format direction a b }
{
    let prepared = prepare(format)?;
    let direction = Direction::try_from(direction)?;
    let prepared = with_number(with_number(Ok(prepared), b), a)?;
    marked_product(prepared, direction, a, b)
}
