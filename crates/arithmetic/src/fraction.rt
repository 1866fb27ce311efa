// A fraction of whole numbers.
ghost use Rattle.std.specs.Prelude.{◌≡◌, nat_abs};
ghost use Rattle.theory.specs.Signed.{is_negative};
ghost use Rattle.format.specs.Given.{given};
ghost use Rattle.number.specs.Checks.{Usable};
ghost use Rattle.arithmetic.specs.Marked.{marked_fraction, fraction_answer};

use crate::Rounded;
use crate::operands::deliver_wide;
use format::admission::prepare;
use format::{Format, Prepared, Refusal};
use number::exponents::{above_zero, below_zero};
use theory::Direction;

// |n|, which is 2^31 for the least n.
pub fn size(n: i32) -> u32
    ensures { result ≡ nat_abs n }
{
    n.unsigned_abs()
}

// Is n below zero?
fn is_below_zero(n: i32) -> bool
    ensures { result ≡ is_negative n }
{
    n.is_negative()
}

// numerator / denominator, in a format that was prepared. Refuses 4, 5.
fn divide_whole(
    prepared: Prepared,
    direction: Direction,
    numerator: i32,
    denominator: u32,
) -> Result<Rounded, Refusal>
    requires { Usable prepared }
    ensures { given result ≡ marked_fraction prepared.format direction numerator denominator }
{
    if denominator == 0 {
        return Err(Refusal::DivisorZero);
    }
    let scale = prepared.scale;
    let up = below_zero(prepared.format.emin);
    let down = above_zero(prepared.format.emin);
    let negative = is_below_zero(numerator);
    let n = size(numerator);
    deliver_wide(
        prepared,
        wide::long_division::fraction(scale, direction, negative, n, denominator, up, down),
    )
}

// numerator / denominator. Refuses 1, 2, 4, 5.
pub fn fraction(
    format: Format,
    direction: u32,
    numerator: i32,
    denominator: u32,
) -> Result<Rounded, Refusal>
    ensures { given result ≡ fraction_answer format direction numerator denominator }
{
    let prepared = prepare(format)?;
    let direction = Direction::try_from(direction)?;
    divide_whole(prepared, direction, numerator, denominator)
}
