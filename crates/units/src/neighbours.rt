// The neighbours of a number: the greatest number of the format below it, and the least above it; and whether two numbers lie within
// one step of each other.
ghost use Rattle.std.specs.Prelude.{◌≡◌, suc, ◌-◌, ◌≤◌, leb};
ghost use Rattle.theory.specs.Neighbours.{lower, upper};
ghost use Rattle.format.specs.Given.{given};
ghost use Rattle.number.specs.Checks.{Operand, Operands};
ghost use Rattle.number.specs.Numbers.{magnitude, value, delivered};
ghost use Rattle.units.specs.Neighbours.{predecessor_of, successor_of, within_step, within_one_step};

use format::{Format, Prepared, Refusal};
use number::Number;
use number::checks::{enter, enter_two};
use number::delivery::deliver;
use number::exponents::place_of;

// The next greater magnitude, with the sign `negative`. Refuses 5 above the greatest number.
fn away(prepared: Prepared, x: Number, negative: bool) -> Result<Number, Refusal>
    requires { Operand prepared x }
    ensures { given result ≡ delivered prepared.format negative (upper prepared.format.base prepared.format.digits (suc (magnitude prepared.format x))) }
{
    let place = place_of(prepared, x);
    let next = x.significand + 1;
    if next == prepared.scale.bound {
        return deliver(prepared, negative, prepared.scale.least, place + 1);
    }
    deliver(prepared, negative, next, place)
}

// The next smaller magnitude, with the sign `negative`. Below a power of the base the step is the smaller one.
fn toward(prepared: Prepared, x: Number, negative: bool) -> Result<Number, Refusal>
    requires { Operand prepared x × (1 ≤ x.significand) }
    ensures { given result ≡ delivered prepared.format negative (lower prepared.format.base prepared.format.digits (magnitude prepared.format x - 1)) }
{
    let place = place_of(prepared, x);
    let m = x.significand;
    if place == 0 {
        return deliver(prepared, negative, m - 1, place);
    }
    if m == prepared.scale.least {
        return deliver(prepared, negative, prepared.scale.bound - 1, place - 1);
    }
    deliver(prepared, negative, m - 1, place)
}

// The greatest number of the format below x. Refuses 1, 3, 5.
pub fn predecessor(format: Format, x: Number) -> Result<Number, Refusal>
    ensures { given result ≡ predecessor_of format x }
{
    let prepared = enter(format, x)?;
    if x.negative {
        return away(prepared, x, true);
    }
    if x.significand == 0 {
        return away(prepared, x, true);
    }
    toward(prepared, x, false)
}

// The least number of the format above x. Refuses 1, 3, 5.
pub fn successor(format: Format, x: Number) -> Result<Number, Refusal>
    ensures { given result ≡ successor_of format x }
{
    let prepared = enter(format, x)?;
    if x.significand == 0 {
        return away(prepared, x, false);
    }
    if x.negative {
        return toward(prepared, x, true);
    }
    away(prepared, x, false)
}

// Is |y| at most the next greater magnitude than |x|? From the last number below a power of the base to that power it is the step
// below the power.
fn reaches(prepared: Prepared, x: Number, y: Number) -> bool
    requires { Operands prepared x y }
    ensures { result ≡ leb (magnitude prepared.format y) (upper prepared.format.base prepared.format.digits (suc (magnitude prepared.format x))) }
{
    let from = place_of(prepared, x);
    let to = place_of(prepared, y);
    let m = x.significand;
    let n = y.significand;
    if to < from {
        return true;
    }
    if to == from {
        return n <= m + 1;
    }
    if from + 1 < to {
        return false;
    }
    (n <= prepared.scale.least) & (prepared.scale.bound - m <= 1)
}

// Are a and b within one step, in a format that was prepared? Across zero, one of the two is zero and the other at most the least number.
fn is_within_one_step(prepared: Prepared, a: Number, b: Number) -> bool
    requires { Operands prepared a b }
    ensures { result ≡ within_step prepared.format.base prepared.format.digits (value prepared.format a) (value prepared.format b) }
{
    if a.negative == b.negative {
        return reaches(prepared, a, b) & reaches(prepared, b, a);
    }
    let m = a.significand;
    let n = b.significand;
    (place_of(prepared, a) == 0) & (place_of(prepared, b) == 0) & (m + n <= 1)
}

// Is b the value of a, or a neighbour of it in the format? Refuses 1, 3.
pub fn within_one_step(format: Format, a: Number, b: Number) -> Result<bool, Refusal>
    ensures { given result ≡ within_one_step format a b }
{
    let prepared = enter_two(format, a, b)?;
    Ok(is_within_one_step(prepared, a, b))
}
