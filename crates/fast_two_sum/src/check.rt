// The check: each of three numbers is faithful to its step exactly when it equals the step rounded down or rounded up.
ghost use Rattle.std.specs.Prelude.{◌≡◌, true, [], ◌∷◌, ◌+ℤ◌, ◌-ℤ◌};
ghost use Rattle.format.specs.Formats.{admitted};
ghost use Rattle.format.specs.Given.{gives, given};
ghost use Rattle.number.specs.Numbers.{member, value};
ghost use Rattle.number.specs.Checks.{Operand, Operands, entered};
ghost use Rattle.fast_two_sum.specs.Checks.{is_result, is_faithful, is_triple, checked_triple};

use crate::entry::check_order;
use arithmetic::sum::add;
use format::{Format, Prepared, Refusal};
use number::Number;
use number::checks::{enter_two, with_number};
use number::order::same_value;
use number::signs::with_sign;
use theory::Direction;

// Has x the value that a step gave? A step that is too large gave none.
fn is_result(format: Format, step: Result<Number, Refusal>, x: Number) -> bool
    requires { (admitted format ≡ true) × (member format x ≡ true) × ((r : Number) → given step ≡ gives r → member format r ≡ true) }
    ensures { result ≡ is_result format (given step) x }
{
    match step {
        Err(_) => false,
        Ok(r) => same_value(format, x, r),
    }
}

// Is x faithful to a + b?
fn is_faithful_sum(prepared: Prepared, a: Number, b: Number, x: Number) -> bool
    requires { Operands prepared a b × Operand prepared x }
    ensures { result ≡ is_faithful prepared.format (value prepared.format a +ℤ value prepared.format b) (value prepared.format x) }
{
    let down = add(prepared, Direction::Downward, a, b);
    if is_result(prepared.format, down, x) {
        return true;
    }
    let up = add(prepared, Direction::Upward, a, b);
    is_result(prepared.format, up, x)
}

// Is x faithful to a - b, the sum of a and -b?
fn is_faithful_difference(prepared: Prepared, a: Number, b: Number, x: Number) -> bool
    requires { Operands prepared a b × Operand prepared x }
    ensures { result ≡ is_faithful prepared.format (value prepared.format a -ℤ value prepared.format b) (value prepared.format x) }
{
    is_faithful_sum(prepared, a, with_sign(b, !b.negative), x)
}

// Five numbers. Refuses 1, 3.
fn enter_check(
    format: Format,
    a: Number,
    b: Number,
    x: Number,
    z: Number,
    y: Number,
) -> Result<Prepared, Refusal>
    ensures { result ≡ entered format [] (a ∷ b ∷ x ∷ z ∷ y ∷ []) }
{
    let three = with_number(enter_two(format, z, y), x);
    with_number(with_number(three, b), a)
}

// Are x, z and y a triple?
fn is_triple(prepared: Prepared, a: Number, b: Number, x: Number, z: Number, y: Number) -> bool
    requires { Operands prepared a b × Operand prepared x × Operand prepared z × Operand prepared y }
    ensures { result ≡ is_triple prepared.format a b x z y }
{
    if !is_faithful_sum(prepared, a, b, x) {
        return false;
    }
    if !is_faithful_difference(prepared, x, a, z) {
        return false;
    }
    is_faithful_difference(prepared, b, z, y)
}

// Are x, z and y faithful to a + b, x - a and b - z? Refuses 1, 3, 6, 7.
pub fn is_fast_two_sum(
    format: Format,
    a: Number,
    b: Number,
    x: Number,
    z: Number,
    y: Number,
) -> Result<bool, Refusal>
    ensures { given result ≡ checked_triple format a b x z y }
{
    let prepared = enter_check(format, a, b, x, z, y)?;
    check_order(format, a, b)?;
    Ok(is_triple(prepared, a, b, x, z, y))
}
