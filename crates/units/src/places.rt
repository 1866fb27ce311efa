// The first place, the last place and the place of the least nonzero digit. All three are plus zero at either zero.
ghost use Rattle.std.specs.Prelude.{◌≡◌};
ghost use Rattle.format.specs.Given.{given};
ghost use Rattle.number.specs.Checks.{Operand};
ghost use Rattle.units.specs.Places.{first_place, last_place, least_place, place_number, place_answer};

use crate::powers_of_base::{leading_power, power_number};
use format::powers::trailing_zeros;
use format::{Format, Prepared, Refusal};
use number::Number;
use number::checks::enter;
use number::exponents::place_of;
use number::signs::with_sign;

// An enum, since the definitions of specs/Places go by it.
#[derive(Clone, Copy, Debug, PartialEq, Eq, Hash)]
enum Place {
    First,
    Last,
    Least,
}

fn first_place(prepared: Prepared, x: Number) -> Number
    requires { Operand prepared x }
    ensures { result ≡ place_number Place.First prepared.format x }
{
    let exponent = x.exponent;
    Number {
        negative: false,
        significand: leading_power(prepared.scale, x.significand),
        exponent,
    }
}

fn last_place(prepared: Prepared, x: Number) -> Number
    requires { Operand prepared x }
    ensures { result ≡ place_number Place.Last prepared.format x }
{
    if x.significand == 0 {
        return with_sign(x, false);
    }
    power_number(prepared, place_of(prepared, x))
}

fn least_place(prepared: Prepared, x: Number) -> Number
    requires { Operand prepared x }
    ensures { result ≡ place_number Place.Least prepared.format x }
{
    if x.significand == 0 {
        return with_sign(x, false);
    }
    let place = place_of(prepared, x);
    power_number(
        prepared,
        place + trailing_zeros(prepared.scale.base, x.significand),
    )
}

fn place_number(place: Place, prepared: Prepared, x: Number) -> Number
    requires { Operand prepared x }
    ensures { result ≡ place_number place prepared.format x }
{
    match place {
        Place::First => first_place(prepared, x),
        Place::Last => last_place(prepared, x),
        Place::Least => least_place(prepared, x),
    }
}

// The place after the checks. Refuses 1, 3.
fn answer_place(place: Place, format: Format, x: Number) -> Result<Number, Refusal>
    ensures { given result ≡ place_answer place format x }
{
    let prepared = enter(format, x)?;
    Ok(place_number(place, prepared, x))
}

// ufp(x), the greatest power of the base not above |x|. Refuses 1, 3.
pub fn ufp(format: Format, x: Number) -> Result<Number, Refusal>
    ensures { given result ≡ first_place format x }
{
    answer_place(Place::First, format, x)
}

// ulp(x), base^e. Refuses 1, 3.
pub fn ulp(format: Format, x: Number) -> Result<Number, Refusal>
    ensures { given result ≡ last_place format x }
{
    answer_place(Place::Last, format, x)
}

// uls(x), the place of the least nonzero digit. Refuses 1, 3.
pub fn uls(format: Format, x: Number) -> Result<Number, Refusal>
    ensures { given result ≡ least_place format x }
{
    answer_place(Place::Least, format, x)
}
