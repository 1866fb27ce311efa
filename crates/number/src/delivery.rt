// A significand at a place, as a number of the format.
ghost use Rattle.std.specs.Prelude.{◌≡◌, ◌≤◌, ◌*◌, ◌^◌};
ghost use Rattle.theory.specs.Wide.{Canonical};
ghost use Rattle.format.specs.Given.{given};
ghost use Rattle.number.specs.Checks.{Usable};
ghost use Rattle.number.specs.Numbers.{number, delivered};

use crate::Number;
use crate::exponents::exponent_at;
use format::{Prepared, Refusal, Significand};

// The number significand * base^place in units of base^emin.
pub fn number_at(prepared: Prepared, negative: bool, significand: Significand, place: u32) -> Number
    requires { Usable prepared × Canonical prepared.format.base prepared.format.digits significand place × (place ≤ prepared.highest) }
    ensures { result ≡ number prepared.format negative (significand * prepared.format.base ^ place) }
{
    let exponent = exponent_at(prepared.format.emin, place);
    Number {
        negative,
        significand,
        exponent,
    }
}

// The same, or refusal 5 above the greatest number.
pub fn deliver(
    prepared: Prepared,
    negative: bool,
    significand: Significand,
    place: u32,
) -> Result<Number, Refusal>
    requires { Usable prepared × Canonical prepared.format.base prepared.format.digits significand place }
    ensures { given result ≡ delivered prepared.format negative (significand * prepared.format.base ^ place) }
{
    if prepared.highest < place {
        return Err(Refusal::TooLarge);
    }
    Ok(number_at(prepared, negative, significand, place))
}
