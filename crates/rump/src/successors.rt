// Rump's figures with the successor, in any direction: the last place (figure 3) and the first place (figure 6).
ghost use Rattle.std.specs.Prelude.{◌≡◌, true, false};
ghost use Rattle.theory.specs.Tests.{unless};
ghost use Rattle.format.specs.Given.{given, refused};
ghost use Rattle.number.specs.Checks.{Usable, Operand};
ghost use Rattle.rump.specs.Figures as figures;
ghost use Rattle.rump.specs.Figures.{gap_above, figure6};
ghost use Rattle.rump.specs.Premises.{next_premise, lead_premise, scaled_premise};

use crate::premises::{has_lead, is_inner};
use arithmetic::product::multiply;
use arithmetic::sum::subtract;
use format::{Prepared, Refusal};
use number::Number;
use number::exponents::{above_zero, below_zero};
use theory::Direction;
use units::neighbours::successor;
use units::powers_of_base::power_number;

// base^(p - 1).
fn lead(prepared: Prepared) -> Number
    requires { Usable prepared × (lead_premise prepared.format ≡ true) }
    ensures { result ≡ figures.lead prepared.format }
{
    let emin = prepared.format.emin;
    let place = prepared.scale.digits - 1 + below_zero(emin) - above_zero(emin);
    power_number(prepared, place)
}

// s = succ(x), S = s - x.
fn gap_above(prepared: Prepared, direction: Direction, x: Number) -> Result<Number, Refusal>
    requires { Operand prepared x }
    ensures { given result ≡ gap_above prepared.format direction x }
{
    let s = successor(prepared.format, x)?;
    subtract(prepared, direction, s, x)
}

// Figure 3 with the successor, on |x|; refuses 8 at zero and at the greatest number.
pub fn last_by_successor(
    prepared: Prepared,
    direction: Direction,
    x: Number,
) -> Result<Number, Refusal>
    requires { Operand prepared x }
    ensures { given result ≡ unless (next_premise prepared.format x) (refused 8) (gap_above prepared.format direction x) }
{
    let inner = is_inner(prepared, x);
    if !inner {
        return Err(Refusal::PremiseFails);
    }
    gap_above(prepared, direction, x)
}

// Figure 6 on |x|: y = x * base^(p - 1), which the product gives exactly or refuses, then figure 3 with the successor on y.
pub fn first_by_successor(
    prepared: Prepared,
    direction: Direction,
    x: Number,
) -> Result<Number, Refusal>
    requires { Operand prepared x × (x.negative ≡ false) }
    ensures { given result ≡ unless (scaled_premise prepared.format x) (refused 8) (figure6 prepared.format direction x) }
{
    if !has_lead(prepared) {
        return Err(Refusal::PremiseFails);
    }
    let y = multiply(prepared, direction, x, lead(prepared)).or(Err(Refusal::PremiseFails))?;
    last_by_successor(prepared, direction, y.number)
}
