// The premises of Rump's routes.
ghost use Rattle.std.specs.Prelude.{◌≡◌, true, ltb};
ghost use Rattle.format.specs.Formats.{admitted};
ghost use Rattle.number.specs.Checks.{Usable, Operand};
ghost use Rattle.number.specs.Numbers.{member, magnitude};
ghost use Rattle.rump.specs.Premises.{Run, premise, first_premise, last_premise, next_premise, lead_premise, premise_of};

use crate::Figure;
use format::{Format, Prepared};
use number::Number;
use number::delivery::number_at;
use number::exponents::{above_zero, below_zero};
use number::order::compare_magnitudes;
use std::cmp::Ordering;
use units::powers_of_base::power_number;

// Emin ≤ -p and p ≤ Emax.
fn exponents_suffice(prepared: Prepared) -> bool
    requires { Usable prepared }
    ensures { result ≡ premise prepared.format }
{
    let digits = prepared.scale.digits;
    if below_zero(prepared.format.emin) < digits {
        return false;
    }
    digits <= above_zero(prepared.format.emax)
}

// Is |x| less than |bound|?
fn is_smaller(format: Format, x: Number, bound: Number) -> bool
    requires { (admitted format ≡ true) × (member format x ≡ true) × (member format bound ≡ true) }
    ensures { result ≡ ltb (magnitude format x) (magnitude format bound) }
{
    compare_magnitudes(format, x, bound) == Ordering::Less
}

// Figure 1 takes x below base^(Emax - p + 1).
fn first_premise(prepared: Prepared, x: Number) -> bool
    requires { Run prepared x }
    ensures { result ≡ first_premise prepared.format x }
{
    let digits = prepared.scale.digits;
    let bound = power_number(prepared, prepared.highest + 1 - digits);
    is_smaller(prepared.format, x, bound)
}

// Is x neither zero nor plus or minus the greatest number?
pub fn is_inner(prepared: Prepared, x: Number) -> bool
    requires { Operand prepared x }
    ensures { result ≡ next_premise prepared.format x }
{
    let bound = prepared.scale.bound;
    if x.significand == 0 {
        return false;
    }
    let greatest = number_at(prepared, false, bound - 1, prepared.highest);
    is_smaller(prepared.format, x, greatest)
}

// Figures 3, 4 and 5 take x that is neither zero nor the greatest number.
fn last_premise(prepared: Prepared, x: Number) -> bool
    requires { Run prepared x }
    ensures { result ≡ last_premise prepared.format x }
{
    is_inner(prepared, x)
}

// Is base^(p - 1) a number of the format: Emin ≤ p - 1 and 0 ≤ Emax?
pub fn has_lead(prepared: Prepared) -> bool
    requires { Usable prepared }
    ensures { result ≡ lead_premise prepared.format }
{
    if prepared.scale.digits - 1 < above_zero(prepared.format.emin) {
        return false;
    }
    0 <= prepared.format.emax
}

pub fn premise_holds(figure: Figure, prepared: Prepared, x: Number) -> bool
    requires { Operand prepared x }
    ensures { result ≡ premise_of figure prepared.format x }
{
    if !exponents_suffice(prepared) {
        return false;
    }
    match figure {
        Figure::First => first_premise(prepared, x),
        Figure::Third | Figure::Fourth | Figure::Fifth => last_premise(prepared, x),
    }
}
