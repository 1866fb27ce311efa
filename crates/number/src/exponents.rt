// Signed exponents and the places that the arithmetic counts in: place k is the exponent emin + k.
ghost use Rattle.std.specs.Prelude.{◌≡◌, true, ◌≤◌, pos, ◌+ℤ◌};
ghost use Rattle.format.specs.Formats.{exponents_admitted};
ghost use Rattle.number.specs.Checks.{Operand};
ghost use Rattle.number.specs.Numbers.{place_of};
ghost use Rattle.number.specs.Exponents.{above_zero, below_zero};

use crate::Number;
use format::Prepared;
use format::admission::distance;

// The place of x: how far its exponent lies above emin.
pub fn place_of(prepared: Prepared, x: Number) -> u32
    requires { Operand prepared x }
    ensures { result ≡ place_of prepared.format x }
{
    distance(prepared.format.emin, x.exponent)
}

// The exponent at `place` places above emin.
pub fn exponent_at(emin: i32, place: u32) -> i32
    requires { (exponents_admitted emin emin ≡ true) × (place ≤ 2400) }
    ensures { result ≡ emin +ℤ pos place }
{
    emin + place as i32
}

// e where it is above zero, else 0.
pub fn above_zero(e: i32) -> u32
    ensures { result ≡ above_zero e }
{
    e.max(0).unsigned_abs()
}

// -e where e is below zero, else 0.
pub fn below_zero(e: i32) -> u32
    requires { exponents_admitted e e ≡ true }
    ensures { result ≡ below_zero e }
{
    if e < 0 { -e as u32 } else { 0 }
}
