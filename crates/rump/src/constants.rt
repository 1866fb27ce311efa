// The constants of Rump's figures, as numbers of the format.
ghost use Rattle.std.specs.Prelude.{◌≡◌, true, ◌≤◌};
ghost use Rattle.number.specs.Checks.{Usable};
ghost use Rattle.rump.specs.Figures as figures;
ghost use Rattle.rump.specs.Premises.{premise};

use format::Prepared;
use number::Number;
use number::exponents::below_zero;
use units::powers_of_base::power_number;

// Subrealmin, the smallest positive number: one unit.
pub fn subrealmin(prepared: Prepared) -> Number
    requires { Usable prepared }
    ensures { result ≡ figures.subrealmin prepared.format }
{
    power_number(prepared, 0)
}

// base^k.
pub fn power(prepared: Prepared, k: u32) -> Number
    requires { Usable prepared × (premise prepared.format ≡ true) × (k ≤ prepared.format.digits) }
    ensures { result ≡ figures.power prepared.format k }
{
    power_number(prepared, below_zero(prepared.format.emin) + k)
}
