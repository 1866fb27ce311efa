// Powers of the base: as numbers of the format, and below a significand.
ghost use Rattle.std.specs.Prelude.{◌≡◌, false, ◌+◌, ◌<◌, ◌^◌};
ghost use Rattle.theory.specs.Units.{ufp};
ghost use Rattle.format.specs.Formats.{Scaled};
ghost use Rattle.number.specs.Checks.{Usable};
ghost use Rattle.number.specs.Numbers.{number};

use format::{Prepared, Scale, Significand};
use number::Number;
use number::delivery::number_at;

// base^k in units of base^emin, as a number of the format.
pub fn power_number(prepared: Prepared, k: u32) -> Number
    requires { Usable prepared × (k < prepared.format.digits + prepared.highest) }
    ensures { result ≡ number prepared.format false (prepared.format.base ^ k) }
{
    let digits = prepared.scale.digits;
    if k < digits {
        let significand = format::powers::power(prepared.scale.base, k);
        return number_at(prepared, false, significand, 0);
    }
    number_at(prepared, false, prepared.scale.least, k + 1 - digits)
}

// The greatest power of the base that is at most m; 0 at 0. The loop goes over no list: each turn makes a power from the one before.
pub fn leading_power(scale: Scale, m: Significand) -> Significand
    requires { Scaled scale × (m < scale.bound) }
    ensures { result ≡ ufp scale.base m }
{
    if scale.least <= m {
        return scale.least;
    }
    if m == 0 {
        return 0;
    }
    let base = scale.base as Significand;
    let bound = m / base;
    let mut power: Significand = 1;
    while power <= bound {
        power = power * base;
    }
    power
}
