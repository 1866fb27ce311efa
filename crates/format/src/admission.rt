// Which formats are admitted, and what every call works out of one.
ghost use Rattle.std.specs.Prelude.{◌≡◌, true, ◌-ℤ◌, nat_abs};
ghost use Rattle.std.specs.Int.Signed.{le_z};
ghost use Rattle.format.specs.Given.{given};
ghost use Rattle.format.specs.Formats.{admitted, exponents_admitted, format_checked, highest_place, preparation};

use crate::powers::{fits, power};
use crate::{Format, Prepared, Refusal, Scale, Significand};

// -1200 ≤ emin ≤ emax ≤ 1200.
fn exponents_admitted(emin: i32, emax: i32) -> bool
    ensures { result ≡ exponents_admitted emin emax }
{
    if emin < -1200 {
        return false;
    }
    if emax < emin {
        return false;
    }
    emax <= 1200
}

// Every limit on a format.
fn is_admitted(format: Format) -> bool
    ensures { result ≡ admitted format }
{
    let base = format.base;
    let digits = format.digits;
    if base < 2 {
        return false;
    }
    if 256 < base {
        return false;
    }
    if digits < 1 {
        return false;
    }
    if 63 < digits {
        return false;
    }
    if !fits(base, digits) {
        return false;
    }
    exponents_admitted(format.emin, format.emax)
}

// How many places `to` lies above `from`.
pub fn distance(from: i32, to: i32) -> u32
    requires { exponents_admitted from to ≡ true }
    ensures { result ≡ nat_abs (to -ℤ from) }
{
    (to - from) as u32
}

// The format with its powers and its highest place. Refuses 1.
pub fn prepare(format: Format) -> Result<Prepared, Refusal>
    ensures { result ≡ preparation format }
{
    if !is_admitted(format) {
        return Err(Refusal::FormatNotAdmitted);
    }
    let base = format.base;
    let digits = format.digits;
    let least = power(base, digits - 1);
    let bound = least * base as Significand;
    Ok(Prepared {
        format,
        scale: Scale {
            base,
            digits,
            least,
            bound,
        },
        highest: distance(format.emin, format.emax),
    })
}

// Is the format admitted? Refuses 1.
pub fn check_format(format: Format) -> Result<(), Refusal>
    ensures { given result ≡ format_checked format }
{
    if is_admitted(format) {
        Ok(())
    } else {
        Err(Refusal::FormatNotAdmitted)
    }
}
