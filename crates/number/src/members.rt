// Which numbers are in a format.
ghost use Rattle.std.specs.Prelude.{◌≡◌};
ghost use Rattle.number.specs.Checks.{member_of};

use crate::Number;
use format::Prepared;

// Is x in the format that was prepared? Most numbers have all their digits, so that is asked first.
pub fn is_member(prepared: Prepared, x: Number) -> bool
    ensures { result ≡ member_of prepared x }
{
    let m = x.significand;
    let e = x.exponent;
    let emin = prepared.format.emin;
    if (prepared.scale.least <= m)
        & (m < prepared.scale.bound)
        & (emin <= e)
        & (e <= prepared.format.emax)
    {
        return true;
    }
    if e != emin {
        return false;
    }
    m < prepared.scale.least
}
