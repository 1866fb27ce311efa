// Published format 3, prepared.
ghost use Rattle.std.specs.Prelude.{◌≡◌};
ghost use Rattle.format.specs.Formats.{prepared_of};
ghost use Rattle.format.specs.Published.{decimal32};

use format::{Format, Prepared, Scale};

// The constants that `format::admission::prepare` works out of decimal32: no other format has any of them.
pub fn prepared_decimal32() -> Prepared
    ensures { result ≡ prepared_of decimal32 }
{
    let format = Format {
        base: 10,
        digits: 7,
        emin: -101,
        emax: 90,
    };
    let scale = Scale {
        base: 10,
        digits: 7,
        least: 1000000,
        bound: 10000000,
    };
    Prepared {
        format,
        scale,
        highest: 191,
    }
}
