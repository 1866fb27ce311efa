// Published format 2, prepared.
ghost use Rattle.std.specs.Prelude.{◌≡◌};
ghost use Rattle.format.specs.Formats.{prepared_of};
ghost use Rattle.format.specs.Published.{binary32};

use format::{Format, Prepared, Scale};

// The constants that `format::admission::prepare` works out of binary32.
pub fn prepared_binary32() -> Prepared
    ensures { result ≡ prepared_of binary32 }
{
    let format = Format {
        base: 2,
        digits: 24,
        emin: -149,
        emax: 104,
    };
    let scale = Scale {
        base: 2,
        digits: 24,
        least: 8388608,
        bound: 16777216,
    };
    Prepared {
        format,
        scale,
        highest: 253,
    }
}
