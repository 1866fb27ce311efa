// Published format 4, prepared.
ghost use Rattle.std.specs.Prelude.{◌≡◌};
ghost use Rattle.format.specs.Formats.{prepared_of};
ghost use Rattle.format.specs.Published.{binary64};

use format::{Format, Prepared, Scale};

// The constants that `format::admission::prepare` works out of binary64: no other format has any of them.
pub fn prepared_binary64() -> Prepared
    ensures { result ≡ prepared_of binary64 }
{
    let format = Format {
        base: 2,
        digits: 53,
        emin: -1074,
        emax: 971,
    };
    let scale = Scale {
        base: 2,
        digits: 53,
        least: 4503599627370496,
        bound: 9007199254740992,
    };
    Prepared {
        format,
        scale,
        highest: 2045,
    }
}
