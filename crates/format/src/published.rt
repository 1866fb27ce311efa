// The published formats: a constant table, looked up by number.
ghost use Rattle.std.specs.Prelude.{◌≡◌};
ghost use Rattle.format.specs.Given.{given};
ghost use Rattle.format.specs.Published.{published_format};

use crate::{Format, Refusal};

// binary16, binary32, decimal32, binary64 and decimal64, under the numbers 1 to 5.
const FORMATS: [Format; 5] = [
    Format {
        base: 2,
        digits: 11,
        emin: -24,
        emax: 5,
    },
    Format {
        base: 2,
        digits: 24,
        emin: -149,
        emax: 104,
    },
    Format {
        base: 10,
        digits: 7,
        emin: -101,
        emax: 90,
    },
    Format {
        base: 2,
        digits: 53,
        emin: -1074,
        emax: 971,
    },
    Format {
        base: 10,
        digits: 16,
        emin: -398,
        emax: 369,
    },
];

// The format that is published under `number`. Refuses 10.
pub fn published(number: u32) -> Result<Format, Refusal>
    ensures { given result ≡ published_format number }
{
    if number < 1 {
        return Err(Refusal::NoSuchFormat);
    }
    if 5 < number {
        return Err(Refusal::NoSuchFormat);
    }
    Ok(FORMATS[(number - 1) as usize])
}
