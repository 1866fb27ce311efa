// A number of any form taken into a format: what a parser read, a whole number, a number of another format to the same base.
ghost use Rattle.std.specs.Prelude.{◌≡◌};
ghost use Rattle.format.specs.Given.{given};
ghost use Rattle.number.specs.Checks.{Usable};
ghost use Rattle.arithmetic.specs.Operands.{record_powers};
ghost use Rattle.arithmetic.specs.Marked.{marked_record, conversion_answer};

use crate::Rounded;
use crate::fraction::size;
use crate::operands::{Powers, deliver_wide};
use format::admission::prepare;
use format::{Format, Prepared, Refusal};
use number::Number;
use number::exponents::{above_zero, below_zero};
use theory::Direction;

// The powers beside a significand with the exponent e, which may be any: no difference of signed exponents is taken.
fn record_powers(prepared: Prepared, e: i32) -> Powers
    requires { Usable prepared }
    ensures { result ≡ record_powers prepared.format e }
{
    let emin = prepared.format.emin;
    let above = above_zero(e);
    let high = above + below_zero(emin);
    let low = size(e) - above + above_zero(emin);
    if high < low {
        return Powers {
            up: 0,
            down: low - high,
        };
    }
    Powers {
        up: high - low,
        down: 0,
    }
}

// x, in a format that was prepared. Refuses 5: more than 4000 places above emin is beyond every format.
fn convert_record(prepared: Prepared, direction: Direction, x: Number) -> Result<Rounded, Refusal>
    requires { Usable prepared }
    ensures { given result ≡ marked_record prepared.format direction x }
{
    let w = record_powers(prepared, x.exponent);
    let m = x.significand;
    if (m != 0) & (4000 < w.up) {
        return Err(Refusal::TooLarge);
    }
    let scale = prepared.scale;
    let rounding = wide::conversion::conversion(scale, direction, x.negative, m, w.up, w.down);
    deliver_wide(prepared, rounding)
}

// x, whose significand and exponent may be any, rounded into the format. Refuses 1, 2, 5.
pub fn convert(format: Format, direction: u32, x: Number) -> Result<Rounded, Refusal>
    ensures { given result ≡ conversion_answer format direction x }
{
    let prepared = prepare(format)?;
    let direction = Direction::try_from(direction)?;
    convert_record(prepared, direction, x)
}
