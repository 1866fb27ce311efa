// A number with its sign turned, and without its sign.
ghost use Rattle.std.specs.Prelude.{◌≡◌};
ghost use Rattle.format.specs.Given.{given};
ghost use Rattle.number.specs.Signs.{with_sign, signed_answer, negated, unsigned};

use crate::Number;
use crate::checks::enter;
use format::{Format, Refusal};

// x with the sign `negative`.
pub fn with_sign(x: Number, negative: bool) -> Number
    ensures { result ≡ with_sign x negative }
{
    Number { negative, ..x }
}

// x with the sign `negative`, after the checks. Refuses 1, 3.
fn answer_signed(format: Format, x: Number, negative: bool) -> Result<Number, Refusal>
    ensures { given result ≡ signed_answer format x negative }
{
    enter(format, x)?;
    Ok(with_sign(x, negative))
}

// -x. Refuses 1, 3.
pub fn negate(format: Format, x: Number) -> Result<Number, Refusal>
    ensures { given result ≡ negated format x }
{
    answer_signed(format, x, !x.negative)
}

// |x|. Refuses 1, 3.
pub fn magnitude(format: Format, x: Number) -> Result<Number, Refusal>
    ensures { given result ≡ unsigned format x }
{
    answer_signed(format, x, false)
}
