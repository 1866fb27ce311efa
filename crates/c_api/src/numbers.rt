// Formats, numbers, places, neighbours and operations, for C.
ghost use Rattle.std.specs.Prelude.{◌≡◌, [], ◌∷◌};
ghost use Rattle.format.specs.Formats.{format_checked};
ghost use Rattle.format.specs.Given.{gives, refused, given};
ghost use Rattle.format.specs.Published.{published_format};
ghost use Rattle.number.specs.Checks.{checked};
ghost use Rattle.number.specs.Order.{compared};
ghost use Rattle.number.specs.Signs.{negated, unsigned};
ghost use Rattle.units.specs.Places.{first_place, last_place, least_place};
ghost use Rattle.units.specs.Neighbours.{predecessor_of, successor_of, within_one_step};
ghost use Rattle.arithmetic.specs.Marked.{sum_answer, difference_answer, product_answer, fraction_answer};
ghost use Rattle.arithmetic.specs.Quotients.{quotient_answer};
ghost use Rattle.c_api.specs.Answers.{refusal_out, number_in, number_out, rounded_out, converted_in, quotient_out, order_out, published_out, check_out};

use crate::answers::{
    CNumber, CheckOut, NumberOut, OrderOut, PublishedOut, QuotientOut, RoundedOut, check_out,
    number_out, order_out, published_out, quotient_out, rounded_out, verdict_out,
};
use arithmetic::Rounded;
use arithmetic::conversion::convert;
use arithmetic::fraction::fraction;
use arithmetic::product::product;
use arithmetic::quotient::quotient;
use arithmetic::sum::{difference, sum};
use format::admission::check_format;
use format::published::published;
use format::{Format, Refusal};
use number::checks::{check_number, enter_directed};
use number::order::compare;
use number::signs::{magnitude, negate};
use units::neighbours::{predecessor, successor, within_one_step};
use units::places::{ufp, ulp, uls};

// 0 if the format is admitted, else 1.
#[unsafe(no_mangle)]
pub extern "C" fn zurkeb_check_format(format: Format) -> u32
    ensures { result ≡ refusal_out (format_checked format) }
{
    verdict_out(check_format(format))
}

// The published format with this number. Refuses 10.
#[unsafe(no_mangle)]
pub extern "C" fn zurkeb_published(number: u32) -> PublishedOut
    ensures { result ≡ published_out (published_format number) }
{
    published_out(published(number))
}

// 0 if the number is in the format, else 1 or 3.
#[unsafe(no_mangle)]
pub extern "C" fn zurkeb_check_number(format: Format, x: CNumber) -> u32
    ensures { result ≡ refusal_out (checked format [] (number_in x ∷ []) (gives (tt {0}))) }
{
    verdict_out(check_number(format, x.into()))
}

// The order of two numbers. Refuses 1, 3.
#[unsafe(no_mangle)]
pub extern "C" fn zurkeb_compare(format: Format, a: CNumber, b: CNumber) -> OrderOut
    ensures { result ≡ order_out (compared format (number_in a) (number_in b)) }
{
    order_out(compare(format, a.into(), b.into()))
}

// -x. Refuses 1, 3.
#[unsafe(no_mangle)]
pub extern "C" fn zurkeb_negate(format: Format, x: CNumber) -> NumberOut
    ensures { result ≡ number_out (negated format (number_in x)) }
{
    number_out(negate(format, x.into()))
}

// |x|. Refuses 1, 3.
#[unsafe(no_mangle)]
pub extern "C" fn zurkeb_magnitude(format: Format, x: CNumber) -> NumberOut
    ensures { result ≡ number_out (unsigned format (number_in x)) }
{
    number_out(magnitude(format, x.into()))
}

// The first place. Refuses 1, 3.
#[unsafe(no_mangle)]
pub extern "C" fn zurkeb_ufp(format: Format, x: CNumber) -> NumberOut
    ensures { result ≡ number_out (first_place format (number_in x)) }
{
    number_out(ufp(format, x.into()))
}

// The last place. Refuses 1, 3.
#[unsafe(no_mangle)]
pub extern "C" fn zurkeb_ulp(format: Format, x: CNumber) -> NumberOut
    ensures { result ≡ number_out (last_place format (number_in x)) }
{
    number_out(ulp(format, x.into()))
}

// The place of the least nonzero digit. Refuses 1, 3.
#[unsafe(no_mangle)]
pub extern "C" fn zurkeb_uls(format: Format, x: CNumber) -> NumberOut
    ensures { result ≡ number_out (least_place format (number_in x)) }
{
    number_out(uls(format, x.into()))
}

// The greatest number below x. Refuses 1, 3, 5.
#[unsafe(no_mangle)]
pub extern "C" fn zurkeb_predecessor(format: Format, x: CNumber) -> NumberOut
    ensures { result ≡ number_out (predecessor_of format (number_in x)) }
{
    number_out(predecessor(format, x.into()))
}

// The least number above x. Refuses 1, 3, 5.
#[unsafe(no_mangle)]
pub extern "C" fn zurkeb_successor(format: Format, x: CNumber) -> NumberOut
    ensures { result ≡ number_out (successor_of format (number_in x)) }
{
    number_out(successor(format, x.into()))
}

// Does b have the value of a, or of a neighbour of a? Refuses 1, 3.
#[unsafe(no_mangle)]
pub extern "C" fn zurkeb_within_one_step(format: Format, a: CNumber, b: CNumber) -> CheckOut
    ensures { result ≡ check_out (within_one_step format (number_in a) (number_in b)) }
{
    check_out(within_one_step(format, a.into(), b.into()))
}

// a + b, with its mark. Refuses 1, 2, 3, 5.
#[unsafe(no_mangle)]
pub extern "C" fn zurkeb_sum(format: Format, direction: u32, a: CNumber, b: CNumber) -> RoundedOut
    ensures { result ≡ rounded_out (sum_answer format direction (number_in a) (number_in b)) }
{
    rounded_out(sum(format, direction, a.into(), b.into()))
}

// a - b, with its mark. Refuses 1, 2, 3, 5.
#[unsafe(no_mangle)]
pub extern "C" fn zurkeb_difference(
    format: Format,
    direction: u32,
    a: CNumber,
    b: CNumber,
) -> RoundedOut
    ensures { result ≡ rounded_out (difference_answer format direction (number_in a) (number_in b)) }
{
    rounded_out(difference(format, direction, a.into(), b.into()))
}

// a * b, with its mark. Refuses 1, 2, 3, 5.
#[unsafe(no_mangle)]
pub extern "C" fn zurkeb_product(
    format: Format,
    direction: u32,
    a: CNumber,
    b: CNumber,
) -> RoundedOut
    ensures { result ≡ rounded_out (product_answer format direction (number_in a) (number_in b)) }
{
    rounded_out(product(format, direction, a.into(), b.into()))
}

// a / b, with its mark and its digits. Refuses 1, 2, 3, 4, 5.
#[unsafe(no_mangle)]
pub extern "C" fn zurkeb_quotient(
    format: Format,
    direction: u32,
    a: CNumber,
    b: CNumber,
) -> QuotientOut
    ensures { result ≡ quotient_out (quotient_answer format direction (number_in a) (number_in b)) }
{
    quotient_out(quotient(format, direction, a.into(), b.into()))
}

// numerator / denominator, with its mark. Refuses 1, 2, 4, 5.
#[unsafe(no_mangle)]
pub extern "C" fn zurkeb_fraction(
    format: Format,
    direction: u32,
    numerator: i32,
    denominator: u32,
) -> RoundedOut
    ensures { result ≡ rounded_out (fraction_answer format direction numerator denominator) }
{
    rounded_out(fraction(format, direction, numerator, denominator))
}

// What is refused where the sign is neither 0 nor 1: by 1 and 2, and then by 3.
fn refuse_sign(format: Format, direction: u32) -> Result<Rounded, Refusal>
    ensures { given result ≡ checked format (direction ∷ []) [] (refused 3) }
{
    enter_directed(format, direction)?;
    Err(Refusal::NumberNotInFormat)
}

// x, in the format or not, rounded into it, with its mark. Refuses 1, 2, 3 for a sign that is neither 0 nor 1, 5.
#[unsafe(no_mangle)]
pub extern "C" fn zurkeb_convert(format: Format, direction: u32, x: CNumber) -> RoundedOut
    ensures { result ≡ rounded_out (converted_in format direction x) }
{
    if 1 < x.negative {
        return rounded_out(refuse_sign(format, direction));
    }
    rounded_out(convert(format, direction, x.into()))
}
